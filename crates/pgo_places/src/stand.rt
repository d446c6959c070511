// Where an attempt is.
ghost use Rattle.std.specs.Prelude.{◌≡◌, ◌<◌, map, option_map, reverse, IfOk};
ghost use Rattle.pgo_base.specs.BindingsView.{named_view};
ghost use Rattle.pgo_base.specs.View.{data_of};
ghost use Rattle.pgo_sections.specs.BoundValues.{value_under};
ghost use Rattle.pgo_accesses.specs.Accesses.{printing, choosing, marked};
ghost use Rattle.pgo_code.specs.Steps.{unbound};

use crate::variables::{Meant, put_own, update};
use pgo_base::bindings::NamedValue;
use pgo_base::scope::State;
use pgo_base::text::Text;
use pgo_base::value::Value;
use pgo_resource::picks::Picks;
use std::alloc::{AllocError, Global};

/// What an attempt's names are: that of the instance's identifier, with it, and for each variable, the last one first, the own
/// component that it is, or none where it is a global as a whole.
#[derive(Drop)]
pub struct Fixed {
    pub identity: Text,
    pub id: Value,
    pub owners: Vec<Option<Text>>,
}

/// Where an attempt is.
#[derive(Drop)]
pub struct Stand {
    /// how many of the instruction's reads are done
    pub done: usize,
    /// the value that the instruction is about to assign, once it is known
    pub value: Option<Value>,
    /// the names in scope, the newest last
    pub env: Vec<NamedValue>,
    /// the variables, the last one first; a global has a value while it is seen
    pub variables: Vec<NamedValue>,
    /// the own components as they are now
    pub own: State,
    /// the resources that are too deep for a state now, the newest first
    pub too_deep: Vec<u32>,
    pub picks: Picks,
    pub prints: Vec<Value>,
}

impl Stand {
    ghost use Rattle.pgo_places.specs.Stands.{picked_at, onward, cleared, looked, binding, assigned, going};
    ghost use Rattle.pgo_places.specs.PlaceView.{stand_view, fixed_view, progress_view};

    /// Goes on to the next instruction.
    pub fn onward(&mut self)
        ensures { stand_view self.new ≡ onward (stand_view self.old) }
    {
        self.done = 0;
        self.value = None;
    }

    /// Behind an evaluation: no global is seen.
    pub fn clear(&mut self, alloc: Global, fixed: &Fixed) -> Result<(), AllocError>
        ensures { IfOk result (λ _. stand_view self.new ≡ cleared (fixed_view fixed.now) (stand_view self.old)) }
    {
        update(
            alloc,
            &mut self.variables,
            &fixed.owners,
            Meant::Globals,
            None,
        )?;
        self.onward();
        Ok(())
    }

    /// One more of the reads is done.
    pub fn look(
        &mut self,
        alloc: Global,
        fixed: &Fixed,
        name: &Text,
        value: &Value,
    ) -> Result<(), AllocError>
        requires { self.old.done < 18446744073709551615 }
        ensures { IfOk result (λ _. stand_view self.new ≡ looked (fixed_view fixed.now) name.now (data_of value.now) (stand_view self.old)) }
    {
        self.done += 1;
        update(
            alloc,
            &mut self.variables,
            &fixed.owners,
            Meant::GlobalNamed(name),
            Some(value),
        )
    }

    /// The own component of the name becomes the value.
    pub fn assign(
        &mut self,
        alloc: Global,
        fixed: &Fixed,
        name: &Text,
        value: &Value,
    ) -> Result<(), AllocError>
        ensures { IfOk result (λ _. stand_view self.new ≡ assigned (fixed_view fixed.now) name.now (data_of value.now) (stand_view self.old)) }
    {
        put_own(alloc, &mut self.own, name.as_bytes(), value)?;
        update(
            alloc,
            &mut self.variables,
            &fixed.owners,
            Meant::OwnNamed(name),
            Some(value),
        )
    }

    /// The name stands for the value.
    pub fn bind(&mut self, alloc: Global, name: &Text, value: Value) -> Result<(), AllocError>
        ensures { IfOk result (λ _. stand_view self.new ≡ binding name.now (data_of value) (stand_view self.old)) }
    {
        let name = name.copy(alloc)?;
        self.env.push(NamedValue {
            name,
            value: Some(value),
        })?;
        Ok(())
    }

    /// The newest name stands for nothing any more.
    pub fn unbind(&mut self)
        ensures { stand_view self.new ≡ record (stand_view self.old) { env = unbound (stand_view self.old).env } }
    {
        self.env.pop();
    }

    /// One more value is printed.
    pub fn print(&mut self, value: Value) -> Result<(), AllocError>
        ensures { IfOk result (λ _. stand_view self.new ≡ going (printing (data_of value) (progress_view self.old)) (stand_view self.old)) }
    {
        self.prints.push(value)?;
        Ok(())
    }

    /// The number below n that the next word picks; the choice is made then.
    pub fn pick(&mut self, n: usize) -> Result<usize, AllocError>
        requires { 0 < n }
        ensures picked { IfOk result (λ i. i ≡ picked_at (stand_view self.old) n) }
        ensures makes { IfOk result (λ i. stand_view self.new ≡ going (choosing n i (progress_view self.old)) (stand_view self.old)) }
    {
        self.picks.next_below(n)
    }

    /// The resource is too deep for a state, or it isn't.
    pub fn mark(
        &mut self,
        alloc: Global,
        is_too_deep: bool,
        resource: u32,
    ) -> Result<(), AllocError>
        ensures { IfOk result (λ _. stand_view self.new ≡ going (record (progress_view self.old) { too_deep = marked is_too_deep resource self.old.too_deep.items }) (stand_view self.old)) }
    {
        self.too_deep = marked(alloc, self.too_deep.as_slice(), is_too_deep, resource)?;
        Ok(())
    }
}

/// What a name in scope stands for, if that is a value.
pub fn under<'x>(env: &'x [NamedValue], name: &Text) -> Option<&'x Value>
    ensures { option_map (λ r. data_of r.now) result ≡ value_under name.now (reverse (map named_view env.entry.now)) }
{
    let mut left = env;
    while let Some((last, before)) = left.split_last() {
        if name.is(&last.name) {
            return last.value.as_ref();
        }
        left = before;
    }
    None
}

/// The resources that are too deep, of which this one is or isn't one now.
fn marked(
    alloc: Global,
    too_deep: &[u32],
    is_too_deep: bool,
    resource: u32,
) -> Result<Vec<u32>, AllocError>
    ensures { IfOk result (λ qs. qs.items ≡ marked is_too_deep resource too_deep.now) }
{
    let mut kept = Vec::new(alloc);
    if is_too_deep {
        kept.push(resource)?;
    }
    for q in too_deep {
        if *q != resource {
            kept.push(*q)?;
        }
    }
    Ok(kept)
}
