// The first place of an attempt.
ghost use Rattle.std.specs.Prelude.{◌≡◌, ◌++◌, ◌∷◌, [], suc, length, map, reverse, option_map, option_and_then, Some, None, IfOk};
ghost use Rattle.std.specs.Arc.{arc_value};
ghost use Rattle.pgo_base.specs.BindingsView.{named_view};
ghost use Rattle.pgo_model.specs.Machine.{nth};
ghost use Rattle.pgo_base.specs.Lookup.{find};
ghost use Rattle.pgo_base.specs.View.{data_of};
ghost use Rattle.pgo_model.specs.Written.{pc};
ghost use Rattle.pgo_code.specs.See.{section_view};
ghost use Rattle.pgo_code.specs.declared.program.Program.{Program as ProgramView};
ghost use Rattle.pgo_model.specs.Outcome.{NoValue, most_leaves};
ghost use Rattle.pgo_model.specs.System.{Words};
ghost use Rattle.pgo_tries.specs.Sections.{along};
ghost use Rattle.pgo_workers.specs.Tried.{trying};
ghost use Rattle.pgo_workers.specs.Walk.{Stop, Sticks};
ghost use Rattle.pgo_resource.specs.Picked.{attempt_words, words_of, points_of};
ghost use Rattle.pgo_places.specs.AllNames.{AreNames, names_from, seen};
ghost use Rattle.pgo_places.specs.PlaceView.{stand_view, fixed_view};
ghost use Rattle.pgo_places.specs.FirstStands.{fixed_of, start_of, steps_named, variable_of};
ghost use Rattle.pgo_places.specs.PlaceWalk.{instructions_in, leaf_in, leaf_from, walk_in};
ghost use Rattle.pgo_places.specs.Trees.{leaf_named, tries_in};

use crate::attempt::Attempt;
use crate::place::{Finish, Place, at, instructions};
use crate::stand::{Fixed, Stand};
use pgo_base::bindings::NamedValue;
use pgo_base::results::both;
use pgo_base::scope::State;
use pgo_base::text::Text;
use pgo_base::value::Value;
use pgo_code::program::{Code, Program, Section, Variable};
use pgo_resource::picks::Picks;
use pgo_syntax::bound::Instance;
use pgo_syntax::records::{MOST_LEAVES, NoteKind};
use std::alloc::{AllocError, Global};
use std::sync::Arc;

/// The number of the first section of a label, from 0.
fn section_named(sections: &[Section<'_>], label: &Text) -> Option<usize>
    ensures { option_and_then (λ j. option_map (λ s. (section_view s).1) (nth sections.now j)) result ≡ find label.now (map section_view sections.now) }
{
    for (i, s) in sections.iter().enumerate() {
        if label.is(&s.label) {
            return Some(i);
        }
    }
    None
}

/// The number of the section at which the own components are, in the code of their instance.
fn section_at(code: &Code<'_>, own: &State) -> Option<usize>
    ensures { option_and_then (λ j. option_map (λ s. (section_view s).1) (nth code.now.sections.items j)) result ≡ steps_named (find pc own.now) code.now }
{
    match own.find_bytes(b"pc") {
        Some(Value::Str(label)) => section_named(&code.sections, label),
        _ => None,
    }
}

/// The owner once more, if there is one.
fn owner_of(alloc: Global, variable: &Variable) -> Result<Option<Text>, AllocError>
    ensures { IfOk result (λ o. o ≡ variable.now.own) }
{
    match &variable.own {
        Some(own) => Ok(Some(own.copy(alloc)?)),
        None => Ok(None),
    }
}

/// The owners of variables, the last one first.
fn owners_of(alloc: Global, variables: &[Variable]) -> Result<Vec<Option<Text>>, AllocError>
    ensures { IfOk result (λ os. os.items ≡ reverse (map (λ v. v.own) variables.now)) }
{
    let mut owners = Vec::new(alloc);
    let mut left = variables;
    while let Some((last, before)) = left.split_last() {
        owners.push(owner_of(alloc, last)?)?;
        left = before;
    }
    Ok(owners)
}

/// The value that an own component has. It is looked for first at the guessed place; the next one is guessed before it.
fn value_in(
    alloc: Global,
    own: &State,
    name: &Text,
    guess: &mut usize,
) -> Result<Option<Value>, AllocError>
    ensures { IfOk result (λ o. option_map data_of o ≡ find name.now own.now) }
{
    match own.find_near(name, *guess) {
        Some((place, v)) => {
            *guess = place.saturating_sub(1);
            Ok(Some(v.copy(alloc)?))
        }
        None => Ok(None),
    }
}

/// A variable with what it has at the start.
fn start_value(
    alloc: Global,
    variable: &Variable,
    own: &State,
    guess: &mut usize,
) -> Result<NamedValue, AllocError>
    ensures { IfOk result (λ n. named_view n ≡ variable_of own.now variable.now) }
{
    let name = variable.name.copy(alloc)?;
    let value = match &variable.own {
        Some(y) => value_in(alloc, own, y, guess)?,
        None => None,
    };
    Ok(NamedValue { name, value })
}

/// The variables with what they have at the start, the last one first.
pub fn start_values(
    alloc: Global,
    variables: &[Variable],
    own: &State,
) -> Result<Vec<NamedValue>, AllocError>
    ensures { IfOk result (λ ns. map named_view ns.items ≡ reverse (map (variable_of own.now) variables.now)) }
{
    let mut values = Vec::with_capacity(alloc, variables.len())?;
    let mut left = variables;
    let mut guess = own.as_slice().len().saturating_sub(1);
    while let Some((last, others)) = left.split_last() {
        values.push(start_value(alloc, last, own, &mut guess)?)?;
        left = others;
    }
    Ok(values)
}

/// What an attempt's names are.
fn fixed(alloc: Global, code: &Code<'_>, id: &Value) -> Result<Fixed, AllocError>
    ensures names { IfOk result (λ x. fixed_view x ≡ fixed_of code.now) }
    ensures id { IfOk result (λ x. data_of x.id ≡ data_of id.now) }
{
    let identity = Text::from_slice(alloc, b"self")?;
    let id = id.copy(alloc)?;
    let owners = owners_of(alloc, &code.variables)?;
    Ok(Fixed {
        identity,
        id,
        owners,
    })
}

/// They, for several owners.
fn shared(alloc: Global, fixed: Fixed) -> Result<Arc<Fixed>, AllocError>
    ensures { IfOk result (λ x. arc_value x ≡ fixed) }
{
    Ok(Arc::new(alloc, fixed)?)
}

/// Adds what the names of an instance's attempts are.
fn add_names(
    alloc: Global,
    names: &mut Vec<Arc<Fixed>>,
    code: &Code<'_>,
    id: &Value,
) -> Result<(), AllocError>
    ensures { IfOk result (λ _. map seen (map arc_value names.new.items) ≡ map seen (map arc_value names.old.items) ++ (fixed_of code.now, data_of id.now) ∷ []) }
{
    let fixed = fixed(alloc, code, id)?;
    let shared = shared(alloc, fixed)?;
    names.push(shared)?;
    Ok(())
}

/// What the names of the attempts of each instance are that has code, in order.
fn names_of(
    alloc: Global,
    codes: &[Code<'_>],
    instances: &[Instance],
) -> Result<Vec<Arc<Fixed>>, AllocError>
    ensures { IfOk result (λ xs. map seen (map arc_value xs.items) ≡ names_from codes.now instances.now) }
{
    let mut names = Vec::new(alloc);
    let mut left = instances;
    for code in codes {
        let Some((instance, others)) = left.split_first() else {
            return Ok(names);
        };
        left = others;
        add_names(alloc, &mut names, code, &instance.id)?;
    }
    Ok(names)
}

/// What the names of the attempts of each instance are, in order.
pub fn all_names(alloc: Global, program: &Program<'_>) -> Result<Vec<Arc<Fixed>>, AllocError>
    ensures { IfOk result (λ xs. AreNames program.now (map arc_value xs.items)) }
{
    names_of(alloc, &program.codes, program.bound.instances.as_slice())
}

/// Where an attempt stands first.
fn stand(alloc: Global, code: &Code<'_>, own: &State, picks: Picks) -> Result<Stand, AllocError>
    requires { points_of picks ≡ [] }
    ensures { IfOk result (λ s. stand_view s ≡ start_of code.now own.now (attempt_words picks) (words_of picks)) }
{
    let variables = start_values(alloc, &code.variables, own)?;
    let own = own.copy(alloc)?;
    Ok(Stand {
        done: 0,
        value: None,
        env: Vec::new(alloc),
        variables,
        own,
        too_deep: Vec::new(alloc),
        picks,
        prints: Vec::new(alloc),
    })
}

/// An attempt without a value.
fn nowhere(alloc: Global, picks: Picks) -> Result<Attempt, AllocError>
    ensures { IfOk result (λ q. (p : ProgramView) → walk_in p q ≡ Stop (Sticks NoValue)) }
{
    let fixed = shared(
        alloc,
        Fixed {
            identity: Text::new(alloc),
            id: Value::Bool(false),
            owners: Vec::new(alloc),
        },
    )?;
    let place = Place {
        instance: 0,
        section: 0,
        position: 0,
        left: 0,
        stopped: Some(Finish::Noted(NoteKind::NoValue)),
        fixed,
        stand: Stand {
            done: 0,
            value: None,
            env: Vec::new(alloc),
            variables: Vec::new(alloc),
            own: State::from_vec(Vec::new(alloc)),
            too_deep: Vec::new(alloc),
            picks,
            prints: Vec::new(alloc),
        },
    };
    Ok(Attempt {
        place,
        start: State::from_vec(Vec::new(alloc)),
        left: 0,
    })
}

/// How many instructions a section has.
pub fn count_in(program: &Program<'_>, instance: usize, section: usize) -> usize
    ensures { result ≡ length (instructions_in program.now.codes.items instance section) }
{
    match instructions(&program.codes, instance, section) {
        Some(list) => list.len(),
        None => 0,
    }
}

/// The first place in a section, which is that at which the own components are.
fn place_in(
    alloc: Global,
    program: &Program<'_>,
    code: &Code<'_>,
    fixed: &Arc<Fixed>,
    at: (usize, usize),
    own: &State,
    picks: Picks,
) -> Result<Place, AllocError>
    requires code { nth program.now.codes.items at.0 ≡ Some code.now }
    requires names { fixed_view (arc_value fixed.now) ≡ fixed_of code.now }
    requires fresh { points_of picks ≡ [] }
    requires section { option_map (λ s. (section_view s).1) (nth code.now.sections.items at.1) ≡ steps_named (find pc own.now) code.now }
    ensures first { IfOk result (λ q. attempt_words q.stand.picks ≡ attempt_words picks) }
    ensures leaf { IfOk result (λ q. leaf_in program.now q ≡ leaf_named program.now code.now (data_of (arc_value fixed.now).id) own.now (attempt_words picks) (words_of picks)) }
    ensures again { IfOk result (λ q. (d : Words) → leaf_from program.now q own.now d ≡ leaf_named program.now code.now (data_of (arc_value fixed.now).id) own.now (attempt_words picks) d) }
{
    let left = count_in(program, at.0, at.1);
    let (fixed, stand) = both(Arc::try_clone(fixed), stand(alloc, code, own, picks))?;
    Ok(Place {
        instance: at.0,
        section: at.1,
        position: 0,
        left,
        stopped: None,
        fixed,
        stand,
    })
}

/// An attempt at the section at which the own components are.
fn first_in(
    alloc: Global,
    program: &Program<'_>,
    code: &Code<'_>,
    fixed: &Arc<Fixed>,
    instance: usize,
    own: &State,
    picks: Picks,
) -> Result<Attempt, AllocError>
    requires code { nth program.now.codes.items instance ≡ Some code.now }
    requires names { fixed_view (arc_value fixed.now) ≡ fixed_of code.now }
    requires fresh { points_of picks ≡ [] }
    requires start { words_of picks ≡ attempt_words picks }
    ensures { IfOk result (λ q. walk_in program.now q ≡ trying (λ path. leaf_named program.now code.now (data_of (arc_value fixed.now).id) own.now (attempt_words picks) (along 0 path (attempt_words picks))) (attempt_words picks) most_leaves []) }
{
    let Some(section) = section_at(code, own) else {
        return nowhere(alloc, picks);
    };
    let place = place_in(alloc, program, code, fixed, (instance, section), own, picks);
    let (place, start) = both(place, own.copy(alloc))?;
    Ok(Attempt {
        place,
        start,
        left: MOST_LEAVES - 1,
    })
}

/// An attempt before its first event.
pub fn first_attempt(
    alloc: Global,
    program: &Program<'_>,
    names: &[Arc<Fixed>],
    seed: u64,
    instance: u32,
    attempt: u32,
    own: &State,
) -> Result<Attempt, AllocError>
    requires { AreNames program.now (map arc_value names.now) }
    ensures { IfOk result (λ q. walk_in program.now q ≡ tries_in program.now seed instance attempt own.now) }
{
    let picks = Picks::of_seed(alloc, seed, instance, attempt);
    let k = instance as usize;
    let Some(code) = at(&program.codes, k) else {
        return nowhere(alloc, picks);
    };
    let Some(fixed) = at(names, k) else {
        return nowhere(alloc, picks);
    };
    first_in(alloc, program, code, fixed, k, own, picks)
}
