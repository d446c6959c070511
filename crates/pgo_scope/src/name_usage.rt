// Names with their usage, found without going over a list.
ghost use Rattle.std.specs.Prelude.{◌≡◌, IfOk};
ghost use Rattle.pgo_base.specs.Lookup.{Name, same_name};
ghost use Rattle.pgo_scope.specs.NameUsage.{usage_of};
ghost use Rattle.pgo_scope.specs.Usage as spec;

use crate::usage::{Usage, either_usage, no_usage, read_usage};
use pgo_base::name_map::NameMap;
use pgo_base::text::Text;
use pgo_uses::uses::{Form, Use};
use std::alloc::{AllocError, Global};

/// Names with their usage; a name that isn't among them isn't used.
#[derive(Drop)]
pub struct NameUsage {
    pub map: NameMap<Usage>,
}

impl NameUsage {
    /// No name.
    pub fn new(alloc: Global) -> NameUsage
        ensures { (p : Name) → usage_of result p ≡ spec.no_usage }
    {
        NameUsage {
            map: NameMap::new(alloc),
        }
    }

    /// The usage of the name.
    pub fn of(&self, name: &Text) -> Usage
        ensures { result ≡ usage_of self.now name.now }
    {
        match self.map.get(name) {
            Some(usage) => *usage,
            None => no_usage(),
        }
    }

    /// The name is used so too.
    pub fn add(&mut self, alloc: Global, name: &Text, usage: Usage) -> Result<(), AllocError>
        ensures { IfOk result (λ _. (p : Name) → usage_of self.new p ≡ spec.either_usage (usage_of self.old p) (spec.usage_if (same_name p name.now) usage)) }
    {
        let all = either_usage(self.of(name), usage);
        self.map.set(alloc, name, all)?;
        Ok(())
    }

    /// The name of this use is used as it is read, if it is.
    #[tactic(auto, using(crate::proofs::Gathering::not_used))]
    fn add_read(&mut self, alloc: Global, u: &Use) -> Result<(), AllocError>
        ensures { IfOk result (λ _. (p : Name) → usage_of self.new p ≡ spec.either_usage (usage_of self.old p) (spec.read_of p u.now u.now.form)) }
    {
        match &u.form {
            Form::Alone => {
                let usage = read_usage(u.around.hidden, u.around.indexed);
                self.add(alloc, &u.name, usage)
            }
            _ => Ok(()),
        }
    }

    /// The names of these are used as they are read.
    pub fn add_reads(&mut self, alloc: Global, uses: &[Use]) -> Result<(), AllocError>
        ensures { IfOk result (λ _. (p : Name) → usage_of self.new p ≡ spec.reads_from (usage_of self.old p) p uses.now) }
    {
        for u in uses {
            self.add_read(alloc, u)?;
        }
        Ok(())
    }
}
