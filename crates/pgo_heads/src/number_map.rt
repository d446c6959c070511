// What numbers stand for, found without going over a list.
ghost use Rattle.std.specs.Prelude.{◌≡◌, ℕ, None, Some, cond, nat_eq, IfOk};
ghost use Rattle.pgo_heads.specs.NameMaps.{numbered};

use std::alloc::{AllocError, Global};
use std::collections::BTreeMap;

/// What numbers stand for. One is found without going over all of them.
#[derive(Drop)]
pub struct NumberMap<V> {
    map: BTreeMap<u64, V>,
}

impl<V: Copy> NumberMap<V> {
    /// No number.
    pub fn new(alloc: Global) -> NumberMap<V>
        ensures { (n : ℕ) → numbered result.map n ≡ None }
    {
        NumberMap {
            map: BTreeMap::new(alloc),
        }
    }

    /// What the number stands for.
    pub fn get(&self, number: u64) -> Option<V>
        ensures { result ≡ numbered self.now.map number }
    {
        self.map.get(&number).copied()
    }

    /// The number stands for this from now on.
    pub fn set(&mut self, number: u64, value: V) -> Result<(), AllocError>
        ensures { IfOk result (λ _. (n : ℕ) → numbered self.new.map n ≡ cond (nat_eq n number) (Some value) (numbered self.old.map n)) }
    {
        self.map.insert(number, value)?;
        Ok(())
    }
}
