// What names stand for, found without going over a list.
ghost use Rattle.std.specs.Prelude.{◌≡◌, None, Some, false, cond, if◌then◌else◌, option_map, IfOk, OnErr};
ghost use Rattle.pgo_base.specs.Lookup.{Name, same_name, or_that};

use crate::text::Text;
use std::alloc::{AllocError, Global};
use std::collections::BTreeMap;

/// What names stand for. A name is found without going over all of them.
pub struct NameMap<V> {
    map: BTreeMap<Vec<u8>, V>,
}

impl<V: Drop> Drop for NameMap<V> {
    fn drop(self) {
        let NameMap { map } = self;
    }
}

impl<V: Drop> NameMap<V> {
    ghost use Rattle.pgo_base.specs.NameMaps.{found, has_name};

    /// No name.
    pub fn new(alloc: Global) -> NameMap<V>
        ensures { (n : Name) → found result n ≡ None }
    {
        NameMap {
            map: BTreeMap::new(alloc),
        }
    }

    /// What the name stands for.
    pub fn get(&self, name: &Text) -> Option<&V>
        ensures { option_map (λ v. v.now) result ≡ found self.now name.now }
    {
        self.map.get(name.as_bytes())
    }

    /// Whether the name stands for something.
    pub fn contains(&self, name: &Text) -> bool
        ensures { result ≡ has_name self.now name.now }
    {
        self.map.contains_key(name.as_bytes())
    }

    /// Takes what the name stands for: it stands for nothing afterwards, and the others for what they did.
    pub fn take(&mut self, name: &Text) -> Option<V>
        ensures value { result ≡ found self.old name.now }
        ensures gone { found self.new name.now ≡ None }
        ensures others { (n : Name) → same_name n name.now ≡ false → found self.new n ≡ found self.old n }
    {
        self.map.remove(name.as_bytes())
    }

    /// The name stands for this from now on. Where there is no memory for it, all names stand for what they did.
    pub fn set(&mut self, alloc: Global, name: &Text, value: V) -> Result<(), AllocError>
        ensures noted { IfOk result (λ _. (n : Name) → found self.new n ≡ cond (same_name n name.now) (Some value) (found self.old n)) }
        ensures kept { OnErr result ((n : Name) → found self.new n ≡ found self.old n) }
    {
        let key = Vec::from_slice(alloc, name.as_bytes())?;
        self.map.insert(key, value)?;
        Ok(())
    }

    /// The name stands for this from now on, where it stood for nothing. Where there is no memory for it, all names stand for
    /// what they did.
    pub fn set_first(&mut self, alloc: Global, name: &Text, value: V) -> Result<(), AllocError>
        ensures noted { IfOk result (λ _. (n : Name) → found self.new n ≡ or_that (found self.old n) (if same_name n name.now then Some value else None)) }
        ensures kept { OnErr result ((n : Name) → found self.new n ≡ found self.old n) }
    {
        if self.contains(name) {
            return Ok(());
        }
        self.set(alloc, name, value)
    }
}
