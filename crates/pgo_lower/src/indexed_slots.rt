// What the parameters and locals of an instance stand for, found by name.
ghost use Rattle.std.specs.Prelude.{◌≡◌, map, option_map, IfOk};
ghost use Rattle.pgo_base.specs.Lookup.{find};
ghost use Rattle.pgo_code.specs.See.{target_view};
ghost use Rattle.pgo_lower.specs.SlotViews.{slot_names, slot_views};

use crate::slots::Slot;
use pgo_base::text::Text;
use pgo_code::instruction::Target;
use pgo_uses::names::Names;
use std::alloc::{AllocError, Global};
use std::marker::Model;

/// What names stand for, in order; the first of a name counts. A name is found without going over the list.
#[derive(Drop)]
pub struct IndexedSlots {
    list: Vec<Slot>,
    names: Names,
}

impl Model for IndexedSlots {
    ghost use Rattle.std.specs.Prelude.{◌≡◌, List};
    ghost use Rattle.std.specs.Coded.{codes};
    ghost use Rattle.pgo_lower.specs.declared.slots.Slot.{Slot};
    ghost use Rattle.pgo_lower.specs.SlotViews.{slot_names};

    ghost Value = { List Slot };

    ghost coded = { Prim.hlevel (codes) };

    ghost view = { λ s. s.list.items };

    ghost invariant = { λ s. s.names ≡ slot_names s.list.items };
}

impl IndexedSlots {
    /// These.
    pub fn new(alloc: Global, list: Vec<Slot>) -> Result<IndexedSlots, AllocError>
        ensures { IfOk result (λ s. s ≡ list.items) }
    {
        let names = names_of(alloc, list.as_slice())?;
        Ok(IndexedSlots { list, names })
    }

    /// All of them, in order.
    pub fn as_slice(&self) -> &[Slot]
        ensures { result.now ≡ self.now }
    {
        self.list.as_slice()
    }

    /// What a name stands for.
    pub fn target_named(&self, x: &Text) -> Option<&Target>
        ensures { option_map (λ t. target_view t.now) result ≡ find x.now (slot_views self.now) }
    {
        match self.names.position(x) {
            Some(place) => match self.list.get(place) {
                Some(slot) => Some(&slot.target),
                None => None,
            },
            None => None,
        }
    }
}

/// The names, in order.
fn names_of(alloc: Global, list: &[Slot]) -> Result<Names, AllocError>
    ensures { IfOk result (λ names. names ≡ slot_names list.now) }
{
    let mut names = Names::new(alloc);
    for slot in list {
        names.push(alloc, &slot.name, 0)?;
    }
    Ok(names)
}
