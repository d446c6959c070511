// A log: the instances, the state at the start, and which components each step changed.
ghost use Rattle.std.specs.Prelude.{◌≡◌, [], map};
ghost use Rattle.pgo_base.specs.View.{data_of};

use crate::items::Items;
use crate::scope::State;
use crate::text::Text;
use crate::value::Value;
use std::alloc::Global;
use std::marker::Model;

/// Whose a component is. A log that was read does not say it.
#[derive(Clone, Copy, PartialEq, Eq)]
pub enum Owner {
    OfResource(u32),
    OfInstance(u32),
    Unowned,
}

/// A variable, or its value at one index.
pub struct Component {
    pub variable: Text,
    pub index: Option<Value>,
    pub owner: Owner,
}

impl Drop for Component {
    fn drop(self) {
        let Component {
            variable,
            index,
            owner,
        } = self;
    }
}

/// A component and its new value.
pub struct Change {
    pub component: Component,
    pub value: Value,
}

impl Drop for Change {
    fn drop(self) {
        let Change { component, value } = self;
    }
}

/// Changes in order.
pub type Changes = Items<Change>;

/// A committed attempt: which instance's, its number, the labels before and after, what it changed, and what it printed.
/// Of an entry that was read nothing is printed, since no text of a log says it.
pub struct Entry {
    pub instance: u32,
    pub attempt: u32,
    pub label: Text,
    pub next: Text,
    pub changes: Changes,
    pub prints: Values,
}

impl Drop for Entry {
    fn drop(self) {
        let Entry {
            instance,
            attempt,
            label,
            next,
            changes,
            prints,
        } = self;
    }
}

/// Entries in order.
pub type Entries = Items<Entry>;

/// Values in order.
pub struct Values {
    list: Vec<Value>,
}

impl Drop for Values {
    fn drop(self) {
        let Values { list } = self;
    }
}

impl Model for Values {
    ghost use Rattle.std.specs.Prelude.{List, map};
    ghost use Rattle.pgo_base.specs.Data.{Data};
    ghost use Rattle.pgo_base.specs.Code.{coded_members};

    ghost Value = { List Data };

    ghost coded = { coded_members };

    ghost use Rattle.pgo_base.specs.View.{data_of};

    ghost view = { λ i. map data_of i.list.items };
}

impl Values {
    /// No value.
    pub fn new(alloc: Global) -> Values
        ensures { result ≡ [] }
    {
        Values {
            list: Vec::new(alloc),
        }
    }

    /// The values as a slice.
    pub fn as_slice(&self) -> &[Value]
        ensures { map data_of result.now ≡ self.now }
    {
        self.list.as_slice()
    }

    /// These values.
    pub fn from_vec(list: Vec<Value>) -> Values
        ensures { result ≡ map data_of list.items }
    {
        Values { list }
    }
}

/// A log: the identifiers of the instances by their numbers, the state before the first entry, and the entries.
pub struct Log {
    pub ids: Values,
    pub start: State,
    pub entries: Entries,
}

impl Drop for Log {
    fn drop(self) {
        let Log {
            ids,
            start,
            entries,
        } = self;
    }
}
