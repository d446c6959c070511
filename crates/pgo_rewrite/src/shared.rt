// Names with values that several owners share.
ghost use Rattle.std.specs.Prelude.{◌≡◌, [], ◌∷◌, reverse, option_map, unwrap_or, IfOk};
ghost use Rattle.pgo_base.specs.Lookup.{find};

use crate::newest::Newest;
use pgo_base::items::Copied;
use pgo_base::text::Text;
use std::alloc::{AllocError, Global};
use std::marker::Model;
use std::rc::Rc;

/// Names with values, the newest first; the newest of a name counts. A copy is one more owner of the same list, and the list is copied
/// where an owner adds a name while there are others.
#[derive(Drop)]
pub struct Shared<T> {
    alloc: Global,
    list: Option<Rc<Newest<T>>>,
}

impl<T> Model for Shared<T> {
    ghost use Rattle.std.specs.Prelude.{List, ℕ, [], option_map, unwrap_or};
    ghost use Rattle.std.specs.Coded.{coded_list, coded_ℕ, coded×};

    ghost Value = { List (List ℕ × T) };

    ghost coded = { coded_list (coded× (coded_list coded_ℕ) T.code) };

    ghost view = { λ s. unwrap_or (option_map (λ l. l.value) s.list) [] };
}

impl<T> Shared<T> {
    /// No name.
    pub fn new(alloc: Global) -> Shared<T>
        ensures { result ≡ [] }
    {
        Shared { alloc, list: None }
    }

    /// The names with their values, the oldest first.
    pub fn as_slice(&self) -> &[(Text, T)]
        ensures { reverse result.now ≡ self.now }
    {
        match &self.list {
            None => &[],
            Some(list) => list.as_slice(),
        }
    }

    /// The value of a name.
    pub fn find(&self, name: &Text) -> Option<&T>
        ensures { option_map (λ r. r.now) result ≡ find name.now self.now }
    {
        match &self.list {
            None => None,
            Some(list) => list.find(name),
        }
    }
}

impl<T: Drop> Shared<T> {
    /// The same once more: one more owner.
    ///
    /// Err only where there is no memory.
    pub fn copy(&self, alloc: Global) -> Result<Shared<T>, AllocError>
        ensures { IfOk result (λ s. s ≡ self.now) }
    {
        match &self.list {
            None => Ok(Shared::new(alloc)),
            Some(list) => Ok(Shared {
                alloc,
                list: Some(list.clone()?),
            }),
        }
    }
}

/// The list, if this is its only owner, and else a copy of it.
fn own_list<T: Copied>(alloc: Global, list: Option<Rc<Newest<T>>>) -> Result<Newest<T>, AllocError>
    ensures { IfOk result (λ l. l ≡ unwrap_or (option_map (λ s. s.value) list) []) }
{
    match list {
        None => Ok(Newest::new(alloc)),
        Some(shared) => match Rc::try_unwrap(shared) {
            Ok(own) => Ok(own),
            Err(shared) => shared.copy(alloc),
        },
    }
}

/// A list in a place of its own, which may get further owners.
fn placed<T: Drop>(alloc: Global, list: Newest<T>) -> Result<Rc<Newest<T>>, AllocError>
    ensures { IfOk result (λ s. s.value ≡ list) }
{
    Ok(Rc::new(alloc, list)?)
}

impl<T: Copied> Shared<T> {
    /// One name more, before the others.
    ///
    /// Err only where there is no memory.
    pub fn push(&mut self, name: Text, value: T) -> Result<(), AllocError>
        ensures { IfOk result (λ _. self.new ≡ (name, value) ∷ self.old) }
    {
        let mut list = own_list(self.alloc, self.list.take())?;
        list.push(name, value)?;
        self.list = Some(placed(self.alloc, list)?);
        Ok(())
    }
}
