// Lists that contracts see with the newest item first.
ghost use Rattle.std.specs.Prelude.{◌≡◌, [], ◌∷◌, reverse, Option, IfOk, MatchOption};

use std::alloc::{AllocError, Global};
use std::marker::Model;

/// A list, which contracts see as its items, the newest first.
#[derive(Drop)]
pub struct Stack<T> {
    list: Vec<T>,
}

impl<T> Model for Stack<T> {
    ghost use Rattle.std.specs.Prelude.{List, reverse};
    ghost use Rattle.std.specs.Coded.{coded_list};

    ghost Value = { List T };

    ghost coded = { coded_list T.code };

    ghost view = { λ s. reverse s.list.items };
}

impl<T> Stack<T> {
    /// No item.
    pub fn new(alloc: Global) -> Stack<T>
        ensures { result ≡ [] }
    {
        Stack {
            list: Vec::new(alloc),
        }
    }

    /// The items, the oldest first.
    pub fn as_slice(&self) -> &[T]
        ensures { reverse result.now ≡ self.now }
    {
        self.list.as_slice()
    }
}

impl<T: Drop> Stack<T> {
    /// One item more.
    pub fn push(&mut self, item: T) -> Result<(), AllocError>
        ensures { IfOk result (λ _. self.new ≡ item ∷ self.old) }
    {
        self.list.push(item)?;
        Ok(())
    }

    /// The newest item, which leaves; nothing where there is none.
    pub fn pop(&mut self) -> Option<T>
        ensures { MatchOption result ((self.old ≡ []) × (self.new ≡ [])) (λ item. self.old ≡ item ∷ self.new) }
    {
        self.list.pop()
    }
}
