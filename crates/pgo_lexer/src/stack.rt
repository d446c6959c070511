// The brackets and junction lists that are open, as contracts see them: a list, the innermost first.
ghost use Rattle.std.specs.Prelude.{◌≡◌, List, [], ◌∷◌, OnOk, MatchOption, length};
ghost use Rattle.pgo_lexer.specs.declared.stack.Frame.{Frame};

use crate::symbol::{Bracket, Junction};
use std::alloc::{AllocError, Global};
use std::marker::Model;

/// What is open.
#[derive(Clone, Copy)]
pub enum Frame {
    /// A bracket, and the least column that its tokens may have.
    Bracket(Bracket, u128),
    /// A junction list, and the column of its bullets.
    List(Junction, usize),
}

#[derive(Drop)]
pub struct Stack {
    frames: Vec<Frame>,
}

impl Model for Stack {
    ghost use Rattle.std.specs.Prelude.{List, reverse};
    ghost use Rattle.pgo_lexer.specs.declared.stack.Frame.{Frame};

    ghost Value = { List Frame };

    ghost view = { λ s. reverse s.frames.items };
}

impl Stack {
    pub fn new(alloc: Global) -> Stack
        ensures { result ≡ [] }
    {
        Stack {
            frames: Vec::new(alloc),
        }
    }

    pub fn push(&mut self, frame: Frame) -> Result<(), AllocError>
        ensures { OnOk result (self.new ≡ frame ∷ self.old) }
    {
        self.frames.push(frame)?;
        Ok(())
    }

    /// The innermost, which is taken off.
    pub fn pop(&mut self) -> Option<Frame>
        ensures { MatchOption result ((self.old ≡ []) × (self.new ≡ [])) (λ top. self.old ≡ top ∷ self.new) }
    {
        self.frames.pop()
    }

    /// The innermost.
    pub fn top(&self) -> Option<Frame>
        ensures { MatchOption result (self.now ≡ []) (λ top. (rest : List Frame) × (self.now ≡ top ∷ rest)) }
    {
        self.frames.last().copied()
    }

    pub fn len(&self) -> usize
        ensures { result ≡ length self.now }
    {
        self.frames.len()
    }
}
