// A statement as effects, one level at a time: what it does first, and the code behind, which has not been looked at yet.
#![tactic(auto)]

pub mod around;
mod assign;
mod branches;
mod called;
mod calls;
pub mod change;
mod evaluate;
pub mod indexed_archetype;
pub mod indexed_macros;
mod lefts;
pub mod names;
pub mod piece;
pub mod place;
pub mod setting;
mod simple;
pub mod todo;
pub mod unfold;
pub mod written;
