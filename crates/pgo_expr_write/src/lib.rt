// The canonical text of an expression.
#![tactic(auto)]

pub mod errors;
mod forms;
pub mod laws;
mod lists;
mod operators;
mod own;
mod parts;
pub mod write;
