// The reader of expressions.
#![tactic(auto)]

mod ast;
pub mod cursor;
mod grammar;
mod lists;
mod lookahead;
mod operators;
pub mod read;
pub mod reader;
pub mod sign;
mod stack;
pub mod stops;
pub mod table;
