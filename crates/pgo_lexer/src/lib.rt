// The tokens of a text, with the marks of its junction lists.
#![tactic(auto)]

pub mod before;
pub mod bytes;
pub mod comment;
pub mod errors;
mod kind;
pub mod laws;
mod lexer;
mod marker;
mod number;
pub mod piece;
mod stack;
mod string;
pub mod symbol;
mod table;
pub mod token;
pub mod tokenizer;
