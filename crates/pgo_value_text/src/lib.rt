// The canonical text of a value, written and read.
#![tactic(auto)]

mod atom;
mod built;
mod cursor;
pub mod errors;
pub mod integer;
pub mod laws;
pub mod read;
mod small;
mod stop;
mod words;
pub mod write;
