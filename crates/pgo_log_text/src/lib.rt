// A bundle from its text.
#![tactic(auto)]

mod account;
mod attempt;
pub mod bundle_reader;
mod cursor;
mod entries;
mod entry;
pub mod errors;
mod field;
mod head;
mod line;
mod lines;
mod numbers;
mod told;
mod value;
