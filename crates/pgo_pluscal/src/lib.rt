// The expansion of a specification to PlusCal, and its text.
#![tactic(auto)]

mod heads;
mod lines;
pub mod part;
pub mod pluscal;
mod steps;
mod words;
pub mod write;
