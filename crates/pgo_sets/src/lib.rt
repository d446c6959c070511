// The operators on values.
#![tactic(auto)]

pub mod answers;
pub mod build;
pub mod changed;
mod choice;
pub mod errors;
pub mod function_sets;
pub mod functions;
pub mod lookup;
pub mod powers;
pub mod ranges;
pub mod sequences;
pub mod set_operators;
