// Whether a log is a run of a module.
#![tactic(auto)]

pub mod actions;
pub mod checker;
mod constants;
pub mod definitions;
pub mod errors;
pub mod lookup;
mod noted;
pub mod states;
mod used;
pub mod verdict;
