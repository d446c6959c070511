// The expansion of a specification, within its limits.
#![tactic(auto)]

pub mod errors;
pub mod expand;
mod heads;
mod labels;
mod least;
mod measure;
mod names;
mod own;
mod start;
mod trees;
