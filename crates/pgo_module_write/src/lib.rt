// The canonical text of a written module.
#![tactic(auto)]

mod bodies;
pub mod conjuncts;
pub mod laws;
mod lines;
pub mod write;
