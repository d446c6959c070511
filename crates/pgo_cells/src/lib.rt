// Contents in memory.
#![tactic(auto)]

pub mod cell;
mod part;
