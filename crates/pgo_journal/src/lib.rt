// The journal of a run: its entries, its notes, and the states along it.
#![tactic(auto)]

pub mod finished;
pub mod journal;
mod states;
