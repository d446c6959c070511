// Specifications run: from a text to the bundle of its run.
#![tactic(auto)]

pub mod closed;
mod constants;
pub mod execute;
mod run;
pub mod schedule;
mod status;
mod threads;
