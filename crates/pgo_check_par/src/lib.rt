// Whether a log is a run of a module, found by several threads at the same time.
#![tactic(auto)]

pub mod checker;
mod parts;
