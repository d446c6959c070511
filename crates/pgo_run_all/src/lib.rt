// All instances of a bound specification, each in a thread of its own over one table.
#![tactic(auto)]

mod ending;
mod finishing;
mod opening;
pub mod run_all;
pub mod run_parked;
