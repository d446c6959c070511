// The load: a specification made from a number, run and judged.
#![tactic(auto)]

mod inputs;
pub mod load;
mod text;
