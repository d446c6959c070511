// How many nodes expressions have with the arguments of the macros around them in place, counted before any of them is made.
#![tactic(auto)]

mod blocks;
mod counted;
mod layers;
pub mod lefts;
pub mod nodes;
pub mod passes;
pub mod wide;
