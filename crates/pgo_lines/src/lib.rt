// Lines, and how they are put together from pieces.
#![tactic(auto)]

pub mod line;
