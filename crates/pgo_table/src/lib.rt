// The rule of a table of holds and a journal that threads share.
#![tactic(auto)]

pub mod rule;
pub mod slots;
