// Contents whose pre-commits may fail.
#![tactic(auto)]

pub mod link;
pub mod linked;
