// Trees that the lines of a written module have: conjunctions and disjunctions from the left, and the bodies of its further
// definitions.
#![tactic(auto)]

pub mod further;
pub mod joined;
pub mod small;
