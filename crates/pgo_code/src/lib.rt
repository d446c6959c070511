// Sections as instructions with jumps.
#![tactic(auto)]

pub mod elements;
pub mod instruction;
pub mod program;
