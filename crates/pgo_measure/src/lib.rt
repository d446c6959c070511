// How many nodes a section's expansion has, and how high its action is, without making it.
#![tactic(auto)]

pub mod heights;
pub mod looked;
pub mod measure;
pub mod spot;
pub mod tally;
pub mod wide;
