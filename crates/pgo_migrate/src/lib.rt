// Bundles of version 1 are brought over to version 2.
#![tactic(auto)]

pub mod laws;
pub mod migrate;
