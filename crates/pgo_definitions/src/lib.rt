// Definitions that are evaluated once: which are used, and others that mean the same, in which these are given by their values.
#![tactic(auto)]

pub mod definitions;
pub mod evaluate;
pub mod sections;
pub mod used;
