// The values of one component, entry by entry.
#![tactic(auto)]

pub mod changes;
mod components;
mod written;
