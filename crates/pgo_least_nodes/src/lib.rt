// Nodes that the expansions of an archetype's labels have at least, counted in one pass over its text.
#![tactic(auto)]

pub mod count;
pub mod macros;
pub mod statements;
