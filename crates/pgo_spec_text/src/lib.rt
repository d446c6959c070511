// The text of a specification, cut into the tokens of its header and those of its algorithm.
#![tactic(auto)]

pub mod before;
pub mod cut;
pub mod parts;
pub mod search;
