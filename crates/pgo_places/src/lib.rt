// Places in the instructions of attempts.
#![tactic(auto)]

pub mod access;
pub mod attempt;
pub mod behind;
pub mod evaluated;
pub mod flow;
pub mod perform;
pub mod place;
pub mod program;
pub mod run;
pub mod stand;
pub mod start;
pub mod variables;
