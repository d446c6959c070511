// The blocks of mapping macros, run on a content.
#![tactic(auto)]

mod around;
mod assign;
mod block;
mod next;
pub mod run;
mod step;
mod values;
