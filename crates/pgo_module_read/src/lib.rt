// The reader of written modules.
#![tactic(auto)]

mod build;
mod cut;
mod difference;
mod front;
mod lines;
mod processes;
pub mod read;
pub mod refusal;
mod rows;
mod same;
mod steps;
