// The commands, from words and bytes to bytes and a status.
#![tactic(auto)]

mod check;
mod command;
mod ended;
mod execution;
mod input;
mod load;
mod migration;
mod mode;
mod output;
mod status;
mod target;
mod task;
mod translate;

pub use command::pgo;
pub use status::Status;
