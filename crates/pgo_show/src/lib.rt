// Explanations of bundles, from words and bytes to bytes and a status.
#![tactic(auto)]

mod command;
mod ended;
mod explain;
mod input;
mod status;
mod wish;

pub use command::show;
pub use status::Status;
