// What sections run on: contents of resources, boards that hand them out and keep the journal, and the sections themselves.
#![tactic(auto)]

pub mod attempts;
pub mod board;
pub mod layout;
pub mod picks;
pub mod plain_board;
mod points;
pub mod resource;
pub mod sections;
pub mod taken;
