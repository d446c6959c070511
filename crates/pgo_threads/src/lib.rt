// Instances on threads: each worker over a board of its own.
#![tactic(auto)]

pub mod drive;
pub mod gate;
pub mod jobs;
pub mod pauses;
