// Instances on threads, which park where they are blocked.
#![tactic(auto)]

mod counts;
pub mod drive;
pub mod jobs;
pub mod parking;
