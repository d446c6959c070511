// Holds and the journal on a table that threads share.
#![tactic(auto)]

pub mod closing;
pub mod instance_seat;
pub mod journal_steps;
pub mod opening;
pub mod seat_board;
pub mod shared;
