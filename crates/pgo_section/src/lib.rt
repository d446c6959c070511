// One instance's attempts, turn by turn, over any board.
#![tactic(auto)]

mod changes;
mod contents;
mod own;
pub mod quiet;
pub mod worker;
