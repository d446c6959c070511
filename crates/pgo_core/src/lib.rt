// The core: all instances of a bound specification on one thread, over one board.
#![tactic(auto)]

pub mod accounts;
pub mod claims;
pub mod exclusive_board;
pub mod instances;
