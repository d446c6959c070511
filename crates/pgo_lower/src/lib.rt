// The sections of a bound specification as instructions with jumps.
#![tactic(auto)]

pub mod globals;
pub mod indexed_slots;
mod kinds;
pub mod lower;
pub mod names;
pub mod reads;
pub mod slots;
pub mod steps;
pub mod turns;
pub mod work;
