// Rows on the turns of one instance at work, on a board of its own.
#![tactic(auto)]

mod accepted;
mod alone;
mod steps;
mod told;
mod turns;

use crate::turns::Turns;
use pgo_sheet::files::{Counts, ending, not_run, run_sheet};
use std::io;
use std::rt::Files;

/// Runs the sheet of a file, by its ending.
pub fn run_turns<R: Files + AllocGlobal + Print>(rt: &R, file: &str) -> io::Result<Counts> {
    match ending(file) {
        "turns" => run_sheet(rt, file, Turns::new(rt.alloc())),
        _ => not_run(rt, file, "no subject has this ending"),
    }
}
