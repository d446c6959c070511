// Rows on what attempts do: words of choice, and reads and writes of contents.
#![tactic(auto)]

mod mapping;
mod numbers;
mod operations;
mod picks;
mod values;

use crate::operations::Operations;
use crate::picks::Picked;
use pgo_sheet::files::{Counts, ending, not_run, run_sheet};
use std::io;
use std::rt::Files;

/// Runs the sheet of a file, by its ending.
pub fn run_attempts<R: Files + AllocGlobal + Print>(rt: &R, file: &str) -> io::Result<Counts> {
    let alloc = rt.alloc();
    match ending(file) {
        "operations" => run_sheet(rt, file, Operations::new(alloc)),
        "picks" => run_sheet(rt, file, Picked::new(alloc)),
        _ => not_run(rt, file, "no subject has this ending"),
    }
}
