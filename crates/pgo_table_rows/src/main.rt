// Runs sheets of rows on boards of one table, each named by an argument, and prints each row that gives another answer than the one that is
// wanted, then how many rows there are. Those that end in `threads` have their boards at work all at once.
#![tactic(auto)]

mod accepted;
mod cells;
mod client;
mod clients;
mod closed;
mod contents;
mod rows;
mod said;
mod table;
mod threads;
mod together;

use crate::rows::Rows;
use crate::threads::run_on_threads;
use pgo_sheet::files::{Counts, ending, run_sheet};
use std::rt::Files;
use std::thread::Threads;
use std::{env, io};

fn main(rt: HostRuntime) -> io::Result<()> {
    let mut files = env::args(&rt)?;
    let _name = files.next();
    let (mut rows, mut wrong) = (0u64, 0u64);
    for file in files {
        let counts = run_file(&rt, file.as_str())?;
        rows = rows.saturating_add(counts.rows);
        wrong = wrong.saturating_add(counts.wrong);
    }
    println!(rt; "all: {rows} rows, {wrong} wrong")
}

/// Runs the sheet of a file, by its ending.
fn run_file<R: Files + AllocGlobal + Print + Threads + Sync>(
    rt: &R,
    file: &str,
) -> io::Result<Counts> {
    match ending(file) {
        "threads" => run_on_threads(rt, file),
        _ => run_sheet(rt, file, Rows::new(rt.alloc())),
    }
}
