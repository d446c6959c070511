// Runs sheets of rows, each named by an argument, and prints each row that gives another answer than the one that is wanted, then how many
// rows there are. What a sheet's rows ask is said by its ending, and by its folder: those in `values`, `texts`, `attempts` and `turns` are
// run by the libraries on these. Here is `bound`, on what specifications are bound to. Those in `commands` are run by tools/command_rows.
#![tactic(auto)]

mod bound_systems;
mod described;

use crate::bound_systems::BoundSystems;
use pgo_run_rows::run_attempts;
use pgo_sheet::files::{Counts, ending, not_run, run_sheet};
use pgo_text_rows::run_texts;
use pgo_turn_rows::run_turns;
use pgo_value_rows::run_values;
use std::rt::Files;
use std::{env, io};

fn main(rt: HostRuntime) -> io::Result<()> {
    let mut files = env::args(&rt)?;
    let _name = files.next();
    let (mut rows, mut wrong) = (0u64, 0u64);
    for file in files {
        let counts = run_file(&rt, file.as_str())?;
        rows = rows.saturating_add(counts.rows);
        wrong = wrong.saturating_add(counts.wrong);
    }
    println!(rt; "all: {rows} rows, {wrong} wrong")
}

/// Runs the sheet of a file, by its folder and its ending.
fn run_file<R: Files + AllocGlobal + Print>(rt: &R, file: &str) -> io::Result<Counts> {
    let (folder, _) = file.split_once('/').unwrap_or(("", ""));
    match (folder, ending(file)) {
        ("values", _) => run_values(rt, file),
        ("texts", _) => run_texts(rt, file),
        ("attempts", _) => run_attempts(rt, file),
        ("turns", _) => run_turns(rt, file),
        (_, "bound") => run_sheet(rt, file, BoundSystems::new(rt.alloc())),
        _ => not_run(rt, file, "no subject has this ending"),
    }
}
