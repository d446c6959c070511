// Runs sheets of rows on `show` over streams in memory, each named by an argument, and prints each row that gives another answer than the
// one that is wanted, then how many rows there are.
#![tactic(auto)]

mod answer;
mod rows;

use crate::rows::Rows;
use pgo_sheet::files::run_sheet;
use std::{env, io};

fn main(rt: HostRuntime) -> io::Result<()> {
    let mut files = env::args(&rt)?;
    let _name = files.next();
    let (mut rows, mut wrong) = (0u64, 0u64);
    for file in files {
        let counts = run_sheet(&rt, file.as_str(), Rows::new(rt.alloc()))?;
        rows = rows.saturating_add(counts.rows);
        wrong = wrong.saturating_add(counts.wrong);
    }
    println!(rt; "all: {rows} rows, {wrong} wrong")
}
