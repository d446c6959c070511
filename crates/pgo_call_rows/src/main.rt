// Rows on `pgo` itself, in memory: runs of two instances on threads in orders that gates say, of each of which it prints whether it is as
// it must be; then sheets of rows on the calls that a command makes of its streams, each named by an argument, of which it prints each row
// that gives another answer than the one that is wanted, and how many rows there are.
#![tactic(auto)]

mod orders;
mod streams;

use crate::orders::rows::{
    blocked_goes_on, blocked_parks, both_run, is_refused_three_times, none_is_refused,
    one_is_refused,
};
use crate::streams::answer::Answer;
use crate::streams::limits::Limits;
use crate::streams::rows::Rows;
use pgo_base::word::Word;
use pgo_sheet::files::run_sheet;
use std::{env, io};

fn main(rt: HostRuntime) -> io::Result<()> {
    let alloc = rt.alloc();
    println!(rt; "both run at the same time: {}", both_run(&rt, alloc)?)?;
    println!(rt; "one is refused: {}", one_is_refused(&rt, alloc)?)?;
    println!(rt;
        "one is refused three times: {}",
        is_refused_three_times(&rt, alloc)?
    )?;
    println!(rt; "none is refused: {}", none_is_refused(&rt, alloc)?)?;
    println!(rt; "a blocked one parks: {}", blocked_parks(&rt, alloc)?)?;
    println!(rt;
        "without --park it goes on: {}",
        blocked_goes_on(&rt, alloc)?
    )?;
    let mut files = env::args(&rt)?;
    let _name = files.next();
    let (mut rows, mut wrong) = (0u64, 0u64);
    for file in files {
        let runtime = rt.clone()?;
        let run = Box::new(
            alloc,
            move |words: &[Word], limits: &Limits, text: Vec<u8>| {
                Answer::of(&runtime, alloc, words, limits, text)
            },
        )?;
        let counts = run_sheet(&rt, file.as_str(), Rows::new(alloc, run))?;
        rows = rows.saturating_add(counts.rows);
        wrong = wrong.saturating_add(counts.wrong);
    }
    println!(rt; "all: {rows} rows, {wrong} wrong")
}
