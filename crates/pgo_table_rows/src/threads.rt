// Sheets of rows on threads, which a row's end is handed.
use crate::rows::Rows;
use pgo_sheet::files::{Counts, not_run};
use pgo_sheet::sheet::{Subject, halves};
use std::rt::Files;
use std::thread::Threads;
use std::{fs, io};

/// Ends a row. Prints its answer where it is another than the one that is wanted.
fn end_row<R: AllocGlobal + Print + Threads + Sync>(
    rt: &R,
    file: &str,
    rows: &mut Rows,
    counts: &mut Counts,
    wanted: &str,
) -> io::Result<()> {
    counts.rows = counts.rows.wrapping_add(1);
    match rows.end_at_once(rt, wanted)? {
        None => Ok(()),
        Some(answer) => {
            counts.wrong = counts.wrong.wrapping_add(1);
            println!(rt; "{file}: row {}: {answer}", counts.rows)
        }
    }
}

/// Takes a line. Prints its key where there is no such key.
fn take_line<R: AllocGlobal + Print + Threads + Sync>(
    rt: &R,
    file: &str,
    rows: &mut Rows,
    counts: &mut Counts,
    line: &str,
) -> io::Result<()> {
    let (key, text) = halves(line);
    match key {
        "" | "#" | "##" => Ok(()),
        "=>" => end_row(rt, file, rows, counts, text),
        _ => {
            if rows.take(key, text)? {
                return Ok(());
            }
            counts.wrong = counts.wrong.wrapping_add(1);
            println!(rt; "{file}: no key {key}")
        }
    }
}

/// Takes the lines of a file as those of a sheet of rows on threads. Prints what is wrong, then how many rows there are.
pub fn run_on_threads<R: Files + AllocGlobal + Print + Threads + Sync>(
    rt: &R,
    file: &str,
) -> io::Result<Counts> {
    let Ok(text) = fs::read_to_string(rt, file) else {
        return not_run(rt, file, "cannot be read");
    };
    let mut rows = Rows::new(rt.alloc());
    let mut counts = Counts { rows: 0, wrong: 0 };
    for line in text.as_str().lines() {
        take_line(rt, file, &mut rows, &mut counts, line)?;
    }
    println!(rt; "{file}: {} rows, {} wrong", counts.rows, counts.wrong)?;
    Ok(counts)
}
