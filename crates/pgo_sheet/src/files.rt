// Sheets as files, which a program of rows is given by their names.
use crate::sheet::{Sheet, Subject};
use std::alloc::AllocError;
use std::rt::Files;
use std::{fs, io};

/// How many rows there were, and how many of them were wrong.
#[derive(Drop)]
pub struct Counts {
    pub rows: u64,
    pub wrong: u64,
}

/// What stands behind the last point of a file's name: what the rows of the sheet are about.
pub fn ending(file: &str) -> &str {
    match file.rsplit_once('.') {
        Some((_, ending)) => ending,
        None => "",
    }
}

/// Says why the sheet of a file is not run, which counts as a wrong row.
pub fn not_run<R: Print>(rt: &R, file: &str, reason: &str) -> io::Result<Counts> {
    println!(rt; "{file}: {reason}")?;
    Ok(Counts { rows: 0, wrong: 1 })
}

/// Takes the lines of a file as those of a sheet on this subject. Prints what is wrong, then how many rows there are. A line
/// `include FILE` stands for the lines of that file.
pub fn run_sheet<R: Files + AllocGlobal + Print, S: Subject + Drop>(
    rt: &R,
    file: &str,
    subject: S,
) -> io::Result<Counts> {
    let Ok(text) = fs::read_to_string(rt, file) else {
        return not_run(rt, file, "cannot be read");
    };
    let mut sheet = Sheet {
        alloc: rt.alloc(),
        file,
        subject,
        line: 0,
        rows: 0,
        wrong: 0,
        said: String::new(rt.alloc()),
    };
    for line in text.as_str().lines() {
        sheet.line = sheet.line.wrapping_add(1);
        take_line(rt, line, &mut sheet)?;
    }
    let (rows, wrong) = (sheet.rows, sheet.wrong);
    println!(rt; "{}{file}: {rows} rows, {wrong} wrong", sheet.said)?;
    Ok(Counts { rows, wrong })
}

/// Takes a line of a file, or those of the file that it includes. The sheet has no key for a file that cannot be read.
fn take_line<R: Files + AllocGlobal, S: Subject + Drop>(
    rt: &R,
    line: &str,
    sheet: &mut Sheet<'_, S>,
) -> Result<(), AllocError> {
    match included(rt, line) {
        None => sheet.take_line(line),
        Some(text) => {
            for line in text.as_str().lines() {
                sheet.take_line(line)?;
            }
            Ok(())
        }
    }
}

/// The text of the file that a line includes.
fn included<R: Files + AllocGlobal>(rt: &R, line: &str) -> Option<String> {
    let file = line.strip_prefix("include ")?;
    fs::read_to_string(rt, file).ok()
}
