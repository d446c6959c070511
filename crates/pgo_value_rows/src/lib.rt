// Rows on values: what values, sets, expressions, texts of values and bundles, copies and checks give.
#![tactic(auto)]

mod answers;
mod bundles;
mod copies;
mod expressions;
mod logs;
mod operators;
mod scene;
mod values;
mod verdicts;

use crate::bundles::Bundles;
use crate::copies::Copies;
use crate::expressions::Expressions;
use crate::operators::Operators;
use crate::values::Values;
use crate::verdicts::Verdicts;
use pgo_sheet::files::{Counts, ending, not_run, run_sheet};
use std::io;
use std::rt::Files;

/// Runs the sheet of a file, by its ending.
pub fn run_values<R: Files + AllocGlobal + Print>(rt: &R, file: &str) -> io::Result<Counts> {
    let alloc = rt.alloc();
    match ending(file) {
        "bundles" => run_sheet(rt, file, Bundles::new(alloc)),
        "copies" => run_sheet(rt, file, Copies::new(alloc)),
        "expressions" => run_sheet(rt, file, Expressions::new(alloc)),
        "operators" => run_sheet(rt, file, Operators::new(alloc)),
        "values" => run_sheet(rt, file, Values::new(alloc)),
        "verdicts" => run_sheet(rt, file, Verdicts::new(alloc)?),
        _ => not_run(rt, file, "no subject has this ending"),
    }
}
