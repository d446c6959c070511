// Rows on texts: their tokens, what the readers and writers of texts make of them, the rules of labels, and streams of bytes.
#![tactic(auto)]

mod answer;
mod expressions;
mod fails_once;
mod labels;
mod modules;
mod one_byte_sink;
mod operators;
mod parts;
mod shapes;
mod specifications;
mod spellings;
mod streams;
mod texts;
mod tokens;

use crate::streams::Streams;
use crate::texts::{Reader, Texts};
use pgo_sheet::files::{Counts, ending, not_run, run_sheet};
use std::io;
use std::rt::Files;

const READERS: [(&str, Reader); 6] = [
    ("tokens", Reader::Tokens),
    ("parts", Reader::Parts),
    ("expressions", Reader::Expressions),
    ("specifications", Reader::Specifications),
    ("labels", Reader::Labels),
    ("modules", Reader::Modules),
];

/// Runs the sheet of a file, by its ending.
pub fn run_texts<R: Files + AllocGlobal + Print>(rt: &R, file: &str) -> io::Result<Counts> {
    let ending = ending(file);
    for row in &READERS {
        if row.0 == ending {
            return run_sheet(rt, file, Texts::new(rt.alloc(), row.1));
        }
    }
    if ending == "streams" {
        return run_sheet(rt, file, Streams::new(rt.alloc()));
    }
    not_run(rt, file, "no subject has this ending")
}
