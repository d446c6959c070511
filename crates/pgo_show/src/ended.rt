// How an explanation ended, and what is said of it.
ghost use Rattle.std.specs.Prelude.{◌≡◌, None};
ghost use Rattle.pgo_show.specs.Makes.{IsNoBundleEnd, IsNoComponentEnd};

use crate::status::Status;
use pgo_lines::line::Line;
use pgo_lines::line::Piece::{Bytes, Number};
use std::alloc::Global;

/// The status, and the line of the error output where the status has none of its own.
#[derive(Drop)]
pub struct Ended {
    pub status: Status,
    pub line: Option<Line>,
}

impl Ended {
    /// It ended so, and its line, if there is one, is that of its status.
    pub fn as_status(status: Status) -> Ended
        ensures status { result.status ≡ status }
        ensures line { result.line ≡ None }
    {
        Ended { status, line: None }
    }

    /// The text is no bundle, and this line of it is named; or there was no memory.
    pub fn as_no_bundle(alloc: Global, line: usize) -> Ended
        ensures { IsNoBundleEnd line result.status result.line }
    {
        match Line::of(
            alloc,
            &[
                Bytes(b"pgo: bundle at line "),
                Number(line as u64),
                Bytes(b"\n"),
            ],
        ) {
            Ok(line) => Ended {
                status: Status::BadBundle,
                line: Some(line),
            },
            Err(_) => Ended::as_status(Status::NoMemory),
        }
    }
    /// This component isn't there; or there was no memory.
    pub fn as_no_component(alloc: Global, component: &[u8]) -> Ended
        ensures { IsNoComponentEnd component.now result.status result.line }
    {
        match Line::of(
            alloc,
            &[Bytes(b"pgo: no component "), Bytes(component), Bytes(b"\n")],
        ) {
            Ok(line) => Ended {
                status: Status::NoComponent,
                line: Some(line),
            },
            Err(_) => Ended::as_status(Status::NoMemory),
        }
    }
}
