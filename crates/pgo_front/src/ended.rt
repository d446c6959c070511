// How a command ended.
ghost use Rattle.std.specs.Prelude.{◌≡◌, None, Some, IfOk};
ghost use Rattle.pgo_front.specs.Makes.{IsRejected, IsNoBundleEnd};
ghost use Rattle.pgo_front.specs.Verdicts.{bundle_line as line_at};

use crate::status::Status;
use pgo_accept::errors::Rejection;
use pgo_accept::lines::rejection_line;
use pgo_lines::line::Line;
use pgo_lines::line::Piece::{Bytes, Number};
use std::alloc::{AllocError, Global};

/// The status of a command, and the line of the error output where the status has none of its own.
#[derive(Drop)]
pub struct Ended {
    pub status: Status,
    pub line: Option<Line>,
}

impl Ended {
    /// The command ended so, and its line, if there is one, is that of its status.
    pub fn as_status(status: Status) -> Ended
        ensures status { result.status ≡ status }
        ensures line { result.line ≡ None }
    {
        Ended { status, line: None }
    }

    /// A specification was refused with this line.
    pub fn with_line(line: Line) -> Ended
        ensures status { result.status ≡ Status.SpecRefused }
        ensures line { result.line ≡ Some line }
    {
        Ended {
            status: Status::SpecRefused,
            line: Some(line),
        }
    }

    /// A specification was refused so; or there was no memory.
    pub fn as_rejected(alloc: Global, rejection: &Rejection) -> Ended
        ensures { IsRejected rejection.now result.status result.line }
    {
        match rejection_line(alloc, rejection) {
            Ok(line) => Ended::with_line(line),
            Err(_) => Ended::as_status(Status::NoMemory),
        }
    }

    /// A text is no bundle, or isn't brought over, for this line; or there was no memory.
    pub fn as_no_bundle(alloc: Global, line: usize) -> Ended
        ensures { IsNoBundleEnd line result.status result.line }
    {
        match bundle_line(alloc, line) {
            Ok(line) => Ended {
                status: Status::BadBundle,
                line: Some(line),
            },
            Err(_) => Ended::as_status(Status::NoMemory),
        }
    }
}

/// `pgo: bundle at line n`.
fn bundle_line(alloc: Global, number: usize) -> Result<Line, AllocError>
    ensures { IfOk result (λ l. l ≡ line_at number) }
{
    Line::of(
        alloc,
        &[
            Bytes(b"pgo: bundle at line "),
            Number(number as u64),
            Bytes(b"\n"),
        ],
    )
}
