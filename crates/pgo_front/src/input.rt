// The input of a command, read to its end.
ghost use Rattle.std.specs.Prelude.{◌≡◌, ◌≤◌, ◌⊎◌, length, IfOk, IfErr, IfSome, OnOk};
ghost use Rattle.pgo_front.specs.Answers.{IsAtEnd};
ghost use Rattle.pgo_front.specs.Makes.{StopsReading};

use crate::status::Status;
use pgo_io::read_all::{ReadStop, read_all};
use pgo_io::source::Source;
use std::alloc::Global;

/// The most bytes of a specification.
pub const MOST_BYTES: u64 = 1_048_576;

/// The most bytes of a bundle.
pub const MOST_BUNDLE_BYTES: u64 = 268_435_456;

/// All bytes of the input, at most `limit`.
pub fn read_input<S: Source>(alloc: Global, input: &mut S, limit: u64) -> Result<Vec<u8>, Status>
    ensures all { IfOk result (λ v. IfSome (S.left input.old) (λ bs. v.items ≡ bs)) }
    ensures within { IfOk result (λ v. length v.items ≤ limit) }
    ensures err { IfErr result (StopsReading limit (S.left input.old) (S.faults input.old) (S.faults input.new)) }
    ensures ended { OnOk result (IsAtEnd (S.left input.old) (S.left input.new)) }
    ensures steady { OnOk result (S.faults input.new ≡ S.faults input.old) }
    ensures failed { IfErr result (λ s. (s ≡ Status.ReadFault) ⊎ (S.faults input.new ≡ S.faults input.old)) }
{
    match read_all(alloc, input, limit) {
        Ok(text) => Ok(text),
        Err(ReadStop::Fault) => Err(Status::ReadFault),
        Err(ReadStop::TooLong { .. }) => Err(Status::TooLong),
        Err(ReadStop::NoMemory) => Err(Status::NoMemory),
    }
}
