// The input, read to its end.
ghost use Rattle.std.specs.Prelude.{◌≡◌, ◌≤◌, ◌⊎◌, length, IfOk, IfErr, IfSome, OnOk};
ghost use Rattle.pgo_show.specs.Makes.{IsAtEnd, StopsReading, most_bytes};

use crate::status::Status;
use pgo_io::read_all::{ReadStop, read_all};
use pgo_io::source::Source;
use std::alloc::Global;

/// The most bytes of a bundle.
const MOST_BYTES: u64 = 268_435_456;

/// All bytes of the input, at most as many as a bundle may have.
pub fn read_input<S: Source>(alloc: Global, input: &mut S) -> Result<Vec<u8>, Status>
    ensures all { IfOk result (λ v. IfSome (S.left input.old) (λ bs. v.items ≡ bs)) }
    ensures within { IfOk result (λ v. length v.items ≤ most_bytes) }
    ensures err { IfErr result (StopsReading (S.left input.old) (S.faults input.old) (S.faults input.new)) }
    ensures ended { OnOk result (IsAtEnd (S.left input.old) (S.left input.new)) }
    ensures steady { OnOk result (S.faults input.new ≡ S.faults input.old) }
    ensures failed { IfErr result (λ s. (s ≡ Status.ReadFault) ⊎ (S.faults input.new ≡ S.faults input.old)) }
{
    match read_all(alloc, input, MOST_BYTES) {
        Ok(text) => Ok(text),
        Err(ReadStop::Fault) => Err(Status::ReadFault),
        Err(ReadStop::TooLong { .. }) => Err(Status::TooLong),
        Err(ReadStop::NoMemory) => Err(Status::NoMemory),
    }
}
