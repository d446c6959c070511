ghost use Rattle.std.specs.Prelude.{◌≡◌, ℕ, ◌+◌, ◌<◌, ◌≤◌, ◌⊎◌, [], length, vec_len, IfOk, OnOk, IfSome, IsErrOf};
ghost use Rattle.pgo_io.specs.Faults.{Rose};
ghost use Rattle.pgo_io.specs.Source.{LosesAtMost};
ghost use Rattle.pgo_io.specs.declared.read_all.ReadStop.TheVariants.{Fault, NoMemory};

use crate::errors::Failed;
use crate::source::Source;
use std::alloc::{AllocError, Global};
use thiserror::Error;

/// Why the bytes of a source were not read to the end. This project's choice.
#[derive(Clone, Copy, Debug, PartialEq, Eq, Error)]
pub enum ReadStop {
    /// The source failed.
    #[error("the input failed")]
    Fault,
    /// The source gave more than `limit` bytes.
    #[error("the input is longer than {limit} bytes")]
    TooLong { limit: u64 },
    /// There was no memory for the bytes.
    #[error("out of memory")]
    NoMemory,
}

impl From<Failed> for ReadStop {
    ghost from_gives = { λ _ stop. stop ≡ Fault };

    fn from(_error: Failed) -> ReadStop {
        ReadStop::Fault
    }
}

impl From<AllocError> for ReadStop {
    ghost from_gives = { λ _ stop. stop ≡ NoMemory };

    fn from(_error: AllocError) -> ReadStop {
        ReadStop::NoMemory
    }
}

/// How many bytes `read_all` asks for in one call. This project's choice.
pub const BLOCK: usize = 8192;

/// Reads all bytes that the source has left, up to its end. At most `limit` bytes are answered.
///
/// `Fault`: the source failed. `TooLong`: the source gave more than `limit` bytes; it has been read
/// past the limit by at most one block of 8,192 bytes. `NoMemory`: there was no memory for the
/// bytes. After each of them the source goes on behind what was read. This project's choice.
pub fn read_all<S: Source>(alloc: Global, source: &mut S, limit: u64) -> Result<Vec<u8>, ReadStop>
    ensures all { IfOk result (λ v. IfSome (S.left source.old) (λ bs. v.items ≡ bs)) }
    ensures within { IfOk result (λ v. vec_len v ≤ limit) }
    ensures end { OnOk result (IfSome (S.left source.old) (λ _. S.left source.new ≡ Some [])) }

    ensures fault { IsErrOf result ReadStop.Fault → Rose (S.faults source.old) (S.faults source.new) }
    ensures same_limit { (n : ℕ) → IsErrOf result (ReadStop.TooLong n) → n ≡ limit }
    ensures too_long { (n : ℕ) → IsErrOf result (ReadStop.TooLong n) →
        IfSome (S.left source.old) (λ bs. limit < length bs) }

    ensures taken { LosesAtMost (S.left source.old) (S.left source.new) (limit + BLOCK) }
    // A failure is never passed over.
    ensures steady { IsErrOf result ReadStop.Fault ⊎ (S.faults source.new ≡ S.faults source.old) }
    ensures count { S.faults source.old ≤ S.faults source.new }
{
    let mut bytes = Vec::new(alloc);
    let mut block = [0u8; BLOCK];
    'reading: loop {
        let n = source.read(&mut block)?;
        if n == 0 {
            return Ok(bytes);
        }
        if limit - (bytes.len() as u64) < n as u64 {
            return Err(ReadStop::TooLong { limit });
        }
        bytes.extend_from_slice(&block[..n])?;
    }
}
