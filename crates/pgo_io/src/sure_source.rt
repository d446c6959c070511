ghost use Rattle.std.specs.Prelude.{◌≡◌, ℕ, ◌≤◌, min, List, length, take, drop, ◌++◌, Some};

use crate::errors::Failed;
use crate::source::Source;
use std::marker::Model;

/// A source of bytes in memory that never fails. Contracts see it as the bytes that it has left.
/// This project's choice.
#[derive(Drop)]
pub struct SureSource {
    bytes: Vec<u8>,
    taken: usize,
}

impl Model for SureSource {
    ghost Value = { List ℕ };

    ghost view = { λ s. drop s.taken s.bytes.items };

    ghost invariant = { λ s. s.taken ≤ length s.bytes.items };
}

impl SureSource {
    /// A source of these bytes.
    pub fn new(bytes: Vec<u8>) -> SureSource
        ensures { result ≡ bytes.items }
    {
        SureSource { bytes, taken: 0 }
    }
}

impl Source for SureSource {
    ghost left = { λ s. Some s };

    ghost faults = { λ _. 0 };

    fn read(&mut self, buf: &mut [u8]) -> Result<usize, Failed>
        ensures full { result ≡ Ok (min (length buf.old) (length self.old)) }
        ensures copied { buf.new ≡ take (length buf.old) self.old ++ drop (length self.old) buf.old }
        ensures rest { self.new ≡ drop (length buf.old) self.old }
    {
        let rest = &self.bytes[self.taken..];
        let n = buf.len().min(rest.len());
        buf[..n].copy_from_slice(&rest[..n]);
        self.taken += n;
        Ok(n)
    }
}
