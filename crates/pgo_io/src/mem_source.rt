ghost use Rattle.std.specs.Prelude.{◌≡◌, ◌≤◌, ◌↔◌, min, length, take, drop, ◌++◌, Some, IsErr, IfOk, OnOk, OnErr};
ghost use Rattle.pgo_io.specs.Calls.{IsListed, with_success, with_fault};
ghost use Rattle.pgo_io.specs.Faults.{Rose};

use crate::calls::Calls;
use crate::errors::Failed;
use crate::source::Source;
use crate::sure_source::SureSource;
use std::marker::Model;

/// A source of bytes in memory that fails at listed calls. This project's choice.
#[derive(Drop)]
pub struct MemSource {
    inner: SureSource,
    calls: Calls,
}

impl Model for MemSource {
    ghost use Rattle.pgo_io.specs.MemSource.{Supply};

    ghost Value = { Supply };

    ghost view = { λ s. record { rest = s.inner; calls = s.calls } };
}

impl MemSource {
    /// A source of these bytes. Its calls of `read` are counted from 1, and those with the numbers
    /// in `failing` fail. The counts of calls and of faults stand still at 2^64 - 1.
    pub fn new(bytes: Vec<u8>, failing: Vec<u64>) -> MemSource
        ensures rest { result.rest ≡ bytes.items }
        ensures calls { result.calls ≡ record { failing = failing.items; made = 0; faults = 0 } }
    {
        MemSource {
            inner: SureSource::new(bytes),
            calls: Calls::new(failing),
        }
    }

    /// How many reads have failed.
    pub fn faults(&self) -> u64
        ensures { result ≡ self.now.calls.faults }
    {
        self.calls.faults()
    }
}

impl Source for MemSource {
    ghost left = { λ s. Some s.rest };

    ghost faults = { λ s. s.calls.faults };

    fn read(&mut self, buf: &mut [u8]) -> Result<usize, Failed>
        ensures fails { IsErr result ↔ IsListed self.old.calls }
        ensures full { IfOk result (λ n. n ≡ min (length buf.old) (length self.old.rest)) }
        ensures copied { OnOk result (buf.new ≡
            take (length buf.old) self.old.rest ++ drop (length self.old.rest) buf.old) }
        ensures rest { OnOk result (self.new.rest ≡ drop (length buf.old) self.old.rest) }
        ensures counted { OnOk result (self.new.calls ≡ with_success self.old.calls) }
        ensures kept { OnErr result (self.new.rest ≡ self.old.rest) }
        ensures fault { OnErr result (self.new.calls ≡ with_fault self.old.calls) }
        ensures cause { OnErr result (Rose self.old.calls.faults self.new.calls.faults) }
        ensures count { self.old.calls.faults ≤ self.new.calls.faults }
    {
        self.calls.make(true)?;
        self.inner.read(buf)
    }
}
