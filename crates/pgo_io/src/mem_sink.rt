ghost use Rattle.std.specs.Prelude.{◌≡◌, ◌-◌, ◌≤◌, ◌⊎◌, ◌↔◌, [], min, length, take, ◌++◌, Some, IsTrue, IsErr, IsOk, IfOk, OnOk, OnErr};
ghost use Rattle.pgo_io.specs.Calls.{IsListed, with_success, with_fault};
ghost use Rattle.pgo_io.specs.Faults.{Rose};
ghost use Rattle.pgo_io.specs.MemSink.{LacksRoom};

use crate::calls::Calls;
use crate::errors::{Failed, NoMemory};
use crate::sink::Sink;
use std::alloc::Global;
use std::marker::Model;

/// A sink in memory that fails at listed calls, and where it has no room left. It takes all its
/// memory when it is made. This project's choice.
#[derive(Drop)]
pub struct MemSink {
    bytes: Vec<u8>,
    size: usize,
    calls: Calls,
}

impl Model for MemSink {
    ghost use Rattle.std.specs.Prelude.{◌≤◌, length, vec_capacity};
    ghost use Rattle.pgo_io.specs.MemSink.{Store};

    ghost Value = { Store };

    ghost view = { λ s. record { content = s.bytes.items; room = s.size; calls = s.calls } };

    ghost invariant = { λ s. (length s.bytes.items ≤ s.size) × (s.size ≤ vec_capacity s.bytes) };
}

impl MemSink {
    /// An empty sink with room for `room` bytes. Its calls of `write` are counted from 1, and those
    /// with the numbers in `failing` fail. The counts of calls and of faults stand still at
    /// 2^64 - 1.
    ///
    /// `NoMemory`: there is no memory for that many bytes.
    pub fn new(alloc: Global, room: usize, failing: Vec<u64>) -> Result<MemSink, NoMemory>
        ensures content { IfOk result (λ s. s.content ≡ []) }
        ensures room { IfOk result (λ s. s.room ≡ room) }
        ensures calls { IfOk result (λ s.
            s.calls ≡ record { failing = failing.items; made = 0; faults = 0 }) }
    {
        let bytes = Vec::with_capacity(alloc, room)?;
        Ok(MemSink {
            bytes,
            size: room,
            calls: Calls::new(failing),
        })
    }

    /// The bytes that were taken.
    pub fn content(&self) -> &[u8]
        ensures content { result.now ≡ self.now.content }
        ensures within { length result.now ≤ self.now.room }
    {
        self.bytes.as_slice()
    }

    /// Whether no room is left, so that no piece with some byte is taken any more.
    pub fn is_full(&self) -> bool
        ensures { IsTrue result ↔ (self.now.room ≤ length self.now.content) }
    {
        self.size <= self.bytes.len()
    }

    /// How many writes have failed.
    pub fn faults(&self) -> u64
        ensures { result ≡ self.now.calls.faults }
    {
        self.calls.faults()
    }
}

impl Sink for MemSink {
    ghost held = { λ s. Some s.content };

    ghost faults = { λ s. s.calls.faults };

    fn write(&mut self, piece: &[u8]) -> Result<usize, Failed>
        ensures fails { IsErr result ↔ (IsListed self.old.calls ⊎ LacksRoom self.old piece.now) }
        ensures fits { IfOk result (λ n.
            n ≡ min (length piece.now) (self.old.room - length self.old.content)) }
        ensures taken { IfOk result (λ n.
            self.new.content ≡ self.old.content ++ take n piece.now) }
        ensures counted { OnOk result (self.new.calls ≡ with_success self.old.calls) }
        ensures kept { OnErr result (self.new.content ≡ self.old.content) }
        ensures fault { OnErr result (self.new.calls ≡ with_fault self.old.calls) }
        ensures cause { OnErr result (Rose self.old.calls.faults self.new.calls.faults) }
        ensures count { self.old.calls.faults ≤ self.new.calls.faults }
        ensures room { self.new.room ≡ self.old.room }
    {
        let fits = piece.len().min(self.size - self.bytes.len());
        self.calls.make(fits > 0 || piece.is_empty())?;
        self.bytes.extend_from_slice(&piece[..fits]).unwrap();
        Ok(fits)
    }

    /// It keeps nothing back.
    fn flush(&mut self) -> Result<(), Failed>
        ensures same { self.new ≡ self.old }
        ensures never_fails { IsOk result }
    {
        Ok(())
    }
}
