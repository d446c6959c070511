ghost use Rattle.std.specs.Prelude.{◌≡◌, ◌+◌, ◌≤◌, ◌↔◌, true, [], ◌++◌, take, length, IfOk, IsOk, IsTrue};
ghost use Rattle.pgo_io.specs.SureSink.{told};

use crate::errors::{Failed, NoMemory};
use crate::sink::Sink;
use std::alloc::Global;
use std::marker::Model;

/// A sink in memory that never fails. It takes all its memory when it is made. It tells what it
/// holds while that fits its room, and drops what is past the room: from then on it tells nothing.
/// This project's choice.
#[derive(Drop)]
pub struct SureSink {
    bytes: Vec<u8>,
    size: usize,
    is_whole: bool,
}

impl Model for SureSink {
    ghost use Rattle.std.specs.Prelude.{◌≤◌, length, vec_capacity};
    ghost use Rattle.pgo_io.specs.SureSink.{Kept};

    ghost Value = { Kept };

    ghost view = { λ s. record { content = s.bytes.items; room = s.size; whole = s.is_whole } };

    ghost invariant = { λ s. (length s.bytes.items ≤ s.size) × (s.size ≤ vec_capacity s.bytes) };
}

impl SureSink {
    /// An empty sink with room for `room` bytes.
    ///
    /// `NoMemory`: there is no memory for that many.
    pub fn with_room(alloc: Global, room: usize) -> Result<SureSink, NoMemory>
        ensures { IfOk result (λ s. s ≡ record { content = []; room = room; whole = true }) }
    {
        let bytes = Vec::with_capacity(alloc, room)?;
        Ok(SureSink {
            bytes,
            size: room,
            is_whole: true,
        })
    }

    /// Whether nothing was dropped, so that the sink tells what it holds.
    pub fn is_whole(&self) -> bool
        ensures { result ≡ self.now.whole }
    {
        self.is_whole
    }

    /// The first bytes that were written, as many as there is room for.
    pub fn content(&self) -> &[u8]
        ensures content { result.now ≡ self.now.content }
        ensures within { length result.now ≤ self.now.room }
    {
        self.bytes.as_slice()
    }
}

impl Sink for SureSink {
    ghost held = { told };

    ghost faults = { λ _. 0 };

    fn write(&mut self, piece: &[u8]) -> Result<usize, Failed>
        ensures all { result ≡ Ok (length piece.now) }
        ensures content { self.new.content ≡ take self.old.room (self.old.content ++ piece.now) }
        ensures whole { IsTrue self.new.whole ↔
            (IsTrue self.old.whole × (length self.old.content + length piece.now ≤ self.old.room)) }
        ensures room { self.new.room ≡ self.old.room }
    {
        let fits = piece.len().min(self.size - self.bytes.len());
        self.bytes.extend_from_slice(&piece[..fits]).unwrap();
        self.is_whole = self.is_whole && fits == piece.len();
        Ok(piece.len())
    }

    /// It keeps nothing back.
    fn flush(&mut self) -> Result<(), Failed>
        ensures same { self.new ≡ self.old }
        ensures never_fails { IsOk result }
    {
        Ok(())
    }
}
