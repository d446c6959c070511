// A sink whose calls are counted.
ghost use Rattle.pgo_io.specs.SureSink.{told};

use crate::streams::calls::Calls;
use pgo_io::errors::Failed;
use pgo_io::sink::Sink;
use pgo_io::sure_sink::SureSink;
use std::io;
use std::io::Write;

/// A sink in memory whose writes and flushes are counted.
#[derive(Drop)]
pub struct CountedSink {
    pub inner: SureSink,
    /// the most bytes that a write takes; it takes at least one
    pub most: usize,
    pub writes: Calls,
    pub flushes: Calls,
    /// how many writes and flushes have failed
    pub faults: u64,
}

impl Sink for CountedSink {
    ghost held = { λ s. told s.inner };

    ghost faults = { λ s. s.faults };

    fn write(&mut self, piece: &[u8]) -> Result<usize, Failed> {
        if self.writes.make() {
            let taken = piece.len().min(self.most.max(1));
            return self.inner.write(&piece[..taken]);
        }
        self.faults = self.faults.saturating_add(1);
        Err(Failed)
    }

    fn flush(&mut self) -> Result<(), Failed> {
        if self.flushes.make() {
            return Ok(());
        }
        self.faults = self.faults.saturating_add(1);
        Err(Failed)
    }
}

/// Such a sink as a writer of std.
#[derive(Drop)]
pub struct SinkWriter<'a> {
    pub sink: &'a mut CountedSink,
}

impl Write for SinkWriter<'_> {
    fn write(&mut self, buf: &[u8]) -> io::Result<usize> {
        match self.sink.write(buf) {
            Ok(n) => Ok(n),
            Err(_) => Err(io::ErrorKind::Other.into()),
        }
    }

    fn flush(&mut self) -> io::Result<()> {
        match self.sink.flush() {
            Ok(()) => Ok(()),
            Err(_) => Err(io::ErrorKind::Other.into()),
        }
    }
}
