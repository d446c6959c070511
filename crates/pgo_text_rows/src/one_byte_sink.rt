// A sink that takes one byte in each call.
ghost use Rattle.std.specs.Prelude.{Some};

use pgo_io::errors::Failed;
use pgo_io::mem_sink::MemSink;
use pgo_io::sink::Sink;

/// A sink in memory that takes one byte in each call.
#[derive(Drop)]
pub struct OneByteSink {
    pub inner: MemSink,
}

impl Sink for OneByteSink {
    ghost held = { λ s. Some s.inner.content };

    ghost faults = { λ s. s.inner.calls.faults };

    fn write(&mut self, piece: &[u8]) -> Result<usize, Failed> {
        self.inner.write(&piece[..piece.len().min(1)])
    }

    fn flush(&mut self) -> Result<(), Failed> {
        self.inner.flush()
    }
}
