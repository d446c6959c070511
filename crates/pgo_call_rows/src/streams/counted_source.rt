// A source whose calls are counted.
ghost use Rattle.std.specs.Prelude.{Some};

use crate::streams::calls::Calls;
use pgo_io::errors::Failed;
use pgo_io::source::Source;
use pgo_io::sure_source::SureSource;

/// A source in memory whose reads are counted.
#[derive(Drop)]
pub struct CountedSource {
    pub inner: SureSource,
    pub reads: Calls,
    /// how many reads have failed
    pub faults: u64,
}

impl Source for CountedSource {
    ghost left = { λ s. Some s.inner };

    ghost faults = { λ s. s.faults };

    fn read(&mut self, buf: &mut [u8]) -> Result<usize, Failed> {
        if self.reads.make() {
            return self.inner.read(buf);
        }
        self.faults = self.faults.saturating_add(1);
        Err(Failed)
    }
}
