// A reader and a writer of std of which one call fails.
use std::io;
use std::io::{Read, Write};

/// Whether this call fails: the one behind so many good ones, once.
fn is_failing(before: &mut Option<u32>) -> bool {
    let failing = *before == Some(0);
    *before = match *before {
        Some(n) if n > 0 => Some(n - 1),
        _ => None,
    };
    failing
}

/// Gives one byte in each call. One call fails, the one behind `before` good ones.
#[derive(Drop)]
pub struct FailingReader<'a> {
    pub bytes: &'a [u8],
    pub before: Option<u32>,
}

impl Read for FailingReader<'_> {
    fn read(&mut self, buf: &mut [u8]) -> io::Result<usize> {
        if is_failing(&mut self.before) {
            return Err(io::ErrorKind::Other.into());
        }
        if self.bytes.is_empty() || buf.is_empty() {
            return Ok(0);
        }
        buf[0] = self.bytes[0];
        self.bytes = &self.bytes[1..];
        Ok(1)
    }
}

/// Takes one byte in each call. One call fails, the one behind `before` good ones.
#[derive(Drop)]
pub struct FailingWriter<W> {
    pub inner: W,
    pub before: Option<u32>,
}

impl<W: Write> Write for FailingWriter<W> {
    fn write(&mut self, buf: &[u8]) -> io::Result<usize> {
        if is_failing(&mut self.before) {
            return Err(io::ErrorKind::Other.into());
        }
        self.inner.write(&buf[..buf.len().min(1)])
    }

    fn flush(&mut self) -> io::Result<()> {
        self.inner.flush()
    }
}
