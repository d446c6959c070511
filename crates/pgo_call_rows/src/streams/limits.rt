// How far the streams of a command work.

/// How many calls of each kind succeed before the one that fails, and how the output goes.
#[derive(Clone, Copy)]
pub struct Limits {
    pub reads: u64,
    pub writes: u64,
    pub flushes: u64,
    pub error_writes: u64,
    /// the most bytes that a write takes
    pub most: u64,
    /// how many bytes the buffer before the output has; none: there is no buffer
    pub buffer: Option<u64>,
}

impl Limits {
    /// Streams that never fail.
    pub fn none() -> Limits {
        Limits {
            reads: u64::MAX,
            writes: u64::MAX,
            flushes: u64::MAX,
            error_writes: u64::MAX,
            most: u64::MAX,
            buffer: None,
        }
    }

    /// Takes a line of this key; false: there is no such key, or no number behind it.
    pub fn take(&mut self, key: &str, digits: &str) -> bool {
        match digits.parse::<u64>() {
            Ok(number) => self.set(key, number),
            Err(_) => false,
        }
    }

    fn set(&mut self, key: &str, number: u64) -> bool {
        match key {
            "reads" => self.reads = number,
            "writes" => self.writes = number,
            "flushes" => self.flushes = number,
            "error_writes" => self.error_writes = number,
            "takes" => self.most = number,
            "buffer" => self.buffer = Some(number),
            _ => return false,
        }
        true
    }
}
