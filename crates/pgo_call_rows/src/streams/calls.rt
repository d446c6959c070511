// Calls of one kind, which are counted.

/// How many calls were made, and how many succeed before the one that fails.
#[derive(Clone, Copy)]
pub struct Calls {
    pub made: u64,
    good: u64,
}

impl Calls {
    /// No call so far. The one behind so many good ones fails.
    pub fn failing_behind(good: u64) -> Calls {
        Calls { made: 0, good }
    }

    /// Counts a call, and answers whether it succeeds.
    pub fn make(&mut self) -> bool {
        let is_good = self.made != self.good;
        self.made = self.made.saturating_add(1);
        is_good
    }
}
