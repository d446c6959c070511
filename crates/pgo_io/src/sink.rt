ghost use Rattle.std.specs.Prelude.{◌≡◌, ℕ, ◌<◌, ◌≤◌, List, length, take, Option, IfOk, OnOk, OnErr};
ghost use Rattle.pgo_io.specs.Faults.{Rose};
ghost use Rattle.pgo_io.specs.Sink.{Grows};

use crate::errors::Failed;

/// Where bytes go. This project's choice.
pub trait Sink {
    // The bytes that the sink holds, where it tells that. Once it tells nothing, it never tells again.
    ghost held: { Self → Option (List ℕ) };

    // How often the sink has failed: a `u64`, which stands still at its last value.
    ghost faults: { Self → ℕ };

    /// Takes some bytes from the front of `piece`, and answers how many: from one to the length of
    /// `piece`, and none of a piece that is empty.
    ///
    /// `Failed`: the write failed or took nothing, which the sink counted. It holds what it held.
    fn write(&mut self, piece: &[u8]) -> Result<usize, Failed>
        ensures bound { IfOk result (λ n. n ≤ length piece.now) }
        ensures some { IfOk result (λ n. 0 < length piece.now → 0 < n) }
        ensures bytes { IfOk result (λ n. Grows (held self.old) (held self.new) (take n piece.now)) }
        ensures kept { OnErr result (held self.new ≡ held self.old) }
        ensures cause { OnErr result (Rose (faults self.old) (faults self.new)) }
        ensures steady { OnOk result (faults self.new ≡ faults self.old) }
        ensures count { faults self.old ≤ faults self.new };

    /// Hands on what it has taken and kept back until now.
    ///
    /// `Failed`: that failed, which the sink counted. It holds what it held.
    fn flush(&mut self) -> Result<(), Failed>
        ensures kept { held self.new ≡ held self.old }
        ensures cause { OnErr result (Rose (faults self.old) (faults self.new)) }
        ensures steady { OnOk result (faults self.new ≡ faults self.old) }
        ensures count { faults self.old ≤ faults self.new };
}
