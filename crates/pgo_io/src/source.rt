ghost use Rattle.std.specs.Prelude.{◌≡◌, ℕ, ◌<◌, ◌≤◌, List, length, take, Option, IfOk, OnOk, OnErr};
ghost use Rattle.std.specs.Io.KnownBytes.{Consumes, IsAtEnd, Keeps};
ghost use Rattle.pgo_io.specs.Faults.{Rose};

use crate::errors::Failed;

/// Where bytes come from. This project's choice.
pub trait Source {
    // The bytes that reads will give from here on, where the source tells that.
    ghost left: { Self → Option (List ℕ) };

    // How often the source has failed: a `u64`, which stands still at its last value.
    ghost faults: { Self → ℕ };

    /// Reads some bytes into the front of `buf`, and answers how many: from none to the length of
    /// `buf`. The rest of `buf` may hold any bytes. None, for a `buf` that is not empty, is the end
    /// of the input.
    ///
    /// `Failed`: the read failed, which the source counted. No byte is lost, and `buf` may hold any
    /// bytes.
    fn read(&mut self, buf: &mut [u8]) -> Result<usize, Failed>
        ensures bound { IfOk result (λ n. n ≤ length buf.old) }
        ensures bytes { IfOk result (λ n. Consumes (left self.old) (left self.new) (take n buf.new)) }
        ensures end { IfOk result (λ n. n ≡ 0 → 0 < length buf.old → IsAtEnd (left self.old)) }
        ensures kept { OnErr result (Keeps (left self.old) (left self.new)) }
        ensures cause { OnErr result (Rose (faults self.old) (faults self.new)) }
        ensures steady { OnOk result (faults self.new ≡ faults self.old) }
        ensures count { faults self.old ≤ faults self.new };
}
