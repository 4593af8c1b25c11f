//! Bytes that are read in order.

ghost use Rattle.std.specs.Prelude.{◌≡◌, ℕ, ◌<◌, ◌≤◌, Option, length, take, IfOk, OnErr};
ghost use Rattle.qccd_io.specs.Faults.{Rose};
ghost use Rattle.qccd_io.specs.Source.{Telling, Reads, AtEnd};

use crate::failed::Failed;

/// Bytes that are read in order, as those of an open file.
///
/// `faults` counts the reads that failed. A source over memory also tells what is still to be
/// read; one over the world outside tells nothing.
pub trait Source {
    ghost faults: { Self → ℕ };

    ghost told: { Self → Option Telling };

    /// Reads the next bytes to the front of `buf`, and says how many: 0 for a buffer that is not
    /// empty means that the input has ended. Where it fails, nothing was taken.
    fn read(&mut self, buf: &mut [u8]) -> Result<usize, Failed>
        ensures counts { faults self.old ≤ faults self.new }
        ensures fits { IfOk result (λ n. n ≤ length buf.old) }
        ensures reads { IfOk result (λ n. Reads (told self.old) (take n buf.new) (told self.new)) }
        ensures ends { IfOk result (λ n. n ≡ 0 → 0 < length buf.old → AtEnd (told self.new)) }
        ensures failed { OnErr result (Rose (faults self.old) (faults self.new)) }
        ensures keeps { OnErr result (told self.new ≡ told self.old) };
}
