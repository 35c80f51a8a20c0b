//! Where output goes.
ghost use Rattle.std.specs.Prelude.{◌≡◌, ◌≢◌, ◌≤◌, ℕ, List, [], Option, length, take, IfOk, OnErr, IsErrOf};
ghost use Rattle.std.specs.Io.KnownBytes.{append_known};
ghost use Rattle.deuce_io.specs.Fault.{Rose};

use crate::end::IoEnd;

/// Where output goes.
///
/// A clause reads its count of faults as `O.faults o`, its count of writes that ended for want of memory as
/// `O.shortages o`, and the bytes written as `O.written o`, which is `None` where it doesn't tell them.
pub trait Sink {
    /// How often it has failed.
    ghost faults: { Self → ℕ };

    /// How many writes have ended for want of memory.
    ghost shortages: { Self → ℕ };

    /// The bytes written, where they are told.
    ghost written: { Self → Option (List ℕ) };

    /// Writes the first bytes of a piece, and answers how many. `Failed` where nothing could be written, and so
    /// is 0 for a piece that isn't empty.
    fn write(&mut self, piece: &[u8]) -> Result<usize, IoEnd>
        ensures within { IfOk result (λ n. n ≤ length piece.now) }
        ensures appended { IfOk result (λ n. written self.new ≡ append_known (written self.old) (take n piece.now)) }
        ensures kept { OnErr result (written self.new ≡ written self.old) }
        ensures counts { faults self.old ≤ faults self.new }
        ensures shortage_counts { shortages self.old ≤ shortages self.new }
        ensures shortage { IsErrOf result IoEnd.NoMemory → Rose (shortages self.old) (shortages self.new) }
        ensures cause { IsErrOf result IoEnd.Failed → Rose (faults self.old) (faults self.new) }
        ensures none { IfOk result (λ n. n ≡ 0 → piece.now ≢ [] → Rose (faults self.old) (faults self.new)) };
}
