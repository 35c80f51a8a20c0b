//! A sink in memory.
ghost use Rattle.std.specs.Prelude.{◌≡◌, ◌≢◌, ◌≤◌, [], length, take, min, IfOk, OnOk, OnErr, IsErrOf, Contains, Some};
ghost use Rattle.std.specs.Io.KnownBytes.{append_known};
ghost use Rattle.deuce_io.specs.Fault.{Rose, next_count};

use crate::end::IoEnd;
use crate::sink::Sink;
use jmodel::Bytes;
use std::alloc::Global;

/// A sink in memory, which tells the bytes written. It takes at most `most` bytes per call, counts its calls
/// from 1, and fails those whose numbers stand in its list. Where it takes nothing of a piece that isn't
/// empty, that is a fault too. Each counter stays at its last value once it gets there.
#[derive(Drop)]
pub struct MemSink {
    pub written: Bytes,
    pub writes: u64,
    pub most: usize,
    /// The numbers of the writes that fail.
    pub fail_writes: Vec<u64>,
    pub faults: u64,
    /// How many writes have ended for want of memory.
    pub shortages: u64,
}

impl MemSink {
    /// A sink without bytes, of which no call fails by its number. Takes no memory.
    pub fn new(alloc: Global, most: usize) -> Self
        ensures { (result.written ≡ []) × (result.writes ≡ 0) × (result.most ≡ most) × (result.fail_writes.items ≡ []) × (result.faults ≡ 0) × (result.shortages ≡ 0) }
    {
        MemSink {
            written: Bytes::new(alloc),
            writes: 0,
            most,
            fail_writes: Vec::new(alloc),
            faults: 0,
            shortages: 0,
        }
    }
}

impl Sink for MemSink {
    ghost faults = { λ s. s.faults };

    ghost shortages = { λ s. s.shortages };

    ghost written = { λ s. Some s.written };

    fn write(&mut self, piece: &[u8]) -> Result<usize, IoEnd>
        // as of every sink
        ensures within { IfOk result (λ n. n ≤ length piece.now) }
        ensures appended { IfOk result (λ n. Some self.new.written ≡ append_known (Some self.old.written) (take n piece.now)) }
        ensures kept { OnErr result (Some self.new.written ≡ Some self.old.written) }
        ensures counts { self.old.faults ≤ self.new.faults }
        ensures shortage_counts { self.old.shortages ≤ self.new.shortages }
        ensures shortage { IsErrOf result IoEnd.NoMemory → Rose self.old.shortages self.new.shortages }
        ensures cause { IsErrOf result IoEnd.Failed → Rose self.old.faults self.new.faults }
        ensures none { IfOk result (λ n. n ≡ 0 → piece.now ≢ [] → Rose self.old.faults self.new.faults) }
        // of this one: what it takes, which calls fail, and what each call changes
        ensures taken { IfOk result (λ n. n ≡ min self.old.most (length piece.now)) }
        ensures failed { IsErrOf result IoEnd.Failed → Contains self.old.fail_writes.items (next_count self.old.writes) }
        ensures passed { OnOk result (Contains self.old.fail_writes.items (next_count self.old.writes) → ⊥) }
        ensures counted { IsErrOf result IoEnd.Failed → self.new.faults ≡ next_count self.old.faults }
        ensures short { IsErrOf result IoEnd.NoMemory → self.new.shortages ≡ next_count self.old.shortages }
        ensures no_other_short { IsErrOf result IoEnd.Failed → self.new.shortages ≡ self.old.shortages }
        ensures enough { OnOk result (self.new.shortages ≡ self.old.shortages) }
        ensures rest { self.new ≡ record self.old { written = self.new.written; writes = next_count self.old.writes; faults = self.new.faults; shortages = self.new.shortages } }
    {
        self.writes = self.writes.saturating_add(1);
        if self.fail_writes.contains(&self.writes) {
            self.faults = self.faults.saturating_add(1);
            return Err(IoEnd::Failed);
        }
        let taken = self.most.min(piece.len());
        if self.written.extend_from_slice(&piece[..taken]).is_err() {
            self.shortages = self.shortages.saturating_add(1);
            return Err(IoEnd::NoMemory);
        }
        if taken == 0 && !piece.is_empty() {
            self.faults = self.faults.saturating_add(1);
        }
        Ok(taken)
    }
}
