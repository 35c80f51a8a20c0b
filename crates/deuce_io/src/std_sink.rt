//! Standard output.
ghost use Rattle.std.specs.Prelude.{◌≡◌, ◌≢◌, ◌≤◌, [], length, IfOk, OnOk, OnErr, IsErrOf, None};
ghost use Rattle.deuce_io.specs.Fault.{Rose, next_count};
ghost use Rattle.std.specs.IoError.{error_kind};

use crate::end::IoEnd;
use crate::sink::Sink;
use std::io;
use std::io::{ErrorKind, Write};

/// Standard output, which doesn't tell the bytes written.
#[derive(Drop)]
pub struct StdSink<R: Print + Drop> {
    rt: R,
    /// How many writes have failed, or taken nothing of a piece that isn't empty.
    pub faults: u64,
    /// How many writes have ended for want of memory.
    pub shortages: u64,
}

impl<R: Print + Drop> StdSink<R> {
    /// The standard output of a runtime. Takes no memory.
    pub fn new(rt: R) -> Self
        ensures { (result.faults ≡ 0) × (result.shortages ≡ 0) }
    {
        StdSink {
            rt,
            faults: 0,
            shortages: 0,
        }
    }
}

impl<R: Print + Drop> Sink for StdSink<R> {
    ghost faults = { λ s. s.faults };

    ghost shortages = { λ s. s.shortages };

    ghost written = { λ s. None };

    fn write(&mut self, piece: &[u8]) -> Result<usize, IoEnd>
        // as of every sink
        ensures within { IfOk result (λ n. n ≤ length piece.now) }
        ensures counts { self.old.faults ≤ self.new.faults }
        ensures shortage_counts { self.old.shortages ≤ self.new.shortages }
        ensures shortage { IsErrOf result IoEnd.NoMemory → Rose self.old.shortages self.new.shortages }
        ensures cause { IsErrOf result IoEnd.Failed → Rose self.old.faults self.new.faults }
        ensures none { IfOk result (λ n. n ≡ 0 → piece.now ≢ [] → Rose self.old.faults self.new.faults) }
        // of this one: the count rises at each error, and but for a piece of which nothing was taken only there; that of
        // writes without memory rises at those
        ensures rises { OnErr result (self.new.faults ≡ next_count self.old.faults) }
        ensures short { IsErrOf result IoEnd.NoMemory → self.new.shortages ≡ next_count self.old.shortages }
        ensures enough { OnOk result (self.new.shortages ≡ self.old.shortages) }
        ensures stands { IfOk result (λ n. (n ≡ 0 → piece.now ≡ []) → self.new.faults ≡ self.old.faults) }
    {
        match io::writer(&self.rt).write(piece) {
            Ok(taken) => {
                if taken == 0 && !piece.is_empty() {
                    self.faults = self.faults.saturating_add(1);
                }
                Ok(taken)
            }
            Err(error) => {
                self.faults = self.faults.saturating_add(1);
                let end = end_of(&error);
                if end == IoEnd::NoMemory {
                    self.shortages = self.shortages.saturating_add(1);
                }
                Err(end)
            }
        }
    }
}

/// What an error of the machine is to the caller: want of memory, or a fault.
pub(crate) fn end_of(error: &io::Error) -> IoEnd {
    match error.kind() {
        ErrorKind::OutOfMemory => IoEnd::NoMemory,
        _ => IoEnd::Failed,
    }
}
