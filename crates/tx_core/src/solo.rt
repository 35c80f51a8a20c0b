//! An engine for one thread, which keeps the writes of an attempt back until its commit.
ghost use Rattle.std.specs.Prelude.{List, [], ℕ, ◌≡◌};
ghost use Rattle.jmodel.specs.history.History.{Entry};

use crate::engine::{Conflict, Engine, TxEnd};
use crate::write_log::WriteLog;
use jmodel::access::Access;
use jmodel::value::{Answer, Stamp};
use std::alloc::Global;
use std::marker::{Brand, PhantomData};
use std::snapshot::Snapshot;

/// What a history began with, and what its entries keep to. A caller picks all three for its proof.
pub trait Origin {
    /// The words.
    ghost first: { List ℕ };

    /// The used words of each region.
    ghost opened: { ℕ → ℕ };

    ghost rule: { Entry → Type 0 };
}

impl Origin for Brand {
    ghost first = { [] };

    ghost opened = { λ _. 0 };

    ghost rule = { λ _. Unit {0} };
}

/// The engine over a plain vector of words. It never answers `Conflict`.
#[derive(Drop)]
pub struct Solo<K> {
    words: Vec<u64>,
    /// How many updates were committed.
    clock: u64,
    writes: WriteLog,
    of: PhantomData<K>,
}

impl<K: Origin> Engine for Solo<K> {
    ghost use Rattle.std.specs.Prelude.{slice_index};
    ghost use Rattle.tx_core.specs.Serial.{word_in, StandsFor};
    ghost use Rattle.tx_core.specs.Snapshots.{serial_snapshot};

    ghost stands = { λ s h n r w. StandsFor K.rule K.first s.words.items s.clock s.writes.items h n r w };

    ghost is_open = { λ s. Unit {0} };

    ghost awaits = { λ s c used. Unit {0} };

    ghost allows = { K.rule };

    ghost begins = { λ first opened. (first ≡ word_in K.first) × (opened ≡ K.opened) };

    ghost is_shared = { ⊥ };

    ghost clock = { λ s. s.clock };

    ghost is_alone = { λ _. Unit {0} };

    ghost loaded = { λ s a x. slice_index s.words.items a ≡ x };

    fn begin(&mut self) {
        self.writes.clear();
    }

    fn before_read(&mut self, _address: u64) -> Result<(), Conflict> {
        Ok(())
    }

    fn raw(&mut self, address: u64) -> u64 {
        self.word(address)
    }

    fn on_read(&mut self, address: u64, _raw: u64) -> Result<u64, TxEnd> {
        Ok(match self.writes.written(address) {
            Some(word) => word,
            None => self.word(address),
        })
    }

    // A word beyond the end of memory isn't there.
    fn on_write(&mut self, address: u64, word: u64) -> Result<(), TxEnd> {
        if address as usize >= self.words.len()
            || self.writes.push(Access { address, word }).is_err()
        {
            return Err(TxEnd::NoMemory);
        }
        Ok(())
    }

    fn commit(&mut self, _answer: Snapshot<Answer>, _used: Snapshot<u64>) -> Result<Stamp, TxEnd> {
        if self.writes.is_empty() {
            return Ok(Stamp {
                at: self.clock,
                update: false,
            });
        }
        write_all(&mut self.words, &self.writes);
        self.writes.clear();
        self.clock += 1;
        Ok(Stamp {
            at: self.clock,
            update: true,
        })
    }

    fn finish_refused(&mut self, _answer: Snapshot<Answer>) -> Stamp {
        self.writes.clear();
        Stamp {
            at: self.clock,
            update: false,
        }
    }

    fn rollback(&mut self) {
        self.writes.clear();
    }

    fn ticks(&self) -> u64 {
        self.clock
    }

    ghost snapshot = { λ e h n r w c used stands opens awaits leads. serial_snapshot K.rule K.first e.words.items e.clock e.writes.items K.opened h n r w c used stands leads };
}

impl<K> Solo<K> {
    ghost use Rattle.std.specs.Prelude.{slice_index};

    /// The word at an address, 0 beyond the end.
    fn word(&self, address: u64) -> u64
        ensures { result ≡ slice_index self.now.words.items address }
    {
        self.words.get(address as usize).copied().unwrap_or(0)
    }

    /// The words.
    pub fn into_words(self) -> Vec<u64>
        ensures { result ≡ self.words }
    {
        self.words
    }
}

impl<K: Origin> Solo<K> {
    ghost use Rattle.tx_core.specs.Serial.{StandsFor};

    /// The engine over these words, with no history. No memory.
    pub fn new(alloc: Global, words: Vec<u64>) -> Self
        requires { words.items ≡ K.first }
        ensures stands { StandsFor K.rule K.first result.words.items result.clock result.writes.items [] 0 [] [] }
        ensures clock { result.clock ≡ 0 }
    {
        Solo {
            words,
            clock: 0,
            writes: WriteLog::new(alloc),
            of: PhantomData,
        }
    }
}

ghost use Rattle.std.specs.Prelude.{reverse, ◌<◌, length, slice_index};
ghost use Rattle.jmodel.specs.history.Log.{answered};

/// Writes to each address the last word of the log.
fn write_all(words: &mut Vec<u64>, writes: &WriteLog)
    ensures size { length words.new.items ≡ length words.old.items }
    ensures words { (a : ℕ) → a < length words.old.items → slice_index words.new.items a ≡ answered (reverse writes.now.items) a (slice_index words.old.items a) }
{
    for (address, word) in writes.iter() {
        let at = *address as usize;
        if at < words.len() {
            words[at] = *word;
        }
    }
}
