//! An engine whose conflicts are kept.
use jmodel::value::{Answer, Stamp};
use std::marker::{Brand, PhantomData};
use std::snapshot::Snapshot;
use tx_core::{Conflict, Engine, TxEnd};

/// Which call an engine awaits, and how many words of its region are used before it. A caller picks both for its proof.
pub trait Expecting {
    ghost use Rattle.std.specs.Prelude.{ℕ};
    ghost use Rattle.jmodel.specs.history.History.{Call};

    ghost call: { Call };

    ghost used: { ℕ };
}

impl Expecting for Brand {
    ghost use Rattle.std.specs.Prelude.{[]};

    ghost call = { record { phase = 0; lane = 0; index = 0; method = 0; args = []; region = 0 } };

    ghost used = { 0 };
}

/// An engine that does what another does, and keeps the conflicts that it tells.
#[derive(Drop)]
pub struct Heard<E, X> {
    pub engine: E,
    /// How many conflicts were met.
    pub conflicts: u64,
    pub last: Option<Conflict>,
    expects: PhantomData<X>,
}

impl<E, X> Heard<E, X> {
    ghost use Rattle.std.specs.Prelude.{◌≡◌};

    pub fn new(engine: E) -> Self
        ensures { result.engine ≡ engine }
    {
        Heard {
            engine,
            conflicts: 0,
            last: None,
            expects: PhantomData,
        }
    }

    fn hear(&mut self, conflict: Conflict)
        ensures { self.new.engine ≡ self.old.engine }
    {
        self.conflicts = self.conflicts.wrapping_add(1);
        self.last = Some(conflict);
    }

    fn hear_end(&mut self, end: TxEnd)
        ensures { self.new.engine ≡ self.old.engine }
    {
        if let TxEnd::Conflict(conflict) = end {
            self.hear(conflict);
        }
    }
}

impl<E: Engine, X: Expecting> Engine for Heard<E, X> {
    ghost use Rattle.run_tests.specs.Heard.{StandsFor};

    // Until an entry is added, the call is awaited.
    ghost stands = { λ s h n r w. StandsFor X.call X.used (E.stands s.engine) (E.awaits s.engine) h n r w };

    ghost is_open = { λ s. E.is_open s.engine };

    ghost awaits = { λ s c used. E.awaits s.engine c used };

    ghost allows = { E.allows };

    ghost begins = { E.begins };

    ghost is_shared = { E.is_shared };

    ghost clock = { λ s. E.clock s.engine };

    ghost has_read = { λ s a. E.has_read s.engine a };

    fn begin(&mut self) {
        self.engine.begin();
    }

    fn before_read(&mut self, address: u64) -> Result<(), Conflict> {
        match self.engine.before_read(address) {
            Ok(()) => Ok(()),
            Err(conflict) => {
                self.hear(conflict);
                Err(conflict)
            }
        }
    }

    fn raw(&mut self, address: u64) -> u64 {
        self.engine.raw(address)
    }

    fn on_read(&mut self, address: u64, raw: u64) -> Result<u64, TxEnd> {
        match self.engine.on_read(address, raw) {
            Ok(word) => Ok(word),
            Err(end) => {
                self.hear_end(end);
                Err(end)
            }
        }
    }

    fn on_write(&mut self, address: u64, word: u64) -> Result<(), TxEnd> {
        match self.engine.on_write(address, word) {
            Ok(()) => Ok(()),
            Err(end) => {
                self.hear_end(end);
                Err(end)
            }
        }
    }

    fn commit(&mut self, answer: Snapshot<Answer>, used: Snapshot<u64>) -> Result<Stamp, TxEnd> {
        match self.engine.commit(answer, used) {
            Ok(stamp) => Ok(stamp),
            Err(end) => {
                self.hear_end(end);
                Err(end)
            }
        }
    }

    fn finish_refused(&mut self, answer: Snapshot<Answer>) -> Stamp {
        self.engine.finish_refused(answer)
    }

    fn rollback(&mut self) {
        self.engine.rollback();
    }

    fn ticks(&self) -> u64 {
        self.engine.ticks()
    }

    ghost snapshot = { λ e h n r w c used stands opens awaits leads. E.snapshot e.engine h n r w c used stands.0 opens awaits leads };
}
