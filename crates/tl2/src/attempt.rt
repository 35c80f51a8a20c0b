//! The attempts of one lane over a table of shared words.
ghost use Rattle.std.specs.Prelude.{◌≡◌, ◌≢◌, ℕ, List, [], length, reverse};
ghost use Rattle.jmodel.specs.history.Log.{Log};
ghost use Rattle.jmodel.specs.history.History.{Entry};
ghost use Rattle.tx_table.specs.Book.{Unticked};
ghost use Rattle.tx_table.specs.Passes.{book, IsOf, IsSettled};
ghost use Rattle.tl2.specs.Logs.{IsLogged};
ghost use Rattle.tl2.specs.declared.attempt.At.TheVariants.{Outside};

use jmodel::access::Access;
use std::alloc::Global;
use std::snapshot::Snapshot;
use tx_core::WriteLog;
use tx_table::{Pass, Shared};
pub use tx_table::{Calling, Ruled};

/// Where an engine stands.
#[derive(Clone, Copy)]
pub enum At {
    /// Outside an attempt, or in one that met a conflict.
    Outside,
    Inside,
    /// Before the load of a word, whose stripe was free with a version up to the bound.
    Looked(u64),
    /// After the load.
    Loaded(Access),
}

/// The engine. Its writes are kept back until the commit.
#[derive(Drop)]
pub struct Tl2<'a, T: Ruled, C> {
    pub(crate) shared: &'a Shared<T>,
    pub(crate) pass: Pass,
    pub(crate) call: Snapshot<C>,
    pub(crate) writes: WriteLog,
    /// The addresses that the attempt read and hadn't written, the oldest first.
    pub(crate) reads: Vec<u64>,
    pub(crate) at: At,
    pub(crate) alloc: Global,
    ghost sits: { IsOf shared.now.table.shared.table_id pass × ((book pass).face.held ≡ []) × ((book pass).face.stage ≡ Unticked) },
    ghost settled: { at ≢ Outside → IsSettled pass },
    ghost logged: { IsLogged shared.now.words at reads.items (book pass) },
}

impl<'a, T: Ruled, C: Calling> Tl2<'a, T, C> {
    ghost use Rattle.tl2.specs.Standing.{Keeps, Stands};

    /// The engine of a pass that holds no stripe. No memory.
    pub fn new(alloc: Global, shared: &'a Shared<T>, pass: Pass, call: Snapshot<C>) -> Self
        requires table { IsOf shared.now.table.shared.table_id pass }
        requires free { ((book pass).face.held ≡ []) × ((book pass).face.stage ≡ Unticked) }
        ensures pass { result.pass ≡ pass }
        ensures call { result.call.value ≡ call.value }
        ensures stands { (h : List Entry) → (book pass).entries ≡ reverse h → Keeps C.began pass
            → Stands C.began result.shared.now.words result.at result.writes.items result.pass h (length (book pass).lost) [] [] }
    {
        Tl2 {
            shared,
            pass,
            call,
            writes: WriteLog::new(alloc),
            reads: Vec::new(alloc),
            at: At::Outside,
            alloc,
        }
    }

    /// Names the call that the next attempt is made at. An attempt that is open is over. No memory.
    pub fn set_call(&mut self, call: Snapshot<C>)
        ensures call { self.new.call.value ≡ call.value }
        ensures pass { self.new.pass ≡ self.old.pass }
        ensures shared { self.new.shared ≡ self.old.shared }
        ensures stands { (h : List Entry) (n : ℕ) (r w : Log) → Stands C.began self.old.shared.now.words self.old.at self.old.writes.items self.old.pass h n r w
            → Stands C.began self.new.shared.now.words self.new.at self.new.writes.items self.new.pass h n [] [] }
    {
        self.call = call;
        self.writes.clear();
        self.at = At::Outside;
    }

    /// The pass, which holds no stripe.
    pub fn into_pass(self) -> Pass
        ensures pass { result ≡ self.entry.pass }
        ensures table { IsOf self.entry.shared.now.table.shared.table_id result }
        ensures free { ((book result).face.held ≡ []) × ((book result).face.stage ≡ Unticked) }
    {
        let Tl2 {
            shared: _,
            pass,
            call: _,
            writes: _,
            reads: _,
            at: _,
            alloc: _,
        } = self;
        pass
    }
}
