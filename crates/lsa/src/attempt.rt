//! The attempts of one lane over a table of shared words.
ghost use Rattle.std.specs.Prelude.{◌≡◌, ◌≢◌, ℕ, List, [], length, reverse};
ghost use Rattle.jmodel.specs.history.Log.{Log};
ghost use Rattle.jmodel.specs.history.History.{Entry};
ghost use Rattle.tx_table.specs.Book.{Unticked};
ghost use Rattle.tx_table.specs.Passes.{book, IsOf, IsSame, IsSettled};
ghost use Rattle.tl2.specs.declared.attempt.At.TheVariants.{Outside};
ghost use Rattle.tl2.specs.Commits.{IsRest};
ghost use Rattle.tl2.specs.Logs.{IsLogged};
ghost use Rattle.lsa.specs.Owning.{HasTaken, IsOwning};

use std::alloc::Global;
use std::collections::BTreeSet;
use std::snapshot::Snapshot;
use tl2::attempt::At;
use tl2::commit::give_back;
use tl2::plan::Stripe;
use tx_core::WriteLog;
use tx_table::{Calling, Pass, Ruled, Shared};

/// How many stripes there are.
pub(crate) const STRIPES: u64 = 4096;

/// The engine. Its writes are kept back until the commit, and the stripe of each is taken when it is first written.
#[derive(Drop)]
pub struct Lsa<'a, T: Ruled, C> {
    pub(crate) shared: &'a Shared<T>,
    pub(crate) pass: Pass,
    pub(crate) call: Snapshot<C>,
    pub(crate) writes: WriteLog,
    /// The addresses that the attempt read and hadn't written, the oldest first.
    pub(crate) reads: Vec<u64>,
    /// The stripes that are held, in the order in which they were taken.
    pub(crate) stripes: Vec<Stripe>,
    /// Their numbers.
    pub(crate) own: BTreeSet<u64>,
    pub(crate) at: At,
    pub(crate) alloc: Global,
    ghost sits: { IsOf shared.now.table.shared.table_id pass × ((book pass).face.stage ≡ Unticked) × HasTaken stripes.items (book pass) },
    ghost settled: { at ≢ Outside → IsSettled pass × ((book pass).bound ≡ (book pass).seen) },
    ghost logged: { IsLogged shared.now.words at reads.items (book pass) },
    ghost owns: { at ≢ Outside → IsOwning stripes.items own writes.items (book pass) },
}

impl<'a, T: Ruled, C: Calling> Lsa<'a, T, C> {
    ghost use Rattle.tl2.specs.Standing.{Keeps};
    ghost use Rattle.lsa.specs.Standing.{StandsFor};

    /// The engine of a pass that holds no stripe. No memory.
    pub fn new(alloc: Global, shared: &'a Shared<T>, pass: Pass, call: Snapshot<C>) -> Self
        requires table { IsOf shared.now.table.shared.table_id pass }
        requires free { ((book pass).face.held ≡ []) × ((book pass).face.stage ≡ Unticked) }
        ensures pass { result.pass ≡ pass }
        ensures call { result.call.value ≡ call.value }
        ensures stands { (h : List Entry) → (book pass).entries ≡ reverse h → Keeps C.began pass
            → StandsFor C.began result.shared.now.words result.at result.writes.items result.pass h (length (book pass).lost) [] [] }
    {
        Lsa {
            shared,
            pass,
            call,
            writes: WriteLog::new(alloc),
            reads: Vec::new(alloc),
            stripes: Vec::new(alloc),
            own: BTreeSet::new(alloc),
            at: At::Outside,
            alloc,
        }
    }

    /// Names the call that the next attempt is made at. An attempt that is open is over; what it holds is given back when the next begins, or with the
    /// pass. No memory.
    pub fn set_call(&mut self, call: Snapshot<C>)
        ensures call { self.new.call.value ≡ call.value }
        ensures pass { self.new.pass ≡ self.old.pass }
        ensures shared { self.new.shared ≡ self.old.shared }
        ensures stands { (h : List Entry) (n : ℕ) (r w : Log) → StandsFor C.began self.old.shared.now.words self.old.at self.old.writes.items self.old.pass h n r w
            → StandsFor C.began self.new.shared.now.words self.new.at self.new.writes.items self.new.pass h n [] [] }
    {
        self.call = call;
        self.writes.clear();
        self.at = At::Outside;
    }

    /// The pass, which holds no stripe. Stripes that an attempt still held are given back with their old words.
    pub fn into_pass(self) -> Pass
        ensures table { IsOf self.entry.shared.now.table.shared.table_id result }
        ensures free { ((book result).face.held ≡ []) × ((book result).face.stage ≡ Unticked) }
        ensures same { IsSame self.entry.pass result }
        ensures rest { IsRest [] 0 (book self.entry.pass) (book result) }
        ensures keeps { Keeps C.began self.entry.pass → Keeps C.began result }
    {
        let Lsa {
            shared,
            mut pass,
            call: _,
            writes: _,
            reads: _,
            stripes,
            own: _,
            at: _,
            alloc: _,
        } = self;
        give_back(&mut pass, shared, &stripes);
        pass
    }
}
