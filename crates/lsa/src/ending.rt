//! How an attempt ends.
ghost use Rattle.std.specs.Prelude.{◌≡◌, ◌≢◌, ◌⊎◌, ◌<◌, ◌≤◌, ◌+◌, ◌^◌, ◌∷◌, [], ℕ, List, true, reverse, MatchResult, IfOk, IfErr};
ghost use mathlib.Core.Option.{some as Found};
ghost use Rattle.jmodel.specs.history.Log.{Log};
ghost use Rattle.jmodel.specs.history.History.{Call, Entry};
ghost use Rattle.tx_core.specs.Engine.{raised, Adds, MayEnd, IsOfWrites};
ghost use Rattle.tx_table.specs.Book.{Has, In, Unticked, pairs};
ghost use Rattle.tx_table.specs.Passes.{book, IsOf, IsSame, IsSettled};
ghost use Rattle.tl2.specs.Commits.{Holds, IsRest, MeansOnly};
ghost use Rattle.tl2.specs.Standing.{IsOpen, Awaits};
ghost use Rattle.lsa.specs.Conflicts.{Meets};
ghost use Rattle.lsa.specs.Standing.{StandsFor};

use crate::attempt::Lsa;
use crate::update::{elsewhere_of, update};
use jmodel::value::{Answer, Stamp};
use std::mem;
use std::snapshot::Snapshot;
use tl2::attempt::At;
use tl2::commit::give_back;
use tl2::plan::{Plan, Stripe};
use tl2::reading::finish_with;
use tx_core::{Conflict, TxEnd};
use tx_table::{Calling, Pass, Ruled, Shared, Story};

/// Gives the stripes back that are held, each with the word that it had, and keeps the attempt's reads.
fn give_back_reading<T: Story>(pass: &mut Pass, shared: &Shared<T>, held: &[Stripe])
    requires table { IsOf shared.now.table.shared.table_id pass.old }
    requires held { Holds held.now (book pass.old) }
    requires ready { ((book pass.old).live ≡ true) × ((book pass.old).face.stage ≡ Unticked) }
    requires settled { IsSettled pass.old }
    ensures same { IsSame pass.old pass.new }
    ensures free { (book pass.new).face.held ≡ [] }
    ensures ready { ((book pass.new).live ≡ true) × ((book pass.new).face.stage ≡ Unticked) }
    ensures settled { IsSettled pass.new }
    ensures rest { IsRest [] 0 (book pass.old) (book pass.new) }
    ensures seen { (book pass.new).seen ≡ (book pass.old).seen }
    ensures wants { (book pass.new).wants ≡ (book pass.old).wants }
{
    for stripe in held {
        pass.release_old(shared, stripe.number(), stripe.word);
    }
}

impl<'a, T: Ruled, C: Calling> Lsa<'a, T, C> {
    /// Ends the attempt as an entry of the history with this answer, which leaves so many words of its region used. An attempt that wrote holds the stripes of its
    /// writes; it takes the memory for the rest before the clock moves, and where it finds none it rolls back. A conflict, at an address that the attempt
    /// read, gives the stripes back and is kept in the pass's book. It comes only where a stripe is held by another or has a version over the bound, and never
    /// where the pass holds every number. An `Err` has rolled back.
    pub fn commit(&mut self, answer: Snapshot<Answer>, used: Snapshot<u64>) -> Result<Stamp, TxEnd>
        requires open { IsOpen self.old.shared.now.words self.old.at (C.call self.old.call.value) (book self.old.pass) }
        requires clock { (book self.old.pass).ticks < 2 ^ 40 }
        requires allowed { MayEnd (StandsFor C.began self.old.shared.now.words self.old.at self.old.writes.items self.old.pass) (Awaits (C.call self.old.call.value) (book self.old.pass)) T.rule (λ w. w) answer.value (λ _. used.value) }
        ensures run { (h : List Entry) (n : ℕ) (r w : Log) → StandsFor C.began self.old.shared.now.words self.old.at self.old.writes.items self.old.pass h n r w
            → MatchResult result (λ stamp. IsOfWrites stamp w × Adds (Awaits (C.call self.old.call.value) (book self.old.pass)) T.rule (StandsFor C.began self.new.shared.now.words self.new.at self.new.writes.items self.new.pass) h n answer.value (λ _. used.value) stamp r w)
            (λ end. StandsFor C.began self.new.shared.now.words self.new.at self.new.writes.items self.new.pass h (raised end n) [] []) }
        ensures awaits { (c : Call) (used : ℕ) → Awaits (C.call self.old.call.value) (book self.old.pass) c used → IfErr result (λ _. Awaits (C.call self.new.call.value) (book self.new.pass) c used) }
        ensures begins { (book self.new.pass).begins ≡ (book self.old.pass).begins }
        ensures ticks { (book self.new.pass).ticks ≤ (book self.old.pass).ticks + 1 }
        ensures seen { (e : Conflict) → result ≡ Err (TxEnd.Conflict e) → Meets (book self.old.pass) (book self.new.pass) e × In e.address self.old.reads.items }
        ensures sole { (book self.old.pass).numbers ≡ 2 ^ 20 → IfErr result (λ end. end ≡ TxEnd.NoMemory) }
        ensures regions { IfErr result (λ _. (book self.new.pass).regions ≡ (book self.old.pass).regions) }
        ensures region { (c : Call) (before : ℕ) → Awaits (C.call self.old.call.value) (book self.old.pass) c before → IfOk result (λ _. (book self.new.pass).regions ≡ (c.region, record { used = used.value; last = Found c }) ∷ (book self.old.pass).regions) }
        ensures same { IsSame self.old.pass self.new.pass × ((book self.new.pass).numbers ≡ (book self.old.pass).numbers) × ((book self.new.pass).fresh ≡ (book self.old.pass).fresh) }
        ensures memory { result ≡ Err TxEnd.NoMemory → IsRest [] 0 (book self.old.pass) (book self.new.pass) }
        ensures free { ((book self.new.pass).face.held ≡ []) × ((book self.new.pass).face.stage ≡ Unticked) }
        ensures means { MeansOnly (Has (pairs (reverse self.old.writes.items))) (book self.old.pass) (book self.new.pass) }
    {
        if self.writes.is_empty() {
            return Ok(self.finish_refused(answer));
        }
        let Ok(read_elsewhere) = elsewhere_of(self.alloc, &self.own, &self.reads) else {
            self.rollback();
            return Err(TxEnd::NoMemory);
        };
        let plan = Plan {
            stripes: mem::replace(&mut self.stripes, Vec::new(self.alloc)),
            read_elsewhere,
        };
        let done = update(
            &mut self.pass,
            self.shared,
            &plan,
            &self.writes,
            answer,
            used,
        );
        self.own.clear();
        self.writes.clear();
        self.at = At::Outside;
        match done {
            Ok(stamp) => Ok(stamp),
            Err(conflict) => Err(TxEnd::Conflict(conflict)),
        }
    }

    /// Ends the attempt as an entry with this answer that wrote nothing and leaves the used words of its region as they were. Its stripes are given back with
    /// their old words before the step that adds the entry. No memory.
    pub fn finish_refused(&mut self, answer: Snapshot<Answer>) -> Stamp
        requires open { IsOpen self.old.shared.now.words self.old.at (C.call self.old.call.value) (book self.old.pass) }
        requires allowed { MayEnd (StandsFor C.began self.old.shared.now.words self.old.at self.old.writes.items self.old.pass) (Awaits (C.call self.old.call.value) (book self.old.pass)) T.rule (λ _. []) answer.value (λ used. used) }
        ensures run { (h : List Entry) (n : ℕ) (r w : Log) → StandsFor C.began self.old.shared.now.words self.old.at self.old.writes.items self.old.pass h n r w
            → IsOfWrites result [] × Adds (Awaits (C.call self.old.call.value) (book self.old.pass)) T.rule (StandsFor C.began self.new.shared.now.words self.new.at self.new.writes.items self.new.pass) h n answer.value (λ used. used) result r [] }
        ensures begins { (book self.new.pass).begins ≡ (book self.old.pass).begins }
        ensures ticks { (book self.new.pass).ticks ≡ (book self.old.pass).ticks }
        ensures region { (c : Call) (used : ℕ) → Awaits (C.call self.old.call.value) (book self.old.pass) c used → (book self.new.pass).regions ≡ (c.region, record { used = used; last = Found c }) ∷ (book self.old.pass).regions }
        ensures same { IsSame self.old.pass self.new.pass × ((book self.new.pass).numbers ≡ (book self.old.pass).numbers) × ((book self.new.pass).fresh ≡ (book self.old.pass).fresh) }
        ensures free { ((book self.new.pass).face.held ≡ []) × ((book self.new.pass).face.stage ≡ Unticked) }
        ensures wants { (book self.new.pass).wants ≡ (book self.old.pass).wants }
    {
        give_back_reading(&mut self.pass, self.shared, &self.stripes);
        let stamp = finish_with(&mut self.pass, self.shared, answer);
        self.stripes.clear();
        self.own.clear();
        self.writes.clear();
        self.at = At::Outside;
        stamp
    }

    /// Ends the attempt without an entry. Its stripes are given back with their old words. No memory.
    pub fn rollback(&mut self)
        ensures run { (h : List Entry) (n : ℕ) (r w : Log) → StandsFor C.began self.old.shared.now.words self.old.at self.old.writes.items self.old.pass h n r w
            → StandsFor C.began self.new.shared.now.words self.new.at self.new.writes.items self.new.pass h n [] [] }
        ensures awaits { (c : Call) (used : ℕ) → Awaits (C.call self.old.call.value) (book self.old.pass) c used → Awaits (C.call self.new.call.value) (book self.new.pass) c used }
        ensures rest { IsRest [] 0 (book self.old.pass) (book self.new.pass) }
        ensures free { ((book self.new.pass).face.held ≡ []) × ((book self.new.pass).face.stage ≡ Unticked) }
        ensures same { IsSame self.old.pass self.new.pass }
        ensures wants { (book self.new.pass).wants ≡ (book self.old.pass).wants }
    {
        give_back(&mut self.pass, self.shared, &self.stripes);
        self.stripes.clear();
        self.own.clear();
        self.writes.clear();
        self.at = At::Outside;
    }

    /// How often the pass has moved the clock. No memory.
    pub fn ticks(&self) -> u64
        ensures { result ≡ (book self.now.pass).ticks }
    {
        self.pass.ticks()
    }
}
