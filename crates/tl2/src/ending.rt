//! The commit.
ghost use Rattle.std.specs.Prelude.{◌≡◌, ◌⊎◌, reverse, ◌<◌, ◌≤◌, ◌+◌, ◌^◌, ◌∷◌, [], ℕ, List, MatchResult, IfOk, IfErr};
ghost use mathlib.Core.Option.{some as Found};
ghost use Rattle.jmodel.specs.history.Log.{Log};
ghost use Rattle.jmodel.specs.history.History.{Call, Entry};
ghost use Rattle.tx_table.specs.Book.{Has, In, pairs};
ghost use Rattle.tx_core.specs.Engine.{raised, Adds, MayEnd, IsOfWrites};
ghost use Rattle.tx_table.specs.Passes.{book, IsSame};
ghost use Rattle.tl2.specs.Commits.{MeansOnly};
ghost use Rattle.tl2.specs.Conflicts.{Meets};
ghost use Rattle.tl2.specs.Standing.{IsOpen, Awaits, Stands};

use crate::attempt::{At, Calling, Ruled, Tl2};
use crate::plan::Plan;
use crate::update::update;
use jmodel::value::{Answer, Stamp};
use std::snapshot::Snapshot;
use tx_core::{Conflict, TxEnd};

impl<'a, T: Ruled, C: Calling> Tl2<'a, T, C> {
    /// Ends the attempt as an entry of the history with this answer, which leaves so many words of its region used. An attempt that
    /// wrote takes its memory before its first step, so one that finds none leaves the pass as it was. It takes stripes of addresses that it
    /// wrote alone. A conflict, at an address that the attempt wrote or read, gives the stripes back and is kept in the pass's book. It
    /// comes only where a stripe is held or has a version over the bound, and never where the pass holds every number. An `Err`
    /// has rolled back.
    pub fn commit(&mut self, answer: Snapshot<Answer>, used: Snapshot<u64>) -> Result<Stamp, TxEnd>
        requires open { IsOpen self.old.shared.now.words self.old.at (C.call self.old.call.value) (book self.old.pass) }
        requires clock { (book self.old.pass).ticks < 2 ^ 40 }
        requires allowed { MayEnd (Stands C.began self.old.shared.now.words self.old.at self.old.writes.items self.old.pass) (Awaits (C.call self.old.call.value) (book self.old.pass)) T.rule (λ w. w) answer.value (λ _. used.value) }
        ensures run { (h : List Entry) (n : ℕ) (r w : Log) → Stands C.began self.old.shared.now.words self.old.at self.old.writes.items self.old.pass h n r w
            → MatchResult result (λ stamp. IsOfWrites stamp w × Adds (Awaits (C.call self.old.call.value) (book self.old.pass)) T.rule (Stands C.began self.new.shared.now.words self.new.at self.new.writes.items self.new.pass) h n answer.value (λ _. used.value) stamp r w)
            (λ end. Stands C.began self.new.shared.now.words self.new.at self.new.writes.items self.new.pass h (raised end n) [] []) }
        ensures awaits { (c : Call) (used : ℕ) → Awaits (C.call self.old.call.value) (book self.old.pass) c used → IfErr result (λ _. Awaits (C.call self.new.call.value) (book self.new.pass) c used) }
        ensures begins { (book self.new.pass).begins ≡ (book self.old.pass).begins }
        ensures ticks { (book self.new.pass).ticks ≤ (book self.old.pass).ticks + 1 }
        ensures seen { (e : Conflict) → result ≡ Err (TxEnd.Conflict e) → Meets (book self.old.pass) (book self.new.pass) e × (Has (pairs (reverse self.old.writes.items)) e.address ⊎ In e.address self.old.reads.items) }
        ensures sole { (book self.old.pass).numbers ≡ 2 ^ 20 → IfErr result (λ end. end ≡ TxEnd.NoMemory) }
        ensures regions { IfErr result (λ _. (book self.new.pass).regions ≡ (book self.old.pass).regions) }
        ensures region { (c : Call) (before : ℕ) → Awaits (C.call self.old.call.value) (book self.old.pass) c before → IfOk result (λ _. (book self.new.pass).regions ≡ (c.region, record { used = used.value; last = Found c }) ∷ (book self.old.pass).regions) }
        ensures same { IsSame self.old.pass self.new.pass × ((book self.new.pass).numbers ≡ (book self.old.pass).numbers) × ((book self.new.pass).fresh ≡ (book self.old.pass).fresh) }
        ensures memory { result ≡ Err TxEnd.NoMemory → self.new.pass ≡ self.old.pass }
        ensures means { MeansOnly (Has (pairs (reverse self.old.writes.items))) (book self.old.pass) (book self.new.pass) }
    {
        if self.writes.is_empty() {
            return Ok(self.finish_refused(answer));
        }
        let Ok(plan) = Plan::of(self.alloc, &self.writes, &self.reads) else {
            self.rollback();
            return Err(TxEnd::NoMemory);
        };
        let done = update(
            &mut self.pass,
            self.shared,
            plan,
            &self.writes,
            answer,
            used,
        );
        self.writes.clear();
        self.at = At::Outside;
        match done {
            Ok(stamp) => Ok(stamp),
            Err(conflict) => Err(TxEnd::Conflict(conflict)),
        }
    }
}
