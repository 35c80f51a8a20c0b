//! The steps of an attempt that reads, and its end without writes.
ghost use Rattle.std.specs.Prelude.{◌≡◌, ◌≢◌, ◌⊎◌, ◌<◌, ◌≤◌, ◌+◌, ◌*◌, ◌%◌, ◌∷◌, ◌++◌, ◌^◌, [], ℕ, List, None, true, reverse, MatchResult, IfOk, IfErr, IsOk};
ghost use mathlib.Core.Option.{some as Found};
ghost use Rattle.jmodel.specs.history.Log.{Log, access, answered, recorded, written};
ghost use Rattle.tx_table.specs.Book.{Unticked};
ghost use Rattle.jmodel.specs.history.History.{Call, Entry};
ghost use Rattle.tx_table.specs.Plays.{begun, finished, Reads};
ghost use Rattle.tx_table.specs.Rule.{Snapshot as Learns};
ghost use Rattle.tx_core.specs.Engine.{raised, Adds, MayEnd, IsOfWrites};
ghost use Rattle.tx_table.specs.Passes.{book, IsOf, IsSame, IsKin, IsSettled};
ghost use Rattle.tl2.specs.Conflicts.{Meets};
ghost use Rattle.tl2.specs.Standing.{IsOpen, IsLooked, IsLoaded, Awaits, Stands};

use crate::attempt::{At, Calling, Ruled, Tl2};
use jmodel::access::Access;
use jmodel::value::{Answer, Stamp};
use std::snapshot::Snapshot;
use tx_core::{Conflict, TxEnd};
use tx_table::{Pass, Shared, Story};

/// Begins an attempt of a pass at a call.
pub fn begin_at<T: Story, C: Calling>(pass: &mut Pass, shared: &Shared<T>, _call: &Snapshot<C>)
    ghost told: { Call }
    requires told { told ≡ C.call _call.now.value }
    requires table { IsOf shared.now.table.shared.table_id pass.old }
    requires free { ((book pass.old).face.held ≡ []) × ((book pass.old).face.stage ≡ Unticked) }
    ensures same { IsSame pass.old pass.new }
    ensures settled { IsSettled pass.new }
    ensures book { book pass.new ≡ begun (book pass.old) told (book pass.new).bound }
    ensures later { (book pass.old).seen ≤ (book pass.new).bound }
    ensures snapshot { Learns (T.story shared.now.table.shared.key.story.value) (book pass.new) }
{
    pass.begin(shared);
}

/// Ends a pass's attempt with an entry that wrote nothing.
pub fn finish_with<T: Story>(
    pass: &mut Pass,
    shared: &Shared<T>,
    _answer: Snapshot<Answer>,
) -> Stamp
    ghost entry: { Entry }
    requires table { IsOf shared.now.table.shared.table_id pass.old }
    requires ready { ((book pass.old).live ≡ true) × ((book pass.old).face.stage ≡ Unticked) }
    requires entry { Reads (T.story shared.now.table.shared.key.story.value) (book pass.old) entry }
    requires settled { IsSettled pass.old }
    ensures same { IsSame pass.old pass.new }
    ensures book { book pass.new ≡ finished (book pass.old) entry }
    ensures stamp { result ≡ entry.stamp }
{
    pass.finish(shared)
}

impl<'a, T: Ruled, C: Calling> Tl2<'a, T, C> {
    /// Begins an attempt. No memory.
    pub fn begin(&mut self)
        ensures run { (h : List Entry) (n : ℕ) → Stands C.began self.old.shared.now.words self.old.at self.old.writes.items self.old.pass h n [] []
            → Stands C.began self.new.shared.now.words self.new.at self.new.writes.items self.new.pass h n [] [] }
        ensures open { IsOpen self.new.shared.now.words self.new.at (C.call self.new.call.value) (book self.new.pass) }
        ensures awaits { (c : Call) (used : ℕ) → Awaits (C.call self.old.call.value) (book self.old.pass) c used → Awaits (C.call self.new.call.value) (book self.new.pass) c used }
        ensures begins { (book self.new.pass).begins ≡ (book self.old.pass).begins + 1 }
        ensures ticks { (book self.new.pass).ticks ≡ (book self.old.pass).ticks }
        ensures snapshot { Learns (T.story self.new.shared.now.table.shared.key.story.value) (book self.new.pass) }
        ensures same { IsSame self.old.pass self.new.pass × IsKin (book self.old.pass) (book self.new.pass) }
    {
        self.writes.clear();
        self.reads.clear();
        begin_at(&mut self.pass, self.shared, &self.call);
        self.at = At::Inside;
    }

    /// Before a read: looks at the stripe of an address that the attempt hasn't written. A stripe that is held, or whose
    /// version is over the bound, is a conflict, which the pass's book keeps. A pass that holds every number meets none. No memory.
    pub fn before_read(&mut self, address: u64) -> Result<(), Conflict>
        requires { IsOpen self.old.shared.now.words self.old.at (C.call self.old.call.value) (book self.old.pass) }
        ensures run { (h : List Entry) (n : ℕ) (r w : Log) → Stands C.began self.old.shared.now.words self.old.at self.old.writes.items self.old.pass h n r w
            → MatchResult result (λ _. Stands C.began self.new.shared.now.words self.new.at self.new.writes.items self.new.pass h n r w)
            (λ _. Stands C.began self.new.shared.now.words self.new.at self.new.writes.items self.new.pass h (n + 1) r w) }
        ensures open { IfOk result (λ _. IsOpen self.new.shared.now.words self.new.at (C.call self.new.call.value) (book self.new.pass)) }
        ensures awaits { (c : Call) (used : ℕ) → Awaits (C.call self.old.call.value) (book self.old.pass) c used → Awaits (C.call self.new.call.value) (book self.new.pass) c used }
        ensures begins { (book self.new.pass).begins ≡ (book self.old.pass).begins }
        ensures ticks { (book self.new.pass).ticks ≡ (book self.old.pass).ticks }
        ensures seen { IfErr result (λ e. (e.address ≡ address) × Meets (book self.old.pass) (book self.new.pass) e) }
        ensures sole { (book self.old.pass).numbers ≡ 2 ^ 20 → IsOk result }
        ensures same { IsSame self.old.pass self.new.pass × IsKin (book self.old.pass) (book self.new.pass) }
        ensures snapshot { Learns (T.story self.old.shared.now.table.shared.key.story.value) (book self.old.pass) → Learns (T.story self.new.shared.now.table.shared.key.story.value) (book self.new.pass) }
        ensures looked { IfOk result (λ _. IsLooked self.new.shared.now.words self.new.at self.new.writes.items address) }
    {
        if address >= self.shared.words || self.writes.written(address).is_some() {
            return Ok(());
        }
        match self.pass.look(self.shared, address, false) {
            Ok(_) => {
                self.at = At::Looked(address);
                Ok(())
            }
            Err(conflict) => {
                self.at = At::Outside;
                Err(conflict)
            }
        }
    }

    /// The word of an address as it lies there; the attempt's own last word where it has written it. Where no look came
    /// before, it is 0. No memory.
    pub fn raw(&mut self, address: u64) -> u64
        requires { IsOpen self.old.shared.now.words self.old.at (C.call self.old.call.value) (book self.old.pass) }
        ensures run { (h : List Entry) (n : ℕ) (r w : Log) → Stands C.began self.old.shared.now.words self.old.at self.old.writes.items self.old.pass h n r w
            → Stands C.began self.new.shared.now.words self.new.at self.new.writes.items self.new.pass h n r w }
        ensures open { IsOpen self.new.shared.now.words self.new.at (C.call self.new.call.value) (book self.new.pass) }
        ensures awaits { (c : Call) (used : ℕ) → Awaits (C.call self.old.call.value) (book self.old.pass) c used → Awaits (C.call self.new.call.value) (book self.new.pass) c used }
        ensures begins { (book self.new.pass).begins ≡ (book self.old.pass).begins }
        ensures ticks { (book self.new.pass).ticks ≡ (book self.old.pass).ticks }
        ensures same { IsSame self.old.pass self.new.pass × IsKin (book self.old.pass) (book self.new.pass) }
        ensures snapshot { Learns (T.story self.old.shared.now.table.shared.key.story.value) (book self.old.pass) → Learns (T.story self.new.shared.now.table.shared.key.story.value) (book self.new.pass) }
        ensures loaded { IsLooked self.old.shared.now.words self.old.at self.old.writes.items address → IsLoaded self.new.shared.now.words self.new.at self.new.writes.items address result }
    {
        if let Some(word) = self.writes.written(address) {
            return word;
        }
        let At::Looked(looked) = self.at else {
            return 0;
        };
        if looked != address {
            return 0;
        }
        let word = self.pass.load(self.shared, address);
        self.at = At::Loaded(Access { address, word });
        word
    }

    /// The attempt's own last word of an address, or else the word that was loaded, once its stripe shows again what it
    /// showed before; it is logged as read. Another word is a conflict, which the pass's book keeps; a pass that holds every
    /// number meets none. Where no look and load came before, there is no answer, which is told as want of memory.
    pub fn on_read(&mut self, address: u64, _raw: u64) -> Result<u64, TxEnd>
        requires { IsOpen self.old.shared.now.words self.old.at (C.call self.old.call.value) (book self.old.pass) }
        ensures run { (h : List Entry) (n : ℕ) (r w : Log) → Stands C.began self.old.shared.now.words self.old.at self.old.writes.items self.old.pass h n r w
            → MatchResult result (λ word. (word ≡ answered w address word) × Stands C.began self.new.shared.now.words self.new.at self.new.writes.items self.new.pass h n (recorded (written w address) address word r) w)
            (λ end. Stands C.began self.new.shared.now.words self.new.at self.new.writes.items self.new.pass h (raised end n) r w) }
        ensures open { IfOk result (λ _. IsOpen self.new.shared.now.words self.new.at (C.call self.new.call.value) (book self.new.pass)) }
        ensures awaits { (c : Call) (used : ℕ) → Awaits (C.call self.old.call.value) (book self.old.pass) c used → Awaits (C.call self.new.call.value) (book self.new.pass) c used }
        ensures begins { (book self.new.pass).begins ≡ (book self.old.pass).begins }
        ensures ticks { (book self.new.pass).ticks ≡ (book self.old.pass).ticks }
        ensures snapshot { IfOk result (λ _. written (reverse self.old.writes.items) address ≡ None → Learns (T.story self.new.shared.now.table.shared.key.story.value) (book self.new.pass)) }
        ensures still { Learns (T.story self.old.shared.now.table.shared.key.story.value) (book self.old.pass) → Learns (T.story self.new.shared.now.table.shared.key.story.value) (book self.new.pass) }
        ensures same { IsSame self.old.pass self.new.pass × IsKin (book self.old.pass) (book self.new.pass) }
        ensures seen { (e : Conflict) → result ≡ Err (TxEnd.Conflict e) → (e.address ≡ address) × Meets (book self.old.pass) (book self.new.pass) e }
        ensures sole { (book self.old.pass).numbers ≡ 2 ^ 20 → IfErr result (λ end. end ≡ TxEnd.NoMemory) }
    {
        if let Some(word) = self.writes.written(address) {
            return Ok(word);
        }
        let At::Loaded(loaded) = self.at else {
            return Err(TxEnd::NoMemory);
        };
        if loaded.address != address {
            return Err(TxEnd::NoMemory);
        }
        if self.reads.push(address).is_err() {
            return Err(TxEnd::NoMemory);
        }
        match self.pass.recheck(self.shared, address) {
            Ok(()) => {
                self.at = At::Inside;
                Ok(loaded.word)
            }
            Err(conflict) => {
                self.at = At::Outside;
                Err(TxEnd::Conflict(conflict))
            }
        }
    }

    /// Logs a write, which meets no conflict. A write past the heap is told as want of memory.
    pub fn on_write(&mut self, address: u64, word: u64) -> Result<(), TxEnd>
        requires { IsOpen self.old.shared.now.words self.old.at (C.call self.old.call.value) (book self.old.pass) }
        ensures run { (h : List Entry) (n : ℕ) (r w : Log) → Stands C.began self.old.shared.now.words self.old.at self.old.writes.items self.old.pass h n r w
            → MatchResult result (λ _. Stands C.began self.new.shared.now.words self.new.at self.new.writes.items self.new.pass h n r (access address word ∷ w))
            (λ end. Stands C.began self.new.shared.now.words self.new.at self.new.writes.items self.new.pass h (raised end n) r w) }
        ensures open { IsOpen self.new.shared.now.words self.new.at (C.call self.new.call.value) (book self.new.pass) }
        ensures awaits { (c : Call) (used : ℕ) → Awaits (C.call self.old.call.value) (book self.old.pass) c used → Awaits (C.call self.new.call.value) (book self.new.pass) c used }
        ensures begins { (book self.new.pass).begins ≡ (book self.old.pass).begins }
        ensures ticks { (book self.new.pass).ticks ≡ (book self.old.pass).ticks }
        ensures same { IsSame self.old.pass self.new.pass × IsKin (book self.old.pass) (book self.new.pass) }
        ensures snapshot { Learns (T.story self.old.shared.now.table.shared.key.story.value) (book self.old.pass) → Learns (T.story self.new.shared.now.table.shared.key.story.value) (book self.new.pass) }
        ensures err { IfErr result (λ end. end ≡ TxEnd.NoMemory) }
    {
        if address >= self.shared.words {
            return Err(TxEnd::NoMemory);
        }
        if self.writes.push(Access { address, word }).is_err() {
            return Err(TxEnd::NoMemory);
        }
        Ok(())
    }

    /// Ends the attempt as an entry with this answer that wrote nothing and leaves the used words of its region as they were. No memory.
    pub fn finish_refused(&mut self, answer: Snapshot<Answer>) -> Stamp
        requires open { IsOpen self.old.shared.now.words self.old.at (C.call self.old.call.value) (book self.old.pass) }
        requires allowed { MayEnd (Stands C.began self.old.shared.now.words self.old.at self.old.writes.items self.old.pass) (Awaits (C.call self.old.call.value) (book self.old.pass)) T.rule (λ _. []) answer.value (λ used. used) }
        ensures run { (h : List Entry) (n : ℕ) (r w : Log) → Stands C.began self.old.shared.now.words self.old.at self.old.writes.items self.old.pass h n r w
            → IsOfWrites result [] × Adds (Awaits (C.call self.old.call.value) (book self.old.pass)) T.rule (Stands C.began self.new.shared.now.words self.new.at self.new.writes.items self.new.pass) h n answer.value (λ used. used) result r [] }
        ensures begins { (book self.new.pass).begins ≡ (book self.old.pass).begins }
        ensures ticks { (book self.new.pass).ticks ≡ (book self.old.pass).ticks }
        ensures region { (c : Call) (used : ℕ) → Awaits (C.call self.old.call.value) (book self.old.pass) c used → (book self.new.pass).regions ≡ (c.region, record { used = used; last = Found c }) ∷ (book self.old.pass).regions }
        ensures same { IsSame self.old.pass self.new.pass × ((book self.new.pass).numbers ≡ (book self.old.pass).numbers) × ((book self.new.pass).fresh ≡ (book self.old.pass).fresh) }
        ensures wants { (book self.new.pass).wants ≡ (book self.old.pass).wants }
    {
        let stamp = finish_with(&mut self.pass, self.shared, answer);
        self.writes.clear();
        self.at = At::Outside;
        stamp
    }

    /// Ends the attempt without an entry. The pass makes no step, and its reads stay with it until the next attempt. No memory.
    pub fn rollback(&mut self)
        ensures run { (h : List Entry) (n : ℕ) (r w : Log) → Stands C.began self.old.shared.now.words self.old.at self.old.writes.items self.old.pass h n r w
            → Stands C.began self.new.shared.now.words self.new.at self.new.writes.items self.new.pass h n [] [] }
        ensures awaits { (c : Call) (used : ℕ) → Awaits (C.call self.old.call.value) (book self.old.pass) c used → Awaits (C.call self.new.call.value) (book self.new.pass) c used }
        ensures begins { (book self.new.pass).begins ≡ (book self.old.pass).begins }
        ensures ticks { (book self.new.pass).ticks ≡ (book self.old.pass).ticks }
        ensures pass { self.new.pass ≡ self.old.pass }
        ensures same { IsSame self.old.pass self.new.pass × IsKin (book self.old.pass) (book self.new.pass) }
    {
        self.writes.clear();
        self.at = At::Outside;
    }

    /// How often the pass has moved the clock. No memory.
    pub fn ticks(&self) -> u64
        ensures { result ≡ (book self.now.pass).ticks }
    {
        self.pass.ticks()
    }
}
