//! The steps of an attempt that reads.
ghost use Rattle.std.specs.Prelude.{◌≡◌, ◌⊎◌, ◌≤◌, ◌+◌, ◌^◌, [], ◌∷◌, ◌++◌, ℕ, List, None, true, reverse, MatchBool, MatchResult, IfOk, IfErr, IsOk};
ghost use Rattle.jmodel.specs.history.Log.{Log, answered, recorded, written};
ghost use Rattle.jmodel.specs.history.History.{Call, Entry};
ghost use Rattle.tx_core.specs.Engine.{raised};
ghost use Rattle.tx_table.specs.Book.{In};
ghost use Rattle.tx_table.specs.Rule.{Snapshot as Learns};
ghost use Rattle.tx_table.specs.Passes.{book, IsSame};
ghost use Rattle.tl2.specs.Standing.{IsOpen, Awaits};
ghost use Rattle.lsa.specs.Conflicts.{Meets};
ghost use Rattle.lsa.specs.Owning.{IsAkin};
ghost use Rattle.lsa.specs.Standing.{StandsFor};

use crate::attempt::{Lsa, STRIPES};
use crate::extension::look_free;
use jmodel::access::Access;
use tl2::attempt::At;
use tl2::commit::give_back;
use tl2::reading::begin_at;
use tx_core::{Conflict, TxEnd};
use tx_table::{Calling, Ruled};

/// Logs a read at an address where it is due, and says whether it did: it does not where memory is wanting.
fn log_read(reads: &mut Vec<u64>, address: u64, due: bool) -> bool
    ensures logged { MatchBool result ((due ≡ true) × (reads.new.items ≡ reads.old.items ++ address ∷ [])) (reads.new.items ≡ reads.old.items) }
{
    due && reads.push(address).is_ok()
}

impl<'a, T: Ruled, C: Calling> Lsa<'a, T, C> {
    /// Begins an attempt. Stripes that an attempt before still held are given back first. No memory.
    pub fn begin(&mut self)
        ensures run { (h : List Entry) (n : ℕ) → StandsFor C.began self.old.shared.now.words self.old.at self.old.writes.items self.old.pass h n [] []
            → StandsFor C.began self.new.shared.now.words self.new.at self.new.writes.items self.new.pass h n [] [] }
        ensures open { IsOpen self.new.shared.now.words self.new.at (C.call self.new.call.value) (book self.new.pass) }
        ensures awaits { (c : Call) (used : ℕ) → Awaits (C.call self.old.call.value) (book self.old.pass) c used → Awaits (C.call self.new.call.value) (book self.new.pass) c used }
        ensures begins { (book self.new.pass).begins ≡ (book self.old.pass).begins + 1 }
        ensures ticks { (book self.new.pass).ticks ≡ (book self.old.pass).ticks }
        ensures snapshot { Learns (T.story self.new.shared.now.table.shared.key.story.value) (book self.new.pass) }
        ensures same { IsSame self.old.pass self.new.pass × IsAkin (book self.old.pass) (book self.new.pass) }
    {
        give_back(&mut self.pass, self.shared, &self.stripes);
        self.stripes.clear();
        self.own.clear();
        self.writes.clear();
        self.reads.clear();
        begin_at(&mut self.pass, self.shared, &self.call);
        self.at = At::Inside;
    }

    /// Before a read: looks at the stripe of an address, unless the attempt has written it or holds its stripe. A version over the bound moves the
    /// bound first. A stripe that is held by another, or that has a version over the bound, is a conflict, which the pass's book keeps: at this address, or
    /// where the bound was to move at one that the attempt has read. A pass that holds every number meets none. No memory.
    pub fn before_read(&mut self, address: u64) -> Result<(), Conflict>
        requires { IsOpen self.old.shared.now.words self.old.at (C.call self.old.call.value) (book self.old.pass) }
        ensures run { (h : List Entry) (n : ℕ) (r w : Log) → StandsFor C.began self.old.shared.now.words self.old.at self.old.writes.items self.old.pass h n r w
            → MatchResult result (λ _. StandsFor C.began self.new.shared.now.words self.new.at self.new.writes.items self.new.pass h n r w)
            (λ _. StandsFor C.began self.new.shared.now.words self.new.at self.new.writes.items self.new.pass h (n + 1) r w) }
        ensures open { IfOk result (λ _. IsOpen self.new.shared.now.words self.new.at (C.call self.new.call.value) (book self.new.pass)) }
        ensures awaits { (c : Call) (used : ℕ) → Awaits (C.call self.old.call.value) (book self.old.pass) c used → Awaits (C.call self.new.call.value) (book self.new.pass) c used }
        ensures begins { (book self.new.pass).begins ≡ (book self.old.pass).begins }
        ensures ticks { (book self.new.pass).ticks ≡ (book self.old.pass).ticks }
        ensures seen { IfErr result (λ e. Meets (book self.old.pass) (book self.new.pass) e) }
        ensures address { IfErr result (λ e. (e.address ≡ address) ⊎ In e.address self.old.reads.items) }
        ensures sole { (book self.old.pass).numbers ≡ 2 ^ 20 → IsOk result }
        ensures same { IsSame self.old.pass self.new.pass × IsAkin (book self.old.pass) (book self.new.pass) }
        ensures snapshot { Learns (T.story self.old.shared.now.table.shared.key.story.value) (book self.old.pass) → Learns (T.story self.new.shared.now.table.shared.key.story.value) (book self.new.pass) }
    {
        if address >= self.shared.words || self.writes.written(address).is_some() {
            return Ok(());
        }
        if self.own.contains(&(address % STRIPES)) {
            return Ok(());
        }
        match look_free(&mut self.pass, self.shared, &self.own, &self.reads, address) {
            Ok(_) => {
                self.at = At::Looked(address);
                Ok(())
            }
            Err(conflict) => {
                self.at = At::Outside;
                Err(conflict)
            }
        }
    }

    /// The word of an address as it lies there; the attempt's own last word where it has written it. Where no look came before, as for an address on a
    /// stripe that the attempt holds, it is 0. No memory.
    pub fn raw(&mut self, address: u64) -> u64
        requires { IsOpen self.old.shared.now.words self.old.at (C.call self.old.call.value) (book self.old.pass) }
        ensures run { (h : List Entry) (n : ℕ) (r w : Log) → StandsFor C.began self.old.shared.now.words self.old.at self.old.writes.items self.old.pass h n r w
            → StandsFor C.began self.new.shared.now.words self.new.at self.new.writes.items self.new.pass h n r w }
        ensures open { IsOpen self.new.shared.now.words self.new.at (C.call self.new.call.value) (book self.new.pass) }
        ensures awaits { (c : Call) (used : ℕ) → Awaits (C.call self.old.call.value) (book self.old.pass) c used → Awaits (C.call self.new.call.value) (book self.new.pass) c used }
        ensures begins { (book self.new.pass).begins ≡ (book self.old.pass).begins }
        ensures ticks { (book self.new.pass).ticks ≡ (book self.old.pass).ticks }
        ensures same { IsSame self.old.pass self.new.pass × IsAkin (book self.old.pass) (book self.new.pass) }
        ensures snapshot { Learns (T.story self.old.shared.now.table.shared.key.story.value) (book self.old.pass) → Learns (T.story self.new.shared.now.table.shared.key.story.value) (book self.new.pass) }
    {
        if let Some(word) = self.writes.written(address) {
            return word;
        }
        let At::Looked(looked) = self.at else {
            return 0;
        };
        if looked != address {
            return 0;
        }
        let word = self.pass.load(self.shared, address);
        self.at = At::Loaded(Access { address, word });
        word
    }

    /// The attempt's own last word of an address; or, on a stripe that the attempt holds, the word that lies there; or else the word that was loaded, once
    /// its stripe shows again what it showed before. The word is logged as read, unless it is the attempt's own. Another word of the stripe is a conflict,
    /// which the pass's book keeps; a pass that holds every number meets none. Where no look and load came before, there is no answer, which is told as
    /// want of memory.
    pub fn on_read(&mut self, address: u64, _raw: u64) -> Result<u64, TxEnd>
        requires { IsOpen self.old.shared.now.words self.old.at (C.call self.old.call.value) (book self.old.pass) }
        ensures run { (h : List Entry) (n : ℕ) (r w : Log) → StandsFor C.began self.old.shared.now.words self.old.at self.old.writes.items self.old.pass h n r w
            → MatchResult result (λ word. (word ≡ answered w address word) × StandsFor C.began self.new.shared.now.words self.new.at self.new.writes.items self.new.pass h n (recorded (written w address) address word r) w)
            (λ end. StandsFor C.began self.new.shared.now.words self.new.at self.new.writes.items self.new.pass h (raised end n) r w) }
        ensures open { IfOk result (λ _. IsOpen self.new.shared.now.words self.new.at (C.call self.new.call.value) (book self.new.pass)) }
        ensures awaits { (c : Call) (used : ℕ) → Awaits (C.call self.old.call.value) (book self.old.pass) c used → Awaits (C.call self.new.call.value) (book self.new.pass) c used }
        ensures begins { (book self.new.pass).begins ≡ (book self.old.pass).begins }
        ensures ticks { (book self.new.pass).ticks ≡ (book self.old.pass).ticks }
        ensures snapshot { IfOk result (λ _. written (reverse self.old.writes.items) address ≡ None → Learns (T.story self.new.shared.now.table.shared.key.story.value) (book self.new.pass)) }
        ensures still { IfOk result (λ _. Learns (T.story self.old.shared.now.table.shared.key.story.value) (book self.old.pass) → Learns (T.story self.new.shared.now.table.shared.key.story.value) (book self.new.pass)) }
        ensures same { IsSame self.old.pass self.new.pass × IsAkin (book self.old.pass) (book self.new.pass) }
        ensures seen { (e : Conflict) → result ≡ Err (TxEnd.Conflict e) → (e.address ≡ address) × Meets (book self.old.pass) (book self.new.pass) e }
        ensures sole { (book self.old.pass).numbers ≡ 2 ^ 20 → IfErr result (λ end. end ≡ TxEnd.NoMemory) }
    {
        if let Some(word) = self.writes.written(address) {
            return Ok(word);
        }
        if self.own.contains(&(address % STRIPES)) {
            if !log_read(&mut self.reads, address, address < self.shared.words) {
                return Err(TxEnd::NoMemory);
            }
            let word = self.pass.load_own(self.shared, address);
            self.at = At::Inside;
            return Ok(word);
        }
        let At::Loaded(loaded) = self.at else {
            return Err(TxEnd::NoMemory);
        };
        if !log_read(&mut self.reads, address, loaded.address == address) {
            return Err(TxEnd::NoMemory);
        }
        match self.pass.recheck(self.shared, address) {
            Ok(()) => {
                self.at = At::Inside;
                Ok(loaded.word)
            }
            Err(conflict) => {
                self.at = At::Outside;
                Err(TxEnd::Conflict(conflict))
            }
        }
    }
}
