//! What runs the reads and writes of attempts.
use jmodel::value::{Answer, Stamp};
use std::snapshot::Snapshot;

/// Why an attempt was refused: an address that it reads or writes, the word seen there by which others tell who writes
/// it, and the newest version that the attempt could have read.
#[derive(Clone, Copy)]
pub struct Conflict {
    pub address: u64,
    pub word: u64,
    pub upto: u64,
}

/// Why a call of an engine did nothing.
#[derive(Clone, Copy)]
pub enum TxEnd {
    Conflict(Conflict),
    NoMemory,
}

/// The attempts of one lane, one after the other. `begin` stands outside an attempt, `ticks` anywhere, and the other
/// calls inside an attempt; `on_read` follows `before_read` and `raw` of the same address, with the word that `raw` gave.
/// After an `Err` only `rollback` follows, except that a `commit` which answers one has rolled back itself.
///
/// An engine may share its words with others, and then its entry is one for all from a step inside `commit` on. So what
/// the call answers, and how many words of its region it leaves used, is told to `commit` and `finish_refused`, for contracts alone.
pub trait Engine {
    ghost use Rattle.std.specs.Prelude.{◌≡◌, ◌⊎◌, ◌<◌, ◌≤◌, ◌+◌, ◌^◌, [], ◌∷◌, ◌++◌, ℕ, List, MatchResult, IfOk, IfErr, IsOk};
    ghost use Rattle.jmodel.specs.history.Log.{Log, access, answered, recorded, written};
    ghost use Rattle.jmodel.specs.history.History.{Call, Entry, Words};
    ghost use Rattle.tx_core.specs.Engine.{raised, Adds, MayEnd, IsOfWrites, IsSnapshot, LeadsTo};

    /// The entries that were committed, the oldest first; how many conflicts were met; and what the attempt has read and
    /// written, the last first.
    ghost stands: { Self → List Entry → ℕ → Log → Log → Type 0 };

    /// An attempt has begun, and neither ended nor met a conflict.
    ghost is_open: { Self → Type 0 };

    /// The call that attempts are made at, and the used words of its region before it.
    ghost awaits: { Self → Call → ℕ → Type 0 };

    /// What may be committed.
    ghost allows: { Entry → Type 0 };

    /// The words, and the used words of each region, that the history may begin with.
    ghost begins: { Words → (ℕ → ℕ) → Type 0 };

    /// Others commit entries to the same history. Then an attempt may end with an entry that may be committed, and no other.
    ghost is_shared: { Type 0 };

    /// How often the clock was raised by commits.
    ghost clock: { Self → ℕ };

    /// No other engine has a part of the words now, so no attempt meets a conflict. Nothing is said where this is left out.
    ghost is_alone: { Self → Type 0 } = { λ _. ⊥ };

    /// What a look before a read of an address has left.
    ghost looked: { Self → ℕ → Type 0 } = { λ _ _. Unit {0} };

    /// What is known of the word that was given for an address after the look.
    ghost loaded: { Self → ℕ → ℕ → Type 0 } = { λ _ _ _. Unit {0} };

    /// The attempt has read an address. Nothing is said where this is left out.
    ghost has_read: { Self → ℕ → Type 0 } = { λ _ _. ⊥ };

    /// How many attempts were begun. Nothing is said where this is left out.
    ghost attempts: { Self → ℕ → Type 0 } = { λ _ _. Unit {0} };

    /// Begins an attempt. No memory.
    fn begin(&mut self)
        ensures run { (h : List Entry) (n : ℕ) → stands self.old h n [] [] → stands self.new h n [] [] }
        ensures open { is_open self.new }
        ensures awaits { (c : Call) (used : ℕ) → awaits self.old c used → awaits self.new c used }
        ensures alone { is_alone self.old → is_alone self.new }
        ensures attempts { (k : ℕ) → attempts self.old k → attempts self.new (k + 1) }
        ensures ticks { clock self.new ≡ clock self.old };

    /// Before a read. A conflict is at the address, or at one that the attempt has read. No memory.
    fn before_read(&mut self, address: u64) -> Result<(), Conflict>
        requires { is_open self.old }
        ensures run { (h : List Entry) (n : ℕ) (r w : Log) → stands self.old h n r w
            → MatchResult result (λ _. stands self.new h n r w) (λ _. stands self.new h (n + 1) r w) }
        ensures open { IfOk result (λ _. is_open self.new) }
        ensures awaits { (c : Call) (used : ℕ) → awaits self.old c used → awaits self.new c used }
        ensures looked { IfOk result (λ _. looked self.new address) }
        ensures conflict { IfErr result (λ e. (e.address ≡ address) ⊎ has_read self.old e.address) }
        ensures alone { is_alone self.old → is_alone self.new × IsOk result }
        ensures attempts { (k : ℕ) → attempts self.old k → attempts self.new k }
        ensures ticks { clock self.new ≡ clock self.old };

    /// The word as it lies there, whoever wrote it. No memory.
    fn raw(&mut self, address: u64) -> u64
        requires { is_open self.old }
        ensures run { (h : List Entry) (n : ℕ) (r w : Log) → stands self.old h n r w → stands self.new h n r w }
        ensures loaded { looked self.old address → loaded self.new address result }
        ensures open { is_open self.new }
        ensures awaits { (c : Call) (used : ℕ) → awaits self.old c used → awaits self.new c used }
        ensures alone { is_alone self.old → is_alone self.new }
        ensures attempts { (k : ℕ) → attempts self.old k → attempts self.new k }
        ensures ticks { clock self.new ≡ clock self.old };

    /// The attempt's own last word there, or else a word that was committed there, which it logs as read.
    fn on_read(&mut self, address: u64, raw: u64) -> Result<u64, TxEnd>
        requires { is_open self.old }
        ensures run { (h : List Entry) (n : ℕ) (r w : Log) → stands self.old h n r w
            → MatchResult result (λ word. (word ≡ answered w address word) × stands self.new h n (recorded (written w address) address word r) w)
            (λ end. stands self.new h (raised end n) r w) }
        ensures open { IfOk result (λ _. is_open self.new) }
        ensures conflict { (e : Conflict) → result ≡ Err (TxEnd.Conflict e) → e.address ≡ address }
        ensures awaits { (c : Call) (used : ℕ) → awaits self.old c used → awaits self.new c used }
        ensures alone { is_alone self.old → is_alone self.new × IfErr result (λ end. end ≡ TxEnd.NoMemory) }
        ensures attempts { (k : ℕ) → attempts self.old k → attempts self.new k }
        ensures ticks { clock self.new ≡ clock self.old };

    /// Logs a write.
    fn on_write(&mut self, address: u64, word: u64) -> Result<(), TxEnd>
        requires { is_open self.old }
        ensures run { (h : List Entry) (n : ℕ) (r w : Log) → stands self.old h n r w
            → MatchResult result (λ _. stands self.new h n r (access address word ∷ w)) (λ end. stands self.new h (raised end n) r w) }
        ensures open { IfOk result (λ _. is_open self.new) }
        ensures awaits { (c : Call) (used : ℕ) → awaits self.old c used → awaits self.new c used }
        ensures alone { is_alone self.old → is_alone self.new × IfErr result (λ end. end ≡ TxEnd.NoMemory) }
        ensures attempts { (k : ℕ) → attempts self.old k → attempts self.new k }
        ensures ticks { clock self.new ≡ clock self.old };

    /// Ends the attempt as an entry of the history with this answer, which leaves so many words of its region used, where its reads stand. An `Err`
    /// has rolled it back, and one for want of memory didn't raise the clock.
    fn commit(&mut self, answer: Snapshot<Answer>, used: Snapshot<u64>) -> Result<Stamp, TxEnd>
        requires open { is_open self.old }
        requires clock { clock self.old < 2 ^ 40 }
        requires allowed { is_shared → MayEnd (stands self.old) (awaits self.old) allows (λ w. w) answer.value (λ _. used.value) }
        ensures run { (h : List Entry) (n : ℕ) (r w : Log) → stands self.old h n r w
            → MatchResult result (λ stamp. IsOfWrites stamp w × Adds (awaits self.old) allows (stands self.new) h n answer.value (λ _. used.value) stamp r w) (λ end. stands self.new h (raised end n) [] []) }
        ensures awaits { (c : Call) (used : ℕ) → awaits self.old c used → IfErr result (λ _. awaits self.new c used) }
        ensures alone { is_alone self.old → is_alone self.new × IfErr result (λ end. end ≡ TxEnd.NoMemory) }
        ensures attempts { (k : ℕ) → attempts self.old k → attempts self.new k }
        ensures ticks { clock self.new ≤ clock self.old + 1 }
        ensures memory { result ≡ Err TxEnd.NoMemory → clock self.new ≡ clock self.old };

    /// Ends the attempt as an entry with this answer that wrote nothing and leaves the used words of its region as they were. No memory.
    fn finish_refused(&mut self, answer: Snapshot<Answer>) -> Stamp
        requires open { is_open self.old }
        requires allowed { is_shared → MayEnd (stands self.old) (awaits self.old) allows (λ _. []) answer.value (λ used. used) }
        ensures run { (h : List Entry) (n : ℕ) (r w : Log) → stands self.old h n r w
            → IsOfWrites result [] × Adds (awaits self.old) allows (stands self.new) h n answer.value (λ used. used) result r [] }
        ensures alone { is_alone self.old → is_alone self.new }
        ensures attempts { (k : ℕ) → attempts self.old k → attempts self.new k }
        ensures ticks { clock self.new ≡ clock self.old };

    /// Ends the attempt without an entry. No memory.
    fn rollback(&mut self)
        ensures run { (h : List Entry) (n : ℕ) (r w : Log) → stands self.old h n r w → stands self.new h n [] [] }
        ensures awaits { (c : Call) (used : ℕ) → awaits self.old c used → awaits self.new c used }
        ensures alone { is_alone self.old → is_alone self.new }
        ensures attempts { (k : ℕ) → attempts self.old k → attempts self.new k }
        ensures ticks { clock self.new ≡ clock self.old };

    /// How often the clock was raised by commits. No memory.
    fn ticks(&self) -> u64
        ensures { result ≡ clock self.now };

    /// All that an open attempt read is what entries leave that may be committed, one after another from what the history began with, and after them
    /// the awaited call's region has its used words. Where no others commit, they are the history itself, of which the caller knows the used words.
    ghost snapshot: { (e : Self) (h : List Entry) (n : ℕ) (r w : Log) (c : Call) (used : ℕ) → stands e h n r w → is_open e → awaits e c used
        → is_shared ⊎ ((first : Words) (opened : ℕ → ℕ) → begins first opened → LeadsTo opened h c used) → IsSnapshot begins allows c used r };
}
