//! Objects that a call makes, and headers that it reads, by which it throws, casts, selects and bounds.
ghost use Rattle.std.specs.Prelude.{◌≡◌, ◌≢◌, ◌<◌, ◌≤◌, ◌+◌, ◌*◌, ◌^◌, ℕ, List, [], ◌∷◌, IfOk, Some, None, MatchResult};
ghost use Rattle.objects.specs.rewriting.Attempt.{Log, Bounds, Refuses, answered, recorded, written, making as makes_of, on_raise, raises, throws, heading, heads, followed, unwound};
ghost use Rattle.objects.specs.semantics.Program.{row_at};
ghost use Rattle.objects.specs.semantics.State.{type_in, length_in};
ghost use Rattle.objects.specs.semantics.Step.{told as told_of, unwinds};
ghost use Rattle.objects.specs.declared.op.Asking.{Asking as Wanted};
ghost use Rattle.objects.specs.declared.op.Asking.TheVariants as asking;
ghost use Rattle.objects.specs.declared.event.Event.TheVariants.{Looked, Loaded, Checked};
ghost use Rattle.objects.specs.rewriting.Events.{AreOfAsking, AreOfHead, AreOfHeader, Grows};
ghost use Rattle.jmodel.specs.history.History.{Call, Entry};
ghost use Rattle.objects.specs.declared.op.Phase.TheVariants as phase;
ghost use Rattle.machine.specs.declared.running.Stage.TheVariants as stage;
ghost use Rattle.machine.specs.declared.failure.Failure.TheVariants as failure;
ghost use Rattle.machine.specs.Machine.{bounds_of};
ghost use Rattle.machine.specs.Meets.{HasPlace, CanAsk};
ghost use Rattle.machine.specs.Running.{frames, meter, phase_of, Saw, Holds, IsWithin, Moves, Told, IsTurn, IsHeaded, IsFresh, IsFollowed, Lands, settled};
ghost use Rattle.tx_core.specs.Engine.{raised};

use crate::failure::Failure;
use crate::gate::Gate;
use crate::machine::Limits;
use crate::room::Thrown;
use crate::running::{CONFLICT, Limit, Running, Stage, Todo};
use crate::told::{Headed, loads_plain, told, type_of};
use hierarchy::program::Program;
use hierarchy::row::Holds as RowHolds;
use objects::event::Event;
use objects::op::{Asking, Made, Slot, Use};
use std::alloc::Global;
use tx_core::{Engine, TxEnd};

/// The words that a new object takes, and the word of its header.
#[derive(Clone, Copy)]
pub struct Fresh {
    pub words: u64,
    pub header: u64,
}

/// What an instruction makes: an object of the type with this number, of this length where it is an array, which is pushed or thrown.
#[derive(Clone, Copy)]
pub struct Making {
    pub of: usize,
    pub length: u64,
    pub made: Made,
}

/// What is made for an object of a type, of a length where it is an array. `Wrong` where there is no such type. A type whose number, or a length,
/// hasn't 32 bits has no memory.
fn fresh_of(program: &Program, of: usize, length: u64) -> Result<Fresh, Failure>
    ensures { MatchResult result (λ x. IsFresh program.now of length x) (λ e. e ≡ failure.Wrong → row_at program.now of ≡ None) }
{
    let Some(row) = program.row(of) else {
        return Err(Failure::Wrong);
    };
    let (values, length) = match row.holds() {
        RowHolds::Words(fields) => (fields.len() as u64, 0),
        RowHolds::Elements { .. } => (length, length),
    };
    if of >= 1 << 32 || length >= 1 << 32 {
        return Err(Failure::NoMemory);
    }
    match values.checked_add(1) {
        Some(words) => Ok(Fresh {
            words,
            header: (of as u64) * (1 << 32) + length,
        }),
        None => Err(Failure::NoMemory),
    }
}

/// Reads the header of an object as any word is read.
fn read_header<E: Engine, G: Gate>(engine: &mut E, gate: &mut G, object: u64) -> Result<u64, TxEnd>
    requires { E.is_open engine.old }
    ensures run { (h : List Entry) (n : ℕ) (r w : Log) → E.stands engine.old h n r w
        → MatchResult result (λ word. (word ≡ answered w object word) × E.stands engine.new h n (recorded (written w object) object word r) w)
        (λ end. E.stands engine.new h (raised end n) r w) }
    ensures told { MatchResult result (λ word. Grows (G.told gate.old) (G.told gate.new) (Looked object ∷ Loaded object ∷ Checked object ∷ []))
        (λ end. Told (AreOfHeader Refuses object) (Grows (G.told gate.old) (G.told gate.new))) }
    ensures open { IfOk result (λ _. E.is_open engine.new) }
    ensures awaits { (c : Call) (used : ℕ) → E.awaits engine.old c used → E.awaits engine.new c used }
    ensures attempts { (k : ℕ) → E.attempts engine.old k → E.attempts engine.new k }
    ensures ticks { E.clock engine.new ≡ E.clock engine.old }
{
    if let Err(conflict) = engine.before_read(object) {
        return Err(TxEnd::Conflict(conflict));
    }
    gate.at(Event::Looked(object));
    let raw = engine.raw(object);
    gate.at(Event::Loaded(object));
    let word = engine.on_read(object, raw)?;
    gate.at(Event::Checked(object));
    Ok(word)
}

impl Running {
    /// Makes an object of a type in an attempt, where the region has room for it, and pushes or throws it. Its header is written as any word is;
    /// the words behind it are 0.
    pub(crate) fn make<E: Engine, G: Gate>(
        &mut self,
        program: &Program,
        limits: Limits,
        engine: &mut E,
        gate: &mut G,
        making: Making,
    ) -> Result<Todo, Failure>
        requires fits { limits.room.region * limits.room.size + limits.room.size < 2 ^ 64 }
        requires next { self.old.frame.pc + 1 < 2 ^ 64 }
        requires stage { self.old.stage ≡ stage.Open }
        requires begun { E.is_open engine.old }
        ensures run { (h : List Entry) (n : ℕ) (r w : Log) (k : Call) (used : ℕ) → E.awaits engine.old k used → Holds (E.stands engine.old h) (Saw E.is_shared E.begins E.allows h k used) n stage.Open self.old.tried r w
            → IsTurn (bounds_of limits) (λ v. makes_of phase.Open making.of making.length making.made v program.now (bounds_of limits) (frames self.old) (meter self.old) w r)
            (λ v. AreOfAsking program.now (bounds_of limits) (asking.Make making.of making.length making.made) phase.Open v (meter self.old)) (Grows (G.told gate.old) (G.told gate.new))
            (Holds (E.stands engine.new h) (Saw E.is_shared E.begins E.allows h k used) n self.new.stage self.new.tried) self.new result }
        ensures no_commit { result ≢ Ok Todo.Commit }
        ensures not_spent { result ≢ Ok Todo.Spent }
        ensures moves { IfOk result (λ _. Moves stage.Open self.old.tried self.new.stage self.new.tried) }
        ensures attempts { (k : ℕ) → E.attempts engine.old (k + self.old.tried) → E.attempts engine.new (k + self.new.tried) }
        ensures ticks { (t attempts : ℕ) → IsWithin t attempts (E.clock engine.old) self.old.stage self.old.tried
            → IsWithin t attempts (E.clock engine.new) self.new.stage self.new.tried }
        ensures begun { IfOk result (λ _. self.new.stage ≡ stage.Open → E.is_open engine.new) }
        ensures awaits { (c : Call) (used : ℕ) → E.awaits engine.old c used → E.awaits engine.new c used }
        ensures refuse { (limit : Limit) → result ≡ Ok (Todo.Refuse limit) → self.new.stage ≡ stage.Open }
    {
        let Making { of, length, made } = making;
        let object = fresh_of(program, of, length)?;
        let Some(reference) = limits.room.place(self.used, object.words) else {
            return Ok(Todo::Refuse(Limit::Heap(object.words)));
        };
        match engine.on_write(reference, object.header) {
            Ok(()) => {
                gate.at(Event::Wrote(reference));
                self.settle_made(program, reference, of, object.words, made)
            }
            Err(TxEnd::Conflict(_)) => self.doom(program, CONFLICT),
            Err(TxEnd::NoMemory) => Err(Failure::NoMemory),
        }
    }

    /// Counts the words of an object whose header was written, and pushes or throws it.
    fn settle_made(
        &mut self,
        program: &Program,
        reference: u64,
        of: usize,
        words: u64,
        made: Made,
    ) -> Result<Todo, Failure>
        requires stage { self.old.stage ≡ stage.Open }
        requires counts { self.old.used + words < 2 ^ 64 }
        requires next { self.old.frame.pc + 1 < 2 ^ 64 }
        ensures run { (B : Bounds) (w r : Log) → Lands B (settled made program.now B reference of (record (meter self.old) { used = self.old.used + words }) (frames self.old) w r) self.new w r result }
        ensures no_commit { result ≢ Ok Todo.Commit }
        ensures not_spent { result ≢ Ok Todo.Spent }
        ensures stage { self.new.stage ≡ stage.Open }
        ensures tried { self.new.tried ≡ self.old.tried }
    {
        self.used += words;
        match made {
            Made::Pushed => self.resume(Slot::Ref(reference)),
            Made::Raised => self.throw(program, Thrown { reference, of }),
        }
    }

    /// Throws an exception by its type, which its header tells. A conflict that an attempt met is thrown on. `Wrong` outside an attempt.
    pub(crate) fn raise<E: Engine, G: Gate>(
        &mut self,
        program: &Program,
        engine: &mut E,
        gate: &mut G,
        exception: u64,
    ) -> Result<Todo, Failure>
        requires begun { self.old.stage ≡ stage.Open → E.is_open engine.old }
        ensures run { (h : List Entry) (n : ℕ) (r w : Log) (k : Call) (used : ℕ) → E.awaits engine.old k used → Holds (E.stands engine.old h) (Saw E.is_shared E.begins E.allows h k used) n self.old.stage self.old.tried r w
            → (B : Bounds) → IsTurn B (λ v. raises (phase_of self.old.stage) v program.now B exception (frames self.old) (meter self.old) w r)
            (λ v. AreOfAsking program.now B (asking.Raise exception) (phase_of self.old.stage) v (meter self.old)) (Grows (G.told gate.old) (G.told gate.new))
            (Holds (E.stands engine.new h) (Saw E.is_shared E.begins E.allows h k used) n self.new.stage self.new.tried) self.new result }
        ensures no_commit { result ≢ Ok Todo.Commit }
        ensures not_spent { result ≢ Ok Todo.Spent }
        ensures moves { IfOk result (λ _. Moves self.old.stage self.old.tried self.new.stage self.new.tried) }
        ensures attempts { (k : ℕ) → E.attempts engine.old (k + self.old.tried) → E.attempts engine.new (k + self.new.tried) }
        ensures ticks { (t attempts : ℕ) → IsWithin t attempts (E.clock engine.old) self.old.stage self.old.tried
            → IsWithin t attempts (E.clock engine.new) self.new.stage self.new.tried }
        ensures begun { IfOk result (λ _. self.new.stage ≡ stage.Open → E.is_open engine.new) }
        ensures awaits { (c : Call) (used : ℕ) → E.awaits engine.old c used → E.awaits engine.new c used }
        ensures refuse { (limit : Limit) → result ≡ Ok (Todo.Refuse limit) → self.new.stage ≡ stage.Open }
    {
        match self.stage {
            Stage::Open => self.raise_by_type(program, engine, gate, exception),
            Stage::Doomed => self.doom(program, exception),
            Stage::Ready => Err(Failure::Wrong),
        }
    }

    /// Throws an exception in an attempt, by the type that its header has.
    fn raise_by_type<E: Engine, G: Gate>(
        &mut self,
        program: &Program,
        engine: &mut E,
        gate: &mut G,
        exception: u64,
    ) -> Result<Todo, Failure>
        requires stage { self.old.stage ≡ stage.Open }
        requires begun { E.is_open engine.old }
        ensures run { (h : List Entry) (n : ℕ) (r w : Log) (k : Call) (used : ℕ) → E.awaits engine.old k used → Holds (E.stands engine.old h) (Saw E.is_shared E.begins E.allows h k used) n stage.Open self.old.tried r w
            → (B : Bounds) → IsTurn B (λ v. on_raise v program.now B exception (frames self.old) (meter self.old) w r)
            (λ v. AreOfAsking program.now B (asking.Raise exception) phase.Open v (meter self.old)) (Grows (G.told gate.old) (G.told gate.new))
            (Holds (E.stands engine.new h) (Saw E.is_shared E.begins E.allows h k used) n self.new.stage self.new.tried) self.new result }
        ensures no_commit { result ≢ Ok Todo.Commit }
        ensures not_spent { result ≢ Ok Todo.Spent }
        ensures moves { IfOk result (λ _. Moves stage.Open self.old.tried self.new.stage self.new.tried) }
        ensures attempts { (k : ℕ) → E.attempts engine.old (k + self.old.tried) → E.attempts engine.new (k + self.new.tried) }
        ensures ticks { (t attempts : ℕ) → IsWithin t attempts (E.clock engine.old) self.old.stage self.old.tried
            → IsWithin t attempts (E.clock engine.new) self.new.stage self.new.tried }
        ensures begun { IfOk result (λ _. self.new.stage ≡ stage.Open → E.is_open engine.new) }
        ensures awaits { (c : Call) (used : ℕ) → E.awaits engine.old c used → E.awaits engine.new c used }
        ensures refuse { (limit : Limit) → result ≡ Ok (Todo.Refuse limit) → self.new.stage ≡ stage.Open }
    {
        match read_header(engine, gate, exception) {
            Ok(header) => self.throw_known(program, exception, type_of(header)),
            Err(TxEnd::Conflict(_)) => self.doom(program, CONFLICT),
            Err(TxEnd::NoMemory) => Err(Failure::NoMemory),
        }
    }

    /// Throws an exception of a type, or `Wrong` where the program has no such type.
    fn throw_known(&mut self, program: &Program, reference: u64, of: usize) -> Result<Todo, Failure>
        requires stage { self.old.stage ≡ stage.Open }
        ensures run { (B : Bounds) (w r : Log) → Lands B (throws (row_at program.now of) program.now B reference of (frames self.old) (meter self.old) w r) self.new w r result }
        ensures no_commit { result ≢ Ok Todo.Commit }
        ensures not_spent { result ≢ Ok Todo.Spent }
        ensures stage { self.new.stage ≡ stage.Open }
        ensures tried { self.new.tried ≡ self.old.tried }
    {
        match program.row(of) {
            Some(_) => self.throw(program, Thrown { reference, of }),
            None => Err(Failure::Wrong),
        }
    }

    /// Reads the header of an object, and lets the instruction go on by it. Answers what it asks for then, or none where it went on or met a conflict. A
    /// plain load of an element reads no header. `Wrong` outside an attempt.
    pub(crate) fn head<E: Engine, G: Gate>(
        &mut self,
        alloc: Global,
        program: &Program,
        engine: &mut E,
        gate: &mut G,
        object: u64,
        how: Use,
    ) -> Result<Option<Asking>, Failure>
        requires place { HasPlace how }
        requires next { self.old.frame.pc + 1 < 2 ^ 64 }
        requires begun { self.old.stage ≡ stage.Open → E.is_open engine.old }
        ensures run { (h : List Entry) (n : ℕ) (r w : Log) (k : Call) (used : ℕ) → E.awaits engine.old k used → Holds (E.stands engine.old h) (Saw E.is_shared E.begins E.allows h k used) n self.old.stage self.old.tried r w
            → (B : Bounds) → IsHeaded (λ v. heading (phase_of self.old.stage) v program.now how object (frames self.old) (meter self.old) w r)
            (λ v. AreOfAsking program.now B (asking.Head object how) (phase_of self.old.stage) v (meter self.old)) (Grows (G.told gate.old) (G.told gate.new))
            (Holds (E.stands engine.new h) (Saw E.is_shared E.begins E.allows h k used) n self.new.stage self.new.tried) self.new result }
        ensures open { (a : Wanted) → result ≡ Ok (Some a) → self.new.stage ≡ stage.Open }
        ensures can { (a : Wanted) → result ≡ Ok (Some a) → CanAsk a self.new.frame }
        ensures moves { IfOk result (λ _. (self.old.stage ≡ stage.Open) × Moves stage.Open self.old.tried self.new.stage self.new.tried) }
        ensures attempts { (k : ℕ) → E.attempts engine.old (k + self.old.tried) → E.attempts engine.new (k + self.new.tried) }
        ensures ticks { (t attempts : ℕ) → IsWithin t attempts (E.clock engine.old) self.old.stage self.old.tried
            → IsWithin t attempts (E.clock engine.new) self.new.stage self.new.tried }
        ensures begun { IfOk result (λ _. self.new.stage ≡ stage.Open → E.is_open engine.new) }
        ensures awaits { (c : Call) (used : ℕ) → E.awaits engine.old c used → E.awaits engine.new c used }
    {
        match self.stage {
            Stage::Open => self.head_open(alloc, program, engine, gate, object, how),
            Stage::Ready | Stage::Doomed => Err(Failure::Wrong),
        }
    }

    /// The same in an attempt.
    fn head_open<E: Engine, G: Gate>(
        &mut self,
        alloc: Global,
        program: &Program,
        engine: &mut E,
        gate: &mut G,
        object: u64,
        how: Use,
    ) -> Result<Option<Asking>, Failure>
        requires place { HasPlace how }
        requires next { self.old.frame.pc + 1 < 2 ^ 64 }
        requires stage { self.old.stage ≡ stage.Open }
        requires begun { E.is_open engine.old }
        ensures run { (h : List Entry) (n : ℕ) (r w : Log) (k : Call) (used : ℕ) → E.awaits engine.old k used → Holds (E.stands engine.old h) (Saw E.is_shared E.begins E.allows h k used) n stage.Open self.old.tried r w
            → IsHeaded (λ v. heads v program.now how object (frames self.old) (meter self.old) w r)
            (λ v. AreOfHead how v object) (Grows (G.told gate.old) (G.told gate.new))
            (Holds (E.stands engine.new h) (Saw E.is_shared E.begins E.allows h k used) n self.new.stage self.new.tried) self.new result }
        ensures open { (a : Wanted) → result ≡ Ok (Some a) → self.new.stage ≡ stage.Open }
        ensures can { (a : Wanted) → result ≡ Ok (Some a) → CanAsk a self.new.frame }
        ensures moves { IfOk result (λ _. Moves stage.Open self.old.tried self.new.stage self.new.tried) }
        ensures attempts { (k : ℕ) → E.attempts engine.old (k + self.old.tried) → E.attempts engine.new (k + self.new.tried) }
        ensures ticks { (t attempts : ℕ) → IsWithin t attempts (E.clock engine.old) self.old.stage self.old.tried
            → IsWithin t attempts (E.clock engine.new) self.new.stage self.new.tried }
        ensures begun { IfOk result (λ _. self.new.stage ≡ stage.Open → E.is_open engine.new) }
        ensures awaits { (c : Call) (used : ℕ) → E.awaits engine.old c used → E.awaits engine.new c used }
    {
        if loads_plain(&how) {
            self.frame.resume(Slot::Loaded)?;
            return Ok(None);
        }
        match read_header(engine, gate, object) {
            Ok(header) => self.go_by(alloc, program, how, Headed { object, header }),
            Err(TxEnd::Conflict(_)) => self.refuse_head(program),
            Err(TxEnd::NoMemory) => Err(Failure::NoMemory),
        }
    }

    /// Throws the conflict that a read of a header met.
    fn refuse_head(&mut self, program: &Program) -> Result<Option<Asking>, Failure>
        ensures run { (w r : Log) → IsFollowed (unwound (unwinds program.now 1 0 (frames self.old)) (meter self.old) w r) self.new w r result }
        ensures none { (a : Wanted) → result ≢ Ok (Some a) }
        ensures stage { self.new.stage ≡ stage.Doomed }
        ensures tried { self.new.tried ≡ self.old.tried }
    {
        self.doom(program, CONFLICT)?;
        Ok(None)
    }

    /// Lets an instruction go on by a header, and answers what it asks for then, or none where it went on.
    fn go_by(
        &mut self,
        alloc: Global,
        program: &Program,
        how: Use,
        headed: Headed,
    ) -> Result<Option<Asking>, Failure>
        requires place { HasPlace how }
        requires next { self.old.frame.pc + 1 < 2 ^ 64 }
        requires stage { self.old.stage ≡ stage.Open }
        ensures run { (w r : Log) → IsFollowed (followed (told_of program.now how headed.object (type_in headed.header) (length_in headed.header) (frames self.old)) (meter self.old) w r) self.new w r result }
        ensures can { (a : Wanted) → result ≡ Ok (Some a) → CanAsk a self.new.frame }
        ensures stage { self.new.stage ≡ self.old.stage }
        ensures tried { self.new.tried ≡ self.old.tried }
    {
        match told(
            alloc,
            program,
            how,
            headed,
            &mut self.frame,
            &mut self.callers,
        )? {
            Asking::Go => Ok(None),
            asking => Ok(Some(asking)),
        }
    }
}
