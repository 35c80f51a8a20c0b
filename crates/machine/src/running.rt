//! A call on its way: what it asks of the engine, step by step.
ghost use Rattle.std.specs.Prelude.{◌≡◌, ◌≢◌, ◌<◌, ◌+◌, ◌*◌, ◌^◌, ℕ, List, [], ◌∷◌, Option, IfOk};
ghost use Rattle.objects.specs.rewriting.Attempt.{Log, Bounds, Run, On, address, on_request, on_asking, entered, unwound, on_thrown, meter_thrown, raises, heading};
ghost use Rattle.objects.specs.semantics.Program.{Program as JProgram};
ghost use Rattle.jmodel.specs.history.History.{Call, Entry};
ghost use Rattle.objects.specs.declared.event.Event.{Event as JEvent};
ghost use Rattle.objects.specs.declared.op.Asking.TheVariants as asking;
ghost use Rattle.objects.specs.declared.op.Request.TheVariants as request;
ghost use Rattle.objects.specs.rewriting.Events.{AreOfAsking, Grows};
ghost use Rattle.objects.specs.semantics.Step.{unwinds};
ghost use Rattle.machine.specs.declared.running.Stage.TheVariants as stage;
ghost use Rattle.objects.specs.declared.op.Phase.TheVariants as phase;
ghost use Rattle.machine.specs.Meets.{HasAddress};
ghost use Rattle.machine.specs.Machine.{bounds_of};
ghost use Rattle.machine.specs.Running.{at, frames, meter, phase_of, Saw, Holds, IsWithin, Moves, IsTurn, HasTurned, Waits, IsHeaded, refusal, thrown_of};

use crate::callers::Callers;
use crate::calls::method_of;
use crate::failure::Failure;
use crate::frame::Frame;
use crate::gate::Gate;
use crate::machine::Limits;
use crate::room::Thrown;
use crate::step::{settle, unwind};
use crate::value::value_of;
use hierarchy::program::Program;
use jmodel::value::{Answer, Value};
use objects::event::Event;
use objects::op::{Asking, Place, Request, Slot, WordType};
use std::alloc::Global;
use std::thread::yield_now;
use tx_core::{Engine, TxEnd};

/// Where a call stands before its commit.
#[derive(Clone, Copy)]
pub enum Stage {
    /// Outside an attempt.
    Ready,
    /// In an attempt.
    Open,
    /// In an attempt that met a conflict.
    Doomed,
}

/// A limit that an attempt passes.
#[derive(Clone, Copy)]
pub enum Limit {
    /// The turns are used up.
    Budget,
    /// There are too many frames.
    Depth,
    /// The region has no room for so many words more.
    Heap(u64),
}

impl Limit {
    /// The answer of an attempt that passes it, with so many words used of a region of this size.
    pub fn answer(self, used: u64, size: u64) -> Answer
        ensures { result ≡ refusal self used size }
    {
        match self {
            Limit::Budget => Answer::Budget,
            Limit::Depth => Answer::Depth,
            Limit::Heap(wanted) => Answer::Heap { used, wanted, size },
        }
    }
}

/// What is to be done after a step.
#[derive(Clone, Copy)]
pub enum Todo {
    Go,
    /// The attempt is to be committed.
    Commit,
    /// The attempt passes a limit, and is refused.
    Refuse(Limit),
    /// The attempts are used up.
    Spent,
}

/// A call on its way.
#[derive(Drop)]
pub struct Running {
    pub stage: Stage,
    pub frame: Frame,
    pub callers: Callers,
    /// The turns that are left.
    pub turns: u64,
    /// The attempts begun.
    pub tried: u64,
    /// The used words of the region.
    pub used: u64,
    /// What the attempt threw last.
    pub thrown: Option<Thrown>,
}

impl Running {
    ghost use Rattle.machine.specs.Running.{IsStarted};

    /// A call of a method, or `Wrong` where the program has none of this number. Of the callers it takes the memory alone.
    pub fn start(
        alloc: Global,
        program: &Program,
        limits: Limits,
        method: usize,
        args: &[Value],
        mut callers: Callers,
    ) -> Result<Self, Failure>
        ensures { IsStarted program.now (bounds_of limits) method args.now result }
    {
        let entry = method_of(program, method)?.entry();
        callers.clear();
        let mut frame = callers.spare(alloc);
        frame.start(method, entry, args)?;
        Ok(Running {
            stage: Stage::Ready,
            frame,
            callers,
            turns: 0,
            tried: 0,
            used: limits.room.used,
            thrown: None,
        })
    }

    /// The memory of the frames, for a next call.
    pub(crate) fn into_callers(self) -> Callers {
        let Running {
            frame,
            mut callers,
            ..
        } = self;
        callers.keep(frame);
        callers
    }
}

impl Running {
    ghost use Rattle.objects.specs.semantics.Step.{resumed};
    ghost use Rattle.objects.specs.semantics.Value.{pushed};
    ghost use Rattle.machine.specs.Running.{Lands};

    /// What an attempt that met a conflict took of the region is given back.
    pub(crate) fn set_back(&mut self, limits: Limits)
        ensures { self.new ≡ record self.old { used = limits.room.used; thrown = None } }
    {
        self.used = limits.room.used;
        self.thrown = None;
    }

    /// Counts a turn, before the test whether there are too many frames.
    #[inline(always)]
    pub(crate) fn count(&mut self, deep: bool) -> Result<Todo, Failure>
        ensures run { (B : Bounds) (r w : Log)
            → Lands B (entered B (phase_of self.old.stage) deep (frames self.old) (meter self.old) w r) self.new w r result }
        ensures no_commit { result ≢ Ok Todo.Commit }
        ensures not_spent { result ≢ Ok Todo.Spent }
        ensures stage { self.new.stage ≡ self.old.stage }
        ensures tried { self.new.tried ≡ self.old.tried }
        ensures open { IfOk result (λ _. self.new.stage ≡ stage.Open) }
    {
        if !matches!(self.stage, Stage::Open) {
            return Err(Failure::Wrong);
        }
        if self.turns == 0 {
            return Ok(Todo::Refuse(Limit::Budget));
        }
        if deep {
            return Ok(Todo::Refuse(Limit::Depth));
        }
        self.turns -= 1;
        Ok(Todo::Go)
    }

    /// Goes on to the next instruction, with a slot on the stack.
    pub(crate) fn resume(&mut self, slot: Slot) -> Result<Todo, Failure>
        requires { self.old.frame.pc + 1 < 2 ^ 64 }
        ensures run { (B : Bounds) (r w : Log)
            → Lands B (On (phase_of self.old.stage) (resumed (slot ∷ []) (frames self.old)) (meter self.old) w r) self.new w r result }
        ensures go { IfOk result (λ todo. todo ≡ Todo.Go) }
        ensures stage { self.new.stage ≡ self.old.stage }
        ensures tried { self.new.tried ≡ self.old.tried }
    {
        self.frame.resume(slot)?;
        Ok(Todo::Go)
    }

    /// Goes on to the next instruction, with a value on the stack.
    fn resume_with(&mut self, value: Value) -> Result<Todo, Failure>
        requires { self.old.frame.pc + 1 < 2 ^ 64 }
        ensures run { (B : Bounds) (r w : Log)
            → Lands B (On (phase_of self.old.stage) (resumed (pushed value []) (frames self.old)) (meter self.old) w r) self.new w r result }
        ensures go { IfOk result (λ todo. todo ≡ Todo.Go) }
        ensures stage { self.new.stage ≡ self.old.stage }
        ensures tried { self.new.tried ≡ self.old.tried }
    {
        self.frame.resume_with(value)?;
        Ok(Todo::Go)
    }

    /// Throws a conflict, which ends the attempt's reads and writes, or throws one on.
    pub(crate) fn doom(&mut self, program: &Program, conflict: u64) -> Result<Todo, Failure>
        ensures run { (B : Bounds) (r w : Log)
            → Lands B (unwound (unwinds program.now conflict 0 (frames self.old)) (meter self.old) w r) self.new w r result }
        ensures go { IfOk result (λ todo. todo ≡ Todo.Go) }
        ensures stage { self.new.stage ≡ stage.Doomed }
        ensures tried { self.new.tried ≡ self.old.tried }
    {
        self.stage = Stage::Doomed;
        match unwind(
            program,
            conflict,
            CONFLICT_TYPE,
            &mut self.frame,
            &mut self.callers,
        )? {
            Asking::Go => Ok(Todo::Go),
            _ => Err(Failure::Wrong),
        }
    }

    /// Throws an exception of a type in an attempt.
    pub(crate) fn throw(&mut self, program: &Program, thrown: Thrown) -> Result<Todo, Failure>
        requires stage { self.old.stage ≡ stage.Open }
        ensures run { (B : Bounds) (w r : Log)
            → Lands B (on_thrown B (unwinds program.now thrown.reference thrown.of (frames self.old)) (meter_thrown thrown.reference thrown.of (meter self.old)) w r) self.new w r result }
        ensures no_commit { result ≢ Ok Todo.Commit }
        ensures not_spent { result ≢ Ok Todo.Spent }
        ensures stage { self.new.stage ≡ stage.Open }
        ensures tried { self.new.tried ≡ self.old.tried }
    {
        self.thrown = Some(thrown);
        let Thrown { reference, of } = thrown;
        match unwind(program, reference, of, &mut self.frame, &mut self.callers)? {
            Asking::Go => return Ok(Todo::Go),
            Asking::Turn => return self.count(false),
            _ => return Err(Failure::Wrong),
        }
    }
}

/// The reference of the exception that a conflict throws.
pub(crate) const CONFLICT: u64 = 1;

/// The number that handlers take for its type.
const CONFLICT_TYPE: usize = 0;

/// The address of a place.
fn address(place: Place) -> u64
    requires { place.object + place.index < 2 ^ 64 }
    ensures { result ≡ address place }
{
    place.object + place.index
}

/// Lets other threads run before an attempt that follows on another.
fn pause(tried: u64) {
    if tried > 0 {
        yield_now();
    }
}

impl Running {
    /// Begins an attempt, if there may be one more. A call that met a conflict lets other threads run first.
    fn begin<E: Engine, G: Gate>(
        &mut self,
        limits: Limits,
        engine: &mut E,
        gate: &mut G,
        retries: i32,
    ) -> Result<Todo, Failure>
        requires stage { self.old.stage ≡ stage.Ready }
        requires next { self.old.frame.pc + 1 < 2 ^ 64 }
        ensures run { (h : List Entry) (n : ℕ) (r w : Log) (k : Call) (used : ℕ) → E.awaits engine.old k used → Holds (E.stands engine.old h) (Saw E.is_shared E.begins E.allows h k used) n stage.Ready self.old.tried r w
            → (P : JProgram) → IsTurn (bounds_of limits) (λ v. on_request P (bounds_of limits) (request.Begin retries) phase.Ready v (frames self.old) (meter self.old) w r)
            (λ v. AreOfAsking P (bounds_of limits) (asking.Ask (request.Begin retries)) phase.Ready v (meter self.old)) (Grows (G.told gate.old) (G.told gate.new))
            (Holds (E.stands engine.new h) (Saw E.is_shared E.begins E.allows h k used) n self.new.stage self.new.tried) self.new result }
        ensures no_commit { result ≢ Ok Todo.Commit }
        ensures spent { result ≡ Ok Todo.Spent → self.new.stage ≡ stage.Ready }
        ensures moves { IfOk result (λ _. Moves stage.Ready self.old.tried self.new.stage self.new.tried) }
        ensures attempts { (k : ℕ) → E.attempts engine.old (k + self.old.tried) → E.attempts engine.new (k + self.new.tried) }
        ensures ticks { (t : ℕ) → IsWithin t limits.attempts (E.clock engine.old) self.old.stage self.old.tried
            → IsWithin t limits.attempts (E.clock engine.new) self.new.stage self.new.tried }
        ensures open { IfOk result (λ _. self.new.stage ≡ stage.Open → E.is_open engine.new) }
        ensures awaits { (c : Call) (used : ℕ) → E.awaits engine.old c used → E.awaits engine.new c used }
        ensures refuse { (limit : Limit) → result ≡ Ok (Todo.Refuse limit) → self.new.stage ≡ stage.Open }
    {
        let most = u64::try_from(retries).unwrap_or(0).min(limits.attempts);
        if self.tried >= most {
            return Ok(Todo::Spent);
        }
        pause(self.tried);
        engine.begin();
        gate.at(Event::Began);
        self.stage = Stage::Open;
        self.turns = limits.budget;
        self.tried += 1;
        self.frame.advance();
        Ok(Todo::Go)
    }

    /// Before a read.
    fn look<E: Engine, G: Gate>(
        &mut self,
        program: &Program,
        engine: &mut E,
        gate: &mut G,
        place: Place,
    ) -> Result<Todo, Failure>
        requires stage { self.old.stage ≡ stage.Open }
        requires next { self.old.frame.pc + 1 < 2 ^ 64 }
        requires address { place.object + place.index < 2 ^ 64 }
        requires begun { E.is_open engine.old }
        ensures run { (h : List Entry) (n : ℕ) (r w : Log) (k : Call) (used : ℕ) → E.awaits engine.old k used → Holds (E.stands engine.old h) (Saw E.is_shared E.begins E.allows h k used) n stage.Open self.old.tried r w
            → (B : Bounds) → IsTurn B (λ v. on_request program.now B (request.Look place) phase.Open v (frames self.old) (meter self.old) w r)
            (λ v. AreOfAsking program.now B (asking.Ask (request.Look place)) phase.Open v (meter self.old)) (Grows (G.told gate.old) (G.told gate.new))
            (Holds (E.stands engine.new h) (Saw E.is_shared E.begins E.allows h k used) n self.new.stage self.new.tried) self.new result }
        ensures go { IfOk result (λ todo. todo ≡ Todo.Go) }
        ensures moves { IfOk result (λ _. Moves stage.Open self.old.tried self.new.stage self.new.tried) }
        ensures attempts { (k : ℕ) → E.attempts engine.old (k + self.old.tried) → E.attempts engine.new (k + self.new.tried) }
        ensures ticks { (t attempts : ℕ) → IsWithin t attempts (E.clock engine.old) self.old.stage self.old.tried
            → IsWithin t attempts (E.clock engine.new) self.new.stage self.new.tried }
        ensures open { IfOk result (λ _. self.new.stage ≡ stage.Open → E.is_open engine.new) }
        ensures awaits { (c : Call) (used : ℕ) → E.awaits engine.old c used → E.awaits engine.new c used }
    {
        let address = address(place);
        match engine.before_read(address) {
            Ok(()) => {
                gate.at(Event::Looked(address));
                self.frame.advance();
                Ok(Todo::Go)
            }
            Err(_) => self.doom(program, CONFLICT),
        }
    }

    /// A read: what the engine vouches for goes onto the stack.
    fn read<E: Engine, G: Gate>(
        &mut self,
        program: &Program,
        engine: &mut E,
        gate: &mut G,
        place: Place,
        word_type: WordType,
    ) -> Result<Todo, Failure>
        requires stage { self.old.stage ≡ stage.Open }
        requires next { self.old.frame.pc + 1 < 2 ^ 64 }
        requires address { place.object + place.index < 2 ^ 64 }
        requires begun { E.is_open engine.old }
        ensures run { (h : List Entry) (n : ℕ) (r w : Log) (k : Call) (used : ℕ) → E.awaits engine.old k used → Holds (E.stands engine.old h) (Saw E.is_shared E.begins E.allows h k used) n stage.Open self.old.tried r w
            → (B : Bounds) → IsTurn B (λ v. on_request program.now B (request.Read place word_type) phase.Open v (frames self.old) (meter self.old) w r)
            (λ v. AreOfAsking program.now B (asking.Ask (request.Read place word_type)) phase.Open v (meter self.old)) (Grows (G.told gate.old) (G.told gate.new))
            (Holds (E.stands engine.new h) (Saw E.is_shared E.begins E.allows h k used) n self.new.stage self.new.tried) self.new result }
        ensures go { IfOk result (λ todo. todo ≡ Todo.Go) }
        ensures moves { IfOk result (λ _. Moves stage.Open self.old.tried self.new.stage self.new.tried) }
        ensures attempts { (k : ℕ) → E.attempts engine.old (k + self.old.tried) → E.attempts engine.new (k + self.new.tried) }
        ensures ticks { (t attempts : ℕ) → IsWithin t attempts (E.clock engine.old) self.old.stage self.old.tried
            → IsWithin t attempts (E.clock engine.new) self.new.stage self.new.tried }
        ensures open { IfOk result (λ _. self.new.stage ≡ stage.Open → E.is_open engine.new) }
        ensures awaits { (c : Call) (used : ℕ) → E.awaits engine.old c used → E.awaits engine.new c used }
    {
        let address = address(place);
        let raw = engine.raw(address);
        gate.at(Event::Loaded(address));
        match engine.on_read(address, raw) {
            Ok(word) => {
                gate.at(Event::Checked(address));
                self.resume_with(value_of(word_type, word))
            }
            Err(TxEnd::Conflict(_)) => self.doom(program, CONFLICT),
            Err(TxEnd::NoMemory) => Err(Failure::NoMemory),
        }
    }

    /// A write.
    fn write<E: Engine, G: Gate>(
        &mut self,
        program: &Program,
        engine: &mut E,
        gate: &mut G,
        place: Place,
        word: u64,
    ) -> Result<Todo, Failure>
        requires stage { self.old.stage ≡ stage.Open }
        requires next { self.old.frame.pc + 1 < 2 ^ 64 }
        requires address { place.object + place.index < 2 ^ 64 }
        requires begun { E.is_open engine.old }
        ensures run { (h : List Entry) (n : ℕ) (r w : Log) (k : Call) (used : ℕ) → E.awaits engine.old k used → Holds (E.stands engine.old h) (Saw E.is_shared E.begins E.allows h k used) n stage.Open self.old.tried r w
            → (B : Bounds) → IsTurn B (λ v. on_request program.now B (request.Write place word) phase.Open v (frames self.old) (meter self.old) w r)
            (λ v. AreOfAsking program.now B (asking.Ask (request.Write place word)) phase.Open v (meter self.old)) (Grows (G.told gate.old) (G.told gate.new))
            (Holds (E.stands engine.new h) (Saw E.is_shared E.begins E.allows h k used) n self.new.stage self.new.tried) self.new result }
        ensures go { IfOk result (λ todo. todo ≡ Todo.Go) }
        ensures moves { IfOk result (λ _. Moves stage.Open self.old.tried self.new.stage self.new.tried) }
        ensures attempts { (k : ℕ) → E.attempts engine.old (k + self.old.tried) → E.attempts engine.new (k + self.new.tried) }
        ensures ticks { (t attempts : ℕ) → IsWithin t attempts (E.clock engine.old) self.old.stage self.old.tried
            → IsWithin t attempts (E.clock engine.new) self.new.stage self.new.tried }
        ensures open { IfOk result (λ _. self.new.stage ≡ stage.Open → E.is_open engine.new) }
        ensures awaits { (c : Call) (used : ℕ) → E.awaits engine.old c used → E.awaits engine.new c used }
    {
        let address = address(place);
        match engine.on_write(address, word) {
            Ok(()) => {
                gate.at(Event::Wrote(address));
                self.frame.advance();
                Ok(Todo::Go)
            }
            Err(TxEnd::Conflict(_)) => self.doom(program, CONFLICT),
            Err(TxEnd::NoMemory) => Err(Failure::NoMemory),
        }
    }

    /// Rolls back an attempt that met a conflict.
    fn rollback<E: Engine>(&mut self, limits: Limits, engine: &mut E) -> Result<Todo, Failure>
        requires stage { self.old.stage ≡ stage.Doomed }
        requires next { self.old.frame.pc + 1 < 2 ^ 64 }
        ensures run { (h : List Entry) (n : ℕ) (r w : Log) (k : Call) (used : ℕ) → E.awaits engine.old k used → Holds (E.stands engine.old h) (Saw E.is_shared E.begins E.allows h k used) n stage.Doomed self.old.tried r w
            → (P : JProgram) (told : Option (List JEvent)) → IsTurn (bounds_of limits) (λ v. on_request P (bounds_of limits) request.Rollback phase.Doomed v (frames self.old) (meter self.old) w r)
            (λ v. AreOfAsking P (bounds_of limits) (asking.Ask request.Rollback) phase.Doomed v (meter self.old)) (Grows told told)
            (Holds (E.stands engine.new h) (Saw E.is_shared E.begins E.allows h k used) n self.new.stage self.new.tried) self.new result }
        ensures go { IfOk result (λ todo. todo ≡ Todo.Go) }
        ensures moves { IfOk result (λ _. Moves stage.Doomed self.old.tried self.new.stage self.new.tried) }
        ensures attempts { (k : ℕ) → E.attempts engine.old (k + self.old.tried) → E.attempts engine.new (k + self.new.tried) }
        ensures ticks { (t attempts : ℕ) → IsWithin t attempts (E.clock engine.old) self.old.stage self.old.tried
            → IsWithin t attempts (E.clock engine.new) self.new.stage self.new.tried }
        ensures open { IfOk result (λ _. self.new.stage ≡ stage.Open → E.is_open engine.new) }
        ensures awaits { (c : Call) (used : ℕ) → E.awaits engine.old c used → E.awaits engine.new c used }
    {
        engine.rollback();
        self.stage = Stage::Ready;
        self.set_back(limits);
        self.frame.advance();
        Ok(Todo::Go)
    }

    /// Serves what an instruction asks of memory or of the transaction.
    #[inline(always)]
    pub(crate) fn serve<E: Engine, G: Gate>(
        &mut self,
        program: &Program,
        limits: Limits,
        engine: &mut E,
        gate: &mut G,
        request: Request,
    ) -> Result<Todo, Failure>
        requires can { HasAddress request × (self.old.frame.pc + 1 < 2 ^ 64) }
        requires begun { self.old.stage ≡ stage.Open → E.is_open engine.old }
        ensures run { (h : List Entry) (n : ℕ) (r w : Log) (k : Call) (used : ℕ) → E.awaits engine.old k used → Holds (E.stands engine.old h) (Saw E.is_shared E.begins E.allows h k used) n self.old.stage self.old.tried r w
            → IsTurn (bounds_of limits) (λ v. on_request program.now (bounds_of limits) request (phase_of self.old.stage) v (frames self.old) (meter self.old) w r)
            (λ v. AreOfAsking program.now (bounds_of limits) (asking.Ask request) (phase_of self.old.stage) v (meter self.old)) (Grows (G.told gate.old) (G.told gate.new))
            (Holds (E.stands engine.new h) (Saw E.is_shared E.begins E.allows h k used) n self.new.stage self.new.tried) self.new result }
        ensures moves { IfOk result (λ _. Moves self.old.stage self.old.tried self.new.stage self.new.tried) }
        ensures attempts { (k : ℕ) → E.attempts engine.old (k + self.old.tried) → E.attempts engine.new (k + self.new.tried) }
        ensures ticks { (t : ℕ) → IsWithin t limits.attempts (E.clock engine.old) self.old.stage self.old.tried
            → IsWithin t limits.attempts (E.clock engine.new) self.new.stage self.new.tried }
        ensures open { result ≡ Ok Todo.Commit → self.new.stage ≡ stage.Open }
        ensures next { result ≡ Ok Todo.Commit → self.new.frame.pc + 1 < 2 ^ 64 }
        ensures spent { result ≡ Ok Todo.Spent → self.new.stage ≡ stage.Ready }
        ensures begun { IfOk result (λ _. self.new.stage ≡ stage.Open → E.is_open engine.new) }
        ensures awaits { (c : Call) (used : ℕ) → E.awaits engine.old c used → E.awaits engine.new c used }
        ensures refuse { (limit : Limit) → result ≡ Ok (Todo.Refuse limit) → self.new.stage ≡ stage.Open }
    {
        match (request, self.stage) {
            (Request::Begin(retries), Stage::Ready) => self.begin(limits, engine, gate, retries),
            (Request::Get(_), Stage::Open) => self.resume(Slot::Loaded),
            (Request::Look(place), Stage::Open) => self.look(program, engine, gate, place),
            (Request::Read(place, word_type), Stage::Open) => {
                self.read(program, engine, gate, place, word_type)
            }
            (Request::Write(place, word), Stage::Open) => self.write(
                program, engine, gate, place, word,
            ),
            (Request::Commit, Stage::Open) => Ok(Todo::Commit),
            (Request::Rollback, Stage::Doomed) => self.rollback(limits, engine),
            _ => Err(Failure::Wrong),
        }
    }
}
