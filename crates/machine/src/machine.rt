//! Calls of rewritten code, as transactions over an engine.
ghost use Rattle.std.specs.Prelude.{◌≡◌, ◌⊎◌, IsOk, ◌≤◌, ◌<◌, ◌+◌, ◌*◌, ◌^◌, ℕ, List, [], ◌∷◌};
ghost use Rattle.objects.specs.rewriting.Attempt.{Log, run_start};
ghost use Rattle.jmodel.specs.history.History.{Call, Entry, Words};
ghost use Rattle.objects.specs.semantics.Program.{Program as JProgram};
ghost use Rattle.objects.specs.typing.Typing.{Table};
ghost use Rattle.tx_core.specs.Engine.{Adds, MayEnd, IsOfWrites, LeadsTo};
ghost use Rattle.machine.specs.declared.running.Stage.TheVariants as stage;
ghost use Rattle.machine.specs.Machine.{bounds_of, unplaced, MayRun, MayStart, AddsRun, AddsNone, Begins, TriesRun};
ghost use Rattle.objects.specs.declared.event.Event.TheVariants as event;
ghost use Rattle.objects.specs.rewriting.Events.{Grows};
ghost use Rattle.machine.specs.Telling.{TellsRun};
ghost use Rattle.machine.specs.Sound.{IsTypedCall, IsOverStates};
ghost use Rattle.machine.specs.Opacity.{OpaqueRun};
ghost use Rattle.machine.specs.Running.{at, Saw, Leaves, IsEnd};

use crate::callers::Callers;
use crate::failure::Failure;
use crate::gate::Gate;
use crate::room::Room;
use crate::running::{Running, Stage, Todo};
use hierarchy::program::Program;
use jmodel::value::{Answer, Stamp, Value};
use objects::event::Event;
use std::alloc::Global;
use std::marker::Model;
use std::mem;
use std::snapshot::Snapshot;
use tx_core::Engine;

/// What a call may use: turns in each attempt, attempts, and words of a region.
#[derive(Clone, Copy)]
pub struct Limits {
    pub budget: u64,
    pub attempts: u64,
    pub room: Room,
}

/// How a call ended: its answer, its place in the history, and how many words of its region are used then.
#[derive(Drop)]
pub struct End {
    pub answer: Answer,
    pub stamp: Stamp,
    pub used: u64,
}

/// The code isn't well formed: an instruction that isn't there, a stack or local that hasn't what an instruction needs,
/// or a call of the context out of its place. A call of rewritten typed code never comes to it.
#[derive(Clone, Copy)]
pub struct Stuck;

/// What runs calls, one after another. It keeps the memory of frames that ended, which those of the next call take; that has no meaning.
pub struct Machine {
    alloc: Global,
    callers: Callers,
}

impl Drop for Machine {
    fn drop(self) {
        let Self {
            alloc: _,
            callers: _,
        } = self;
    }
}

impl Model for Machine {
    ghost Value = { Unit {0} };

    ghost view = { λ _. tt };
}

/// What is called: a method of this number, with these arguments.
#[derive(Clone, Copy)]
struct Called<'a> {
    method: usize,
    args: &'a [Value],
}

/// The stamp of a call that added no entry.
const UNPLACED: Stamp = Stamp {
    at: 0,
    update: false,
};

impl Limits {
    /// The same for a next call, before which so many words of the region are used.
    pub fn with_used(self, used: u64) -> Self
        ensures { result ≡ record self { room = record self.room { used = used } } }
    {
        Limits {
            room: Room { used, ..self.room },
            ..self
        }
    }

    /// The end of a call that added no entry.
    fn unplaced(self, answer: Answer) -> End
        ensures { result ≡ record { answer = answer; stamp = unplaced; used = self.room.used } }
    {
        End {
            answer,
            stamp: UNPLACED,
            used: self.room.used,
        }
    }
}

impl Machine {
    /// A machine that keeps nothing yet. No memory.
    pub fn new(alloc: Global) -> Self {
        Machine {
            alloc,
            callers: Callers::new(alloc),
        }
    }

    /// Calls a method of a program with these arguments, as a transaction, which is tried again where it meets a conflict.
    /// Answers how it ended. `Spent` and `NoMemory` have no place in the history, and leave the region as it was.
    pub fn call<E: Engine, G: Gate>(
        &mut self,
        program: &Program,
        tx: &mut E,
        gate: &mut G,
        limits: Limits,
        method: usize,
        args: &[Value],
    ) -> Result<End, Stuck>
        requires clock { E.clock tx.old + limits.attempts ≤ 2 ^ 40 }
        requires fits { limits.room.region * limits.room.size + limits.room.size < 2 ^ 64 }
        // Over an engine that is shared: it awaits a call of this method, and each entry that the call may leave may be committed.
        requires ready { E.is_shared → MayStart program.now (bounds_of limits) (run_start program.now (bounds_of limits) method args.now) E.allows (E.stands tx.old) (E.awaits tx.old) }
        // The call adds an entry, or says why it adds none.
        ensures run { (h : List Entry) (n : ℕ) (c : Call) → E.stands tx.old h n [] [] → E.awaits tx.old c limits.room.used → c.method ≡ method → c.args ≡ args.now
            → MayRun E.allows program.now (bounds_of limits) c
            → AddsRun program.now (bounds_of limits) c (E.stands tx.new) h n result }
        // Where the gate tells its events, they are those before, and then the events of the run by which the call came to its entry, of which the last is
        // `Ended`; a call that adds no entry tells none.
        ensures told { (h : List Entry) (n : ℕ) (c : Call) → E.stands tx.old h n [] [] → E.awaits tx.old c limits.room.used → c.method ≡ method → c.args ≡ args.now
            → MayRun E.allows program.now (bounds_of limits) c
            → TellsRun program.now (bounds_of limits) c (E.stands tx.new) h n (Grows (G.told gate.old) (G.told gate.new)) result }
        // No attempt is begun that isn't one of the run: each met a conflict, but for the one that ended as an entry.
        ensures attempts { (h : List Entry) (n k : ℕ) (c : Call) → E.stands tx.old h n [] [] → E.awaits tx.old c limits.room.used → c.method ≡ method → c.args ≡ args.now
            → MayRun E.allows program.now (bounds_of limits) c
            → E.attempts tx.old k → TriesRun (E.stands tx.new) (E.attempts tx.new) n k result }
        // A call of rewritten typed code is never stuck, where the words that the history may begin with, and those entries that may be committed,
        // are of states.
        ensures sound { (P : JProgram) (Ts : List Table) (h : List Entry) (n : ℕ) (c : Call) → IsTypedCall P Ts program.now method args.now
            → E.stands tx.old h n [] [] → E.awaits tx.old c limits.room.used → c.region ≡ limits.room.region
            → E.is_shared ⊎ ((first : Words) (opened : ℕ → ℕ) → E.begins first opened → LeadsTo opened h c limits.room.used)
            → IsOverStates P limits E.begins E.allows → IsOk result }
        // Opacity: whenever an attempt is open, it has read only what one state has, and met the traps that the original meets first from there. So has
        // one that meets a conflict later. The run is that by which the call came to its entry, or used its attempts up, with the events that were told.
        ensures prefixes { (P : JProgram) (Ts : List Table) (h : List Entry) (n : ℕ) (c : Call) → IsTypedCall P Ts program.now method args.now
            → E.stands tx.old h n [] [] → E.awaits tx.old c limits.room.used → c.method ≡ method → c.args ≡ args.now → c.region ≡ limits.room.region
            → MayRun E.allows program.now (bounds_of limits) c
            → E.is_shared ⊎ ((first : Words) (opened : ℕ → ℕ) → E.begins first opened → LeadsTo opened h c limits.room.used)
            → IsOverStates P limits E.begins E.allows
            → OpaqueRun P program.now (bounds_of limits) E.begins E.allows c (E.stands tx.new) h n (Grows (G.told gate.old) (G.told gate.new)) result }
        ensures ticks { E.clock tx.new ≤ E.clock tx.old + limits.attempts }
    {
        match self.attempts(program, tx, gate, limits, Called { method, args }) {
            Ok(end) => Ok(end),
            Err(Failure::NoMemory) => Ok(limits.unplaced(Answer::NoMemory)),
            Err(Failure::Wrong) => Err(Stuck),
        }
    }

    /// Makes attempts until one ends, and leaves none open.
    fn attempts<'a, E: Engine, G: Gate>(
        &mut self,
        program: &Program,
        tx: &mut E,
        gate: &mut G,
        limits: Limits,
        called: Called<'a>,
    ) -> Result<End, Failure>
        requires clock { E.clock tx.old + limits.attempts ≤ 2 ^ 40 }
        requires fits { limits.room.region * limits.room.size + limits.room.size < 2 ^ 64 }
        requires ready { E.is_shared → MayStart program.now (bounds_of limits) (run_start program.now (bounds_of limits) called.method called.args.now) E.allows (E.stands tx.old) (E.awaits tx.old) }
        ensures run { (h : List Entry) (n : ℕ) (k : Call) → E.stands tx.old h n [] [] → E.awaits tx.old k limits.room.used
            → IsEnd program.now (bounds_of limits) (run_start program.now (bounds_of limits) called.entry.method called.entry.args.now) (E.awaits tx.old) E.allows (Begins (E.attempts tx.old) (E.attempts tx.new)) (Grows (G.told gate.old) (G.told gate.new)) (E.stands tx.new) h n (AddsNone (E.stands tx.new h) n) (Saw E.is_shared E.begins E.allows h k limits.room.used) result }
        ensures ticks { E.clock tx.new ≤ E.clock tx.old + limits.attempts }
    {
        let alloc = self.alloc;
        let callers = mem::replace(&mut self.callers, Callers::new(alloc));
        let mut running = Running::start(
            alloc,
            program,
            limits,
            called.method,
            called.args,
            callers,
        )?;
        match running.run(alloc, program, limits, tx, gate) {
            Ok(end) => {
                self.callers = running.into_callers();
                Ok(end)
            }
            Err(failure) => {
                running.leave(tx);
                Err(failure)
            }
        }
    }
}

/// Ends an attempt as a refusal, which leaves the region as it was before the call.
fn refuse<E: Engine, G: Gate>(tx: &mut E, gate: &mut G, limits: Limits, answer: Answer) -> End
    requires open { E.is_open tx.old }
    requires allowed { E.is_shared → MayEnd (E.stands tx.old) (E.awaits tx.old) E.allows (λ _. []) answer (λ used. used) }
    ensures answer { result.answer ≡ answer }
    ensures used { result.used ≡ limits.room.used }
    ensures run { (h : List Entry) (n : ℕ) (r w : Log) → E.stands tx.old h n r w
        → IsOfWrites result.stamp [] × Adds (E.awaits tx.old) E.allows (E.stands tx.new) h n answer (λ used. used) result.stamp r [] }
    ensures told { Grows (G.told gate.old) (G.told gate.new) (event.Ended ∷ []) }
    ensures attempts { (k : ℕ) → E.attempts tx.old k → E.attempts tx.new k }
    ensures ticks { E.clock tx.new ≡ E.clock tx.old }
{
    let stamp = tx.finish_refused(Snapshot::of(&answer));
    gate.at(Event::Ended);
    End {
        answer,
        stamp,
        used: limits.room.used,
    }
}

impl Running {
    /// Runs a call to its end. After an error an attempt may be open.
    fn run<E: Engine, G: Gate>(
        &mut self,
        alloc: Global,
        program: &Program,
        limits: Limits,
        tx: &mut E,
        gate: &mut G,
    ) -> Result<End, Failure>
        requires stage { self.old.stage ≡ stage.Ready }
        requires tried { self.old.tried ≡ 0 }
        requires clock { E.clock tx.old + limits.attempts ≤ 2 ^ 40 }
        requires fits { limits.room.region * limits.room.size + limits.room.size < 2 ^ 64 }
        requires ready { E.is_shared → MayStart program.now (bounds_of limits) (at self.old [] []) E.allows (E.stands tx.old) (E.awaits tx.old) }
        ensures run { (h : List Entry) (n : ℕ) (k : Call) → E.stands tx.old h n [] [] → E.awaits tx.old k limits.room.used
            → IsEnd program.now (bounds_of limits) (at self.old [] []) (E.awaits tx.old) E.allows (Begins (E.attempts tx.old) (E.attempts tx.new)) (Grows (G.told gate.old) (G.told gate.new)) (E.stands tx.new) h n (Leaves (E.stands tx.new h) n self.new.stage) (Saw E.is_shared E.begins E.allows h k limits.room.used) result }
        ensures ticks { E.clock tx.new ≤ E.clock tx.old + limits.attempts }
    {
        for _ in 0..u64::MAX {
            match self.turn(alloc, program, limits, tx, gate)? {
                Todo::Go => {}
                Todo::Commit => {
                    if let Some(end) = self.commit(alloc, program, limits, tx, gate)? {
                        return Ok(end);
                    }
                }
                Todo::Refuse(limit) => {
                    let answer = limit.answer(self.used, limits.room.size);
                    return Ok(refuse(tx, gate, limits, answer));
                }
                Todo::Spent => return Ok(limits.unplaced(Answer::Spent)),
            }
        }
        Err(Failure::NoMemory)
    }

    /// Rolls back the attempt, if one is open.
    fn leave<E: Engine>(&mut self, tx: &mut E)
        ensures run { (h : List Entry) (n : ℕ) → Leaves (E.stands tx.old h) n self.old.stage → AddsNone (E.stands tx.new h) n }
        ensures ticks { E.clock tx.new ≡ E.clock tx.old }
    {
        if !matches!(self.stage, Stage::Ready) {
            tx.rollback();
            self.stage = Stage::Ready;
        }
    }
}
