//! The commit of an attempt. What the wrapper does after it is found out first, since nothing may fail once an entry stands.
ghost use Rattle.std.specs.Prelude.{◌≡◌, ◌<◌, ◌+◌, ◌^◌, ℕ, List, [], ◌∷◌, IfOk, pos};
ghost use Rattle.objects.specs.rewriting.Attempt.{Log, Bounds, Meter, On, on_commit, class_of, threw_of};
ghost use Rattle.objects.specs.semantics.Program.{Program as JProgram};
ghost use Rattle.jmodel.specs.history.History.{Call, Entry};
ghost use Rattle.objects.specs.semantics.Step.{resumed};
ghost use Rattle.objects.specs.declared.op.Phase.TheVariants as phase;
ghost use Rattle.objects.specs.declared.op.Slot.TheVariants as slot;
ghost use Rattle.machine.specs.declared.running.Stage.TheVariants as stage;
ghost use Rattle.machine.specs.Machine.{bounds_of};
ghost use Rattle.machine.specs.Running.{frames, meter, thrown_of, Saw, Holds, IsWithin, IsFinished, MayCommit, IsCommit, TellsCommit};
ghost use Rattle.objects.specs.rewriting.Events.{Grows};

use crate::callers::Callers;
use crate::failure::Failure;
use crate::frame::Frame;
use crate::gate::Gate;
use crate::machine::{End, Limits};
use crate::room::Thrown;
use crate::running::{Running, Stage};
use crate::step::step;
use hierarchy::program::Program;
use jmodel::value::Answer;
use objects::event::Event;
use objects::op::{Asking, Slot};
use std::alloc::Global;
use std::snapshot::Snapshot;
use tx_core::{Engine, TxEnd};

/// The answer of a call that throws this: it has the class of what was thrown last. `Wrong` where that was another exception.
fn threw(
    alloc: Global,
    program: &Program,
    thrown: Option<Thrown>,
    exception: u64,
) -> Result<Answer, Failure>
    ensures { (B : Bounds) (m : Meter) (w r : Log) → m.thrown ≡ thrown_of thrown
        → IsFinished program.now B (threw_of (class_of program.now m.thrown exception) m w r) m w r result }
{
    let Some(last) = thrown else {
        return Err(Failure::Wrong);
    };
    if last.reference != exception {
        return Err(Failure::Wrong);
    }
    let Some(class) = program.name_of(last.of) else {
        return Err(Failure::Wrong);
    };
    Ok(Answer::Threw(class.copy(alloc)?))
}

/// Runs the code after a commit to its end, and answers how the call ends. `Wrong` where it asks for anything. The exception is the one that was
/// thrown last.
fn finish(
    alloc: Global,
    program: &Program,
    frame: &mut Frame,
    callers: &mut Callers,
    thrown: Option<Thrown>,
) -> Result<Answer, Failure>
    ensures { (B : Bounds) (m : Meter) (w r : Log) → m.thrown ≡ thrown_of thrown
        → IsFinished program.now B (On phase.Closed (frame.old ∷ callers.old) m w r) m w r result }
{
    for _ in 0..u64::MAX {
        match step(alloc, program, frame, callers)? {
            Asking::Go => {}
            Asking::Return(value) => return Ok(Answer::Returned(value)),
            Asking::Throw(exception) => return threw(alloc, program, thrown, exception),
            Asking::Turn
            | Asking::Enter(_)
            | Asking::Raise(_)
            | Asking::Make { .. }
            | Asking::Head(..)
            | Asking::Ask(_) => return Err(Failure::Wrong),
        }
    }
    Err(Failure::NoMemory)
}

impl Running {
    /// How the call ends once its attempt is committed.
    fn answer_committed(&mut self, alloc: Global, program: &Program) -> Result<Answer, Failure>
        requires { self.old.frame.pc + 1 < 2 ^ 64 }
        ensures same { self.new ≡ self.old }
        ensures answer { (B : Bounds) (w r : Log)
            → IsFinished program.now B (On phase.Closed (resumed (slot.Int (pos 1) ∷ []) (frames self.old)) (meter self.old) w r) (meter self.old) w r result }
    {
        let mut frame = self.callers.spare(alloc);
        frame.set_copy(&self.frame)?;
        frame.resume(Slot::Int(1))?;
        let mut callers = self.callers.copy(alloc)?;
        let answer = finish(alloc, program, &mut frame, &mut callers, self.thrown);
        self.callers.keep(frame);
        answer
    }

    /// Commits the attempt. Answers how the call ends, or none where the engine refused.
    pub fn commit<E: Engine, G: Gate>(
        &mut self,
        alloc: Global,
        program: &Program,
        limits: Limits,
        engine: &mut E,
        gate: &mut G,
    ) -> Result<Option<End>, Failure>
        requires next { self.old.frame.pc + 1 < 2 ^ 64 }
        requires open { self.old.stage ≡ stage.Open }
        requires clock { E.clock engine.old < 2 ^ 40 }
        requires begun { E.is_open engine.old }
        requires allowed { E.is_shared → MayCommit program.now (bounds_of limits) self.old E.allows (E.stands engine.old) (E.awaits engine.old) }
        ensures run { (h : List Entry) (n : ℕ) (r w : Log) (k : Call) (used : ℕ) → Holds (E.stands engine.old h) (Saw E.is_shared E.begins E.allows h k used) n stage.Open self.old.tried r w
            → IsCommit program.now (bounds_of limits) (λ v. on_commit (bounds_of limits) v (frames self.old) (meter self.old) w r) (E.awaits engine.old) E.allows (Saw E.is_shared E.begins E.allows h k used) (E.stands engine.new) h n (meter self.old) r w self.new result }
        ensures told { TellsCommit (Grows (G.told gate.old) (G.told gate.new)) result }
        ensures attempts { (k : ℕ) → E.attempts engine.old k → E.attempts engine.new k }
        ensures tried { self.new.tried ≡ self.old.tried }
        ensures ticks { (t attempts : ℕ) → IsWithin t attempts (E.clock engine.old) stage.Open self.old.tried
            → IsWithin t attempts (E.clock engine.new) self.new.stage self.new.tried }
        ensures closed { IfOk result (λ _. self.new.stage ≡ stage.Ready) }
        ensures awaits { (c : Call) (used : ℕ) → E.awaits engine.old c used → IfOk result (λ end. end ≡ None → E.awaits engine.new c used) }
    {
        let answer = self.answer_committed(alloc, program)?;
        match engine.commit(Snapshot::of(&answer), Snapshot::of(&self.used)) {
            Ok(stamp) => {
                gate.at(Event::Ended);
                self.stage = Stage::Ready;
                Ok(Some(End {
                    answer,
                    stamp,
                    used: self.used,
                }))
            }
            Err(TxEnd::Conflict(_)) => {
                self.stage = Stage::Ready;
                self.set_back(limits);
                self.frame.resume(Slot::Int(0))?;
                Ok(None)
            }
            Err(TxEnd::NoMemory) => {
                self.stage = Stage::Ready;
                Err(Failure::NoMemory)
            }
        }
    }
}
