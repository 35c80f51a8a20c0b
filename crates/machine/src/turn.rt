//! A turn of a call: instructions up to one that asks for something, and the serving of that.
ghost use Rattle.std.specs.Prelude.{◌≡◌, ◌≢◌, ◌<◌, ◌+◌, ◌*◌, ◌^◌, ℕ, List, IfOk};
ghost use Rattle.objects.specs.rewriting.Attempt.{Log, Run, on_asking, making as makes_of};
ghost use Rattle.objects.specs.declared.op.Asking.TheVariants as asking_of;
ghost use Rattle.objects.specs.rewriting.Events.{AreOfAsking, Grows};
ghost use Rattle.jmodel.specs.history.History.{Call, Entry};
ghost use Rattle.machine.specs.declared.running.Limit.{Limit};
ghost use Rattle.machine.specs.declared.running.Stage.TheVariants as stage;
ghost use Rattle.machine.specs.Machine.{bounds_of};
ghost use Rattle.machine.specs.Meets.{CanAsk, CanDo};
ghost use Rattle.machine.specs.declared.running.Running.{Running as Whole};
ghost use Rattle.machine.specs.Running.{at, frames, meter, phase_of, Saw, Holds, IsWithin, Moves, IsTurn, HasTurned, IsPlain, Waits, IsNotHead};

use crate::failure::Failure;
use crate::gate::Gate;
use crate::machine::Limits;
use crate::make::Making;
use crate::running::{Running, Stage, Todo};
use crate::step::{enter, give_back, settle};
use hierarchy::program::Program;
use objects::op::{Asking, Doing};
use std::alloc::Global;
use tx_core::Engine;

impl Running {
    /// Makes an object, as `make` does. `Wrong` outside an attempt.
    fn take<E: Engine, G: Gate>(
        &mut self,
        program: &Program,
        limits: Limits,
        engine: &mut E,
        gate: &mut G,
        making: Making,
    ) -> Result<Todo, Failure>
        requires fits { limits.room.region * limits.room.size + limits.room.size < 2 ^ 64 }
        requires next { self.old.frame.pc + 1 < 2 ^ 64 }
        requires begun { self.old.stage ≡ stage.Open → E.is_open engine.old }
        ensures run { (h : List Entry) (n : ℕ) (r w : Log) (k : Call) (used : ℕ) → E.awaits engine.old k used → Holds (E.stands engine.old h) (Saw E.is_shared E.begins E.allows h k used) n self.old.stage self.old.tried r w
            → IsTurn (bounds_of limits) (λ v. makes_of (phase_of self.old.stage) making.of making.length making.made v program.now (bounds_of limits) (frames self.old) (meter self.old) w r)
            (λ v. AreOfAsking program.now (bounds_of limits) (asking_of.Make making.of making.length making.made) (phase_of self.old.stage) v (meter self.old)) (Grows (G.told gate.old) (G.told gate.new))
            (Holds (E.stands engine.new h) (Saw E.is_shared E.begins E.allows h k used) n self.new.stage self.new.tried) self.new result }
        ensures no_commit { result ≢ Ok Todo.Commit }
        ensures not_spent { result ≢ Ok Todo.Spent }
        ensures moves { IfOk result (λ _. Moves self.old.stage self.old.tried self.new.stage self.new.tried) }
        ensures attempts { (k : ℕ) → E.attempts engine.old (k + self.old.tried) → E.attempts engine.new (k + self.new.tried) }
        ensures ticks { (t attempts : ℕ) → IsWithin t attempts (E.clock engine.old) self.old.stage self.old.tried
            → IsWithin t attempts (E.clock engine.new) self.new.stage self.new.tried }
        ensures begun { IfOk result (λ _. self.new.stage ≡ stage.Open → E.is_open engine.new) }
        ensures awaits { (c : Call) (used : ℕ) → E.awaits engine.old c used → E.awaits engine.new c used }
        ensures refuse { (limit : Limit) → result ≡ Ok (Todo.Refuse limit) → self.new.stage ≡ stage.Open }
    {
        match self.stage {
            Stage::Open => self.make(program, limits, engine, gate, making),
            Stage::Ready | Stage::Doomed => Err(Failure::Wrong),
        }
    }

    /// Serves what an instruction asks for, but for a header.
    fn answer<E: Engine, G: Gate>(
        &mut self,
        program: &Program,
        limits: Limits,
        engine: &mut E,
        gate: &mut G,
        asking: Asking,
    ) -> Result<Todo, Failure>
        requires fits { limits.room.region * limits.room.size + limits.room.size < 2 ^ 64 }
        requires can { CanAsk asking self.old.frame }
        requires other { IsNotHead asking }
        requires begun { self.old.stage ≡ stage.Open → E.is_open engine.old }
        ensures run { (h : List Entry) (n : ℕ) (r w : Log) (k : Call) (used : ℕ) → E.awaits engine.old k used → Holds (E.stands engine.old h) (Saw E.is_shared E.begins E.allows h k used) n self.old.stage self.old.tried r w
            → IsTurn (bounds_of limits) (λ v. on_asking program.now (bounds_of limits) asking (phase_of self.old.stage) v (frames self.old) (meter self.old) w r)
            (λ v. AreOfAsking program.now (bounds_of limits) asking (phase_of self.old.stage) v (meter self.old)) (Grows (G.told gate.old) (G.told gate.new))
            (Holds (E.stands engine.new h) (Saw E.is_shared E.begins E.allows h k used) n self.new.stage self.new.tried) self.new result }
        ensures moves { IfOk result (λ _. Moves self.old.stage self.old.tried self.new.stage self.new.tried) }
        ensures attempts { (k : ℕ) → E.attempts engine.old (k + self.old.tried) → E.attempts engine.new (k + self.new.tried) }
        ensures ticks { (t : ℕ) → IsWithin t limits.attempts (E.clock engine.old) self.old.stage self.old.tried
            → IsWithin t limits.attempts (E.clock engine.new) self.new.stage self.new.tried }
        ensures open { result ≡ Ok Todo.Commit → self.new.stage ≡ stage.Open }
        ensures next { result ≡ Ok Todo.Commit → self.new.frame.pc + 1 < 2 ^ 64 }
        ensures spent { result ≡ Ok Todo.Spent → self.new.stage ≡ stage.Ready }
        ensures begun { IfOk result (λ _. self.new.stage ≡ stage.Open → E.is_open engine.new) }
        ensures awaits { (c : Call) (used : ℕ) → E.awaits engine.old c used → E.awaits engine.new c used }
        ensures refuse { (limit : Limit) → result ≡ Ok (Todo.Refuse limit) → self.new.stage ≡ stage.Open }
    {
        match asking {
            Asking::Go => return Ok(Todo::Go),
            Asking::Turn => return self.count(false),
            Asking::Enter(deep) => return self.count(deep),
            Asking::Raise(exception) => return self.raise(program, engine, gate, exception),
            Asking::Make { of, length, made } => {
                let making = Making { of, length, made };
                return self.take(program, limits, engine, gate, making);
            }
            Asking::Ask(request) => return self.serve(program, limits, engine, gate, request),
            Asking::Return(_) | Asking::Throw(_) | Asking::Head(..) => {
                return Err(Failure::Wrong);
            }
        }
    }

    /// Serves what an instruction asks for, and what it asks for by each header that it reads.
    fn follow<E: Engine, G: Gate>(
        &mut self,
        alloc: Global,
        program: &Program,
        limits: Limits,
        engine: &mut E,
        gate: &mut G,
        asking: Asking,
    ) -> Result<Todo, Failure>
        requires fits { limits.room.region * limits.room.size + limits.room.size < 2 ^ 64 }
        requires can { CanAsk asking self.old.frame }
        requires begun { self.old.stage ≡ stage.Open → E.is_open engine.old }
        ensures run { (h : List Entry) (n : ℕ) (r w : Log) (k : Call) (used : ℕ) → E.awaits engine.old k used → Holds (E.stands engine.old h) (Saw E.is_shared E.begins E.allows h k used) n self.old.stage self.old.tried r w
            → (c : Run) → Waits program.now (bounds_of limits) asking self.old w r c
            → HasTurned program.now (bounds_of limits) c (Grows (G.told gate.old) (G.told gate.new)) (Holds (E.stands engine.new h) (Saw E.is_shared E.begins E.allows h k used) n self.new.stage self.new.tried) self.new result }
        ensures moves { IfOk result (λ _. Moves self.old.stage self.old.tried self.new.stage self.new.tried) }
        ensures attempts { (k : ℕ) → E.attempts engine.old (k + self.old.tried) → E.attempts engine.new (k + self.new.tried) }
        ensures ticks { (t : ℕ) → IsWithin t limits.attempts (E.clock engine.old) self.old.stage self.old.tried
            → IsWithin t limits.attempts (E.clock engine.new) self.new.stage self.new.tried }
        ensures open { result ≡ Ok Todo.Commit → self.new.stage ≡ stage.Open }
        ensures next { result ≡ Ok Todo.Commit → self.new.frame.pc + 1 < 2 ^ 64 }
        ensures spent { result ≡ Ok Todo.Spent → self.new.stage ≡ stage.Ready }
        ensures begun { IfOk result (λ _. self.new.stage ≡ stage.Open → E.is_open engine.new) }
        ensures awaits { (c : Call) (used : ℕ) → E.awaits engine.old c used → E.awaits engine.new c used }
        ensures refuse { (limit : Limit) → result ≡ Ok (Todo.Refuse limit) → self.new.stage ≡ stage.Open }
    {
        let mut asking = asking;
        for _ in 0..u64::MAX {
            match asking {
                Asking::Head(object, how) => {
                    match self.head(alloc, program, engine, gate, object, how)? {
                        Some(next) => asking = next,
                        None => return Ok(Todo::Go),
                    }
                }
                other => return self.answer(program, limits, engine, gate, other),
            }
        }
        Err(Failure::NoMemory)
    }

    /// Does what an instruction leaves to be done, and serves what that asks for. `a` is where the instructions of the turn began.
    fn end_turn<E: Engine, G: Gate>(
        &mut self,
        alloc: Global,
        program: &Program,
        limits: Limits,
        engine: &mut E,
        gate: &mut G,
        doing: Doing,
    ) -> Result<Todo, Failure>
        requires fits { limits.room.region * limits.room.size + limits.room.size < 2 ^ 64 }
        requires can { CanDo doing }
        requires next { self.old.frame.pc + 1 < 2 ^ 64 }
        requires begun { self.old.stage ≡ stage.Open → E.is_open engine.old }
        ensures run { (h : List Entry) (n : ℕ) (r w : Log) (k : Call) (used : ℕ) → E.awaits engine.old k used → Holds (E.stands engine.old h) (Saw E.is_shared E.begins E.allows h k used) n self.old.stage self.old.tried r w
            → (a : Whole) → IsPlain program.now a self.old (Ok doing)
            → HasTurned program.now (bounds_of limits) (at a w r) (Grows (G.told gate.old) (G.told gate.new)) (Holds (E.stands engine.new h) (Saw E.is_shared E.begins E.allows h k used) n self.new.stage self.new.tried) self.new result }
        ensures moves { IfOk result (λ _. Moves self.old.stage self.old.tried self.new.stage self.new.tried) }
        ensures attempts { (k : ℕ) → E.attempts engine.old (k + self.old.tried) → E.attempts engine.new (k + self.new.tried) }
        ensures ticks { (t : ℕ) → IsWithin t limits.attempts (E.clock engine.old) self.old.stage self.old.tried
            → IsWithin t limits.attempts (E.clock engine.new) self.new.stage self.new.tried }
        ensures open { result ≡ Ok Todo.Commit → self.new.stage ≡ stage.Open }
        ensures next { result ≡ Ok Todo.Commit → self.new.frame.pc + 1 < 2 ^ 64 }
        ensures spent { result ≡ Ok Todo.Spent → self.new.stage ≡ stage.Ready }
        ensures begun { IfOk result (λ _. self.new.stage ≡ stage.Open → E.is_open engine.new) }
        ensures awaits { (c : Call) (used : ℕ) → E.awaits engine.old c used → E.awaits engine.new c used }
        ensures refuse { (limit : Limit) → result ≡ Ok (Todo.Refuse limit) → self.new.stage ≡ stage.Open }
    {
        let asking = settle(alloc, program, doing, &mut self.frame, &mut self.callers)?;
        self.follow(alloc, program, limits, engine, gate, asking)
    }

    /// Steps up to one that does more than go on in its method, and what is to be done then.
    pub fn turn<E: Engine, G: Gate>(
        &mut self,
        alloc: Global,
        program: &Program,
        limits: Limits,
        engine: &mut E,
        gate: &mut G,
    ) -> Result<Todo, Failure>
        requires fits { limits.room.region * limits.room.size + limits.room.size < 2 ^ 64 }
        requires begun { self.old.stage ≡ stage.Open → E.is_open engine.old }
        ensures run { (h : List Entry) (n : ℕ) (r w : Log) (k : Call) (used : ℕ) → E.awaits engine.old k used → Holds (E.stands engine.old h) (Saw E.is_shared E.begins E.allows h k used) n self.old.stage self.old.tried r w
            → HasTurned program.now (bounds_of limits) (at self.old w r) (Grows (G.told gate.old) (G.told gate.new)) (Holds (E.stands engine.new h) (Saw E.is_shared E.begins E.allows h k used) n self.new.stage self.new.tried) self.new result }
        ensures moves { IfOk result (λ _. Moves self.old.stage self.old.tried self.new.stage self.new.tried) }
        ensures attempts { (k : ℕ) → E.attempts engine.old (k + self.old.tried) → E.attempts engine.new (k + self.new.tried) }
        ensures ticks { (t : ℕ) → IsWithin t limits.attempts (E.clock engine.old) self.old.stage self.old.tried
            → IsWithin t limits.attempts (E.clock engine.new) self.new.stage self.new.tried }
        ensures open { result ≡ Ok Todo.Commit → self.new.stage ≡ stage.Open }
        ensures next { result ≡ Ok Todo.Commit → self.new.frame.pc + 1 < 2 ^ 64 }
        ensures spent { result ≡ Ok Todo.Spent → self.new.stage ≡ stage.Ready }
        ensures begun { IfOk result (λ _. self.new.stage ≡ stage.Open → E.is_open engine.new) }
        ensures awaits { (c : Call) (used : ℕ) → E.awaits engine.old c used → E.awaits engine.new c used }
        ensures refuse { (limit : Limit) → result ≡ Ok (Todo.Refuse limit) → self.new.stage ≡ stage.Open }
    {
        let doing = self.go(alloc, program)?;
        match doing {
            Doing::Ask(request) => self.serve(program, limits, engine, gate, request),
            Doing::Give(value) => {
                let given = give_back(value, &mut self.frame, &mut self.callers)?;
                if given {
                    Ok(Todo::Go)
                } else {
                    Err(Failure::Wrong)
                }
            }
            Doing::Invoke(method) => {
                let entered = enter(alloc, program, method, &mut self.frame, &mut self.callers)?;
                match entered {
                    Some(deep) => self.count(deep),
                    None => Ok(Todo::Go),
                }
            }
            doing => self.end_turn(alloc, program, limits, engine, gate, doing),
        }
    }
}
