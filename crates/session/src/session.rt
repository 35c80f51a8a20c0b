//! The calls of one lane, one after another.
ghost use Rattle.std.specs.Prelude.{◌≡◌, ◌≤◌, ◌<◌, ◌+◌, ◌*◌, ◌^◌, ℕ, List, [], IfOk};
ghost use Rattle.jmodel.specs.history.History.{Entry};
ghost use Rattle.machine.specs.Sound.{IsOverStates};
ghost use Rattle.tx_table.specs.Book.{IsOfLane};
ghost use Rattle.objects.specs.rewriting.Events.{Grows};
ghost use Rattle.session.specs.Rule.{IsRuled, IsReady, IsCallOf, Leads};
ghost use Rattle.machine.specs.Opacity.{OpaqueBy};
ghost use Rattle.session.specs.declared.record.Record.{Record};
ghost use Rattle.session.specs.Adds.{call_of, AddsOne, KeepsRecord, TriesOne, IsEmpty};
ghost use Rattle.session.specs.Passes.{limits_with, bounds_with};
ghost use Rattle.session.specs.Telling.{TellsOne};

use crate::call::Making;
use crate::record::{Lane, Place};
use machine::{Gate, Machine};
use script::Known;
use std::alloc::AllocError;
use tx_core::Engine;

/// The calls of one lane: what they are made with, the machine and the engine that run their attempts, the gate that is told the events of these, and
/// what is kept of the calls that were made.
#[derive(Drop)]
pub struct Session<'a, E, G> {
    making: Making<'a>,
    machine: Machine,
    /// What runs the attempts. Between two calls it is told which one is next.
    pub engine: E,
    gate: G,
    lane: Lane,
}

impl<'a, E: Engine, G: Gate> Session<'a, E, G> {
    /// A session of a lane of which no call was made yet. No memory.
    pub fn open(making: Making<'a>, engine: E, gate: G) -> Self
        ensures making { result.making ≡ making.entry }
        ensures engine { result.engine ≡ engine }
        ensures gate { result.gate ≡ gate }
        ensures lane { IsEmpty result.lane making.entry.limits.room.used }
    {
        let lane = Lane::new(making.alloc, making.limits.room.used);
        Session {
            making,
            machine: Machine::new(making.alloc),
            engine,
            gate,
            lane,
        }
    }

    /// Makes the next call of the lane, at a place, which the engine awaits, and keeps its record. Gives whether it was made: a call whose attempts are
    /// used up, each by a conflict, is not, and leaves all as it was but for the conflicts. The gate is told the events of the call's attempts.
    pub fn call(&mut self, at: Place, call: &Known) -> Result<bool, AllocError>
        requires ready { IsReady self.old.making.original.now self.old.making.rewritten.now }
        requires call { IsCallOf self.old.making.original.now call.now }
        requires region { IsOfLane (call_of self.old.making.limits.room at call.now) }
        requires fits { self.old.making.limits.room.region * self.old.making.limits.room.size + self.old.making.limits.room.size < 2 ^ 64 }
        requires rule { (e : Entry) → IsRuled self.old.making.original.now self.old.making.rewritten.now self.old.making.limits.room.size self.old.making.limits.budget self.old.making.limits.attempts e → E.allows e }
        requires attempts { (1 ≤ self.old.making.limits.attempts) × (self.old.making.limits.attempts ≤ 1000000) }
        requires few { self.old.lane.made < 100000 }
        requires clock { E.clock self.old.engine + 1000000 ≤ 2 ^ 40 }
        requires stands { (h : List Entry) × (n : ℕ) × E.stands self.old.engine h n [] [] × Leads E.is_shared E.begins h (call_of self.old.making.limits.room at call.now) self.old.lane.used }
        requires states { IsOverStates self.old.making.original.now (limits_with self.old.making.limits self.old.lane.used) E.begins E.allows }
        requires awaits { E.awaits self.old.engine (call_of self.old.making.limits.room at call.now) self.old.lane.used }
        ensures making { self.new.making ≡ self.old.making }
        ensures adds { (h : List Entry) (n : ℕ) → E.stands self.old.engine h n [] []
            → IfOk result (λ made. AddsOne made self.old.making.original.now self.old.making.rewritten.now (bounds_with self.old.making.limits self.old.lane.used) (call_of self.old.making.limits.room at call.now) (E.stands self.new.engine) h n self.old.lane self.new.lane) }
        ensures clock { E.clock self.new.engine ≤ E.clock self.old.engine + self.old.making.limits.attempts }
        ensures attempts { (h : List Entry) (n k : ℕ) → E.stands self.old.engine h n [] [] → E.attempts self.old.engine k
            → IfOk result (λ made. TriesOne made (E.stands self.new.engine) (E.attempts self.new.engine) n k self.old.lane self.new.lane) }
        // Whenever an attempt of the call is open, it has read only what one state has, and met the traps that the original meets first from there.
        ensures prefixes { (h : List Entry) (n : ℕ) → E.stands self.old.engine h n [] [] → Leads E.is_shared E.begins h (call_of self.old.making.limits.room at call.now) self.old.lane.used
            → IfOk result (λ made. (one : Record) × (used : ℕ) × KeepsRecord made self.old.lane self.new.lane one used
            × OpaqueBy one.answer self.old.making.original.now self.old.making.rewritten.now (bounds_with self.old.making.limits self.old.lane.used) E.begins E.allows (call_of self.old.making.limits.room at call.now)
            (E.stands self.new.engine) h n (Grows (G.told self.old.gate) (G.told self.new.gate)) (record { answer = one.answer; stamp = one.stamp; used = used })) }
        ensures told { IfOk result (λ made. TellsOne made self.old.making.rewritten.now (bounds_with self.old.making.limits self.old.lane.used) at call.now self.old.lane self.new.lane (Grows (G.told self.old.gate) (G.told self.new.gate))) }
    {
        let making = self.making.with_used(self.lane.used);
        let (one, used) = making.make_next(
            &mut self.machine,
            &mut self.engine,
            &mut self.gate,
            at,
            call,
        );
        if one.is_spent() {
            return Ok(false);
        }
        self.lane.add(one, used)?;
        Ok(true)
    }

    /// The gate, as it stands. No memory.
    pub fn gate(&self) -> &G
        ensures { result.now ≡ self.now.gate }
    {
        &self.gate
    }

    /// What is kept of the calls that were made. No memory.
    pub fn journal(&self) -> &Lane
        ensures { result.now ≡ self.now.lane }
    {
        &self.lane
    }

    /// The engine, the gate, and what is kept of the calls. No memory.
    pub fn into_parts(self) -> (E, G, Lane)
        ensures { result ≡ (self.entry.engine, self.entry.gate, self.entry.lane) }
    {
        let Session {
            making: _,
            machine: _,
            engine,
            gate,
            lane,
        } = self;
        (engine, gate, lane)
    }
}
