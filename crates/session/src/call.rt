//! One call, as a transaction over an engine.
ghost use Rattle.std.specs.Prelude.{◌≡◌, ◌≤◌, ◌<◌, ◌+◌, ◌*◌, ◌^◌, ℕ, List, []};
ghost use Rattle.jmodel.specs.history.History.{Entry};
ghost use Rattle.machine.specs.Machine.{bounds_of, TriesBy};
ghost use Rattle.machine.specs.Sound.{IsOverStates};
ghost use Rattle.machine.specs.Opacity.{OpaqueBy};
ghost use Rattle.tx_table.specs.Book.{IsOfLane};
ghost use Rattle.session.specs.Rule.{IsRuled, IsReady, IsCallOf, Leads};
ghost use Rattle.session.specs.Lane.{record_of};
ghost use Rattle.session.specs.Adds.{call_of, told_by, AddsCall};
ghost use Rattle.objects.specs.declared.event.Event.{Event};
ghost use Rattle.objects.specs.rewriting.Events.{Grows};
ghost use Rattle.session.specs.Passes.{limits_with};
ghost use Rattle.session.specs.Telling.{TellsCall};

use crate::record::{Place, Record};
use hierarchy::Program;
use machine::{End, Gate, Limits, Machine};
use script::Known;
use std::alloc::Global;
use tx_core::Engine;

/// What the calls of a lane are made with: a program, its rewriting, which is what runs, and what each call may use: turns in each attempt,
/// attempts, and the words of the lane's region.
#[derive(Clone, Copy)]
pub struct Making<'a> {
    pub alloc: Global,
    pub original: &'a Program,
    pub rewritten: &'a Program,
    pub limits: Limits,
}

impl<'a> Making<'a> {
    /// The same, where so many words of the region are used.
    pub(crate) fn with_used(&self, used: u64) -> Making<'a>
        ensures { result ≡ record self.now { limits = limits_with self.now.limits used } }
    {
        Making {
            alloc: self.alloc,
            original: self.original,
            rewritten: self.rewritten,
            limits: self.limits.with_used(used),
        }
    }

    /// Makes the call at a place, which the engine awaits, and tells how it ended, and how many words of its region are used then. The rewriting of
    /// the original, which is what runs, is never stuck. An answer `Spent` says that the attempts were used up, each by a conflict, and `NoMemory`
    /// that memory was: such a call adds nothing to the history. The gate is told the events of the call's attempts.
    pub fn make_next<E: Engine, G: Gate>(
        &self,
        machine: &mut Machine,
        engine: &mut E,
        gate: &mut G,
        at: Place,
        call: &Known,
    ) -> (Record, u64)
        requires ready { IsReady self.now.original.now self.now.rewritten.now }
        requires call { IsCallOf self.now.original.now call.now }
        requires region { IsOfLane (call_of self.now.limits.room at call.now) }
        requires fits { self.now.limits.room.region * self.now.limits.room.size + self.now.limits.room.size < 2 ^ 64 }
        requires rule { (e : Entry) → IsRuled self.now.original.now self.now.rewritten.now self.now.limits.room.size self.now.limits.budget self.now.limits.attempts e → E.allows e }
        requires attempts { (1 ≤ self.now.limits.attempts) × (self.now.limits.attempts ≤ 1000000) }
        requires clock { E.clock engine.old + 1000000 ≤ 2 ^ 40 }
        requires stands { (h : List Entry) × (n : ℕ) × E.stands engine.old h n [] [] × Leads E.is_shared E.begins h (call_of self.now.limits.room at call.now) self.now.limits.room.used }
        requires states { IsOverStates self.now.original.now self.now.limits E.begins E.allows }
        requires awaits { E.awaits engine.old (call_of self.now.limits.room at call.now) self.now.limits.room.used }
        ensures tells { result.0 ≡ record_of (told_by self.now.limits.room at call.now result.0) }
        ensures adds { (h : List Entry) (n : ℕ) → E.stands engine.old h n [] [] → AddsCall self.now.original.now self.now.rewritten.now (bounds_of self.now.limits) (E.stands engine.new) h n (told_by self.now.limits.room at call.now result.0) result.1 }
        ensures clock { E.clock engine.new ≤ E.clock engine.old + self.now.limits.attempts }
        // No attempt is begun but those of the call: one for each conflict, and one for its entry.
        ensures attempts { (h : List Entry) (n k : ℕ) → E.stands engine.old h n [] [] → E.attempts engine.old k → TriesBy result.0.answer (E.stands engine.new) (E.attempts engine.new) n k }
        // Where the gate tells its events, they are those before, and then the events of the call's run, if it has a place in the history.
        ensures told { (es : List Event) × TellsCall result.0.answer self.now.rewritten.now (bounds_of self.now.limits) call.now.method call.now.args es × Grows (G.told gate.old) (G.told gate.new) es }
        // Whenever an attempt of the call is open, it has read only what one state has, and met the traps that the original meets first from there. So has
        // one that meets a conflict later.
        ensures prefixes { (h : List Entry) (n : ℕ) → E.stands engine.old h n [] [] → Leads E.is_shared E.begins h (call_of self.now.limits.room at call.now) self.now.limits.room.used
            → OpaqueBy result.0.answer self.now.original.now self.now.rewritten.now (bounds_of self.now.limits) E.begins E.allows (call_of self.now.limits.room at call.now) (E.stands engine.new) h n (Grows (G.told gate.old) (G.told gate.new)) (record { answer = result.0.answer; stamp = result.0.stamp; used = result.1 }) }
    {
        match machine.call(
            self.rewritten,
            engine,
            gate,
            self.limits,
            call.method,
            call.args.as_slice(),
        ) {
            Ok(
                End {
                    answer,
                    stamp,
                    used,
                },
            ) => {
                let record = Record {
                    phase: at.phase,
                    lane: at.lane,
                    index: at.first,
                    method: call.method,
                    stamp,
                    answer,
                };
                (record, used)
            }
            Err(_) => unreachable!(),
        }
    }
}
