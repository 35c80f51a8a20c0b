//! What is left of a phase's calls, one lane after another, over the pass that holds every number.
ghost use Rattle.std.specs.Prelude.{◌≡◌, ◌≤◌, ◌<◌, ◌+◌, ◌*◌, ◌^◌, ℕ, suc, List, [], length, map, drop, slice_index_or, IfOk, OnOk};
ghost use Rattle.std.specs.List.{AllByRecursion, AllZip};
ghost use Rattle.jmodel.specs.history.History.{Entry};
ghost use Rattle.jmodel.specs.history.Schedule.{Known as Form};
ghost use Rattle.tx_table.specs.Passes.{book};
ghost use Rattle.driver.specs.Memory.{AreOfStates};
ghost use Rattle.session.specs.Rule.{IsRuled, IsReady, IsCallOf};
ghost use Rattle.session.specs.Lane.{HasMade};
ghost use Rattle.session.specs.Passes.{IsStarting, IsEnding, behind};
ghost use Rattle.driver.specs.Sides.{AreWhole};
ghost use Rattle.driver.specs.Passing.{MayGoOn, AreUsed, first_of, call_count, IsResting};
ghost use Rattle.jmodel.specs.history.Schedule.{Lanes};
ghost use Rattle.objects.specs.rewriting.Events.{Grows};
ghost use Rattle.machine.specs.Machine.{bounds_of};
ghost use Rattle.session.specs.Telling.{IsRecordOf, HasTold};
ghost use Rattle.driver.specs.Telling.{AreTold, IsCallAt};

use crate::run::Runner;
use crate::side::{Kept, Side};
use crate::table::{Keeping, Opening};
use script::{Known, LaneCalls};
use session::{Gate, Lane, Limits as CallLimits, Making, Place};
use std::alloc::AllocError;
use tx_table::{Pass, Shared};

impl<'a> Runner<'a> {
    /// Makes the calls of a phase that are left, one lane after another. `firsts` has for each lane how many of its calls were made before. The pass
    /// holds every number, so that no call meets a conflict, and each of them is made. Gives what is kept of them, and the pass.
    pub(crate) fn one_after_another<K: Keeping, G: Gate + Drop>(
        &self,
        shared: &Shared<Opening<K>>,
        pass: Pass,
        phase: u32,
        lanes: &[LaneCalls],
        firsts: &[usize],
        kept: &mut Kept<G>,
    ) -> Result<(Side, Pass), AllocError>
        requires ready { IsReady self.now.original.now self.now.rewritten.now }
        requires calls { AllByRecursion (AllByRecursion (IsCallOf self.now.original.now)) lanes.now }
        requires few { AllByRecursion (λ (cs : List Form). length cs ≤ 100000) lanes.now }
        requires lanes { length lanes.now ≤ 16 }
        requires attempts { (1 ≤ self.now.limits.attempts) × (self.now.limits.attempts ≤ 1000000) }
        requires room_size { self.now.limits.size ≤ 1048576 }
        requires rule { (e : Entry) → IsRuled self.now.original.now self.now.rewritten.now self.now.limits.size self.now.limits.budget self.now.limits.attempts e → K.rule e }
        requires states { AreOfStates self.now.original.now self.now.limits.size self.now.limits.budget K.words K.used K.rule }
        requires firsts { length firsts.now ≡ length lanes.now }
        requires within { AllZip (λ (cs : List Form) (first : ℕ). first ≤ length cs) lanes.now firsts.now }
        requires numbers { (book pass).numbers ≡ 2 ^ 20 }
        requires ticks { (book pass).ticks + call_count lanes.now * 1000000 ≤ 2 ^ 40 }
        requires begins { (lane : ℕ) → lane < length lanes.now → MayGoOn (behind (first_of phase lane) (slice_index_or firsts.now lane 0)) (book pass) }
        requires resting { IsResting shared.now.table.shared.table_id (book pass) phase 0 [] [] [] [] pass }
        requires used { AreUsed kept.old.used (book pass) }
        requires gates { 16 ≤ length kept.old.gates.items }
        ensures made { IfOk result (λ r. IsResting shared.now.table.shared.table_id (book pass) phase (call_count lanes.now) lanes.now firsts.now r.0.placed.items r.0.parts.items r.1) }
        ensures whole { IfOk result (λ r. AreWhole lanes.now firsts.now r.0.parts.items) }
        ensures used { IfOk result (λ r. AreUsed kept.new.used (book r.1)) }
        ensures told { IfOk result (λ r. AreTold self.now.rewritten.now self.now.limits (IsCallAt phase (Lanes lanes.now)) (length lanes.now) r.0.placed.items (map G.told kept.old.gates.items) (map G.told kept.new.gates.items)) }
    {
        let mut side = Side {
            placed: Vec::new(self.alloc),
            parts: Vec::new(self.alloc),
        };
        let mut pass = pass;
        for (number, lane) in lanes.iter().enumerate() {
            let first = firsts[number];
            let at = Place {
                phase,
                lane: number as u8,
                first: first as u32,
            };
            let gate = kept.gates.remove(number);
            let ((made, left), gate) = self.make_rest(
                shared,
                pass,
                self.limits.in_region(number as u64 + 1, kept.used[number]),
                at,
                &lane.calls,
                gate,
            )?;
            kept.gates.insert(number, gate)?;
            kept.used[number] = made.used;
            side.add(made)?;
            pass = left;
        }
        Ok((side, pass))
    }
}

impl<'a> Runner<'a> {
    /// Makes the calls of a lane from a place on. Gives what is kept of them, the pass, and the gate.
    fn make_rest<K: Keeping, G: Gate + Drop>(
        &self,
        shared: &Shared<Opening<K>>,
        pass: Pass,
        limits: CallLimits,
        at: Place,
        calls: &[Known],
        gate: G,
    ) -> Result<((Lane, Pass), G), AllocError>
        requires ready { IsReady self.now.original.now self.now.rewritten.now }
        requires calls { AllByRecursion (IsCallOf self.now.original.now) calls.now }
        requires few { length calls.now ≤ 100000 }
        requires attempts { (1 ≤ limits.attempts) × (limits.attempts ≤ 1000000) }
        requires region { limits.room.region ≡ suc at.lane }
        requires room_size { limits.room.size ≤ 1048576 }
        requires rule { (e : Entry) → IsRuled self.now.original.now self.now.rewritten.now limits.room.size limits.budget limits.attempts e → K.rule e }
        requires states { AreOfStates self.now.original.now limits.room.size limits.budget K.words K.used K.rule }
        requires within { at.first ≤ length calls.now }
        requires pass { IsStarting shared.now.table.shared.table_id at limits.room.used (length (drop at.first calls.now)) pass }
        ensures made { IfOk result (λ r. let rest = drop at.first calls.now in
            (h : List Entry) × IsEnding shared.now.table.shared.table_id (book pass) at (length rest) r.0.0.made r.0.0.used h r.0.1 × HasMade at limits.room.used rest h r.0.0) }
        ensures all { (book pass).numbers ≡ 2 ^ 20 → IfOk result (λ r. r.0.0.made ≡ length (drop at.first calls.now)) }
        ensures told { IfOk result (λ r. HasTold self.now.rewritten.now (bounds_of limits) (IsRecordOf at (drop at.first calls.now)) r.0.0.placed.items (Grows (G.told gate) (G.told r.1))) }
    {
        let rest = &calls[at.first as usize..];
        let making = Making {
            alloc: self.alloc,
            original: self.original,
            rewritten: self.rewritten,
            limits,
        };
        making.make_shared(self.engine, shared, pass, at, rest, gate)
    }
}
