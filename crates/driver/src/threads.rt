//! The lanes of a phase on threads, over one table.
ghost use Rattle.std.specs.Prelude.{◌≡◌, ◌≢◌, ◌≤◌, ◌<◌, ℕ, List, [], length, map, slice_index_or, IfOk, OnOk};
ghost use Rattle.std.specs.List.{AllByRecursion, flat_map};
ghost use Rattle.jmodel.specs.history.History.{Entry};
ghost use Rattle.tx_table.specs.Book.{Book};
ghost use Rattle.jmodel.specs.history.Schedule.{Known as Form, Phase};
ghost use Rattle.tx_table.specs.Passes.{book};
ghost use Rattle.driver.specs.Memory.{AreOfStates};
ghost use Rattle.session.specs.Rule.{IsRuled, IsReady, IsCallOf};
ghost use Rattle.driver.specs.Passing.{used_of, AreUsed, first_of, call_count, IsOfOne, AreStarting, HasEnded, HaveEnded, AreEnding, IsJoining};
ghost use Rattle.session.specs.Passes.{HasSpent};
ghost use Rattle.driver.specs.Telling.{kept_of, lane_limits, AreBegun, HasRunLane, HaveRunLanes, HaveTold};

use crate::gates::{give_gates, take_gates};
use crate::memory::LANES;
use crate::run::Runner;
use crate::side::{Side, keep_used};
use crate::table::{Keeping, Opening, Start};
use script::LaneCalls;
use session::{Gate, Lane, Making, Place};
use std::alloc::{AllocError, Global};
use std::thread::{Threads, map_vec};
use tx_table::{Pass, Shared};

/// How a lane's thread ends: what is kept of its calls, and its pass.
pub(crate) type End = Result<(Lane, Pass), AllocError>;

impl<'a> Runner<'a> {
    /// What a lane's thread does: it makes the lane's calls over the lane's pass, and tells the lane's gate.
    fn run_lane<K: Keeping, G: Gate + Drop>(
        &self,
        shared: &Shared<Opening<K>>,
        phase: u32,
        lanes: &[LaneCalls],
        begun: (Start, G),
    ) -> Result<((Lane, Pass), G), AllocError>
        requires ready { IsReady self.now.original.now self.now.rewritten.now }
        requires calls { AllByRecursion (AllByRecursion (IsCallOf self.now.original.now)) lanes.now }
        requires few { AllByRecursion (λ (cs : List Form). length cs ≤ 100000) lanes.now }
        requires attempts { (1 ≤ self.now.limits.attempts) × (self.now.limits.attempts ≤ 1000000) }
        requires room_size { self.now.limits.size ≤ 1048576 }
        requires rule { (e : Entry) → IsRuled self.now.original.now self.now.rewritten.now self.now.limits.size self.now.limits.budget self.now.limits.attempts e → K.rule e }
        requires states { AreOfStates self.now.original.now self.now.limits.size self.now.limits.budget K.words K.used K.rule }
        requires lane { begun.0.lane < length lanes.now }
        requires few_lanes { length lanes.now ≤ 16 }
        requires used { begun.0.used ≡ used_of (book begun.0.pass) begun.0.lane }
        requires pass { IsOfOne shared.now.table.shared.table_id (book begun.0.pass).seen (first_of phase begun.0.lane) begun.0.pass }
        ensures ran { IfOk result (HasRunLane G.told self.now.rewritten.now self.now.limits shared.now.table.shared.table_id (book begun.0.pass).seen phase begun.0.lane (slice_index_or lanes.now begun.0.lane []) (G.told begun.1)) }
        // It stops at a call that made as many attempts as it may, each of which met a conflict, and at no other.
        ensures stopped { IfOk result (λ r. r.0.0.made ≢ length (slice_index_or lanes.now begun.0.lane [])
            → HasSpent self.now.original.now self.now.rewritten.now (lane_limits self.now.limits begun.0.lane begun.0.used) (slice_index_or lanes.now begun.0.lane []) r.0.0.made r.0.0.used (book begun.0.pass) r.0.1) }
    {
        let (start, gate) = begun;
        let Start { lane, used, pass } = start;
        let at = Place {
            phase,
            lane,
            first: 0,
        };
        let calls = &lanes[usize::from(lane)];
        let making = Making {
            alloc: self.alloc,
            original: self.original,
            rewritten: self.rewritten,
            limits: self.limits.in_region(u64::from(lane) + 1, used),
        };
        making.make_shared(self.engine, shared, pass, at, calls.calls.as_slice(), gate)
    }
}

impl<'a> Runner<'a> {
    /// Runs each lane on a thread of its own, with its gate.
    fn run_begun<R: Threads + Sync, K: Keeping + Sync, G: Gate + Send + Drop>(
        &self,
        rt: &R,
        shared: &Shared<Opening<K>>,
        phase: u32,
        lanes: &[LaneCalls],
        begun: Vec<(Start, G)>,
    ) -> Result<Vec<Result<((Lane, Pass), G), AllocError>>, AllocError>
        requires ready { IsReady self.now.original.now self.now.rewritten.now }
        requires calls { AllByRecursion (AllByRecursion (IsCallOf self.now.original.now)) lanes.now }
        requires few { AllByRecursion (λ (cs : List Form). length cs ≤ 100000) lanes.now }
        requires attempts { (1 ≤ self.now.limits.attempts) × (self.now.limits.attempts ≤ 1000000) }
        requires room_size { self.now.limits.size ≤ 1048576 }
        requires rule { (e : Entry) → IsRuled self.now.original.now self.now.rewritten.now self.now.limits.size self.now.limits.budget self.now.limits.attempts e → K.rule e }
        requires states { AreOfStates self.now.original.now self.now.limits.size self.now.limits.budget K.words K.used K.rule }
        requires few_lanes { length lanes.now ≤ 16 }
        requires len { length begun.items ≡ length lanes.now }
        requires starts { (seen : ℕ) × AreBegun shared.now.table.shared.table_id seen phase begun.items }
        ensures { (seen : ℕ) → AreBegun shared.now.table.shared.table_id seen phase begun.items
            → IfOk result (λ ends. HaveRunLanes G.told self.now.rewritten.now self.now.limits shared.now.table.shared.table_id seen phase lanes.now begun.items ends.items) }
    {
        map_vec(rt, begun, &|one| self.run_lane(shared, phase, lanes, one))
    }
}

impl<'a> Runner<'a> {
    /// Runs each lane on a thread of its own, with its gate. The gates come back in their order.
    pub(crate) fn run_all<R: Threads + Sync, K: Keeping + Sync, G: Gate + Send + Drop>(
        &self,
        rt: &R,
        shared: &Shared<Opening<K>>,
        phase: u32,
        lanes: &[LaneCalls],
        starts: Vec<Start>,
        gates: &mut Vec<G>,
    ) -> Result<Vec<End>, AllocError>
        requires ready { IsReady self.now.original.now self.now.rewritten.now }
        requires calls { AllByRecursion (AllByRecursion (IsCallOf self.now.original.now)) lanes.now }
        requires few { AllByRecursion (λ (cs : List Form). length cs ≤ 100000) lanes.now }
        requires attempts { (1 ≤ self.now.limits.attempts) × (self.now.limits.attempts ≤ 1000000) }
        requires room_size { self.now.limits.size ≤ 1048576 }
        requires rule { (e : Entry) → IsRuled self.now.original.now self.now.rewritten.now self.now.limits.size self.now.limits.budget self.now.limits.attempts e → K.rule e }
        requires states { AreOfStates self.now.original.now self.now.limits.size self.now.limits.budget K.words K.used K.rule }
        requires few_lanes { length lanes.now ≤ 16 }
        requires len { length starts.items ≡ length lanes.now }
        requires starts { (seen : ℕ) × AreStarting shared.now.table.shared.table_id seen phase starts.items }
        requires gates { length lanes.now ≤ length gates.old.items }
        ensures ended { (seen : ℕ) → AreStarting shared.now.table.shared.table_id seen phase starts.items
            → IfOk result (λ ends. HaveEnded shared.now.table.shared.table_id seen phase lanes.now ends.items) }
        ensures told { IfOk result (λ ends. HaveTold self.now.rewritten.now self.now.limits phase lanes.now (map kept_of ends.items) (map G.told gates.old.items) (map G.told gates.new.items)) }
    {
        let begun = give_gates(self.alloc, starts, gates)?;
        let ends = self.run_begun(rt, shared, phase, lanes, begun)?;
        take_gates(self.alloc, ends, gates)
    }
}

/// Joins the passes of lanes that have ended, and gathers what is kept of their calls, lane by lane. Keeps how many words of its region each lane has used
/// then.
pub(crate) fn gather<K: Keeping>(
    alloc: Global,
    shared: &Shared<Opening<K>>,
    pass: &mut Pass,
    ends: Vec<End>,
    used: &mut [u64; LANES],
) -> Result<Side, AllocError>
    requires few { length ends.items ≤ 16 }
    requires ending { (b : Book) × (phase : ℕ) × (lanes : Phase) × AreEnding shared.now.table.shared.table_id b phase lanes ends.items pass.old }
    ensures joining { (b : Book) (phase : ℕ) (lanes : Phase) → AreEnding shared.now.table.shared.table_id b phase lanes ends.items pass.old
        → IfOk result (λ side. IsJoining shared.now.table.shared.table_id b phase (length lanes) (call_count lanes) lanes side.placed.items side.parts.items pass.new) }
    ensures placed { IfOk result (λ side. side.placed.items ≡ flat_map kept_of ends.items) }
    ensures used { (b : Book) (phase : ℕ) (lanes : Phase) → AreEnding shared.now.table.shared.table_id b phase lanes ends.items pass.old → AreUsed used.old b
        → OnOk result (AreUsed used.new (book pass.new)) }
{
    let mut side = Side {
        placed: Vec::new(alloc),
        parts: Vec::new(alloc),
    };
    for end in ends {
        let (lane, other) = end?;
        pass.join(shared, other);
        side.add(lane)?;
    }
    keep_used(used, side.parts.as_slice());
    Ok(side)
}
