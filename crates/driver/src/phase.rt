//! The calls of a phase, over the table of a run.
ghost use Rattle.std.specs.Prelude.{◌≡◌, ◌≤◌, ◌<◌, ℕ, suc, List, ◌∷◌, [], length, map, IfOk, OnOk, All, Option, count_by, nat_lt};
ghost use Rattle.std.specs.List.{AllByRecursion};
ghost use Rattle.atomic_table.specs.Seated.{TableId};
ghost use Rattle.tx_table.specs.Book.{Book};
ghost use Rattle.jmodel.specs.history.History.{Entry};
ghost use Rattle.jmodel.specs.history.Schedule.{Known as Form, Lanes as ALanes, Bag as ABag, lists_in};
ghost use Rattle.tx_table.specs.declared.shared.Pass.{Pass as APass};
ghost use Rattle.tx_table.specs.Passes.{book};
ghost use Rattle.driver.specs.Memory.{AreOfStates};
ghost use Rattle.objects.specs.declared.event.Event.{Event};
ghost use Rattle.session.specs.Rule.{IsRuled, IsReady, IsCallOf};
ghost use Rattle.driver.specs.Sides.{made_counts};
ghost use Rattle.driver.specs.Runs.{HasLanes};
ghost use Rattle.driver.specs.Over.{AddsPhase};
ghost use Rattle.driver.specs.Passing.{AreUsed, call_count, IsWhole, HasRoom, IsMidway};
ghost use Rattle.driver.specs.Telling.{AreTold, IsCallAt, TellsPhase};

use crate::journal::Records;
use crate::memory::LANES;
use crate::run::Runner;
use crate::side::{Kept, Part, Side};
use crate::table::{Keeping, Opening};
use crate::taken::by_lane;
use script::{Calls, Known, LaneCalls, PhaseCalls};
use session::Gate;
use std::alloc::{AllocError, Global};
use std::slice::from_ref;
use std::thread::Threads;
use tx_table::{Pass, Shared};

impl<'a> Runner<'a> {
    /// Makes the calls of a phase over the pass that holds every number, and adds them to the journal. Gives the pass back.
    pub(crate) fn run_phase<R: Threads + Sync, K: Keeping + Sync, G: Gate + Send + Drop>(
        &self,
        rt: &R,
        shared: &Shared<Opening<K>>,
        pass: Pass,
        number: u32,
        phase: &PhaseCalls,
        kept: &mut Kept<G>,
        journal: &mut Records,
    ) -> Result<Pass, AllocError>
        requires ready { IsReady self.now.original.now self.now.rewritten.now }
        requires calls { AllByRecursion (AllByRecursion (IsCallOf self.now.original.now)) (lists_in phase.now) }
        requires few { AllByRecursion (λ (cs : List Form). length cs ≤ 100000) (lists_in phase.now) }
        requires lanes { HasLanes phase.now }
        requires attempts { (1 ≤ self.now.limits.attempts) × (self.now.limits.attempts ≤ 1000000) }
        requires room_size { self.now.limits.size ≤ 1048576 }
        requires rule { (e : Entry) → IsRuled self.now.original.now self.now.rewritten.now self.now.limits.size self.now.limits.budget self.now.limits.attempts e → K.rule e }
        requires states { AreOfStates self.now.original.now self.now.limits.size self.now.limits.budget K.words K.used K.rule }
        requires pass { IsWhole shared.now.table.shared.table_id number pass }
        requires room { HasRoom (call_count (lists_in phase.now)) (book pass) }
        requires used { AreUsed kept.old.used (book pass) }
        requires gates { 16 ≤ length kept.old.gates.items }
        ensures whole { IfOk result (IsWhole shared.now.table.shared.table_id (suc number)) }
        ensures used { IfOk result (λ left. AreUsed kept.new.used (book left)) }
        ensures adds { IfOk result (λ left. AddsPhase number (call_count (lists_in phase.now)) phase.now (book pass) (book left) journal.old journal.new) }
        ensures told { IfOk result (λ _. TellsPhase self.now.rewritten.now self.now.limits number phase.now journal.old.placed.items journal.new.placed.items (map G.told kept.old.gates.items) (map G.told kept.new.gates.items)) }
    {
        match &phase.calls {
            Calls::Lanes(lanes) => self.run_lanes(
                rt,
                shared,
                pass,
                number,
                lanes.as_slice(),
                kept,
                journal,
            ),
            Calls::Bag { lanes, calls } => self.run_bag(
                rt, shared, pass, number, *lanes, calls, kept, journal,
            ),
        }
    }

    /// Makes the calls of a bag and adds them to the journal. Workers, as many as the lesser of the lanes and the calls, each take the next call that is
    /// left; one alone makes them as those of lane 0.
    fn run_bag<R: Threads + Sync, K: Keeping + Sync, G: Gate + Send + Drop>(
        &self,
        rt: &R,
        shared: &Shared<Opening<K>>,
        pass: Pass,
        phase: u32,
        lanes: u64,
        calls: &LaneCalls,
        kept: &mut Kept<G>,
        journal: &mut Records,
    ) -> Result<Pass, AllocError>
        requires ready { IsReady self.now.original.now self.now.rewritten.now }
        requires calls { AllByRecursion (IsCallOf self.now.original.now) calls.now }
        requires few { length calls.now ≤ 100000 }
        requires lanes { (1 ≤ lanes) × (lanes ≤ 16) }
        requires attempts { (1 ≤ self.now.limits.attempts) × (self.now.limits.attempts ≤ 1000000) }
        requires room_size { self.now.limits.size ≤ 1048576 }
        requires rule { (e : Entry) → IsRuled self.now.original.now self.now.rewritten.now self.now.limits.size self.now.limits.budget self.now.limits.attempts e → K.rule e }
        requires states { AreOfStates self.now.original.now self.now.limits.size self.now.limits.budget K.words K.used K.rule }
        requires pass { IsWhole shared.now.table.shared.table_id phase pass }
        requires room { HasRoom (call_count (calls.now ∷ [])) (book pass) }
        requires used { AreUsed kept.old.used (book pass) }
        requires gates { 16 ≤ length kept.old.gates.items }
        ensures whole { IfOk result (IsWhole shared.now.table.shared.table_id (suc phase)) }
        ensures used { IfOk result (λ left. AreUsed kept.new.used (book left)) }
        ensures adds { IfOk result (λ left. AddsPhase phase (call_count (calls.now ∷ [])) (ABag lanes calls.now) (book pass) (book left) journal.old journal.new) }
        ensures told { IfOk result (λ _. TellsPhase self.now.rewritten.now self.now.limits phase (ABag lanes calls.now) journal.old.placed.items journal.new.placed.items (map G.told kept.old.gates.items) (map G.told kept.new.gates.items)) }
    {
        let bag = calls.calls.as_slice();
        let workers = lanes.min(bag.len() as u64) as u8;
        if workers < 2 {
            return self.run_lanes(rt, shared, pass, phase, from_ref(calls), kept, journal);
        }
        self.work_bag(rt, shared, pass, phase, workers, bag, kept, journal)
    }

    /// Makes the calls of a bag by so many workers and adds them to the journal.
    fn work_bag<R: Threads + Sync, K: Keeping + Sync, G: Gate + Send + Drop>(
        &self,
        rt: &R,
        shared: &Shared<Opening<K>>,
        pass: Pass,
        phase: u32,
        workers: u8,
        bag: &[Known],
        kept: &mut Kept<G>,
        journal: &mut Records,
    ) -> Result<Pass, AllocError>
        requires ready { IsReady self.now.original.now self.now.rewritten.now }
        requires calls { AllByRecursion (IsCallOf self.now.original.now) bag.now }
        requires few { length bag.now ≤ 100000 }
        requires workers { (1 ≤ workers) × (workers ≤ 16) × (workers ≤ length bag.now) }
        requires attempts { (1 ≤ self.now.limits.attempts) × (self.now.limits.attempts ≤ 1000000) }
        requires room_size { self.now.limits.size ≤ 1048576 }
        requires rule { (e : Entry) → IsRuled self.now.original.now self.now.rewritten.now self.now.limits.size self.now.limits.budget self.now.limits.attempts e → K.rule e }
        requires states { AreOfStates self.now.original.now self.now.limits.size self.now.limits.budget K.words K.used K.rule }
        requires pass { IsWhole shared.now.table.shared.table_id phase pass }
        requires room { HasRoom (length bag.now) (book pass) }
        requires used { AreUsed kept.old.used (book pass) }
        requires gates { 16 ≤ length kept.old.gates.items }
        ensures whole { IfOk result (IsWhole shared.now.table.shared.table_id (suc phase)) }
        ensures used { IfOk result (λ left. AreUsed kept.new.used (book left)) }
        ensures adds { (lanes : ℕ) → workers ≤ lanes
            → IfOk result (λ left. AddsPhase phase (length bag.now) (ABag lanes bag.now) (book pass) (book left) journal.old journal.new) }
        ensures told { (lanes : ℕ) → workers ≤ lanes → IfOk result (λ _. TellsPhase self.now.rewritten.now self.now.limits phase (ABag lanes bag.now) journal.old.placed.items journal.new.placed.items (map G.told kept.old.gates.items) (map G.told kept.new.gates.items)) }
    {
        let mut pass = pass;
        let (first, taken) = self.bag_side(rt, shared, &mut pass, phase, workers, bag, kept)?;
        let by_worker = by_lane(self.alloc, bag, &taken)?;
        let mut made = Records::new(self.alloc);
        let left = self.add_rest(shared, pass, first, phase, &by_worker, kept, &mut made)?;
        journal.append(made, &taken)?;
        Ok(left)
    }

    /// Makes the calls of the lanes of a phase and adds them to the journal.
    fn run_lanes<R: Threads + Sync, K: Keeping + Sync, G: Gate + Send + Drop>(
        &self,
        rt: &R,
        shared: &Shared<Opening<K>>,
        pass: Pass,
        phase: u32,
        lanes: &[LaneCalls],
        kept: &mut Kept<G>,
        journal: &mut Records,
    ) -> Result<Pass, AllocError>
        requires ready { IsReady self.now.original.now self.now.rewritten.now }
        requires calls { AllByRecursion (AllByRecursion (IsCallOf self.now.original.now)) lanes.now }
        requires few { AllByRecursion (λ (cs : List Form). length cs ≤ 100000) lanes.now }
        requires lanes { length lanes.now ≤ 16 }
        requires attempts { (1 ≤ self.now.limits.attempts) × (self.now.limits.attempts ≤ 1000000) }
        requires room_size { self.now.limits.size ≤ 1048576 }
        requires rule { (e : Entry) → IsRuled self.now.original.now self.now.rewritten.now self.now.limits.size self.now.limits.budget self.now.limits.attempts e → K.rule e }
        requires states { AreOfStates self.now.original.now self.now.limits.size self.now.limits.budget K.words K.used K.rule }
        requires pass { IsWhole shared.now.table.shared.table_id phase pass }
        requires room { HasRoom (call_count lanes.now) (book pass) }
        requires used { AreUsed kept.old.used (book pass) }
        requires gates { 16 ≤ length kept.old.gates.items }
        ensures whole { IfOk result (IsWhole shared.now.table.shared.table_id (suc phase)) }
        ensures used { IfOk result (λ left. AreUsed kept.new.used (book left)) }
        ensures adds { IfOk result (λ left. AddsPhase phase (call_count lanes.now) (ALanes lanes.now) (book pass) (book left) journal.old journal.new) }
        ensures told { IfOk result (λ _. TellsPhase self.now.rewritten.now self.now.limits phase (ALanes lanes.now) journal.old.placed.items journal.new.placed.items (map G.told kept.old.gates.items) (map G.told kept.new.gates.items)) }
    {
        let mut pass = pass;
        let first = self.first_side(rt, shared, &mut pass, phase, lanes, kept)?;
        self.add_rest(shared, pass, first, phase, lanes, kept, journal)
    }

    /// Makes what is left of a phase, one lane after another, and adds all of its calls to the journal.
    fn add_rest<K: Keeping, G: Gate + Drop>(
        &self,
        shared: &Shared<Opening<K>>,
        pass: Pass,
        first: Side,
        phase: u32,
        lanes: &[LaneCalls],
        kept: &mut Kept<G>,
        journal: &mut Records,
    ) -> Result<Pass, AllocError>
        requires ready { IsReady self.now.original.now self.now.rewritten.now }
        requires calls { AllByRecursion (AllByRecursion (IsCallOf self.now.original.now)) lanes.now }
        requires few { AllByRecursion (λ (cs : List Form). length cs ≤ 100000) lanes.now }
        requires lanes { length lanes.now ≤ 16 }
        requires attempts { (1 ≤ self.now.limits.attempts) × (self.now.limits.attempts ≤ 1000000) }
        requires room_size { self.now.limits.size ≤ 1048576 }
        requires rule { (e : Entry) → IsRuled self.now.original.now self.now.rewritten.now self.now.limits.size self.now.limits.budget self.now.limits.attempts e → K.rule e }
        requires states { AreOfStates self.now.original.now self.now.limits.size self.now.limits.budget K.words K.used K.rule }
        requires side { (b : Book) × IsMidway shared.now.table.shared.table_id b phase lanes.now first pass }
        requires used { AreUsed kept.old.used (book pass) }
        requires gates { 16 ≤ length kept.old.gates.items }
        ensures whole { IfOk result (IsWhole shared.now.table.shared.table_id (suc phase)) }
        ensures used { IfOk result (λ left. AreUsed kept.new.used (book left)) }
        ensures adds { (b : Book) → IsMidway shared.now.table.shared.table_id b phase lanes.now first pass
            → IfOk result (λ left. AddsPhase phase (call_count lanes.now) (ALanes lanes.now) b (book left) journal.old journal.new) }
        ensures told { (b : Book) (before : List (Option (List Event))) → IsMidway shared.now.table.shared.table_id b phase lanes.now first pass
            → AreTold self.now.rewritten.now self.now.limits (IsCallAt phase (ALanes lanes.now)) (length lanes.now) first.placed.items before (map G.told kept.old.gates.items)
            → IfOk result (λ _. TellsPhase self.now.rewritten.now self.now.limits phase (ALanes lanes.now) journal.old.placed.items journal.new.placed.items before (map G.told kept.new.gates.items)) }
    {
        let firsts = made_counts(self.alloc, &first.parts)?;
        let (rest, left) = self.one_after_another(shared, pass, phase, lanes, &firsts, kept)?;
        journal.add_phase(first, rest)?;
        Ok(left)
    }

    /// Makes the calls of a phase side by side, where more than one lane has calls, and otherwise none of them.
    fn first_side<R: Threads + Sync, K: Keeping + Sync, G: Gate + Send + Drop>(
        &self,
        rt: &R,
        shared: &Shared<Opening<K>>,
        pass: &mut Pass,
        phase: u32,
        lanes: &[LaneCalls],
        kept: &mut Kept<G>,
    ) -> Result<Side, AllocError>
        requires ready { IsReady self.now.original.now self.now.rewritten.now }
        requires calls { AllByRecursion (AllByRecursion (IsCallOf self.now.original.now)) lanes.now }
        requires few { AllByRecursion (λ (cs : List Form). length cs ≤ 100000) lanes.now }
        requires lanes { length lanes.now ≤ 16 }
        requires attempts { (1 ≤ self.now.limits.attempts) × (self.now.limits.attempts ≤ 1000000) }
        requires room_size { self.now.limits.size ≤ 1048576 }
        requires rule { (e : Entry) → IsRuled self.now.original.now self.now.rewritten.now self.now.limits.size self.now.limits.budget self.now.limits.attempts e → K.rule e }
        requires states { AreOfStates self.now.original.now self.now.limits.size self.now.limits.budget K.words K.used K.rule }
        requires pass { IsWhole shared.now.table.shared.table_id phase pass.old }
        requires room { HasRoom (call_count lanes.now) (book pass.old) }
        requires used { AreUsed kept.old.used (book pass.old) }
        requires gates { 16 ≤ length kept.old.gates.items }
        ensures midway { IfOk result (λ side. IsMidway shared.now.table.shared.table_id (book pass.old) phase lanes.now side pass.new) }
        ensures used { OnOk result (AreUsed kept.new.used (book pass.new)) }
        ensures told { IfOk result (λ side. AreTold self.now.rewritten.now self.now.limits (IsCallAt phase (ALanes lanes.now)) (length lanes.now) side.placed.items (map G.told kept.old.gates.items) (map G.told kept.new.gates.items)) }
    {
        if has_several(lanes) {
            self.side_by_side(rt, shared, pass, phase, lanes, kept)
        } else {
            untouched(self.alloc, lanes, &kept.used)
        }
    }
}
/// Whether more than one lane has calls.
fn has_several(lanes: &[LaneCalls]) -> bool
    ensures { result ≡ nat_lt 1 (count_by (λ (cs : List Form). nat_lt 0 (length cs)) lanes.now) }
{
    lanes.iter().filter(|lane| !lane.calls.is_empty()).count() > 1
}

/// No calls of a phase.
fn untouched(alloc: Global, lanes: &[LaneCalls], used: &[u64; LANES]) -> Result<Side, AllocError>
    requires { length lanes.now ≤ 16 }
    ensures none { IfOk result (λ side. side.placed.items ≡ []) }
    ensures midway { (t : TableId) (phase : ℕ) (p : APass) → IsWhole t phase p → HasRoom (call_count lanes.now) (book p) → AreUsed used.now (book p)
        → IfOk result (λ side. IsMidway t (book p) phase lanes.now side p) }
{
    let mut parts = Vec::new(alloc);
    for lane in 0..lanes.len() {
        parts.push(Part {
            made: 0,
            used: used[lane],
            unplaced: Vec::new(alloc),
        })?;
    }
    Ok(Side {
        placed: Vec::new(alloc),
        parts,
    })
}

/// How many calls of each lane were made.
fn made_counts(alloc: Global, parts: &[Part]) -> Result<Vec<usize>, AllocError>
    ensures { IfOk result (λ counts. counts.items ≡ made_counts parts.now) }
{
    parts.iter().map(|part| part.made).collect(alloc)
}
