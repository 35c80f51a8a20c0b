//! The workers of a bag on threads, over one table and one bag's claims.
ghost use Rattle.std.specs.Prelude.{◌≡◌, ◌≢◌, ◌≤◌, ◌<◌, ◌+◌, ◌*◌, ◌^◌, ◌++◌, ℕ, List, [], All, length, map, slice_index_or, IfOk, OnOk};
ghost use Rattle.std.specs.List.{AllByRecursion};
ghost use Rattle.atomic_table.specs.Seated.{TableId};
ghost use Rattle.jmodel.specs.history.History.{Entry};
ghost use Rattle.jmodel.specs.history.Schedule.{Known as Form};
ghost use Rattle.claims.specs.Claims.{first_claims, IsGathered, below};
ghost use Rattle.claims.specs.Passes.{claims_of, IsOf};
ghost use Rattle.driver.specs.Memory.{AreOfStates};
ghost use Rattle.session.specs.Rule.{IsRuled, IsReady, IsCallOf};
ghost use Rattle.tx_table.specs.Passes.{book};
ghost use Rattle.driver.specs.Passing.{used_of, first_of, IsOfOne, AreStarting, HaveEnded};
ghost use Rattle.driver.specs.Bags.{lists, as_lanes, AreTaken, IsRest};
ghost use Rattle.driver.specs.Workers.{MayClaim, AreWorkers, HasWorked, HaveWorked, AreCollected};
ghost use Rattle.session.specs.Claimed.{calls_at, HasEmptied};
ghost use Rattle.session.specs.Passes.{HasSpent};
ghost use Rattle.driver.specs.Telling.{kept_of, lane_limits, AreWorkersBegun, HasRunWorker, HaveRunWorkers, HaveTold, HaveToldClaimed, AreSorted};

use crate::gates::{give_gates, take_gates};
use crate::run::Runner;
use crate::table::{Keeping, Opening, Start};
use crate::threads::End;
use claims::{Bag, BagPass};
use script::Known;
use session::{Gate, Making, Place, Taken};
use std::alloc::{AllocError, Global};
use std::thread::{Threads, map_vec};
use tx_table::Shared;

/// A worker that is to run: its number and its pass of the table, and its pass of the claims.
#[derive(Drop)]
pub(crate) struct Worker {
    pub start: Start,
    pub claims: BagPass,
}

/// How a worker's thread ends: what it took of the bag, and its pass of the claims.
type WorkerEnd = Result<(Taken, BagPass), AllocError>;

/// Gives each worker a pass of the claims of a bag of which nothing was claimed yet.
fn give_claims(
    alloc: Global,
    bag: &Bag,
    claims: &mut BagPass,
    starts: Vec<Start>,
) -> Result<Vec<Worker>, AllocError>
    requires few { (length starts.items ≤ 16) × (bag.now.length ≤ 100000) }
    requires claims { IsOf bag.now claims.old × (claims_of claims.old ≡ first_claims) }
    ensures len { IfOk result (λ workers. length workers.items ≡ length starts.items) }
    ensures workers { (t : TableId) (seen phase : ℕ) → AreStarting t seen phase starts.items → IfOk result (λ workers. AreWorkers t seen phase bag.now bag.now.length workers.items) }
    ensures claims { OnOk result (IsOf bag.now claims.new × ((claims_of claims.new).indexes ≡ []) × ((claims_of claims.new).left + length starts.items * (bag.now.length + 1) ≡ 2 ^ 32)) }
{
    let mut workers = Vec::new(alloc);
    for start in starts {
        let claims = claims.split(bag);
        workers.push(Worker { start, claims })?;
    }
    Ok(workers)
}

impl<'a> Runner<'a> {
    /// What a worker's thread does: it claims calls of the bag, makes them over its pass, and tells its gate.
    fn work<K: Keeping, G: Gate + Drop>(
        &self,
        shared: &Shared<Opening<K>>,
        phase: u32,
        bag: &Bag,
        calls: &[Known],
        begun: (Worker, G),
    ) -> Result<((Taken, BagPass), G), AllocError>
        requires ready { IsReady self.now.original.now self.now.rewritten.now }
        requires calls { AllByRecursion (IsCallOf self.now.original.now) calls.now }
        requires few { length calls.now ≤ 100000 }
        requires attempts { (1 ≤ self.now.limits.attempts) × (self.now.limits.attempts ≤ 1000000) }
        requires room_size { self.now.limits.size ≤ 1048576 }
        requires rule { (e : Entry) → IsRuled self.now.original.now self.now.rewritten.now self.now.limits.size self.now.limits.budget self.now.limits.attempts e → K.rule e }
        requires states { AreOfStates self.now.original.now self.now.limits.size self.now.limits.budget K.words K.used K.rule }
        requires bag { bag.now.length ≡ length calls.now }
        requires used { begun.0.start.used ≡ used_of (book begun.0.start.pass) begun.0.start.lane }
        requires pass { IsOfOne shared.now.table.shared.table_id (book begun.0.start.pass).seen (first_of phase begun.0.start.lane) begun.0.start.pass }
        requires claims { MayClaim bag.now (length calls.now) begun.0.claims }
        ensures ran { IfOk result (HasRunWorker G.told self.now.rewritten.now self.now.limits shared.now.table.shared.table_id (book begun.0.start.pass).seen bag.now phase begun.0.start.lane calls.now (G.told begun.1)) }
        // It stops where all calls are claimed, or at a call that made as many attempts as it may, each of which met a conflict.
        ensures stopped { IfOk result (λ r. r.0.0.lane.made ≢ length r.0.0.indexes.items
            → HasSpent self.now.original.now self.now.rewritten.now (lane_limits self.now.limits begun.0.start.lane begun.0.start.used) (calls_at calls.now r.0.0.indexes.items) r.0.0.lane.made r.0.0.lane.used (book begun.0.start.pass) r.0.0.pass) }
        ensures emptied { IfOk result (λ r. r.0.0.lane.made ≡ length r.0.0.indexes.items → HasEmptied (length calls.now) (claims_of r.0.1) r.0.0.indexes.items) }
    {
        let (worker, gate) = begun;
        let Worker { start, mut claims } = worker;
        let Start { lane, used, pass } = start;
        let at = Place {
            phase,
            lane,
            first: 0,
        };
        let making = Making {
            alloc: self.alloc,
            original: self.original,
            rewritten: self.rewritten,
            limits: self.limits.in_region(u64::from(lane) + 1, used),
        };
        let (taken, gate) = making.make_claimed(
            self.engine,
            shared,
            pass,
            at,
            bag,
            &mut claims,
            calls,
            gate,
        )?;
        Ok(((taken, claims), gate))
    }
}

impl<'a> Runner<'a> {
    /// Runs each worker on a thread of its own, with its gate.
    fn work_begun<R: Threads + Sync, K: Keeping + Sync, G: Gate + Send + Drop>(
        &self,
        rt: &R,
        shared: &Shared<Opening<K>>,
        phase: u32,
        bag: &Bag,
        calls: &[Known],
        begun: Vec<(Worker, G)>,
    ) -> Result<Vec<Result<((Taken, BagPass), G), AllocError>>, AllocError>
        requires ready { IsReady self.now.original.now self.now.rewritten.now }
        requires calls { AllByRecursion (IsCallOf self.now.original.now) calls.now }
        requires few { length calls.now ≤ 100000 }
        requires attempts { (1 ≤ self.now.limits.attempts) × (self.now.limits.attempts ≤ 1000000) }
        requires room_size { self.now.limits.size ≤ 1048576 }
        requires rule { (e : Entry) → IsRuled self.now.original.now self.now.rewritten.now self.now.limits.size self.now.limits.budget self.now.limits.attempts e → K.rule e }
        requires states { AreOfStates self.now.original.now self.now.limits.size self.now.limits.budget K.words K.used K.rule }
        requires bag { bag.now.length ≡ length calls.now }
        requires workers { (seen : ℕ) × AreWorkersBegun shared.now.table.shared.table_id seen phase bag.now (length calls.now) begun.items }
        ensures { (seen : ℕ) → AreWorkersBegun shared.now.table.shared.table_id seen phase bag.now (length calls.now) begun.items
            → IfOk result (λ ends. HaveRunWorkers G.told self.now.rewritten.now self.now.limits shared.now.table.shared.table_id seen bag.now phase calls.now begun.items ends.items) }
    {
        map_vec(rt, begun, &|one| self.work(shared, phase, bag, calls, one))
    }
}

impl<'a> Runner<'a> {
    /// Runs each worker on a thread of its own, with its gate. The gates come back in their order.
    fn work_all<R: Threads + Sync, K: Keeping + Sync, G: Gate + Send + Drop>(
        &self,
        rt: &R,
        shared: &Shared<Opening<K>>,
        phase: u32,
        bag: &Bag,
        calls: &[Known],
        workers: Vec<Worker>,
        gates: &mut Vec<G>,
    ) -> Result<Vec<WorkerEnd>, AllocError>
        requires ready { IsReady self.now.original.now self.now.rewritten.now }
        requires calls { AllByRecursion (IsCallOf self.now.original.now) calls.now }
        requires few { length calls.now ≤ 100000 }
        requires attempts { (1 ≤ self.now.limits.attempts) × (self.now.limits.attempts ≤ 1000000) }
        requires room_size { self.now.limits.size ≤ 1048576 }
        requires rule { (e : Entry) → IsRuled self.now.original.now self.now.rewritten.now self.now.limits.size self.now.limits.budget self.now.limits.attempts e → K.rule e }
        requires states { AreOfStates self.now.original.now self.now.limits.size self.now.limits.budget K.words K.used K.rule }
        requires bag { bag.now.length ≡ length calls.now }
        requires workers { (seen : ℕ) × AreWorkers shared.now.table.shared.table_id seen phase bag.now (length calls.now) workers.items }
        requires gates { length workers.items ≤ length gates.old.items }
        ensures worked { (seen : ℕ) → AreWorkers shared.now.table.shared.table_id seen phase bag.now (length calls.now) workers.items
            → IfOk result (λ ends. HaveWorked shared.now.table.shared.table_id seen bag.now phase calls.now (length workers.items) ends.items) }
        ensures told { IfOk result (λ ends. HaveToldClaimed self.now.rewritten.now self.now.limits phase calls.now ends.items (map G.told gates.old.items) (map G.told gates.new.items)) }
    {
        let begun = give_gates(self.alloc, workers, gates)?;
        let ends = self.work_begun(rt, shared, phase, bag, calls, begun)?;
        take_gates(self.alloc, ends, gates)
    }
}

/// Joins the claims of workers that have ended, and sorts out what each gives: how its lane ended, and which calls it took.
fn collect(
    alloc: Global,
    bag: &Bag,
    claims: &mut BagPass,
    ends: Vec<WorkerEnd>,
) -> Result<(Vec<End>, Vec<Vec<u32>>), AllocError>
    requires claims { IsOf bag.now claims.old × ((claims_of claims.old).indexes ≡ []) }
    requires left { (claims_of claims.old).left + length ends.items * (bag.now.length + 1) ≡ 2 ^ 32 }
    requires ends { All (λ end. IfOk end (λ r. IsOf bag.now r.1)) ends.items }
    ensures bag { OnOk result (IsOf bag.now claims.new) }
    ensures sorted { IfOk result (λ r. AreSorted ends.items r.0.items r.1.items) }
    ensures collected { (t : TableId) (seen phase : ℕ) (calls : List Form) → bag.now.length ≡ length calls → HaveWorked t seen bag.now phase calls (length ends.items) ends.items
        → IfOk result (λ r. AreCollected t seen phase calls (length ends.items) (claims_of claims.new) (lists r.1.items) r.0.items) }
{
    let mut lanes = Vec::new(alloc);
    let mut indexes = Vec::new(alloc);
    for end in ends {
        let (taken, other) = end?;
        claims.join(bag, other);
        lanes.push(Ok((taken.lane, taken.pass)))?;
        indexes.push(taken.indexes)?;
    }
    Ok((lanes, indexes))
}

/// Claims what is left of a bag, and adds it to what a worker took.
fn claim_rest(bag: &Bag, claims: &mut BagPass, taken: &mut Vec<u32>) -> Result<(), AllocError>
    requires few { (bag.now.length ≤ 100000) × (length (claims_of claims.old).indexes ≤ 16 * (bag.now.length + 1)) }
    requires claims { IsOf bag.now claims.old × IsGathered (claims_of claims.old) }
    ensures { OnOk result ((rest : List ℕ) × IsRest bag.now.length (claims_of claims.old) rest × (taken.new.items ≡ taken.old.items ++ rest)) }
{
    while let Some(index) = claims.claim(bag) {
        taken.push(index)?;
    }
    Ok(())
}

impl<'a> Runner<'a> {
    /// Makes the calls of a bag by workers, each on a thread of its own. Each claims a call and makes it, one after another, and ends at its first call
    /// whose attempts are used up, or where all are claimed. Gives how the lane of each worker ended, and which calls it took. What no worker claimed is
    /// the first one's.
    pub(crate) fn run_workers<R: Threads + Sync, K: Keeping + Sync, G: Gate + Send + Drop>(
        &self,
        rt: &R,
        shared: &Shared<Opening<K>>,
        phase: u32,
        calls: &[Known],
        starts: Vec<Start>,
        gates: &mut Vec<G>,
    ) -> Result<(Vec<End>, Vec<Vec<u32>>), AllocError>
        requires ready { IsReady self.now.original.now self.now.rewritten.now }
        requires calls { AllByRecursion (IsCallOf self.now.original.now) calls.now }
        requires few { length calls.now ≤ 100000 }
        requires attempts { (1 ≤ self.now.limits.attempts) × (self.now.limits.attempts ≤ 1000000) }
        requires room_size { self.now.limits.size ≤ 1048576 }
        requires rule { (e : Entry) → IsRuled self.now.original.now self.now.rewritten.now self.now.limits.size self.now.limits.budget self.now.limits.attempts e → K.rule e }
        requires states { AreOfStates self.now.original.now self.now.limits.size self.now.limits.budget K.words K.used K.rule }
        requires starts { (seen : ℕ) × AreStarting shared.now.table.shared.table_id seen phase starts.items }
        requires some { (1 ≤ length starts.items) × (length starts.items ≤ 16) }
        requires gates { length starts.items ≤ length gates.old.items }
        ensures len { IfOk result (λ r. length r.1.items ≡ length starts.items) }
        ensures taken { IfOk result (λ r. AreTaken (length calls.now) (lists r.1.items)) }
        ensures ended { (seen : ℕ) → AreStarting shared.now.table.shared.table_id seen phase starts.items
            → IfOk result (λ r. HaveEnded shared.now.table.shared.table_id seen phase (as_lanes calls.now (lists r.1.items)) r.0.items) }
        ensures told { IfOk result (λ r. HaveTold self.now.rewritten.now self.now.limits phase (as_lanes calls.now (lists r.1.items)) (map kept_of r.0.items) (map G.told gates.old.items) (map G.told gates.new.items)) }
    {
        let Ok((bag, mut claims)) = Bag::open(self.alloc, calls.len() as u32) else {
            return Err(AllocError);
        };
        let workers = give_claims(self.alloc, &bag, &mut claims, starts)?;
        let ends = self.work_all(rt, shared, phase, &bag, calls, workers, gates)?;
        let (ends, mut taken) = collect(self.alloc, &bag, &mut claims, ends)?;
        claim_rest(&bag, &mut claims, &mut taken[0])?;
        Ok((ends, taken))
    }
}
