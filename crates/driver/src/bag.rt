//! The calls of a bag by workers side by side, over one table of shared words.
ghost use Rattle.std.specs.Prelude.{◌≡◌, ◌≤◌, ◌<◌, length, map, IfOk, OnOk};
ghost use Rattle.std.specs.List.{AllByRecursion};
ghost use Rattle.jmodel.specs.history.History.{Entry};
ghost use Rattle.tx_table.specs.Passes.{book};
ghost use Rattle.driver.specs.Memory.{AreOfStates};
ghost use Rattle.session.specs.Rule.{IsRuled, IsReady, IsCallOf};
ghost use Rattle.driver.specs.Bags.{lists, as_lanes, AreTaken};
ghost use Rattle.jmodel.specs.history.Schedule.{Lanes};
ghost use Rattle.driver.specs.Passing.{AreUsed, IsWhole, HasRoom, IsMidway};
ghost use Rattle.driver.specs.Telling.{AreTold, IsCallAt};

use crate::run::Runner;
use crate::side::{Kept, Side};
use crate::table::{Keeping, Opening, start_lanes};
use crate::threads::gather;
use script::Known;
use session::Gate;
use std::alloc::AllocError;
use std::thread::Threads;
use tx_table::{Pass, Shared};

impl<'a> Runner<'a> {
    /// Makes the calls of a bag by so many workers, each on a thread of its own, as transactions over a table of shared words. A worker ends before its
    /// first call whose attempts are used up. Gives what is kept of the calls, numbered in each worker's lane from 0 on, and for each worker the indexes
    /// in the bag of the calls that are its own.
    pub(crate) fn bag_side<R: Threads + Sync, K: Keeping + Sync, G: Gate + Send + Drop>(
        &self,
        rt: &R,
        shared: &Shared<Opening<K>>,
        pass: &mut Pass,
        phase: u32,
        workers: u8,
        calls: &[Known],
        kept: &mut Kept<G>,
    ) -> Result<(Side, Vec<Vec<u32>>), AllocError>
        requires ready { IsReady self.now.original.now self.now.rewritten.now }
        requires calls { AllByRecursion (IsCallOf self.now.original.now) calls.now }
        requires few { length calls.now ≤ 100000 }
        requires workers { (1 ≤ workers) × (workers ≤ 16) }
        requires attempts { (1 ≤ self.now.limits.attempts) × (self.now.limits.attempts ≤ 1000000) }
        requires room_size { self.now.limits.size ≤ 1048576 }
        requires rule { (e : Entry) → IsRuled self.now.original.now self.now.rewritten.now self.now.limits.size self.now.limits.budget self.now.limits.attempts e → K.rule e }
        requires states { AreOfStates self.now.original.now self.now.limits.size self.now.limits.budget K.words K.used K.rule }
        requires pass { IsWhole shared.now.table.shared.table_id phase pass.old }
        requires room { HasRoom (length calls.now) (book pass.old) }
        requires used { AreUsed kept.old.used (book pass.old) }
        requires gates { 16 ≤ length kept.old.gates.items }
        ensures len { IfOk result (λ r. length r.1.items ≡ workers) }
        ensures taken { IfOk result (λ r. AreTaken (length calls.now) (lists r.1.items)) }
        ensures midway { IfOk result (λ r. IsMidway shared.now.table.shared.table_id (book pass.old) phase (as_lanes calls.now (lists r.1.items)) r.0 pass.new) }
        ensures used { OnOk result (AreUsed kept.new.used (book pass.new)) }
        ensures told { IfOk result (λ r. AreTold self.now.rewritten.now self.now.limits (IsCallAt phase (Lanes (as_lanes calls.now (lists r.1.items)))) workers r.0.placed.items (map G.told kept.old.gates.items) (map G.told kept.new.gates.items)) }
    {
        let starts = start_lanes(self.alloc, shared, pass, workers, &kept.used)?;
        let (ends, taken) = self.run_workers(rt, shared, phase, calls, starts, &mut kept.gates)?;
        let side = gather(self.alloc, shared, pass, ends, &mut kept.used)?;
        Ok((side, taken))
    }
}
