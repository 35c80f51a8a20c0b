//! The lanes of a phase side by side, each on a thread of its own, over one table of shared words.
ghost use Rattle.std.specs.Prelude.{◌≡◌, ◌≤◌, ◌<◌, List, length, map, IfOk, OnOk};
ghost use Rattle.std.specs.List.{AllByRecursion};
ghost use Rattle.jmodel.specs.history.Schedule.{Known as Form};
ghost use Rattle.jmodel.specs.history.History.{Entry};
ghost use Rattle.tx_table.specs.Passes.{book};
ghost use Rattle.driver.specs.Memory.{AreOfStates};
ghost use Rattle.session.specs.Rule.{IsRuled, IsReady, IsCallOf};
ghost use Rattle.jmodel.specs.history.Schedule.{Lanes};
ghost use Rattle.driver.specs.Passing.{AreUsed, call_count, IsWhole, HasRoom, IsMidway};
ghost use Rattle.driver.specs.Telling.{AreTold, IsCallAt};

use crate::run::Runner;
use crate::side::{Kept, Side};
use crate::table::{Keeping, Opening, start_lanes};
use crate::threads::gather;
use script::LaneCalls;
use session::Gate;
use std::alloc::AllocError;
use std::thread::Threads;
use tx_table::{Pass, Shared};

impl<'a> Runner<'a> {
    /// Makes the calls of a phase: each lane's one after another on a thread of its own, and those of different lanes at the same time, as
    /// transactions over a table of shared words. Each lane has a pass of its own, which is split off and joined again. A lane ends before its first call
    /// whose attempts are used up.
    pub(crate) fn side_by_side<R: Threads + Sync, K: Keeping + Sync, G: Gate + Send + Drop>(
        &self,
        rt: &R,
        shared: &Shared<Opening<K>>,
        pass: &mut Pass,
        phase: u32,
        lanes: &[LaneCalls],
        kept: &mut Kept<G>,
    ) -> Result<Side, AllocError>
        requires ready { IsReady self.now.original.now self.now.rewritten.now }
        requires calls { AllByRecursion (AllByRecursion (IsCallOf self.now.original.now)) lanes.now }
        requires few { AllByRecursion (λ (cs : List Form). length cs ≤ 100000) lanes.now }
        requires lanes { length lanes.now ≤ 16 }
        requires attempts { (1 ≤ self.now.limits.attempts) × (self.now.limits.attempts ≤ 1000000) }
        requires room_size { self.now.limits.size ≤ 1048576 }
        requires rule { (e : Entry) → IsRuled self.now.original.now self.now.rewritten.now self.now.limits.size self.now.limits.budget self.now.limits.attempts e → K.rule e }
        requires states { AreOfStates self.now.original.now self.now.limits.size self.now.limits.budget K.words K.used K.rule }
        requires pass { IsWhole shared.now.table.shared.table_id phase pass.old }
        requires room { HasRoom (call_count lanes.now) (book pass.old) }
        requires used { AreUsed kept.old.used (book pass.old) }
        requires gates { 16 ≤ length kept.old.gates.items }
        ensures midway { IfOk result (λ side. IsMidway shared.now.table.shared.table_id (book pass.old) phase lanes.now side pass.new) }
        ensures used { OnOk result (AreUsed kept.new.used (book pass.new)) }
        ensures told { IfOk result (λ side. AreTold self.now.rewritten.now self.now.limits (IsCallAt phase (Lanes lanes.now)) (length lanes.now) side.placed.items (map G.told kept.old.gates.items) (map G.told kept.new.gates.items)) }
    {
        let starts = start_lanes(self.alloc, shared, pass, lanes.len() as u8, &kept.used)?;
        let ends = self.run_all(rt, shared, phase, lanes, starts, &mut kept.gates)?;
        gather(self.alloc, shared, pass, ends, &mut kept.used)
    }
}
