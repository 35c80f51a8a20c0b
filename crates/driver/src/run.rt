//! A run of a script's calls.
ghost use Rattle.std.specs.Prelude.{◌≡◌, ◌≤◌, ◌<◌, ◌+◌, ◌^◌, length, map, IfOk};
ghost use Rattle.jmodel.specs.history.History.{Entry};
ghost use Rattle.objects.specs.semantics.State.{State};
ghost use Rattle.session.specs.Rule.{IsRuled, IsReady};
ghost use Rattle.driver.specs.Memory.{Holds};
ghost use Rattle.driver.specs.Runs.{AreScripted, HasRun};
ghost use Rattle.driver.specs.Telling.{TellsScript};

use crate::journal::{Journal, Records};
use crate::memory::{LANES, Limits, Memory};
use crate::side::{Kept, used_in_all};
use crate::table::{Keeping, open_table};
use hierarchy::Program;
use machine::Open;
use script::{EngineKind, PhaseCalls};
use session::Gate;
use std::alloc::{AllocError, Global};
use std::marker::Brand;
use std::mem;
use std::thread::Threads;

/// What a run's calls are made with: a program, its rewriting, which is what runs, the engine that runs it, and what each call may use.
#[derive(Clone, Copy)]
pub struct Runner<'a> {
    pub alloc: Global,
    pub original: &'a Program,
    pub rewritten: &'a Program,
    pub engine: EngineKind,
    pub limits: Limits,
}

impl<'a> Runner<'a> {
    /// Makes the calls of a script, from the memory that a run begins with, as transactions over one table of shared words. That memory stands for a state.
    /// The phases come one after another. The lanes of a phase run side by side, where more than one has calls; what a lane leaves, of which a call used up
    /// its attempts, is made behind them, one lane after another. Each call may take the turns and the attempts of `limits`, and those of a lane together
    /// the words of its region. Lane k's calls tell gate k, whichever phase they are of; after an `Ok` as many gates stand there, in their order.
    pub fn run_gated<R: Threads + Sync, G: Gate + Send + Drop>(
        &self,
        rt: &R,
        memory: Memory,
        phases: &[PhaseCalls],
        gates: &mut Vec<G>,
    ) -> Result<Journal, AllocError>
        requires ready { IsReady self.now.original.now self.now.rewritten.now }
        requires stands { (σ : State) × Holds self.now.original.now self.now.limits.size memory σ }
        requires scripted { AreScripted self.now.original.now phases.now }
        requires attempts { (1 ≤ self.now.limits.attempts) × (self.now.limits.attempts ≤ 1000000) }
        requires room_size { self.now.limits.size ≤ 1048576 }
        requires size { length memory.words.items + 4097 < 2 ^ 32 }
        requires gates { length gates.old.items ≡ 16 }
        ensures run { IfOk result (HasRun self.now.original.now self.now.limits.size self.now.limits.budget phases.now memory) }
        // Where a gate tells its events, they are those before, and then the events of its lane's placed calls, each call's in one piece, in their order.
        ensures told { IfOk result (λ journal. TellsScript self.now.rewritten.now self.now.limits phases.now journal.placed.items (map G.told gates.old.items) (map G.told gates.new.items)) }
    {
        self.run_over::<R, Brand, G>(rt, memory, phases, gates)
    }

    /// The same with gates that do nothing.
    pub fn run_script<R: Threads + Sync>(
        &self,
        rt: &R,
        memory: Memory,
        phases: &[PhaseCalls],
    ) -> Result<Journal, AllocError>
        requires ready { IsReady self.now.original.now self.now.rewritten.now }
        requires stands { (σ : State) × Holds self.now.original.now self.now.limits.size memory σ }
        requires scripted { AreScripted self.now.original.now phases.now }
        requires attempts { (1 ≤ self.now.limits.attempts) × (self.now.limits.attempts ≤ 1000000) }
        requires room_size { self.now.limits.size ≤ 1048576 }
        requires size { length memory.words.items + 4097 < 2 ^ 32 }
        ensures run { IfOk result (HasRun self.now.original.now self.now.limits.size self.now.limits.budget phases.now memory) }
    {
        let mut gates = vec![in self.alloc; Open; LANES]?;
        self.run_gated(rt, memory, phases, &mut gates)
    }

    fn run_over<R: Threads + Sync, K: Keeping + Sync, G: Gate + Send + Drop>(
        &self,
        rt: &R,
        memory: Memory,
        phases: &[PhaseCalls],
        gates: &mut Vec<G>,
    ) -> Result<Journal, AllocError>
        requires ready { IsReady self.now.original.now self.now.rewritten.now }
        requires stands { (σ : State) × Holds self.now.original.now self.now.limits.size memory σ }
        requires scripted { AreScripted self.now.original.now phases.now }
        requires attempts { (1 ≤ self.now.limits.attempts) × (self.now.limits.attempts ≤ 1000000) }
        requires room_size { self.now.limits.size ≤ 1048576 }
        requires size { length memory.words.items + 4097 < 2 ^ 32 }
        requires rule { (e : Entry) → IsRuled self.now.original.now self.now.rewritten.now self.now.limits.size self.now.limits.budget self.now.limits.attempts e → K.rule e }
        requires ruled { (e : Entry) → K.rule e → IsRuled self.now.original.now self.now.rewritten.now self.now.limits.size self.now.limits.budget self.now.limits.attempts e }
        requires words { memory.words.items ≡ K.words }
        requires used { memory.used ≡ K.used }
        requires gates { length gates.old.items ≡ 16 }
        ensures run { IfOk result (HasRun self.now.original.now self.now.limits.size self.now.limits.budget phases.now memory) }
        // Where a gate tells its events, they are those before, and then the events of its lane's placed calls, each call's in one piece, in their order.
        ensures told { IfOk result (λ journal. TellsScript self.now.rewritten.now self.now.limits phases.now journal.placed.items (map G.told gates.old.items) (map G.told gates.new.items)) }
    {
        let first = memory.used;
        let (shared, mut pass) = open_table::<K>(self.alloc, memory)?;
        let mut kept = Kept {
            used: [0; LANES],
            gates: mem::replace(gates, Vec::new(self.alloc)),
        };
        let mut records = Records::new(self.alloc);
        for (number, phase) in phases.iter().enumerate() {
            pass = self.run_phase(
                rt,
                &shared,
                pass,
                number as u32,
                phase,
                &mut kept,
                &mut records,
            )?;
        }
        let Ok(words) = shared.close(self.alloc, pass) else {
            return Err(AllocError);
        };
        let used = used_in_all(self.alloc, first, &kept.used)?;
        *gates = kept.gates;
        let Records { placed, unplaced } = records;
        Ok(Journal {
            placed,
            unplaced,
            words,
            used,
        })
    }
}
