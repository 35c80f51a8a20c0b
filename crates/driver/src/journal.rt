//! What is kept of the calls of a run.
ghost use Rattle.std.specs.Prelude.{◌≡◌, ◌++◌, List, [], map, All, OnOk, IsPermutation};
ghost use Rattle.std.specs.List.Sorted.{IsSortedBy};
ghost use Rattle.session.specs.declared.record.Record.{Record as Kept};
ghost use Rattle.driver.specs.Bags.{lists, numbered, IsOfWorker};
ghost use Rattle.driver.specs.Order.{stands_before};
ghost use Rattle.driver.specs.Sides.{unplaced_of, joined};

use crate::order::sort_placed;
use crate::side::{Part, Side};
use crate::taken::number;
use session::Record;
use std::alloc::{AllocError, Global};

/// The calls of a run, and the memory that they left.
pub struct Journal {
    /// Those that have a place in the history, in its order.
    pub placed: Vec<Record>,
    /// Those that ran out of memory, by phase, lane and index.
    pub unplaced: Vec<Record>,
    /// The words of memory after all of them.
    pub words: Vec<u64>,
    /// How many words of each region are used then: of region 0, and of each lane's.
    pub used: Vec<u64>,
}

impl Drop for Journal {
    fn drop(self) {
        let Self {
            placed: _,
            unplaced: _,
            words: _,
            used: _,
        } = self;
    }
}

/// What is kept of the calls of a run, phase by phase.
#[derive(Drop)]
pub(crate) struct Records {
    /// Those that have a place in the history, in its order.
    pub placed: Vec<Record>,
    /// Those that ran out of memory, by phase, lane and index.
    pub unplaced: Vec<Record>,
}

impl Records {
    /// No calls.
    pub(crate) fn new(alloc: Global) -> Self
        ensures placed { result.placed.items ≡ [] }
        ensures unplaced { result.unplaced.items ≡ [] }
    {
        Records {
            placed: Vec::new(alloc),
            unplaced: Vec::new(alloc),
        }
    }

    /// Adds the calls of a phase, those that were made first and those that were left then. The placed ones stand in the order of history, and those that ran
    /// out of memory lane by lane.
    pub(crate) fn add_phase(&mut self, first: Side, mut rest: Side) -> Result<(), AllocError>
        ensures placed { OnOk result ((sorted : List Kept) × IsPermutation (first.placed.items ++ rest.placed.items) sorted × IsSortedBy stands_before sorted × (self.new.placed.items ≡ self.old.placed.items ++ sorted)) }
        ensures unplaced { OnOk result (self.new.unplaced.items ≡ self.old.unplaced.items ++ joined (unplaced_of first.parts.items) (unplaced_of rest.parts.items)) }
    {
        let mut placed = first.placed;
        placed.append(&mut rest.placed)?;
        sort_placed(&mut placed)?;
        self.placed.append(&mut placed)?;
        self.add_unplaced(first.parts, rest.parts)
    }

    /// Adds the calls of a phase that ran out of memory, lane by lane, first and then in what was left.
    fn add_unplaced(
        &mut self,
        first_parts: Vec<Part>,
        rest_parts: Vec<Part>,
    ) -> Result<(), AllocError>
        ensures placed { self.new.placed.items ≡ self.old.placed.items }
        ensures unplaced { OnOk result (self.new.unplaced.items ≡ self.old.unplaced.items ++ joined (unplaced_of first_parts.items) (unplaced_of rest_parts.items)) }
    {
        for (mut one, mut other) in first_parts.into_iter().zip(rest_parts) {
            self.unplaced.append(&mut one.unplaced)?;
            self.unplaced.append(&mut other.unplaced)?;
        }
        Ok(())
    }

    /// Adds the calls of a bag behind its own. Workers took them, and each numbered its own from 0 on; here they have their indexes in the bag.
    pub(crate) fn append(
        &mut self,
        mut other: Records,
        taken: &[Vec<u32>],
    ) -> Result<(), AllocError>
        requires { All (IsOfWorker (lists taken.now)) other.placed.items × All (IsOfWorker (lists taken.now)) other.unplaced.items }
        ensures placed { OnOk result (self.new.placed.items ≡ self.old.placed.items ++ map (numbered (lists taken.now)) other.placed.items) }
        ensures unplaced { OnOk result (self.new.unplaced.items ≡ self.old.unplaced.items ++ map (numbered (lists taken.now)) other.unplaced.items) }
    {
        number(&mut other.placed, taken);
        number(&mut other.unplaced, taken);
        self.placed.append(&mut other.placed)?;
        self.unplaced.append(&mut other.unplaced)
    }
}
