//! What a part of a phase's calls leaves.
ghost use Rattle.std.specs.Prelude.{◌≡◌, ◌<◌, ◌≤◌, ℕ, [], ◌∷◌, ◌++◌, IfOk, OnOk, length, slice_index, slice_index_or};
ghost use Rattle.driver.specs.declared.side.Part.{Part as Left};

use crate::memory::LANES;
use session::{Lane, Record};
use std::alloc::{AllocError, Global};

/// The calls of a lane that were made.
#[derive(Drop)]
pub(crate) struct Part {
    /// How many.
    pub made: usize,
    /// How many words of the lane's region are used after them.
    pub used: u64,
    /// Those that ran out of memory, in the lane's order.
    pub unplaced: Vec<Record>,
}

/// Calls of the lanes of a phase that were made.
#[derive(Drop)]
pub(crate) struct Side {
    /// Those that have a place in the history, lane by lane.
    pub placed: Vec<Record>,
    /// For each lane how many, and which ran out of memory.
    pub parts: Vec<Part>,
}

impl Side {
    /// Adds the calls of one lane more.
    pub(crate) fn add(&mut self, lane: Lane) -> Result<(), AllocError>
        ensures placed { OnOk result (self.new.placed.items ≡ self.old.placed.items ++ lane.placed.items) }
        ensures parts { OnOk result (self.new.parts.items ≡ self.old.parts.items ++ (record { made = lane.made; used = lane.used; unplaced = lane.unplaced }) ∷ []) }
    {
        let Lane {
            mut placed,
            unplaced,
            made,
            used,
        } = lane;
        self.placed.append(&mut placed)?;
        self.parts.push(Part {
            made,
            used,
            unplaced,
        })?;
        Ok(())
    }
}

/// What lanes keep from phase to phase.
#[derive(Drop)]
pub(crate) struct Kept<G> {
    /// How many words of its region each lane has used.
    pub used: [u64; LANES],
    /// The gate of each lane.
    pub gates: Vec<G>,
}

/// How many words of its region each lane has used, once the first lanes made these parts of their calls.
pub(crate) fn keep_used(used: &mut [u64; LANES], parts: &[Part])
    requires { length parts.now ≤ 16 }
    ensures lanes { (lane : ℕ) (d : Left) → lane < length parts.now → slice_index used.new lane ≡ (slice_index_or parts.now lane d).used }
    ensures others { (lane : ℕ) → length parts.now ≤ lane → slice_index used.new lane ≡ slice_index used.old lane }
{
    for (lane, part) in parts.iter().enumerate() {
        used[lane] = part.used;
    }
}

/// How many words of each region are used: so many of region 0, and these of each lane's.
pub(crate) fn used_in_all(
    alloc: Global,
    first: u64,
    lanes: &[u64; LANES],
) -> Result<Vec<u64>, AllocError>
    ensures used { IfOk result (λ used. used.items ≡ first ∷ lanes.now) }
    ensures len { IfOk result (λ used. length used.items ≡ 17) }
{
    let mut used = vec![in alloc; first]?;
    used.extend_from_slice(lanes)?;
    Ok(used)
}
