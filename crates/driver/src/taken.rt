//! The calls of a bag, by the workers that took them.
ghost use Rattle.std.specs.Prelude.{◌≡◌, ◌<◌, All, map, length, IfOk};
ghost use Rattle.std.specs.List.{AllByRecursion};
ghost use Rattle.session.specs.Claimed.{calls_at};
ghost use Rattle.driver.specs.Bags.{lists, as_lanes, numbered, IsOfWorker};

use script::{Known, LaneCalls};
use session::Record;
use std::alloc::{AllocError, Global};

/// A call once more.
fn copied(alloc: Global, call: &Known) -> Result<Known, AllocError>
    ensures { IfOk result (λ copy. copy ≡ call.now) }
{
    Ok(Known {
        method: call.method,
        args: call.args.iter().copied().collect(alloc)?,
    })
}

/// The calls at these indexes.
fn calls_at(alloc: Global, calls: &[Known], indexes: &[u32]) -> Result<LaneCalls, AllocError>
    requires { AllByRecursion (λ i. i < length calls.now) indexes.now }
    ensures { IfOk result (λ lane. lane ≡ calls_at calls.now indexes.now) }
{
    let mut taken = Vec::new(alloc);
    for index in indexes {
        taken.push(copied(alloc, &calls[*index as usize])?)?;
    }
    Ok(LaneCalls { calls: taken })
}

/// The calls of a bag as those of lanes, by the indexes that each worker took.
pub(crate) fn by_lane(
    alloc: Global,
    calls: &[Known],
    taken: &[Vec<u32>],
) -> Result<Vec<LaneCalls>, AllocError>
    requires { AllByRecursion (AllByRecursion (λ i. i < length calls.now)) (lists taken.now) }
    ensures { IfOk result (λ lanes. lanes.items ≡ as_lanes calls.now (lists taken.now)) }
{
    let mut lanes = Vec::new(alloc);
    for indexes in taken {
        lanes.push(calls_at(alloc, calls, indexes.as_slice())?)?;
    }
    Ok(lanes)
}

/// Gives calls that workers took, and that each worker numbered from 0 on, their indexes in the bag.
pub(crate) fn number(records: &mut [Record], taken: &[Vec<u32>])
    requires { All (IsOfWorker (lists taken.now)) records.old }
    ensures { records.new ≡ map (numbered (lists taken.now)) records.old }
{
    for record in records {
        record.index = taken[usize::from(record.lane)][record.index as usize];
    }
}
