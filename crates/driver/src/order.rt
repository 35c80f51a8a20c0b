//! The order of history.
ghost use Rattle.std.specs.Prelude.{OnOk, IsPermutation};
ghost use Rattle.std.specs.List.Sorted.{IsSortedBy};
ghost use Rattle.driver.specs.Order.{stands_before};

use session::Record;
use std::alloc::AllocError;

/// Brings what is kept of the calls of one phase into the order of history.
pub(crate) fn sort_placed(placed: &mut Vec<Record>) -> Result<(), AllocError>
    ensures moved { IsPermutation placed.old.items placed.new.items }
    ensures sorted { OnOk result (IsSortedBy stands_before placed.new.items) }
{
    placed.sort_by_key(|record| {
        (
            record.stamp.at,
            !record.stamp.update,
            record.lane,
            record.index,
        )
    })
}
