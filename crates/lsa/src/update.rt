//! The commit of an attempt that wrote and holds the stripes of its writes, over the steps of the table.
ghost use Rattle.std.specs.Prelude.{◌≡◌, ◌≢◌, ◌⊎◌, ◌<◌, ◌≤◌, ◌+◌, ◌*◌, ◌%◌, ◌^◌, ◌∷◌, [], ℕ, true, not, All, filter, reverse, IfOk, IfErr, IsOk};
ghost use Rattle.std.specs.Ordering.{nat_cmp};
ghost use Rattle.std.specs.BTreeSet.{contains};
ghost use Rattle.tx_table.specs.Book.{Has, In, Unticked, pairs};
ghost use Rattle.tx_table.specs.Plays.{keys, Fits};
ghost use Rattle.tx_table.specs.Passes.{book, IsOf, IsSame, IsSettled};
ghost use Rattle.tx_table.specs.Steps.{IsPast};
ghost use Rattle.tl2.specs.Conflicts.{lost_to};
ghost use Rattle.tl2.specs.Commits.{Holds, IsAdded, IsRest, MeansOnly, update_of};
ghost use Rattle.tl2.specs.Plans.{IsHolding};

use crate::attempt::STRIPES;
use jmodel::NoMemory;
use jmodel::value::{Answer, Stamp};
use std::alloc::Global;
use std::collections::BTreeSet;
use std::snapshot::Snapshot;
use tl2::commit::{give_back, release_all};
use tl2::plan::Plan;
use tl2::update::{store_all, tick_checked};
use tx_core::{Conflict, WriteLog};
use tx_table::{Pass, Shared, Story};

/// Of these addresses those that lie on no stripe with one of these numbers.
pub(crate) fn elsewhere_of(
    alloc: Global,
    own: &BTreeSet<u64>,
    reads: &[u64],
) -> Result<Vec<u64>, NoMemory>
    ensures { IfOk result (λ v. v.items ≡ filter (λ a. not (contains nat_cmp own.now (a % 4096))) reads.now) }
{
    let mut read_elsewhere = Vec::new(alloc);
    for address in reads {
        if !own.contains(&(*address % STRIPES)) {
            read_elsewhere.push(*address)?;
        }
    }
    Ok(read_elsewhere)
}

/// Ends an attempt that wrote this and holds the stripes of it, as an entry with this answer, which leaves so many words of its region
/// used. The clock is moved, and what it read elsewhere is looked at once more; then its words are stored, and the stripes get the clock's value as
/// their version. After a conflict they get back the words that they had.
pub(crate) fn update<T: Story>(
    pass: &mut Pass,
    shared: &Shared<T>,
    plan: &Plan,
    writes: &WriteLog,
    answer: Snapshot<Answer>,
    used: Snapshot<u64>,
) -> Result<Stamp, Conflict>
    requires table { IsOf shared.now.table.shared.table_id pass.old }
    requires ready { ((book pass.old).face.stage ≡ Unticked) × ((book pass.old).live ≡ true) × ((book pass.old).ticks < 2 ^ 40) }
    requires any { reverse writes.now.items ≢ [] }
    requires heap { All (λ l. l.address < shared.now.words) (reverse writes.now.items) × All (λ a. a < shared.now.words) (keys (book pass.old).reads) }
    requires holds { Holds plan.now.stripes.items (book pass.old) }
    requires plan { IsHolding (pairs (reverse writes.now.items)) (reverse (keys (book pass.old).reads)) plan.now.stripes.items plan.now.read_elsewhere.items }
    requires settled { IsSettled pass.old }
    requires entry { (t : ℕ) → Fits (T.story shared.now.table.shared.key.story.value) (book pass.old) (update_of (book pass.old) t (reverse writes.now.items) answer.value used.value) }
    ensures same { IsSame pass.old pass.new }
    ensures free { ((book pass.new).face.held ≡ []) × ((book pass.new).face.stage ≡ Unticked) }
    ensures ok { IfOk result (λ stamp. (stamp.update ≡ true) × ((book pass.old).seen < stamp.at) × IsAdded (update_of (book pass.old) stamp.at (reverse writes.now.items) answer.value used.value) (book pass.old) (book pass.new)) }
    ensures conflict { IfErr result (λ e. (e.upto ≡ (book pass.old).bound) × IsPast (book pass.old).bound e.word × In e.address (keys (book pass.old).reads)) }
    ensures err { IfErr result (λ e. IsRest (lost_to (book pass.old) e ∷ []) 1 (book pass.old) (book pass.new)) }
    ensures means { MeansOnly (Has (pairs (reverse writes.now.items))) (book pass.old) (book pass.new) }
    ensures other { IfErr result (λ e. e.word ≢ 2 * (book pass.old).face.number + 1) }
    ensures sole { (book pass.old).numbers ≡ 2 ^ 20 → IsOk result }
{
    match tick_checked(pass, shared, writes, &plan.read_elsewhere) {
        Ok(at) => {
            store_all(pass, shared, writes, answer, used);
            release_all(pass, shared, &plan.stripes);
            Ok(Stamp { at, update: true })
        }
        Err(conflict) => {
            give_back(pass, shared, &plan.stripes);
            Err(conflict)
        }
    }
}
