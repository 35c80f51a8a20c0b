//! The commit of an attempt that wrote, over the steps of the table.
ghost use Rattle.std.specs.Prelude.{◌≡◌, ◌≢◌, ◌⊎◌, ◌<◌, ◌≤◌, ◌+◌, ◌*◌, ◌%◌, ◌^◌, [], ℕ, List, true, All, reverse, IfOk, IfErr, IsOk, ◌∷◌};
ghost use mathlib.Core.Option.{some as Found, none as Missing};
ghost use Rattle.jmodel.specs.history.History.{Entry};
ghost use Rattle.tx_table.specs.Book.{Map, Has, In, Unticked, Ticked, lookup, pairs};
ghost use Rattle.tx_table.specs.Plays.{keys, lost_at, ticked_up, Fits, Updates};
ghost use Rattle.tx_table.specs.Passes.{book, IsOf, IsSame, IsSettled};
ghost use Rattle.tx_table.specs.Steps.{IsPast};
ghost use Rattle.tl2.specs.Conflicts.{lost_to};
ghost use Rattle.tl2.specs.Commits.{IsAdded, IsChecked, IsRest, MeansOnly, stored, update_of};
ghost use Rattle.tl2.specs.Plans.{IsPlan};

use crate::commit::{give_back, release_all, take_all, validate_all};
use crate::plan::Plan;
use jmodel::value::{Answer, Stamp};
use std::snapshot::Snapshot;
use tx_core::{Conflict, WriteLog};
use tx_table::{Pass, Shared, Story};

/// Moves the clock for an attempt that wrote this, and then looks once more at the stripes of these addresses that were
/// read. Answers the clock's new value.
pub fn tick_checked<T: Story>(
    pass: &mut Pass,
    shared: &Shared<T>,
    _writes: &WriteLog,
    read_elsewhere: &[u64],
) -> Result<u64, Conflict>
    ghost due: { Map ℕ }
    requires told { due ≡ pairs (reverse _writes.now.items) }
    requires table { IsOf shared.now.table.shared.table_id pass.old }
    requires heap { All (λ a. a < shared.now.words) read_elsewhere.now }
    requires ready { ((book pass.old).face.stage ≡ Unticked) × ((book pass.old).live ≡ true) × ((book pass.old).ticks < 2 ^ 40) }
    requires held { (b : ℕ) → Has due b → Has (book pass.old).face.held (b % 4096) }
    requires due { (i y : ℕ) → lookup (book pass.old).face.held i ≡ Found y → (b : ℕ) × (b % 4096 ≡ i) × Has due b }
    requires settled { IsSettled pass.old }
    ensures same { IsSame pass.old pass.new }
    ensures ok { IfOk result (λ at. ((book pass.old).seen < at) × IsChecked read_elsewhere.now (ticked_up (book pass.old) at due) (book pass.new)) }
    ensures err { IfErr result (λ e. (at : ℕ) × ((book pass.old).seen < at) × ((checked : List ℕ) × (book pass.new ≡ lost_at (record (ticked_up (book pass.old) at due) { checked = checked }) e.address e.word))) }
    ensures conflict { IfErr result (λ e. (e.upto ≡ (book pass.old).bound) × IsPast (book pass.old).bound e.word × In e.address read_elsewhere.now) }
    ensures other { All (λ a. lookup (book pass.old).face.held (a % 4096) ≡ Missing) read_elsewhere.now → IfErr result (λ e. e.word ≢ 2 * (book pass.old).face.number + 1) }
    ensures sole { (book pass.old).numbers ≡ 2 ^ 20 → All (λ a. lookup (book pass.old).face.held (a % 4096) ≡ Missing) read_elsewhere.now → IsOk result }
{
    let at = pass.tick(shared);
    validate_all(pass, shared, read_elsewhere)?;
    Ok(at)
}

/// Stores the last word that was written to each address, in the order of the first writes. The first of these stores decides the attempt and
/// adds its entry.
pub fn store_all<T: Story>(
    pass: &mut Pass,
    shared: &Shared<T>,
    writes: &WriteLog,
    _answer: Snapshot<Answer>,
    _used: Snapshot<u64>,
)
    ghost entry: { Entry }
    requires table { IsOf shared.now.table.shared.table_id pass.old }
    requires heap { All (λ l. l.address < shared.now.words) (reverse writes.now.items) }
    requires any { reverse writes.now.items ≢ [] }
    requires ready { ((book pass.old).face.stage ≡ Ticked) × ((book pass.old).live ≡ true) × ((book pass.old).face.due ≡ pairs (reverse writes.now.items)) }
    requires safe { (b y : ℕ) → In (b, y) (book pass.old).reads → In (b % 4096) (book pass.old).checked ⊎ Has (book pass.old).face.held (b % 4096) }
    requires entry { Updates (T.story shared.now.table.shared.key.story.value) (book pass.old) entry }
    ensures same { IsSame pass.old pass.new }
    ensures book { (left : Map ℕ) × ((b x : ℕ) → lookup left b ≡ Found x → ⊥) × (book pass.new ≡ stored (book pass.old) entry left) }
{
    let mut words = writes.iter();
    let Some((first, word)) = words.next() else {
        return;
    };
    pass.decide(shared, *first, *word);
    for (address, word) in words {
        pass.write_back(shared, *address, *word);
    }
}

/// Ends an attempt that wrote this as an entry with this answer, which leaves so many words of its region used. The stripes of
/// what it wrote are taken, the clock is moved, and what it read elsewhere is looked at once more; then its words are stored, and the
/// stripes get the clock's value as their version. After a conflict they get back the words that they had. No stripe is taken for an address
/// that wasn't written.
pub(crate) fn update<T: Story>(
    pass: &mut Pass,
    shared: &Shared<T>,
    plan: Plan,
    writes: &WriteLog,
    answer: Snapshot<Answer>,
    used: Snapshot<u64>,
) -> Result<Stamp, Conflict>
    requires table { IsOf shared.now.table.shared.table_id pass.old }
    requires ready { ((book pass.old).face.held ≡ []) × ((book pass.old).face.stage ≡ Unticked) × ((book pass.old).live ≡ true) × ((book pass.old).ticks < 2 ^ 40) }
    requires any { reverse writes.now.items ≢ [] }
    requires heap { All (λ l. l.address < shared.now.words) (reverse writes.now.items) × All (λ a. a < shared.now.words) (keys (book pass.old).reads) }
    requires plan { IsPlan (pairs (reverse writes.now.items)) (reverse (keys (book pass.old).reads)) plan.stripes.items plan.read_elsewhere.items }
    requires settled { IsSettled pass.old }
    requires entry { (t : ℕ) → Fits (T.story shared.now.table.shared.key.story.value) (book pass.old) (update_of (book pass.old) t (reverse writes.now.items) answer.value used.value) }
    ensures same { IsSame pass.old pass.new }
    ensures free { ((book pass.new).face.held ≡ []) × ((book pass.new).face.stage ≡ Unticked) }
    ensures ok { IfOk result (λ stamp. (stamp.update ≡ true) × ((book pass.old).seen < stamp.at) × IsAdded (update_of (book pass.old) stamp.at (reverse writes.now.items) answer.value used.value) (book pass.old) (book pass.new)) }
    ensures conflict { IfErr result (λ e. (e.upto ≡ (book pass.old).bound) × IsPast (book pass.old).bound e.word × (Has (pairs (reverse writes.now.items)) e.address ⊎ In e.address (keys (book pass.old).reads))) }
    ensures err { IfErr result (λ e. (moved : ℕ) × (moved ≤ 1) × IsRest (lost_to (book pass.old) e ∷ []) moved (book pass.old) (book pass.new)) }
    ensures means { MeansOnly (Has (pairs (reverse writes.now.items))) (book pass.old) (book pass.new) }
    ensures other { IfErr result (λ e. e.word ≢ 2 * (book pass.old).face.number + 1) }
    ensures sole { (book pass.old).numbers ≡ 2 ^ 20 → IsOk result }
{
    let Plan {
        mut stripes,
        read_elsewhere,
    } = plan;
    take_all(pass, shared, &mut stripes)?;
    match tick_checked(pass, shared, writes, &read_elsewhere) {
        Ok(at) => {
            store_all(pass, shared, writes, answer, used);
            release_all(pass, shared, &stripes);
            Ok(Stamp { at, update: true })
        }
        Err(conflict) => {
            give_back(pass, shared, &stripes);
            Err(conflict)
        }
    }
}
