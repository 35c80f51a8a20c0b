//! How the bound of an attempt moves forward, and how a stripe is looked at and taken.
ghost use Rattle.std.specs.Prelude.{◌≡◌, ◌≢◌, ◌⊎◌, ◌<◌, ◌≤◌, ◌+◌, ◌*◌, ◌%◌, ◌/◌, ◌^◌, ℕ, List, Bool, true, All, drop, length, reverse, slice_index, IfOk, IfErr, IsOk};
ghost use mathlib.Core.Option.{none as Missing};
ghost use Rattle.tx_table.specs.Book.{Unticked, Saw, Has, In, lookup};
ghost use Rattle.tx_table.specs.Plays.{extending, keys, lost_at, passed};
ghost use Rattle.tx_table.specs.Passes.{book, IsOf, IsSame, IsSettled};
ghost use Rattle.tx_table.specs.Steps.{IsPast};
ghost use Rattle.lsa.specs.Conflicts.{IsLost};
ghost use Rattle.lsa.specs.Owning.{all_own, is_own, moved, IsOn, IsTaken, Tells};

use crate::attempt::STRIPES;
use std::collections::BTreeSet;
use tx_core::Conflict;
use tx_table::{Pass, Shared, Story};

/// Whether an address lies on a stripe with one of these numbers, which is not that of the wanted address.
fn lies_on_own(own: &BTreeSet<u64>, wanted: u64, address: u64) -> bool
    ensures { result ≡ is_own own.now wanted (address % 4096) }
{
    let stripe = address % STRIPES;
    own.contains(&stripe) && stripe != wanted % STRIPES
}

/// Begins to extend the bound, for an attempt that read these addresses.
fn open_over<T: Story>(
    pass: &mut Pass,
    shared: &Shared<T>,
    _own: &BTreeSet<u64>,
    _reads: &[u64],
    _wanted: u64,
) -> u64
    ghost whole: { Bool }
    requires told { whole ≡ all_own _own.now _wanted _reads.now }
    requires table { IsOf shared.now.table.shared.table_id pass.old }
    requires settled { IsSettled pass.old }
    requires ready { ((book pass.old).face.stage ≡ Unticked) × ((book pass.old).live ≡ true) }
    requires whole { whole ≡ true → (a x : ℕ) → In (a, x) (book pass.old).reads → Has (book pass.old).face.held (a % 4096) }
    ensures same { IsSame pass.old pass.new }
    ensures book { book pass.new ≡ extending (book pass.old) whole result }
    ensures later { (book pass.old).seen ≤ result }
    ensures bound { pass.new.bound ≡ pass.old.bound }
{
    pass.extend(shared)
}

/// Looks at the stripe of the address at a place among those that were read.
fn validate_at<T: Story>(
    pass: &mut Pass,
    shared: &Shared<T>,
    _own: &BTreeSet<u64>,
    reads: &[u64],
    place: usize,
    _wanted: u64,
) -> Result<(), Conflict>
    ghost last: { Bool }
    requires told { last ≡ all_own _own.now _wanted (drop (place + 1) reads.now) }
    requires table { IsOf shared.now.table.shared.table_id pass.old }
    requires place { place < length reads.now }
    requires heap { All (λ a. a < shared.now.words) reads.now }
    requires bound { pass.old.bound ≡ (book pass.old).bound }
    requires live { (book pass.old).live ≡ true }
    requires last { last ≡ true → ((book pass.old).face.stage ≡ Unticked) × ((b x : ℕ) → In (b, x) (book pass.old).reads → (b % 4096 ≡ slice_index reads.now place % 4096) ⊎ (In (b % 4096) (book pass.old).checked ⊎ Has (book pass.old).face.held (b % 4096))) }
    ensures same { IsSame pass.old pass.new }
    ensures ok { IfOk result (λ _. book pass.new ≡ passed (book pass.old) (slice_index reads.now place % 4096) last) }
    ensures err { IfErr result (λ e. IsPast (book pass.old).bound e.word × (book pass.new ≡ lost_at (book pass.old) (slice_index reads.now place) e.word)) }
    ensures conflict { IfErr result (λ e. (e.address ≡ slice_index reads.now place) × (e.upto ≡ (book pass.old).bound)) }
    ensures other { lookup (book pass.old).face.held (slice_index reads.now place % 4096) ≡ Missing → IfErr result (λ e. e.word ≢ 2 * (book pass.old).face.number + 1) }
    ensures sole { (book pass.old).numbers ≡ 2 ^ 20 → lookup (book pass.old).face.held (slice_index reads.now place % 4096) ≡ Missing → IsOk result }
    ensures still { pass.new.bound ≡ pass.old.bound }
{
    pass.validate(shared, reads[place])
}

/// Moves the bound to the clock's value, once the stripe of each address that was read and is not on a stripe which is held is looked at: one that is
/// held by another, or has a version over the bound, is a conflict at that address, and carries the bound as it was.
fn extend<T: Story>(
    pass: &mut Pass,
    shared: &Shared<T>,
    own: &BTreeSet<u64>,
    reads: &[u64],
    wanted: u64,
) -> Result<(), Conflict>
    requires table { IsOf shared.now.table.shared.table_id pass.old }
    requires heap { All (λ a. a < shared.now.words) reads.now }
    requires settled { IsSettled pass.old }
    requires ready { ((book pass.old).face.stage ≡ Unticked) × ((book pass.old).live ≡ true) }
    requires reads { reverse reads.now ≡ keys (book pass.old).reads }
    requires own { Tells own.now wanted (book pass.old) }
    ensures same { IsSame pass.old pass.new }
    ensures ok { IfOk result (λ _. (n : ℕ) × ((book pass.old).seen ≤ n) × (book pass.new ≡ moved (book pass.old) n)) }
    ensures settled { IfOk result (λ _. IsSettled pass.new) }
    ensures err { IfErr result (λ e. IsLost (book pass.old) (book pass.new) e) }
    ensures address { IfErr result (λ e. In e.address reads.now) }
    ensures sole { (book pass.old).numbers ≡ 2 ^ 20 → IsOk result }
{
    open_over(pass, shared, own, reads, wanted);
    for i in 0..reads.len() {
        if !lies_on_own(own, wanted, reads[i]) {
            validate_at(pass, shared, own, reads, i, wanted)?;
        }
    }
    pass.raise();
    Ok(())
}

/// Looks at the stripe of an address, which is not held by the attempt. Where it has a version over the bound, the bound moves first.
pub(crate) fn look_free<T: Story>(
    pass: &mut Pass,
    shared: &Shared<T>,
    own: &BTreeSet<u64>,
    reads: &[u64],
    address: u64,
) -> Result<u64, Conflict>
    requires table { IsOf shared.now.table.shared.table_id pass.old }
    requires heap { (address < shared.now.words) × All (λ a. a < shared.now.words) reads.now }
    requires settled { IsSettled pass.old }
    requires ready { ((book pass.old).face.stage ≡ Unticked) × ((book pass.old).live ≡ true) }
    requires reads { reverse reads.now ≡ keys (book pass.old).reads }
    requires even { (book pass.old).bound ≡ (book pass.old).seen }
    requires own { Tells own.now address (book pass.old) }
    ensures same { IsSame pass.old pass.new }
    ensures ok { IfOk result (λ w. (w % 2 ≡ 0) × (w ≤ 2 * (book pass.new).bound) × ((book pass.new).look ≡ Saw (address % 4096) (w / 2)) × IsOn (book pass.old) (book pass.new)) }
    ensures settled { IfOk result (λ _. IsSettled pass.new) }
    ensures err { IfErr result (λ e. IsLost (book pass.old) (book pass.new) e) }
    ensures address { IfErr result (λ e. (e.address ≡ address) ⊎ In e.address reads.now) }
    ensures sole { (book pass.old).numbers ≡ 2 ^ 20 → IsOk result }
{
    let word = pass.look(shared, address, true)?;
    if word / 2 <= pass.bound() {
        return Ok(word);
    }
    extend(pass, shared, own, reads, address)?;
    pass.look(shared, address, false)
}

/// Takes the stripe of an address, which is not held by the attempt, and answers the word that it had.
pub(crate) fn take_free<T: Story>(
    pass: &mut Pass,
    shared: &Shared<T>,
    own: &BTreeSet<u64>,
    reads: &[u64],
    address: u64,
) -> Result<u64, Conflict>
    requires table { IsOf shared.now.table.shared.table_id pass.old }
    requires heap { (address < shared.now.words) × All (λ a. a < shared.now.words) reads.now }
    requires settled { IsSettled pass.old }
    requires ready { ((book pass.old).face.stage ≡ Unticked) × ((book pass.old).live ≡ true) }
    requires reads { reverse reads.now ≡ keys (book pass.old).reads }
    requires even { (book pass.old).bound ≡ (book pass.old).seen }
    requires own { Tells own.now address (book pass.old) }
    ensures same { IsSame pass.old pass.new }
    ensures ok { IfOk result (λ word. IsTaken address word (book pass.old) (book pass.new)) }
    ensures settled { IfOk result (λ _. IsSettled pass.new) }
    ensures err { IfErr result (λ e. IsLost (book pass.old) (book pass.new) e) }
    ensures address { IfErr result (λ e. (e.address ≡ address) ⊎ In e.address reads.now) }
    ensures sole { (book pass.old).numbers ≡ 2 ^ 20 → IsOk result }
{
    let word = look_free(pass, shared, own, reads, address)?;
    pass.take(shared, address, word)?;
    Ok(word)
}
