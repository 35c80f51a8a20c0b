//! The steps of a commit: the stripes of what was written are taken, and given back.
ghost use Rattle.std.specs.Prelude.{◌≡◌, ◌≢◌, ◌<◌, ◌+◌, ◌*◌, ◌%◌, ◌^◌, [], ◌∷◌, ℕ, List, true, All, map, IfOk, IfErr, IsOk};
ghost use Rattle.std.specs.List.Sorted.{IsStrictlyIncreasing};
ghost use mathlib.Core.Option.{some as Found, none as Missing};
ghost use Rattle.tx_table.specs.Book.{Unticked, Decided, In, lookup};
ghost use Rattle.tx_table.specs.Plays.{lost_at, took};
ghost use Rattle.tx_table.specs.Passes.{book, IsOf, IsSame, IsSettled};
ghost use Rattle.tx_table.specs.Steps.{IsPast};
ghost use Rattle.tl2.specs.Conflicts.{lost_to};
ghost use Rattle.tl2.specs.Commits.{Holds, IsChecked, IsRest, IsTaking, MeansOnly};
ghost use Rattle.tl2.specs.Plans.{addresses_of, number_of};

use crate::plan::Stripe;
use tx_core::Conflict;
use tx_table::{Pass, Shared, Story};

/// Takes the stripe of an address that was written, and answers the word that it had. A stripe that is held, or of whose
/// addresses one was read and whose version is over the bound, is a conflict.
fn take_one<T: Story>(
    pass: &mut Pass,
    shared: &Shared<T>,
    address: u64,
    was_read: bool,
) -> Result<u64, Conflict>
    requires table { IsOf shared.now.table.shared.table_id pass.old }
    requires heap { address < shared.now.words }
    requires ready { ((book pass.old).face.stage ≡ Unticked) × ((book pass.old).live ≡ true) }
    requires read { (b x : ℕ) → In (b, x) (book pass.old).reads → b % 4096 ≡ address % 4096 → was_read ≡ true }
    requires settled { IsSettled pass.old }
    ensures same { IsSame pass.old pass.new }
    ensures settled { IsSettled pass.new }
    ensures ok { IfOk result (λ word. book pass.new ≡ took (book pass.old) (address % 4096) word address) }
    ensures err { IfErr result (λ e. book pass.new ≡ lost_at (book pass.old) address e.word) }
    ensures conflict { IfErr result (λ e. (e.address ≡ address) × (e.upto ≡ (book pass.old).bound) × IsPast (book pass.old).bound e.word) }
    ensures other { lookup (book pass.old).face.held (address % 4096) ≡ Missing → IfErr result (λ e. e.word ≢ 2 * (book pass.old).face.number + 1) }
    ensures sole { (book pass.old).numbers ≡ 2 ^ 20 → lookup (book pass.old).face.held (address % 4096) ≡ Missing → IsOk result }
{
    let word = pass.look(shared, address, !was_read)?;
    pass.take(shared, address, word)?;
    Ok(word)
}

/// Gives the stripes back that are held, each with the word that it had.
pub fn give_back<T: Story>(pass: &mut Pass, shared: &Shared<T>, held: &[Stripe])
    requires table { IsOf shared.now.table.shared.table_id pass.old }
    requires held { Holds held.now (book pass.old) }
    requires stage { (book pass.old).face.stage ≢ Decided }
    ensures same { IsSame pass.old pass.new }
    ensures free { (book pass.new).face.held ≡ [] }
    ensures over { (book pass.old).face.held ≢ [] → (book pass.new).face.stage ≡ Unticked }
    ensures rest { IsRest [] 0 (book pass.old) (book pass.new) }
    ensures wants { (book pass.new).wants ≡ (book pass.old).wants }
{
    for stripe in held {
        pass.release_old(shared, stripe.number(), stripe.word);
    }
}

/// Takes these stripes, which ascend, in their order, and keeps the word that each had. After a conflict all are given back.
pub(crate) fn take_all<T: Story>(
    pass: &mut Pass,
    shared: &Shared<T>,
    stripes: &mut [Stripe],
) -> Result<(), Conflict>
    requires table { IsOf shared.now.table.shared.table_id pass.old }
    requires ascending { IsStrictlyIncreasing (map (λ a. a % 4096) (addresses_of stripes.old)) }
    requires heap { All (λ a. a < shared.now.words) (addresses_of stripes.old) }
    requires ready { ((book pass.old).face.held ≡ []) × ((book pass.old).face.stage ≡ Unticked) × ((book pass.old).live ≡ true) }
    requires read { (b x : ℕ) → In (b, x) (book pass.old).reads → All (λ s. b % 4096 ≡ number_of s → s.was_read ≡ true) stripes.old }
    requires settled { IsSettled pass.old }
    ensures same { IsSame pass.old pass.new }
    ensures settled { IfOk result (λ _. IsSettled pass.new) }
    ensures ok { IfOk result (λ _. IsTaking (book pass.old) (book pass.new) × Holds stripes.new (book pass.new) × (addresses_of stripes.new ≡ addresses_of stripes.old)) }
    ensures err { IfErr result (λ e. IsRest (lost_to (book pass.old) e ∷ []) 0 (book pass.old) (book pass.new) × ((book pass.new).face.held ≡ []) × ((book pass.new).face.stage ≡ Unticked)) }
    ensures conflict { IfErr result (λ e. (e.upto ≡ (book pass.old).bound) × IsPast (book pass.old).bound e.word × In e.address (addresses_of stripes.old)) }
    ensures means { MeansOnly (λ a. In a (addresses_of stripes.old)) (book pass.old) (book pass.new) }
    ensures other { IfErr result (λ e. e.word ≢ 2 * (book pass.old).face.number + 1) }
    ensures sole { (book pass.old).numbers ≡ 2 ^ 20 → IsOk result }
{
    for i in 0..stripes.len() {
        match take_one(pass, shared, stripes[i].address, stripes[i].was_read) {
            Ok(word) => stripes[i].word = word,
            Err(conflict) => {
                give_back(pass, shared, &stripes[..i]);
                return Err(conflict);
            }
        }
    }
    Ok(())
}

/// Looks once more at the stripes of these addresses that were read. One that is held, or whose version is over the bound, is a
/// conflict.
pub(crate) fn validate_all<T: Story>(
    pass: &mut Pass,
    shared: &Shared<T>,
    addresses: &[u64],
) -> Result<(), Conflict>
    requires table { IsOf shared.now.table.shared.table_id pass.old }
    requires heap { All (λ a. a < shared.now.words) addresses.now }
    requires live { (book pass.old).live ≡ true }
    requires settled { IsSettled pass.old }
    ensures same { IsSame pass.old pass.new }
    ensures ok { IfOk result (λ _. IsChecked addresses.now (book pass.old) (book pass.new)) }
    ensures err { IfErr result (λ e. (checked : List ℕ) × (book pass.new ≡ lost_at (record (book pass.old) { checked = checked }) e.address e.word)) }
    ensures conflict { IfErr result (λ e. (e.upto ≡ (book pass.old).bound) × IsPast (book pass.old).bound e.word × In e.address addresses.now) }
    ensures other { All (λ a. lookup (book pass.old).face.held (a % 4096) ≡ Missing) addresses.now → IfErr result (λ e. e.word ≢ 2 * (book pass.old).face.number + 1) }
    ensures sole { (book pass.old).numbers ≡ 2 ^ 20 → All (λ a. lookup (book pass.old).face.held (a % 4096) ≡ Missing) addresses.now → IsOk result }
{
    for address in addresses {
        pass.validate(shared, *address)?;
    }
    Ok(())
}

/// Gives the stripes back that are held, with the tick as their version, once all is written.
pub fn release_all<T: Story>(pass: &mut Pass, shared: &Shared<T>, held: &[Stripe])
    requires table { IsOf shared.now.table.shared.table_id pass.old }
    requires held { Holds held.now (book pass.old) }
    requires any { (book pass.old).face.held ≢ [] }
    requires stage { (book pass.old).face.stage ≡ Decided }
    requires left { (b x : ℕ) → lookup (book pass.old).face.left b ≡ Found x → ⊥ }
    ensures same { IsSame pass.old pass.new }
    ensures free { ((book pass.new).face.held ≡ []) × ((book pass.new).face.stage ≡ Unticked) }
    ensures rest { IsRest [] 0 (book pass.old) (book pass.new) }
    ensures wants { (book pass.new).wants ≡ (book pass.old).wants }
{
    for stripe in held {
        pass.release_new(shared, stripe.number());
    }
}
