//! The steps that validate reads: up to the tick of an attempt that commits, or up to the clock that an extension saw (LSA: Riegel, Felber, Fetzer,
//! DISC 2006, in this project's form). Here too are reads of stripes that the attempt holds.
ghost use Rattle.std.specs.Prelude.{◌≡◌, ◌≢◌, ◌⊎◌, ◌≤◌, ◌<◌, ◌+◌, ◌*◌, ◌%◌, ◌^◌, ℕ, Bool, true, false, IfOk, IfErr, IsOk};
ghost use mathlib.Core.Option.{some as Found, none as Missing};
ghost use Rattle.tx_table.specs.Book.{Book, Has, In, Unticked, lookup};
ghost use Rattle.tx_table.specs.Rule.{Snapshot};
ghost use Rattle.tx_table.specs.Plays.{extending, logged, lost_at, passed};
ghost use Rattle.tx_table.specs.Passes.{book, IsOf, IsSame, IsSettled};
ghost use Rattle.tx_table.specs.Steps.{IsPast};

use crate::law::{Checking, Extend, Extending, LoadOwn, Validate, Validating};
use crate::shared::{Pass, Shared, Story};
use std::marker::Brand;
use tx_core::Conflict;

impl Pass {
    /// Up to which value of the clock the attempt's reads hold. No event.
    pub fn bound(&self) -> u64
        requires settled { IsSettled self.now }
        ensures { result ≡ (book self.now).bound }
    {
        self.bound
    }

    /// Begins to extend the bound to the answer, the clock's value. Each read of a stripe that the attempt does not hold is then to be validated; the
    /// bound moves with the last of them. It moves at once where contracts say that the whole of the reads lies on stripes that are held.
    pub fn extend<T: Story>(&mut self, s: &Shared<T>) -> u64
        ghost whole: { Bool }
        requires table { IsOf s.now.table.shared.table_id self.old }
        requires settled { IsSettled self.old }
        requires ready { ((book self.old).face.stage ≡ Unticked) × ((book self.old).live ≡ true) }
        requires whole { whole ≡ true → (a x : ℕ) → In (a, x) (book self.old).reads → Has (book self.old).face.held (a % 4096) }
        ensures same { IsSame self.old self.new }
        ensures book { book self.new ≡ extending (book self.old) whole result }
        ensures later { (book self.old).seen ≤ result }
        ensures bound { self.new.bound ≡ self.old.bound }
    {
        self.extend_as::<T, Brand>(s)
    }

    fn extend_as<T: Story, G: Extending>(&mut self, s: &Shared<T>) -> u64
        requires table { IsOf s.now.table.shared.table_id self.old }
        requires ready { ((book self.old).face.stage ≡ Unticked) × ((book self.old).live ≡ true) }
        requires whole { G.whole ≡ true → (a x : ℕ) → In (a, x) (book self.old).reads → Has (book self.old).face.held (a % 4096) }
        ensures same { IsSame self.old self.new }
        ensures book { book self.new ≡ extending (book self.old) G.whole result }
        ensures later { (book self.old).seen ≤ result }
        ensures bound { self.new.bound ≡ self.old.bound }
    {
        self.goal = s.table.shared.load::<Extend<G>>(&mut self.seat, 0);
        self.goal
    }

    /// Steps with the bound to which the extension moved that of the book, once each read was validated. No event.
    pub fn raise(&mut self)
        requires validated { (book self.old).goal ≡ (book self.old).bound }
        ensures same { IsSame self.old self.new }
        ensures book { book self.new ≡ book self.old }
        ensures settled { IsSettled self.new }
    {
        self.bound = self.goal;
    }

    /// Looks once more at the stripe of an address that was read. A stripe that is held, or whose version is over the bound, is
    /// a conflict, which ends the reading. Contracts say whether it is the last one of an extension. Then the bound moves.
    pub fn validate<T: Story>(&mut self, s: &Shared<T>, a: u64) -> Result<(), Conflict>
        ghost last: { Bool }
        requires table { IsOf s.now.table.shared.table_id self.old }
        requires heap { a < s.now.words }
        requires bound { self.old.bound ≡ (book self.old).bound }
        requires live { (book self.old).live ≡ true }
        requires last { last ≡ true → ((book self.old).face.stage ≡ Unticked) × ((b x : ℕ) → In (b, x) (book self.old).reads → (b % 4096 ≡ a % 4096) ⊎ (In (b % 4096) (book self.old).checked ⊎ Has (book self.old).face.held (b % 4096))) }
        ensures same { IsSame self.old self.new }
        ensures ok { IfOk result (λ _. book self.new ≡ passed (book self.old) (a % 4096) last) }
        ensures err { IfErr result (λ e. IsPast (book self.old).bound e.word × (book self.new ≡ lost_at (book self.old) a e.word)) }
        ensures conflict { IfErr result (λ e. (e.address ≡ a) × (e.upto ≡ (book self.old).bound)) }
        ensures other { lookup (book self.old).face.held (a % 4096) ≡ Missing → IfErr result (λ e. e.word ≢ 2 * (book self.old).face.number + 1) }
        ensures sole { (book self.old).numbers ≡ 2 ^ 20 → lookup (book self.old).face.held (a % 4096) ≡ Missing → IsOk result }
        ensures settled { last ≡ false → IsSettled self.old → IsSettled self.new }
        ensures still { self.new.bound ≡ self.old.bound }
    {
        self.validate_as::<T, Brand>(s, a)
    }

    fn validate_as<T: Story, G: Validating>(
        &mut self,
        s: &Shared<T>,
        a: u64,
    ) -> Result<(), Conflict>
        requires table { IsOf s.now.table.shared.table_id self.old }
        requires heap { a < s.now.words }
        requires told { G.address ≡ a }
        requires bound { self.old.bound ≡ (book self.old).bound }
        requires live { (book self.old).live ≡ true }
        requires last { G.last ≡ true → ((book self.old).face.stage ≡ Unticked) × ((b x : ℕ) → In (b, x) (book self.old).reads → (b % 4096 ≡ a % 4096) ⊎ (In (b % 4096) (book self.old).checked ⊎ Has (book self.old).face.held (b % 4096))) }
        ensures same { IsSame self.old self.new }
        ensures ok { IfOk result (λ _. book self.new ≡ passed (book self.old) (a % 4096) G.last) }
        ensures err { IfErr result (λ e. IsPast (book self.old).bound e.word × (book self.new ≡ lost_at (book self.old) a e.word)) }
        ensures conflict { IfErr result (λ e. (e.address ≡ a) × (e.upto ≡ (book self.old).bound)) }
        ensures other { lookup (book self.old).face.held (a % 4096) ≡ Missing → IfErr result (λ e. e.word ≢ 2 * (book self.old).face.number + 1) }
        ensures sole { (book self.old).numbers ≡ 2 ^ 20 → lookup (book self.old).face.held (a % 4096) ≡ Missing → IsOk result }
        ensures settled { G.last ≡ false → IsSettled self.old → IsSettled self.new }
        ensures still { self.new.bound ≡ self.old.bound }
    {
        let stripe = (a % 4096) as usize;
        let word = s
            .table
            .shared
            .load::<Validate<G>>(&mut self.seat, stripe + 1);
        if word % 2 == 1 || word / 2 > self.bound {
            return Err(self.conflict(a, word));
        }
        Ok(())
    }

    /// Loads an address on a stripe that the attempt holds, with an old version up to the bound, and logs the read. The stripe is not looked at.
    pub fn load_own<T: Story>(&mut self, s: &Shared<T>, a: u64) -> u64
        requires table { IsOf s.now.table.shared.table_id self.old }
        requires settled { IsSettled self.old }
        requires heap { a < s.now.words }
        requires own { ((book self.old).live ≡ true) × ((book self.old).face.stage ≡ Unticked) × ((w : ℕ) × (lookup (book self.old).face.held (a % 4096) ≡ Found w) × (w ≤ 2 * (book self.old).bound)) }
        ensures same { IsSame self.old self.new }
        ensures settled { IsSettled self.new }
        ensures book { book self.new ≡ logged (book self.old) a result }
        ensures snapshot { Snapshot (T.story s.now.table.shared.key.story.value) (book self.new) }
    {
        self.load_own_as::<T, Brand>(s, a)
    }

    fn load_own_as<T: Story, G: Checking>(&mut self, s: &Shared<T>, a: u64) -> u64
        requires table { IsOf s.now.table.shared.table_id self.old }
        requires settled { IsSettled self.old }
        requires heap { a < s.now.words }
        requires own { ((book self.old).live ≡ true) × ((book self.old).face.stage ≡ Unticked) × ((w : ℕ) × (lookup (book self.old).face.held (a % 4096) ≡ Found w) × (w ≤ 2 * (book self.old).bound)) }
        requires tells { (b : Book) → Snapshot (T.story s.now.table.shared.key.story.value) b → G.says b }
        ensures same { IsSame self.old self.new }
        ensures settled { IsSettled self.new }
        ensures book { book self.new ≡ logged (book self.old) a result }
        ensures says { G.says (book self.new) }
    {
        s.table
            .shared
            .load::<LoadOwn<G>>(&mut self.seat, a as usize + 4097)
    }
}
