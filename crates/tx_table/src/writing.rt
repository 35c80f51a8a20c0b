//! The steps of an attempt that writes.
ghost use Rattle.std.specs.Prelude.{◌≡◌, ◌≢◌, ◌⊎◌, ◌≤◌, ◌<◌, ◌+◌, ◌*◌, ◌/◌, ◌%◌, ◌^◌, [], ℕ, Bool, true, false, IfOk, IfErr, IsOk};
ghost use mathlib.Core.Option.{some as Found, none as Missing};
ghost use Rattle.jmodel.specs.history.History.{Entry};
ghost use Rattle.tx_table.specs.Book.{Map, lookup, Has, In, Unticked, Ticked, Decided};
ghost use Rattle.tx_table.specs.Plays.{lost_at, took, passed, ticked_up, decided_up, wrote_back, released, gave_up, Updates, Aims, word_in};
ghost use Rattle.tx_table.specs.Passes.{book, IsOf, IsSame, IsSettled};
ghost use Rattle.tx_table.specs.Steps.{IsPast};

use crate::law::{
    Adding, Decide, Keeping, Naming, ReleaseNew, ReleaseOld, Take, Tick, Validate, Validating,
    WriteBack, Writing,
};
use crate::shared::{Pass, Shared, Story};
use std::marker::Brand;
use tx_core::Conflict;

impl Pass {
    /// How often this pass has moved the clock.
    pub fn ticks(&self) -> u64
        ensures { result ≡ (book self.now).ticks }
    {
        self.ticks
    }

    /// Takes the stripe of an address that the attempt means to write, where it still shows the free word of a look. Another
    /// word is a conflict, which ends the reading.
    pub fn take<T: Story>(&mut self, s: &Shared<T>, a: u64, word: u64) -> Result<(), Conflict>
        requires table { IsOf s.now.table.shared.table_id self.old }
        requires settled { IsSettled self.old }
        requires heap { a < s.now.words }
        requires ready { ((book self.old).face.stage ≡ Unticked) × ((book self.old).live ≡ true) × (word % 2 ≡ 0) }
        requires fits { (b x : ℕ) → In (b, x) (book self.old).reads → b % 4096 ≡ a % 4096 → word ≤ 2 * (book self.old).bound }
        ensures same { IsSame self.old self.new }
        ensures settled { IsSettled self.new }
        ensures ok { IfOk result (λ _. book self.new ≡ took (book self.old) (a % 4096) word a) }
        ensures err { IfErr result (λ e. (e.word ≢ word) × (book self.new ≡ lost_at (book self.old) a e.word)) }
        ensures past { Aims (book self.old).look (a % 4096) → word ≡ word_in (book self.old).look 0 → IfErr result (λ e. IsPast (book self.old).bound e.word) }
        ensures conflict { IfErr result (λ e. (e.address ≡ a) × (e.upto ≡ (book self.old).bound)) }
        ensures other { lookup (book self.old).face.held (a % 4096) ≡ Missing → IfErr result (λ e. e.word ≢ 2 * (book self.old).face.number + 1) }
        ensures sole { (book self.old).numbers ≡ 2 ^ 20 → lookup (book self.old).face.held (a % 4096) ≡ Missing → Aims (book self.old).look (a % 4096) → word ≡ word_in (book self.old).look 0 → IsOk result }
    {
        self.take_as::<T, Brand>(s, a, word)
    }

    fn take_as<T: Story, G: Naming>(
        &mut self,
        s: &Shared<T>,
        a: u64,
        word: u64,
    ) -> Result<(), Conflict>
        requires table { IsOf s.now.table.shared.table_id self.old }
        requires settled { IsSettled self.old }
        requires heap { a < s.now.words }
        requires told { G.address ≡ a }
        requires ready { ((book self.old).face.stage ≡ Unticked) × ((book self.old).live ≡ true) × (word % 2 ≡ 0) }
        requires fits { (b x : ℕ) → In (b, x) (book self.old).reads → b % 4096 ≡ a % 4096 → word ≤ 2 * (book self.old).bound }
        ensures same { IsSame self.old self.new }
        ensures settled { IsSettled self.new }
        ensures ok { IfOk result (λ _. book self.new ≡ took (book self.old) (a % 4096) word a) }
        ensures err { IfErr result (λ e. (e.word ≢ word) × (book self.new ≡ lost_at (book self.old) a e.word)) }
        ensures past { Aims (book self.old).look (a % 4096) → word ≡ word_in (book self.old).look 0 → IfErr result (λ e. IsPast (book self.old).bound e.word) }
        ensures conflict { IfErr result (λ e. (e.address ≡ a) × (e.upto ≡ (book self.old).bound)) }
        ensures other { lookup (book self.old).face.held (a % 4096) ≡ Missing → IfErr result (λ e. e.word ≢ 2 * (book self.old).face.number + 1) }
        ensures sole { (book self.old).numbers ≡ 2 ^ 20 → lookup (book self.old).face.held (a % 4096) ≡ Missing → Aims (book self.old).look (a % 4096) → word ≡ word_in (book self.old).look 0 → IsOk result }
    {
        let stripe = (a % 4096) as usize;
        let own = 2 * self.number + 1;
        let found = s
            .table
            .shared
            .compare_exchange::<Take<G>>(&mut self.seat, stripe + 1, word, own);
        if found != word {
            return Err(self.conflict(a, found));
        }
        Ok(())
    }

    /// Moves the clock by one and answers its new value, the attempt's tick. The writes are for contracts alone.
    pub fn tick<T: Story>(&mut self, s: &Shared<T>) -> u64
        ghost due: { Map ℕ }
        requires table { IsOf s.now.table.shared.table_id self.old }
        requires settled { IsSettled self.old }
        requires ready { ((book self.old).face.stage ≡ Unticked) × ((book self.old).live ≡ true) × ((book self.old).ticks < 2 ^ 40) }
        requires held { (b : ℕ) → Has due b → Has (book self.old).face.held (b % 4096) }
        requires due { (i y : ℕ) → lookup (book self.old).face.held i ≡ Found y → (b : ℕ) × (b % 4096 ≡ i) × Has due b }
        ensures same { IsSame self.old self.new }
        ensures settled { IsSettled self.new }
        ensures book { book self.new ≡ ticked_up (book self.old) result due }
        ensures later { (book self.old).seen < result }
    {
        self.tick_as::<T, Brand>(s)
    }

    fn tick_as<T: Story, G: Writing>(&mut self, s: &Shared<T>) -> u64
        requires table { IsOf s.now.table.shared.table_id self.old }
        requires settled { IsSettled self.old }
        requires ready { ((book self.old).face.stage ≡ Unticked) × ((book self.old).live ≡ true) × ((book self.old).ticks < 2 ^ 40) }
        requires held { (b : ℕ) → Has G.due b → Has (book self.old).face.held (b % 4096) }
        requires due { (i y : ℕ) → lookup (book self.old).face.held i ≡ Found y → (b : ℕ) × (b % 4096 ≡ i) × Has G.due b }
        ensures same { IsSame self.old self.new }
        ensures settled { IsSettled self.new }
        ensures book { book self.new ≡ ticked_up (book self.old) result G.due }
        ensures later { (book self.old).seen < result }
    {
        self.ticks += 1;
        self.tick = s.table.shared.fetch_add::<Tick<G>>(&mut self.seat, 0, 1) + 1;
        self.goal = self.tick;
        self.tick
    }

    /// Stores the first of the writes, which decides the attempt: its entry, which contracts alone see, is added.
    pub fn decide<T: Story>(&mut self, s: &Shared<T>, a: u64, v: u64)
        ghost entry: { Entry }
        requires table { IsOf s.now.table.shared.table_id self.old }
        requires heap { a < s.now.words }
        requires ready { ((book self.old).face.stage ≡ Ticked) × ((book self.old).live ≡ true) × (lookup (book self.old).face.due a ≡ Found v) }
        requires safe { (b y : ℕ) → In (b, y) (book self.old).reads → In (b % 4096) (book self.old).checked ⊎ Has (book self.old).face.held (b % 4096) }
        requires entry { Updates (T.story s.now.table.shared.key.story.value) (book self.old) entry }
        ensures same { IsSame self.old self.new }
        ensures book { book self.new ≡ decided_up (book self.old) entry a }
    {
        self.decide_as::<T, Brand>(s, a, v);
    }

    fn decide_as<T: Story, G: Adding>(&mut self, s: &Shared<T>, a: u64, v: u64)
        requires table { IsOf s.now.table.shared.table_id self.old }
        requires heap { a < s.now.words }
        requires ready { ((book self.old).face.stage ≡ Ticked) × ((book self.old).live ≡ true) × (lookup (book self.old).face.due a ≡ Found v) }
        requires safe { (b y : ℕ) → In (b, y) (book self.old).reads → In (b % 4096) (book self.old).checked ⊎ Has (book self.old).face.held (b % 4096) }
        requires entry { Updates (T.story s.now.table.shared.key.story.value) (book self.old) G.entry }
        ensures same { IsSame self.old self.new }
        ensures book { book self.new ≡ decided_up (book self.old) G.entry a }
    {
        s.table
            .shared
            .store::<Decide<G>>(&mut self.seat, a as usize + 4097, v);
    }

    /// Stores another of the writes of a decided attempt.
    pub fn write_back<T: Story>(&mut self, s: &Shared<T>, a: u64, v: u64)
        requires table { IsOf s.now.table.shared.table_id self.old }
        requires heap { a < s.now.words }
        requires ready { lookup (book self.old).face.left a ≡ Found v }
        ensures same { IsSame self.old self.new }
        ensures book { book self.new ≡ wrote_back (book self.old) a }
    {
        s.table
            .shared
            .store::<WriteBack>(&mut self.seat, a as usize + 4097, v);
    }

    /// Gives a stripe back with the tick as its version, once all is written.
    pub fn release_new<T: Story>(&mut self, s: &Shared<T>, stripe: u64)
        requires table { IsOf s.now.table.shared.table_id self.old }
        requires ready { (stripe < 4096) × ((book self.old).face.stage ≡ Decided) × ((b y : ℕ) → lookup (book self.old).face.left b ≡ Found y → ⊥) × Has (book self.old).face.held stripe }
        ensures same { IsSame self.old self.new }
        ensures book { book self.new ≡ released (book self.old) stripe }
    {
        s.table
            .shared
            .store::<ReleaseNew>(&mut self.seat, stripe as usize + 1, 2 * self.tick);
    }

    /// Gives a stripe back as it was, with its old word. Contracts say whether the attempt keeps its reads.
    pub fn release_old<T: Story>(&mut self, s: &Shared<T>, stripe: u64, word: u64)
        ghost kept: { Bool }
        requires table { IsOf s.now.table.shared.table_id self.old }
        requires ready { (stripe < 4096) × ((book self.old).face.stage ≢ Decided) × (lookup (book self.old).face.held stripe ≡ Found word) × (kept ≡ true → ((book self.old).live ≡ true) × ((book self.old).face.stage ≡ Unticked)) }
        ensures same { IsSame self.old self.new }
        ensures settled { IsSettled self.old → IsSettled self.new }
        ensures book { book self.new ≡ gave_up (book self.old) stripe kept }
    {
        self.release_old_as::<T, Brand>(s, stripe, word);
    }

    fn release_old_as<T: Story, G: Keeping>(&mut self, s: &Shared<T>, stripe: u64, word: u64)
        requires table { IsOf s.now.table.shared.table_id self.old }
        requires ready { (stripe < 4096) × ((book self.old).face.stage ≢ Decided) × (lookup (book self.old).face.held stripe ≡ Found word) × (G.kept ≡ true → ((book self.old).live ≡ true) × ((book self.old).face.stage ≡ Unticked)) }
        ensures same { IsSame self.old self.new }
        ensures settled { IsSettled self.old → IsSettled self.new }
        ensures book { book self.new ≡ gave_up (book self.old) stripe G.kept }
    {
        s.table
            .shared
            .store::<ReleaseOld<G>>(&mut self.seat, stripe as usize + 1, word);
    }
}
