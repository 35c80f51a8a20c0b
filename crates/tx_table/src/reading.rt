//! The steps of an attempt that reads.
ghost use Rattle.std.specs.Prelude.{◌≡◌, ◌≢◌, ◌⊎◌, ◌≤◌, ◌<◌, ◌+◌, ◌*◌, ◌^◌, ◌/◌, ◌%◌, [], ℕ, true, false, IfOk, IfErr, IsOk};
ghost use Rattle.jmodel.specs.history.History.{Call, Entry};
ghost use mathlib.Core.Option.{none as Missing};
ghost use Rattle.tx_table.specs.Book.{Book, lookup, Unticked, Saw};
ghost use Rattle.tx_table.specs.Rule.{Snapshot};
ghost use Rattle.tx_table.specs.Plays.{begun, lost_at, loaded_at, logged, value_in, finished, Aims, IsLoaded, Reads, word_in};
ghost use Rattle.tx_table.specs.Passes.{book, IsOf, IsSame, IsSettled};
ghost use Rattle.tx_table.specs.Steps.{IsPast};

use crate::law::{Adding, Begin, Beginning, Checking, Finish, Load, Look, Looking, Recheck};
use crate::shared::{Pass, Shared, Story};
use jmodel::Stamp;
use std::marker::Brand;
use tx_core::Conflict;

impl Pass {
    /// Begins an attempt at a call, which contracts alone see. Its reads are to hold up to the answer, the clock's value.
    pub fn begin<T: Story>(&mut self, s: &Shared<T>) -> u64
        ghost call: { Call }
        requires table { IsOf s.now.table.shared.table_id self.old }
        requires free { ((book self.old).face.held ≡ []) × ((book self.old).face.stage ≡ Unticked) }
        ensures same { IsSame self.old self.new }
        ensures settled { IsSettled self.new }
        ensures book { book self.new ≡ begun (book self.old) call result }
        ensures later { (book self.old).seen ≤ result }
        ensures snapshot { Snapshot (T.story s.now.table.shared.key.story.value) (book self.new) }
    {
        self.begin_as::<T, Brand>(s)
    }

    fn begin_as<T: Story, G: Beginning>(&mut self, s: &Shared<T>) -> u64
        requires table { IsOf s.now.table.shared.table_id self.old }
        requires free { ((book self.old).face.held ≡ []) × ((book self.old).face.stage ≡ Unticked) }
        requires tells { (b : Book) → Snapshot (T.story s.now.table.shared.key.story.value) b → G.says b }
        ensures same { IsSame self.old self.new }
        ensures settled { IsSettled self.new }
        ensures book { book self.new ≡ begun (book self.old) G.call result }
        ensures later { (book self.old).seen ≤ result }
        ensures says { G.says (book self.new) }
    {
        self.bound = s.table.shared.load::<Begin<G>>(&mut self.seat, 0);
        self.goal = self.bound;
        self.bound
    }

    /// Looks at the stripe of an address and answers its word. A stripe that is held is a conflict, and so is a version over
    /// the bound, unless it may be newer. A conflict ends the reading, and the book keeps it. A pass that holds every number
    /// meets none at a stripe that it does not hold.
    pub fn look<T: Story>(&mut self, s: &Shared<T>, a: u64, newer: bool) -> Result<u64, Conflict>
        requires table { IsOf s.now.table.shared.table_id self.old }
        requires settled { IsSettled self.old }
        requires heap { a < s.now.words }
        requires live { (book self.old).live ≡ true }
        ensures same { IsSame self.old self.new }
        ensures settled { IsSettled self.new }
        ensures ok { IfOk result (λ w. (w % 2 ≡ 0) × ((newer ≡ true) ⊎ (w ≤ 2 * (book self.old).bound)) × (book self.new ≡ record (book self.old) { look = Saw (a % 4096) (w / 2) })) }
        ensures err { IfErr result (λ e. ((e.word % 2 ≢ 0) ⊎ ((newer ≡ false) × (2 * (book self.old).bound < e.word))) × (book self.new ≡ lost_at (book self.old) a e.word)) }
        ensures conflict { IfErr result (λ e. (e.address ≡ a) × (e.upto ≡ (book self.old).bound)) }
        ensures other { lookup (book self.old).face.held (a % 4096) ≡ Missing → IfErr result (λ e. e.word ≢ 2 * (book self.old).face.number + 1) }
        ensures sole { (book self.old).numbers ≡ 2 ^ 20 → lookup (book self.old).face.held (a % 4096) ≡ Missing → IsOk result }
    {
        self.look_as::<T, Brand>(s, a, newer)
    }

    fn look_as<T: Story, G: Looking>(
        &mut self,
        s: &Shared<T>,
        a: u64,
        newer: bool,
    ) -> Result<u64, Conflict>
        requires table { IsOf s.now.table.shared.table_id self.old }
        requires settled { IsSettled self.old }
        requires heap { a < s.now.words }
        requires told { (G.address ≡ a) × (G.newer ≡ newer) }
        requires live { (book self.old).live ≡ true }
        ensures same { IsSame self.old self.new }
        ensures settled { IsSettled self.new }
        ensures ok { IfOk result (λ w. (w % 2 ≡ 0) × ((newer ≡ true) ⊎ (w ≤ 2 * (book self.old).bound)) × (book self.new ≡ record (book self.old) { look = Saw (a % 4096) (w / 2) })) }
        ensures err { IfErr result (λ e. ((e.word % 2 ≢ 0) ⊎ ((newer ≡ false) × (2 * (book self.old).bound < e.word))) × (book self.new ≡ lost_at (book self.old) a e.word)) }
        ensures conflict { IfErr result (λ e. (e.address ≡ a) × (e.upto ≡ (book self.old).bound)) }
        ensures other { lookup (book self.old).face.held (a % 4096) ≡ Missing → IfErr result (λ e. e.word ≢ 2 * (book self.old).face.number + 1) }
        ensures sole { (book self.old).numbers ≡ 2 ^ 20 → lookup (book self.old).face.held (a % 4096) ≡ Missing → IsOk result }
    {
        let stripe = (a % 4096) as usize;
        let word = s.table.shared.load::<Look<G>>(&mut self.seat, stripe + 1);
        self.word = word;
        if word % 2 == 1 || !newer && word / 2 > self.bound {
            return Err(self.conflict(a, word));
        }
        Ok(word)
    }

    /// Loads an address at whose stripe a look is in flight.
    pub fn load<T: Story>(&mut self, s: &Shared<T>, a: u64) -> u64
        requires table { IsOf s.now.table.shared.table_id self.old }
        requires settled { IsSettled self.old }
        requires heap { a < s.now.words }
        requires looked { ((book self.old).live ≡ true) × Aims (book self.old).look (a % 4096) }
        ensures same { IsSame self.old self.new }
        ensures settled { IsSettled self.new }
        ensures book { book self.new ≡ loaded_at (book self.old).look (book self.old) a result }
    {
        s.table
            .shared
            .load::<Load>(&mut self.seat, a as usize + 4097)
    }

    /// Looks again at the stripe of an address that was loaded, and logs the read. A word other than the first look's is a
    /// conflict, which ends the reading; it is held, or has a version over the bound.
    pub fn recheck<T: Story>(&mut self, s: &Shared<T>, a: u64) -> Result<(), Conflict>
        requires table { IsOf s.now.table.shared.table_id self.old }
        requires settled { IsSettled self.old }
        requires heap { a < s.now.words }
        requires looked { ((book self.old).live ≡ true) × ((book self.old).face.stage ≡ Unticked) × IsLoaded (book self.old).look a (book self.old).bound }
        ensures same { IsSame self.old self.new }
        ensures settled { IsSettled self.new }
        ensures ok { IfOk result (λ _. book self.new ≡ logged (book self.old) a (value_in (book self.old).look)) }
        ensures snapshot { IfOk result (λ _. Snapshot (T.story s.now.table.shared.key.story.value) (book self.new)) }
        ensures err { IfErr result (λ e. (e.word ≢ word_in (book self.old).look 0) × (book self.new ≡ lost_at (book self.old) a e.word)) }
        ensures past { IfErr result (λ e. IsPast (book self.old).bound e.word) }
        ensures conflict { IfErr result (λ e. (e.address ≡ a) × (e.upto ≡ (book self.old).bound)) }
        ensures other { lookup (book self.old).face.held (a % 4096) ≡ Missing → IfErr result (λ e. e.word ≢ 2 * (book self.old).face.number + 1) }
        ensures sole { (book self.old).numbers ≡ 2 ^ 20 → lookup (book self.old).face.held (a % 4096) ≡ Missing → IsOk result }
    {
        self.recheck_as::<T, Brand>(s, a)
    }

    fn recheck_as<T: Story, G: Checking>(&mut self, s: &Shared<T>, a: u64) -> Result<(), Conflict>
        requires table { IsOf s.now.table.shared.table_id self.old }
        requires settled { IsSettled self.old }
        requires heap { a < s.now.words }
        requires looked { ((book self.old).live ≡ true) × ((book self.old).face.stage ≡ Unticked) × IsLoaded (book self.old).look a (book self.old).bound }
        requires tells { (b : Book) → Snapshot (T.story s.now.table.shared.key.story.value) b → G.says b }
        ensures same { IsSame self.old self.new }
        ensures settled { IsSettled self.new }
        ensures ok { IfOk result (λ _. book self.new ≡ logged (book self.old) a (value_in (book self.old).look)) }
        ensures says { IfOk result (λ _. G.says (book self.new)) }
        ensures err { IfErr result (λ e. (e.word ≢ word_in (book self.old).look 0) × (book self.new ≡ lost_at (book self.old) a e.word)) }
        ensures past { IfErr result (λ e. IsPast (book self.old).bound e.word) }
        ensures conflict { IfErr result (λ e. (e.address ≡ a) × (e.upto ≡ (book self.old).bound)) }
        ensures other { lookup (book self.old).face.held (a % 4096) ≡ Missing → IfErr result (λ e. e.word ≢ 2 * (book self.old).face.number + 1) }
        ensures sole { (book self.old).numbers ≡ 2 ^ 20 → lookup (book self.old).face.held (a % 4096) ≡ Missing → IsOk result }
    {
        let stripe = (a % 4096) as usize;
        let word = s
            .table
            .shared
            .load::<Recheck<G>>(&mut self.seat, stripe + 1);
        if word != self.word {
            return Err(self.conflict(a, word));
        }
        Ok(())
    }

    /// Ends a reading attempt and adds its entry, which contracts alone see.
    pub fn finish<T: Story>(&mut self, s: &Shared<T>) -> Stamp
        ghost entry: { Entry }
        requires table { IsOf s.now.table.shared.table_id self.old }
        requires settled { IsSettled self.old }
        requires ready { ((book self.old).live ≡ true) × ((book self.old).face.stage ≡ Unticked) }
        requires entry { Reads (T.story s.now.table.shared.key.story.value) (book self.old) entry }
        ensures same { IsSame self.old self.new }
        ensures settled { IsSettled self.new }
        ensures book { book self.new ≡ finished (book self.old) entry }
        ensures stamp { result ≡ entry.stamp }
    {
        self.finish_as::<T, Brand>(s)
    }

    fn finish_as<T: Story, G: Adding>(&mut self, s: &Shared<T>) -> Stamp
        requires table { IsOf s.now.table.shared.table_id self.old }
        requires settled { IsSettled self.old }
        requires ready { ((book self.old).live ≡ true) × ((book self.old).face.stage ≡ Unticked) }
        requires entry { Reads (T.story s.now.table.shared.key.story.value) (book self.old) G.entry }
        ensures same { IsSame self.old self.new }
        ensures settled { IsSettled self.new }
        ensures book { book self.new ≡ finished (book self.old) G.entry }
        ensures stamp { result ≡ G.entry.stamp }
    {
        s.table.shared.load::<Finish<G>>(&mut self.seat, 0);
        Stamp {
            at: self.bound,
            update: false,
        }
    }

    /// The conflict at an address whose stripe showed a word.
    pub(crate) fn conflict(&self, a: u64, word: u64) -> Conflict
        ensures { (result.address ≡ a) × (result.word ≡ word) × (result.upto ≡ self.now.bound) }
    {
        Conflict {
            address: a,
            word,
            upto: self.bound,
        }
    }
}
