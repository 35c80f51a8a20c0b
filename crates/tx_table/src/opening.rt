//! The table's opening and its close, and how passes are split and joined.
ghost use Rattle.std.specs.Prelude.{◌≡◌, ℕ, Bool, ◌+◌, ◌^◌, ◌<◌, ◌≤◌, [], length, slice_index, IfOk, IfErr};
ghost use Rattle.std.specs.Slots.{slots_items, slots_len, IsFull};
ghost use Rattle.tx_table.specs.Book.{Unticked};
ghost use Rattle.tx_table.specs.Rule.{Ends};
ghost use Rattle.tx_table.specs.Plays.{first_book, stays_here, goes_out, joined};
ghost use Rattle.tx_table.specs.Passes.{book, IsOf, IsSame};

use crate::law::{Merge, Part, Parting};
use crate::shared::{Extent, Pass, Shared, Story};
use atomic_table::{Closed, Table};
use jmodel::NoMemory;
use std::alloc::Global;
use std::marker::Brand;
use std::snapshot::Snapshot;

impl<T: Story> Shared<T> {
    /// Opens a table over the words of a heap. The clock is 0, every stripe is free with version 0, and the pass holds every
    /// number and every region.
    pub fn open(
        alloc: Global,
        words: Vec<u64>,
        story: Snapshot<T>,
    ) -> Result<(Shared<T>, Pass), NoMemory>
        requires words { words.items ≡ (T.story story.value).words }
        requires size { length words.items + 4097 < 2 ^ 32 }
        ensures { IfOk result (λ r. IsOf r.0.table.shared.table_id r.1 × (book r.1 ≡ first_book (T.story story.value)) × (r.0.table.shared.key.story.value ≡ story.value)) }
    {
        let mut all = Vec::from_elem(alloc, 0u64, 4097)?;
        all.extend_from_slice(words.as_slice())?;
        let extent = Extent {
            story,
            words: words.len() as u64,
        };
        let (table, seat) = Table::of_words(alloc, all.as_slice(), &extent)?;
        let pass = Pass {
            seat,
            bound: 0,
            goal: 0,
            number: 0,
            tick: 0,
            fresh: 1_048_575,
            ticks: 0,
            word: 0,
        };
        let words = extent.words;
        Ok((Shared { table, words }, pass))
    }

    /// Closes a table with the pass that holds every number, and gives the heap's words.
    pub fn close(self, alloc: Global, pass: Pass) -> Result<Vec<u64>, (Shared<T>, Pass, NoMemory)>
        requires table { IsOf self.table.shared.table_id pass }
        requires gathered { ((book pass).numbers ≡ 2 ^ 20) × ((book pass).face.held ≡ []) }
        ensures ok { IfOk result (λ words. Ends (T.story self.table.shared.key.story.value) (book pass) words.items) }
        ensures len { IfOk result (λ words. length words.items ≡ self.words) }
        ensures err { IfErr result (λ e. (e.0 ≡ self) × (e.1 ≡ pass)) }
    {
        let Ok(mut heap) = Vec::from_elem(alloc, 0u64, self.words as usize) else {
            return Err((self, pass, NoMemory));
        };
        let Shared { table, words: _ } = self;
        let Pass {
            seat,
            bound: _,
            goal: _,
            number: _,
            tick: _,
            fresh: _,
            ticks: _,
            word: _,
        } = pass;
        let closed = table.close_with(seat);
        copy_heap(&closed, &mut heap);
        closed.free();
        Ok(heap)
    }
}

fn copy_heap(closed: &Closed<(), Global>, heap: &mut Vec<u64>)
    requires { IsFull closed.now.words × (slots_len closed.now.words ≡ length heap.old.items + 4097) }
    ensures words { (a : ℕ) → slice_index heap.new.items a ≡ slice_index (slots_items closed.now.words) (a + 4097) }
    ensures len { length heap.new.items ≡ length heap.old.items }
{
    let mut a = 0;
    while a < heap.len() {
        heap[a] = closed.word(a + 4097);
        a += 1;
    }
}

impl Pass {
    /// Splits off a pass with a number of its own and those of this pass's regions that contracts name.
    pub fn split<T: Story>(&mut self, s: &Shared<T>) -> Pass
        ghost given: { ℕ → Bool }
        requires table { IsOf s.now.table.shared.table_id self.old }
        requires ready { (0 < (book self.old).fresh) × (1 < (book self.old).numbers) × ((book self.old).fresh < 2 ^ 20) × ((book self.old).ticks ≤ 2 ^ 40) }
        ensures same { IsSame self.old self.new × IsOf s.now.table.shared.table_id result }
        ensures books { (book self.new ≡ stays_here given (book self.old)) × (book result ≡ goes_out given (book self.old)) }
    {
        self.split_as::<T, Brand>(s)
    }

    fn split_as<T: Story, G: Parting>(&mut self, s: &Shared<T>) -> Pass
        requires table { IsOf s.now.table.shared.table_id self.old }
        requires ready { (0 < (book self.old).fresh) × (1 < (book self.old).numbers) × ((book self.old).fresh < 2 ^ 20) × ((book self.old).ticks ≤ 2 ^ 40) }
        ensures same { IsSame self.old self.new × IsOf s.now.table.shared.table_id result }
        ensures books { (book self.new ≡ stays_here G.given (book self.old)) × (book result ≡ goes_out G.given (book self.old)) }
    {
        let number = self.fresh;
        self.fresh -= 1;
        let seat = s.table.shared.split_seat::<Part<G>>(&mut self.seat);
        Pass {
            seat,
            bound: 0,
            goal: 0,
            number,
            tick: 0,
            fresh: 0,
            ticks: 0,
            word: 0,
        }
    }

    /// Joins another pass to this one, with its numbers, regions and entries.
    pub fn join<T: Story>(&mut self, s: &Shared<T>, other: Pass)
        requires table { IsOf s.now.table.shared.table_id self.old × IsOf s.now.table.shared.table_id other }
        requires free { ((book self.old).face.held ≡ []) × ((book self.old).face.stage ≡ Unticked) × ((book other).face.held ≡ []) × ((book other).face.stage ≡ Unticked) }
        requires sums { ((book self.old).fresh + (book other).fresh < 2 ^ 62) × ((book self.old).ticks + (book other).ticks < 2 ^ 62) }
        ensures same { IsSame self.old self.new }
        ensures book { book self.new ≡ joined (book self.old) (book other) }
    {
        let Pass {
            seat,
            bound: _,
            goal: _,
            number: _,
            tick: _,
            fresh,
            ticks,
            word: _,
        } = other;
        self.fresh += fresh;
        self.ticks += ticks;
        s.table.shared.join_seat::<Merge>(&mut self.seat, seat);
    }
}
