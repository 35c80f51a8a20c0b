//! The table and what a thread has of it.
ghost use Rattle.std.specs.Prelude.{◌≡◌, ◌^◌, ◌<◌, ◌*◌, ◌+◌, [], length};
ghost use Rattle.tx_table.specs.Rule.{Story as Telling};
ghost use Rattle.tx_table.specs.Plays.{word_in};

use crate::law::{Law, View};
use atomic_table::{Seat, Table};
use std::alloc::Global;
use std::snapshot::Snapshot;

/// What a table is opened for, as contracts see it: the heap's words, the regions, and the runs of calls.
pub trait Story {
    ghost story: { Self → Telling };
}

/// The story of a table, and how many words its heap has.
#[derive(Drop)]
pub struct Extent<T: Story> {
    pub story: Snapshot<T>,
    pub words: u64,
    ghost sized: { length (T.story story.value).words ≡ words },
}

/// The table of shared words, with how many words its heap has.
#[derive(Drop)]
pub struct Shared<T: Story> {
    pub table: Table<(), View, Extent<T>, Law<T>, Global>,
    pub words: u64,
    ghost sized: { (words ≡ table.shared.key.words) × (words + 4097 ≡ table.shared.table_id.words) × (table.shared.table_id.words < 2 ^ 32) × (table.shared.table_id.slots ≡ 0) },
}

/// What one thread steps with: its number, its clock steps, and its attempt's bound, the clock up to which it validates, its tick and the word of its
/// last look.
#[derive(Drop)]
pub struct Pass {
    pub seat: Seat<(), View>,
    pub(crate) bound: u64,
    pub(crate) goal: u64,
    pub(crate) number: u64,
    pub(crate) tick: u64,
    pub(crate) fresh: u64,
    pub(crate) ticks: u64,
    pub(crate) word: u64,
    ghost tied: { (goal ≡ seat.me.0.goal) × (number ≡ seat.me.0.face.number) × (tick ≡ seat.me.0.face.tick) × (number < 2 ^ 20) × (tick < 2 ^ 62) × (fresh ≡ seat.me.0.fresh) × (ticks ≡ seat.me.0.ticks) × (0 < seat.me.0.numbers) × (seat.me.1 ≡ []) × (word ≡ word_in seat.me.0.look word) },
}
