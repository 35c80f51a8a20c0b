//! A bag's claims, and what one thread has of them.
ghost use Rattle.std.specs.Prelude.{◌≡◌, []};

use crate::law::{Law, View};
use atomic_table::{Seat, Table};
use std::alloc::Global;

/// The claims of a bag, with how many calls the bag has.
#[derive(Drop)]
pub struct Bag {
    pub table: Table<(), View, (), Law, Global>,
    pub length: u32,
    ghost sized: { (table.shared.table_id.words ≡ 1) × (table.shared.table_id.slots ≡ 0) },
}

/// What one thread claims with. It has no bytes.
#[derive(Drop)]
pub struct BagPass {
    pub seat: Seat<(), View>,
    ghost carries: { seat.me.1 ≡ [] },
}
