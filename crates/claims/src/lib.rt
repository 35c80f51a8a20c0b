//! The claims of a bag: passes claim the numbers from 0 on, each number once, whatever the threads do.
#![tactic(auto)]

pub mod bag;
mod claiming;
pub mod law;
pub mod laws;

pub use bag::{Bag, BagPass};
