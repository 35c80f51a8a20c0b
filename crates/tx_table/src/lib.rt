//! The table of shared words: a clock, stripes and a heap, which change in single atomic steps under one rule.
#![tactic(auto)]

pub mod calling;
pub mod extending;
pub mod law;
pub mod laws;
pub mod opening;
pub mod reading;
pub mod shared;
pub mod writing;

pub use calling::{Calling, Ruled};
pub use shared::{Pass, Shared, Story};
