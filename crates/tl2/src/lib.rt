//! Transactional Locking II over the table of shared words (Dice, Shalev, Shavit, DISC 2006, in this project's form).
#![tactic(auto)]

pub mod attempt;
pub mod commit;
pub mod ending;
pub mod engine;
pub mod plan;
pub mod reading;
pub mod update;

pub use attempt::{Calling, Ruled, Tl2};
