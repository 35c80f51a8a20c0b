//! The engines over the table of shared words, one of which is chosen when it is made.
#![tactic(auto)]

pub mod chosen;
pub mod engine;

pub use chosen::{Chosen, TableEngine};
