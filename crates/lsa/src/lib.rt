//! A lazy snapshot algorithm over the table of shared words, which takes stripes as it writes and moves its snapshot forward (LSA: Riegel, Felber,
//! Fetzer, A Lazy Snapshot Algorithm with Eager Validation, DISC 2006, in this project's form).
#![tactic(auto)]

pub mod attempt;
pub mod ending;
pub mod engine;
pub mod extension;
pub mod reading;
pub mod update;
pub mod writing;

pub use attempt::Lsa;
