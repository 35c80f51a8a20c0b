//! Duplicates of methods: they take the context of a transaction, read and write fields and elements over it, and call duplicates
//! (Korland, Shavit, Felber, MULTIPROG 2010, in this project's form).
#![tactic(auto)]

pub mod blocks;
pub mod duplicates;
pub mod laws;
pub mod limits;
pub mod names;
pub mod originals;

pub use duplicates::duplicate_of;
pub use originals::Original;
