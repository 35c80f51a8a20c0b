//! The helper of arrays, a class whose methods read and write elements over the context (Korland, Shavit, Felber, MULTIPROG 2010, in this
//! project's form).
#![tactic(auto)]

pub mod helper;
pub mod laws;
pub mod names;

pub use helper::helper_class;
