//! Wrappers of marked methods and static initialisers (Korland, Shavit, Felber, MULTIPROG 2010, in this project's form).
#![tactic(auto)]

mod blocks;
pub mod laws;
pub mod wrappers;

pub use wrappers::wrap;
