//! The calls of a script, phase by phase: the lanes of a phase side by side on threads, over one table of shared words.
#![tactic(auto)]

mod bag;
mod gates;
mod journal;
mod memory;
mod order;
mod phase;
mod rest;
mod run;
mod setting_up;
mod side;
mod side_by_side;
mod table;
mod taken;
mod threads;
mod workers;

pub use journal::Journal;
pub use memory::{LANES, Limits, Memory};
pub use run::Runner;
pub use session::Gate;
pub use setting_up::{SetUpEnd, set_up};
pub use table::{Keeping, Opening, Start, open_table, start_lanes};
