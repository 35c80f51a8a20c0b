//! The calls of one lane, each as a transaction over an engine.
#![tactic(auto)]

mod call;
mod claimed;
mod record;
mod session;
mod shared;

pub use call::Making;
pub use claimed::Taken;
pub use machine::{Gate, Limits, Room};
pub use record::{Lane, Place, Record};
pub use session::Session;
pub use shared::{Beginning, Named, engine_of};
