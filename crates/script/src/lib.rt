//! Scripts: which calls a run makes.
#![tactic(auto)]

mod arguments;
mod calls;
mod head;
mod lists;
mod members;
mod names;
mod numbers;
mod phases;
mod reading;
mod refusals;
mod texts;
mod tree;

pub use calls::{Known, LaneCalls};
pub use head::EngineKind;
pub use phases::{Calls, PhaseCalls};
pub use reading::{Script, read_script};
