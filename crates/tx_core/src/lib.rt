//! What runs the reads and writes of attempts: the trait of engines, the writes that an engine keeps back, and the engine for one
//! thread.
#![tactic(auto)]

pub mod engine;
pub mod solo;
pub mod write_log;

pub use engine::{Conflict, Engine, TxEnd};
pub use solo::{Origin, Solo};
pub use write_log::WriteLog;
