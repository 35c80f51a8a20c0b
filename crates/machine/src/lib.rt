//! The machine that runs the calls of a program with objects, each as a transaction over an engine.
#![tactic(auto)]

mod act;
mod arithmetic;
mod arrays;
mod branches;
pub mod callers;
mod calls;
pub mod commit;
mod context;
mod current;
pub mod failure;
mod fields;
pub mod frame;
pub mod gate;
mod locals;
pub mod machine;
mod make;
mod numbers;
mod plain;
mod rearrange;
pub mod room;
pub mod running;
pub mod stack;
pub mod step;
mod told;
mod turn;
pub mod value;

pub use gate::{Gate, LogGate, Open};
pub use machine::{End, Limits, Machine, Stuck};
pub use objects::event::Event;
pub use room::Room;
