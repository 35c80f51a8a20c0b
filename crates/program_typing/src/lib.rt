//! The typing of a whole program: a table of types for each method, and the stores that the rewriting can't make.
#![tactic(auto)]

mod early;
mod tables;
mod typed;

pub use early::early_store;
pub use typed::{TypeFault, type_all};
