//! What Java programs with objects mean, alone and rewritten, and the laws that hold of them.
#![tactic(auto)]

pub mod event;
pub mod laws;
pub mod linking_law;
pub mod op;
pub mod serial_law;
pub mod switch;

pub use switch::Cases;
