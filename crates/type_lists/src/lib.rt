//! Lists of the types of a frame's places, whose copies share what they have in common.
#![tactic(auto)]

mod shared;
mod stack;
mod tree;

pub use shared::{SharedType, is_named, is_same, shared_types};
pub use stack::TypeStack;
pub use tree::{Parts, TypeTree};
