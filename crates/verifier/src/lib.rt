//! Types of code (JVM Specification, Java SE 7, section 4.10): the narrowest typing of a method is found, and a given
//! table is tested.
#![tactic(auto)]

mod arrays;
mod building;
mod checking;
mod flow;
mod inference;
mod kept;
mod led;
mod loads;
mod members;
mod merging;
mod names;
mod order;
mod receivers;
mod rule;
mod search;
mod settling;
mod stack;
mod storing;
mod visit;

pub use checking::check;
pub use inference::{TypeEnd, infer};
