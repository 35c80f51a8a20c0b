//! The mark `@org.deuce.Atomic` of a method, read from its annotations (JVM Specification, Java SE 7, sections 4.7.16 and 4.7.17).
#![tactic(auto)]

mod fields;
pub mod laws;
mod mark;
mod retries;
mod values;

pub use mark::atomic_of;

// How deep values may nest.
const DEEPEST: u8 = 16;
