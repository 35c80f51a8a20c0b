//! What the methods that rewriting adds are made of: instructions, code that is laid, and members (JVM Specification, Java SE 7,
//! sections 4.6 and 4.7.3).
#![tactic(auto)]

pub mod bytes;
pub mod instrs;
pub mod laying;
pub mod members;
pub mod names;
pub mod places;
pub mod words;
