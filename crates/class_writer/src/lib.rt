//! Writing class files (JVM Specification, Java SE 7, chapter 4).
#![tactic(auto)]

mod entries;
mod writer;

pub use writer::write_class;
