//! Reading class files (JVM Specification, Java SE 7, chapter 4) of version 49.
#![tactic(auto)]

mod distinct;
mod head;
mod lists;
mod members;
mod methods;
mod reader;

pub use reader::read_class;
