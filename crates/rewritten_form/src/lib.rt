//! What rewriting gives keeps the rules of class files (JVM Specification, Java SE 7, sections 4.1 to 4.7).
#![tactic(auto)]

pub mod laws;
