//! What names stand for among rewritten classes (JVM Specification, Java SE 7, sections 5.4.3.2 to 5.4.3.4).
#![tactic(auto)]

pub mod laws;
