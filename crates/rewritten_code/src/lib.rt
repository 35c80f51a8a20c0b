//! What old code means in rewritten classes (JVM Specification, Java SE 7, chapter 6).
#![tactic(auto)]

pub mod laws;
