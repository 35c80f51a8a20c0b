//! Rewritten classes together mean the rewritten program.
#![tactic(auto)]

pub mod laws;
