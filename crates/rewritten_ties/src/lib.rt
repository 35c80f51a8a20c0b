//! In rewritten classes the premises hold of the laws on what members mean.
#![tactic(auto)]

pub mod laws;
