//! What stands above the classes of a folder, where the names of their fields and methods lead, and constructs that their methods may not have.
#![tactic(auto)]

pub mod calls;
pub mod circles;
pub mod constructs;
pub mod floats;
pub mod resolution;
pub mod text;
pub mod ways;
