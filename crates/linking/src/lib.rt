//! Programs of class files with objects: what the instructions and the methods of classes mean, with every name resolved to a number.
#![tactic(auto)]

mod accesses;
pub mod bases;
pub mod build;
mod calls;
mod classes;
mod constants;
pub mod context;
pub mod decoding;
pub mod entries;
pub mod functions;
pub mod jumps;
pub mod layout;
pub mod meaning;
pub mod method;
pub mod names;
pub mod numbering;
pub mod pcs;
pub mod rebuild;
pub mod rewritten;
pub mod shape;
pub mod symbols;
mod text;

pub use pcs::pc_of;
