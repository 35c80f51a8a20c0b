//! The rewriting of programs with objects: wrappers of marked methods, accessors of fields, duplicates of methods, and the helper of arrays (Korland, Shavit,
//! Felber, MULTIPROG 2010, in this project's form).
#![tactic(auto)]

pub mod accessors;
mod arrays;
mod blocks;
mod copies;
pub mod duplicates;
pub mod helper;
mod instructions;
mod locals;
mod names;
mod numbers;
mod places;
pub mod rewriting;
mod shapes;
pub mod wrappers;

pub use rewriting::rewrite_program;
