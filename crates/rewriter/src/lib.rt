//! The rewriting of class files with objects: added fields, accessors, duplicates, wrappers, and the helper of arrays (Korland, Shavit, Felber,
//! MULTIPROG 2010, in this project's form).
#![tactic(auto)]

mod classes;
mod copies;
mod duplicates;
mod rewriting;
mod share;
mod typed;
mod wrappers;

pub use classes::rewrite_classes;
