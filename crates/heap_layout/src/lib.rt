//! Where things lie in a program of class files with objects: types of words and of objects, fields and their places, texts, and memory before the first call.
#![tactic(auto)]

pub mod fields;
pub mod folder;
pub mod instances;
pub mod interfaces;
pub mod library_rows;
pub mod made;
pub mod opening;
pub mod reading;
pub mod rows;
pub mod starting;
mod sums;
pub mod text;
pub mod texts;
pub mod types;
pub mod words;
