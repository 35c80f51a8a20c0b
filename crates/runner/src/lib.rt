//! Runs of scripts on class files with objects: from the files' classes and a script's bytes to the text of the journal.
#![tactic(auto)]

mod faults;
mod opening;
mod outcome;
mod preparing;
mod running;
mod text;

pub use opening::opened;
pub use outcome::RunEnd;
pub use preparing::{Instrumented, Prepared, instrument_files, link_files, prepare};
pub use running::{Counts, count_calls, run_files};
pub use text::{push_answer, push_number, push_signed};
