//! The bank: two classes with accounts and a script of transfers between them, made from four numbers.
#![tactic(auto)]

mod account_file;
mod bank_file;
mod code;
mod entries;
mod figures;
pub mod laws;
mod members;
mod numbers;
mod script;
mod transfers;
mod workload;

pub use figures::{Figures, summary};
pub use numbers::number_in;
pub use workload::{Workload, bank};
