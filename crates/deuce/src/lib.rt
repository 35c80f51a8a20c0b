//! What Deuce STM does for the words of its command line: runs a script on the class files of a folder, or puts their
//! rewriting; or runs the script of a bank on its classes.
//! [`top::deuce`] is the top call, over any folder and sink.
#![tactic(auto)]

mod bank;
pub mod classes;
mod commands;
mod inputs;
pub mod listing;
mod outcome;
mod print;
mod putting;
mod refusal;
mod reserved;
mod rewriting;
pub mod top;
mod words;

pub use machine::{Event, Gate, LogGate, Open};
