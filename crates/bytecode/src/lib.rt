//! The code of a method as a list of instructions, and back (JVM Specification, Java SE 7, chapter 6).
#![tactic(auto)]

mod blocks;
mod decoding;
mod encoding;
mod entries;
mod forms;
mod instructions;
pub mod laws;
mod numbers;
pub mod opcodes;
mod operands;
mod places;
mod relocation;
mod sizes;
mod switches;
mod targets;

pub use blocks::Block;
pub use decoding::decode;
pub use encoding::encode;
pub use jmodel::{EntryKind, Form, Instr, Operands, Pairs, Targets};
pub use relocation::relocate;
