//! Programs of class files with objects, with every name resolved to a number.
#![tactic(auto)]

pub mod code;
pub mod constants;
pub mod declared;
pub mod library;
pub mod lineage;
pub mod marks;
pub mod member_faults;
pub mod names;
pub mod numbered;
pub mod ordering;
pub mod outcome;
pub mod places;
pub mod program;
pub mod reference;
pub mod reserved;
pub mod row;
mod selection;
pub mod simple;
pub mod starting;
pub mod superclasses;
pub mod symbols;
pub mod taken;
mod text;
pub mod typing;

pub use marks::{is_root, retries_of};
pub use ordering::in_order;
pub use outcome::BuildEnd;
pub use program::{Body, Field, Method, Program, Shape};
pub use row::{Declared, Holds, Row};
pub use taken::are_taken;
pub use typing::{TypeEntry, Typing};
