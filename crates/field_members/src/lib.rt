//! The members that rewriting adds to a class for its fields (Korland, Shavit, Felber, MULTIPROG 2010, in this project's form): address
//! fields, the field for the static base, and accessors.
#![tactic(auto)]

pub mod accessors;
pub mod fields;
pub mod laws;
pub mod names;

pub use accessors::add_accessors;
pub use fields::add_fields;
