//! Constant pools and descriptors, and the parts of a class file that name their entries
//! (JVM Specification, Java SE 7, sections 4.1 to 4.7).
#![tactic(auto)]

mod adding;
mod attributes;
mod by_index;
mod class_file;
mod code;
mod constants;
mod descriptor;
pub mod fields;
mod index;
mod keys;
mod meanings;
mod names;
mod places;
mod pool;
mod references;
mod signature;

pub use attributes::{attribute_at, attributes_at};
pub use class_file::{Attribute, ClassFile, Member};
pub use code::Code;
pub use descriptor::{is_array_name, is_field_descriptor, is_method_descriptor};
pub use jmodel::{Constant, FieldType, Handler};
pub use pool::Pool;
pub use references::{Descriptors, want_descriptor};
pub use signature::Descriptor;
