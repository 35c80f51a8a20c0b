//! The shared types, and in `specs/` what class files, scripts and histories are.
#![tactic(auto)]

pub mod access;
pub mod bytes;
pub mod class_file;
pub mod instruction;
pub mod mark;
pub mod name;
pub mod refusal;
pub mod typing;
pub mod value;

pub use access::Access;
pub use bytes::Bytes;
pub use class_file::{Constant, FieldType, Handler};
pub use instruction::{EntryKind, Form, Instr, Operands, Pairs, Targets};
pub use mark::{AnnotationFault, Atomic};
pub use name::MethodName;
pub use refusal::{Halt, NoMemory, Refusal, unless_refused};
pub use typing::VType;
pub use value::{Answer, Stamp, Value};
