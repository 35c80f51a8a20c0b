//! The parts of a class file that hold no list (JVM Specification, Java SE 7, sections 4.3 and 4.4).
use crate::bytes::Bytes;

/// An entry of a constant pool. Numbers are indexes of other entries where no type says more.
#[derive(Debug, Drop)]
pub enum Constant {
    Utf8(Bytes),
    Integer(i32),
    /// The bits of a float, as read.
    Float(u32),
    Long(i64),
    /// The bits of a double, as read.
    Double(u64),
    /// A class, by its name's index.
    Class(u16),
    /// A String, by its text's index.
    Text(u16),
    Field { class: u16, pair: u16 },
    Method { class: u16, pair: u16 },
    InterfaceMethod { class: u16, pair: u16 },
    NameAndType { name: u16, descriptor: u16 },
    /// The second place of a Long or a Double.
    Second,
}

/// What a field descriptor stands for.
#[derive(Debug, Drop)]
pub enum FieldType {
    Boolean,
    Byte,
    Char,
    Short,
    Int,
    Long,
    Float,
    Double,
    /// A class by its name, or an array by its descriptor.
    Reference(Bytes),
}

/// An entry of an exception table. The first three are places in the code, `catch_type` is a class's index or 0 for all.
#[derive(Clone, Copy, Debug)]
pub struct Handler {
    pub start: u16,
    pub end: u16,
    pub handler: u16,
    pub catch_type: u16,
}
