//! Types of the places of a frame (JVM Specification, Java SE 7, section 4.10.1.2).
use crate::bytes::Bytes;

/// The type of one place.
#[derive(Drop)]
pub enum VType {
    Int,
    Long,
    /// The second place of a long.
    Second,
    Null,
    /// A class, or an array by its descriptor.
    Ref(Bytes),
    /// What `new` at this place has made, before its constructor has run.
    Uninit(u16),
    /// `this` in a constructor, before another constructor has run.
    UninitThis,
    Top,
}
