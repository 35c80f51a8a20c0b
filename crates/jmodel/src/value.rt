//! What calls take and give.
use crate::bytes::Bytes;

/// A value of the Java machine. A boolean, byte, char or short is an `Int`. Reference 0 is null.
#[derive(Clone, Copy)]
pub enum Value {
    Int(i32),
    Long(i64),
    Ref(u64),
}

/// How a call ends.
#[derive(Drop)]
pub enum Answer {
    /// By return, with the value where the method has a result.
    Returned(Option<Value>),
    /// By an exception, whose class has this name.
    Threw(Bytes),
    /// The turns were used up.
    Budget,
    /// There would have been too many frames.
    Depth,
    /// A region of `size` words, of which `used` were taken, had no room for `wanted` more.
    Heap { used: u64, wanted: u64, size: u64 },
    /// The attempts were used up.
    Spent,
    /// Memory ran out.
    NoMemory,
}

/// Where an entry stands in the commit history: the clock's value, and whether it wrote.
#[derive(Clone, Copy)]
pub struct Stamp {
    pub at: u64,
    pub update: bool,
}
