//! The mark of a method, and the faults of annotations.

/// What the mark says.
#[derive(Clone, Copy, Debug, PartialEq, Eq)]
pub struct Atomic {
    /// How many attempts a call may make, at least 1; 2147483647 where the mark names no number.
    pub retries: i32,
}

/// Why a method's annotations are refused.
#[derive(Clone, Copy, Debug, PartialEq, Eq)]
pub enum AnnotationFault {
    /// They break their form at this offset in the bytes of an attribute.
    Bad(usize),
    /// The mark asks for this number of attempts.
    Retries(i32),
}
