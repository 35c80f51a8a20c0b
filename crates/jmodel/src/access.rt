//! A read or a write of memory.

/// A read or a write of memory: an address with its word.
#[derive(Clone, Copy)]
pub struct Access {
    pub address: u64,
    pub word: u64,
}
