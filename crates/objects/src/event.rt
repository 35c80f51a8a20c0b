//! What a gate is told of attempts.

/// One event of an attempt, told once it is over. The number is the address of a word.
#[derive(Clone, Copy, Debug)]
pub enum Event {
    /// The attempt was begun.
    Began,
    /// The engine looked at a word before a read.
    Looked(u64),
    /// The word was loaded as it lies there.
    Loaded(u64),
    /// The engine vouched for the read.
    Checked(u64),
    /// A write was logged.
    Wrote(u64),
    /// The attempt became an entry of the history.
    Ended,
}
