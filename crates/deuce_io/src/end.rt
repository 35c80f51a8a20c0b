//! Why a call of the outside gives no answer.
ghost use Rattle.std.specs.Prelude.{◌≡◌};
ghost use Rattle.deuce_io.specs.declared.end.IoEnd.TheVariants.{NoMemory};

use std::alloc::{AllocError, AllocFailed};

/// Why a call of a folder or a sink gives no answer.
#[derive(Clone, Copy, Debug, PartialEq, Eq)]
pub enum IoEnd {
    /// The outside failed.
    Failed,
    /// Memory ran out.
    NoMemory,
}

impl From<AllocError> for IoEnd {
    ghost from_gives = { λ _ e. e ≡ NoMemory };

    fn from(_: AllocError) -> Self {
        IoEnd::NoMemory
    }
}

impl<T: Drop> From<AllocFailed<T>> for IoEnd {
    ghost from_gives = { λ _ e. e ≡ NoMemory };

    fn from(_: AllocFailed<T>) -> Self {
        IoEnd::NoMemory
    }
}
