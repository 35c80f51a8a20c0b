//! Why a step of the machine can't be done.
use std::alloc::AllocError;

/// The code isn't well formed there, or memory ran out.
#[derive(Clone, Copy)]
pub enum Failure {
    Wrong,
    NoMemory,
}

impl From<AllocError> for Failure {
    ghost use Rattle.std.specs.Prelude.{◌≡◌};
    ghost use Rattle.machine.specs.declared.failure.Failure.TheVariants as failure;

    ghost from_gives = { λ _ e. e ≡ failure.NoMemory };

    fn from(_: AllocError) -> Self {
        Failure::NoMemory
    }
}
