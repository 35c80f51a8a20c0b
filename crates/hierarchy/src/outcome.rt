//! Why no program is built.
ghost use Rattle.std.specs.Prelude.{◌≡◌};
ghost use Rattle.hierarchy.specs.declared.outcome.BuildEnd.TheVariants as ends;
ghost use Rattle.hierarchy.specs.Ends.{end_of};

use jmodel::{Halt, NoMemory, Refusal};
use std::alloc::{AllocError, AllocFailed};

/// Why no program is built.
#[derive(Drop)]
pub enum BuildEnd {
    /// The superclasses, the annotations of a method, or the code of one of the program's have this fault.
    Refused(Refusal),
    /// The classes aren't of the form that is known so far. Temporary: the form grows until it has every program that is
    /// accepted.
    NotBuilt,
    /// Memory ran out.
    NoMemory,
}

impl From<Halt> for BuildEnd {
    ghost from_gives = { λ h e. e ≡ end_of h };

    fn from(h: Halt) -> BuildEnd {
        match h {
            Halt::Refused(r) => BuildEnd::Refused(r),
            Halt::NoMemory => BuildEnd::NoMemory,
        }
    }
}

impl From<AllocError> for BuildEnd {
    ghost from_gives = { λ _ e. e ≡ ends.NoMemory };

    fn from(_e: AllocError) -> BuildEnd {
        BuildEnd::NoMemory
    }
}

impl<T: Drop> From<AllocFailed<T>> for BuildEnd {
    ghost from_gives = { λ _ e. e ≡ ends.NoMemory };

    fn from(_e: AllocFailed<T>) -> BuildEnd {
        BuildEnd::NoMemory
    }
}

impl From<NoMemory> for BuildEnd {
    ghost from_gives = { λ _ e. e ≡ ends.NoMemory };

    fn from(_e: NoMemory) -> BuildEnd {
        BuildEnd::NoMemory
    }
}
