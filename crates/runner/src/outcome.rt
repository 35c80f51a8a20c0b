//! Why no script is run.
use jmodel::{Answer, Bytes, NoMemory, Refusal};
use std::alloc::AllocError;

/// Why a script isn't run on class files.
#[derive(Drop)]
pub enum RunEnd {
    /// Their classes have this fault, the first; or a method stores to a field of an object that isn't built; or their
    /// rewriting passes this limit.
    Refused(Refusal),
    /// A method that has code has no typing.
    Untyped(Refusal),
    /// The script is none for the classes, with the first rule that it breaks.
    BadScript(Refusal),
    /// A static initialiser of the class of this name doesn't return, but ends so.
    Unopened { class: Bytes, answer: Answer },
    NoMemory,
}

impl From<AllocError> for RunEnd {
    ghost use Rattle.runner.specs.declared.outcome.RunEnd.TheVariants.{NoMemory};
    ghost use Rattle.std.specs.Prelude.{◌≡◌};

    ghost from_gives = { λ _ e. e ≡ NoMemory };

    fn from(_: AllocError) -> Self {
        RunEnd::NoMemory
    }
}

impl From<NoMemory> for RunEnd {
    ghost use Rattle.runner.specs.declared.outcome.RunEnd.TheVariants as ends;
    ghost use Rattle.std.specs.Prelude.{◌≡◌};

    ghost from_gives = { λ _ e. e ≡ ends.NoMemory };

    fn from(_: NoMemory) -> Self {
        RunEnd::NoMemory
    }
}
