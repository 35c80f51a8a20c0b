//! Why an input is refused.
ghost use Rattle.std.specs.Prelude.{◌≡◌};
ghost use Rattle.jmodel.specs.format.Reading.{GivesUnlessRefused};
ghost use Rattle.jmodel.specs.history.Refusal.{number_of};
ghost use Rattle.jmodel.specs.declared.refusal.Halt.TheVariants as halts;

use crate::bytes::Bytes;
use std::alloc::{AllocError, AllocFailed};
use std::fmt::{self, Debug, Formatter, Write};

/// A refusal, with the place that it names. The number before each is the one that is printed.
pub enum Refusal {
    /// 1: The field at this offset isn't wholly in the file.
    Truncated(i64),
    /// 2: The tag at this offset is none, or its second place would pass the pool.
    BadTag(i64),
    /// 3: This index is 0, past the end, or the second place of an entry.
    BadIndex(i64),
    /// 4: The entry of this index is of another kind.
    WrongKind(i64),
    /// 5: The byte at this offset may not stand in a text.
    BadUtf8(i64),
    /// 6: The text of this index is no descriptor for its use.
    BadDescriptor(i64),
    /// 7: The class's pool has no room for the entries that rewriting needs.
    PoolFull(Bytes),
    /// 8: The file does not begin as a class file.
    BadMagic,
    /// 9: The file has this major version.
    BadVersion(i64),
    /// 10: Bytes follow the class, from this offset on.
    Trailing(i64),
    /// 11: The method of this name and descriptor has no good Code attribute.
    BadCode(Bytes),
    /// 12: A second member has this name and descriptor.
    Doubled(Bytes),
    /// 13: No instruction stands in this method at this pc.
    BadInstr(Bytes, i64),
    /// 14: The jump or table entry at this pc leads to no instruction.
    BadTarget(Bytes, i64),
    /// 15: The rewritten method would be too long.
    CodeTooLarge(Bytes),
    /// 16: The jump at this pc would be too long.
    BranchTooFar(Bytes, i64),
    /// 17: A second class has this name.
    DoubledClass(Bytes),
    /// 18: There is no such class.
    UnknownClass(Bytes),
    /// 19: This class is above itself.
    Circular(Bytes),
    /// 20: A construct of this kind, in this method or class, at this pc.
    Construct(Bytes, Bytes, i64),
    /// 21: The class has a name that rewriting keeps for itself.
    ReservedName(Bytes),
    /// 22: The method's annotations break their form at this offset.
    BadAnnotation(Bytes, i64),
    /// 23: The method asks for this number of attempts.
    BadRetries(Bytes, i64),
    /// 24: The method passes a limit of this kind.
    TooManyPlaces(Bytes, Bytes),
    /// 25: The script is no JSON.
    NotJson,
    /// 26: The value at this path is not as a script has it.
    BadShape(Bytes),
    /// 27: The call at this path names no method.
    UnknownMethod(Bytes),
    /// 28: The call at this path names a method that isn't marked and static.
    NotAtomic(Bytes),
    /// 29: The arguments at this path don't fit.
    BadArgs(Bytes),
    /// 30: What this names passes its limit.
    OverLimit(Bytes, i64),
    /// 31: The first class can't have the second above it.
    BadSuper(Bytes, Bytes),
    /// 32: The method has no typing, for the instruction at this pc.
    Untypable(Bytes, i64),
}

/// Taken apart here alone, and not at the end of each scope that holds one.
impl Drop for Refusal {
    fn drop(self) {
        match self {
            Refusal::Truncated(_)
            | Refusal::BadTag(_)
            | Refusal::BadIndex(_)
            | Refusal::WrongKind(_)
            | Refusal::BadUtf8(_)
            | Refusal::BadDescriptor(_)
            | Refusal::PoolFull(_)
            | Refusal::BadMagic
            | Refusal::BadVersion(_)
            | Refusal::Trailing(_)
            | Refusal::BadCode(_)
            | Refusal::Doubled(_)
            | Refusal::BadInstr(_, _)
            | Refusal::BadTarget(_, _)
            | Refusal::CodeTooLarge(_)
            | Refusal::BranchTooFar(_, _)
            | Refusal::DoubledClass(_)
            | Refusal::UnknownClass(_)
            | Refusal::Circular(_)
            | Refusal::Construct(_, _, _)
            | Refusal::ReservedName(_)
            | Refusal::BadAnnotation(_, _)
            | Refusal::BadRetries(_, _)
            | Refusal::TooManyPlaces(_, _)
            | Refusal::NotJson
            | Refusal::BadShape(_)
            | Refusal::UnknownMethod(_)
            | Refusal::NotAtomic(_)
            | Refusal::BadArgs(_)
            | Refusal::OverLimit(_, _)
            | Refusal::BadSuper(_, _)
            | Refusal::Untypable(_, _) => {}
        }
    }
}

/// Its number, as it is printed.
impl Debug for Refusal {
    fn fmt<W: Write>(&self, f: &mut Formatter<W>) -> fmt::Result {
        write!(f, "Refusal {}", self.number())
    }
}

impl Refusal {
    /// The number that is printed. Takes no memory.
    pub fn number(&self) -> u8
        ensures { result ≡ number_of self.now }
    {
        match self {
            Refusal::Truncated(_) => 1,
            Refusal::BadTag(_) => 2,
            Refusal::BadIndex(_) => 3,
            Refusal::WrongKind(_) => 4,
            Refusal::BadUtf8(_) => 5,
            Refusal::BadDescriptor(_) => 6,
            Refusal::PoolFull(_) => 7,
            Refusal::BadMagic => 8,
            Refusal::BadVersion(_) => 9,
            Refusal::Trailing(_) => 10,
            Refusal::BadCode(_) => 11,
            Refusal::Doubled(_) => 12,
            Refusal::BadInstr(_, _) => 13,
            Refusal::BadTarget(_, _) => 14,
            Refusal::CodeTooLarge(_) => 15,
            Refusal::BranchTooFar(_, _) => 16,
            Refusal::DoubledClass(_) => 17,
            Refusal::UnknownClass(_) => 18,
            Refusal::Circular(_) => 19,
            Refusal::Construct(_, _, _) => 20,
            Refusal::ReservedName(_) => 21,
            Refusal::BadAnnotation(_, _) => 22,
            Refusal::BadRetries(_, _) => 23,
            Refusal::TooManyPlaces(_, _) => 24,
            Refusal::NotJson => 25,
            Refusal::BadShape(_) => 26,
            Refusal::UnknownMethod(_) => 27,
            Refusal::NotAtomic(_) => 28,
            Refusal::BadArgs(_) => 29,
            Refusal::OverLimit(_, _) => 30,
            Refusal::BadSuper(_, _) => 31,
            Refusal::Untypable(_, _) => 32,
        }
    }
}

/// Memory ran out.
#[derive(Clone, Copy, Debug)]
pub struct NoMemory;

/// Why a part gives no answer.
#[derive(Debug, Drop)]
pub enum Halt {
    Refused(Refusal),
    NoMemory,
}

/// What a part gives, None where it refuses. `NoMemory` where memory ran out.
pub fn unless_refused<T>(given: Result<T, Halt>) -> Result<Option<T>, NoMemory>
    ensures { GivesUnlessRefused given result }
{
    match given {
        Ok(found) => Ok(Some(found)),
        Err(Halt::Refused(_)) => Ok(None),
        Err(Halt::NoMemory) => Err(NoMemory),
    }
}

impl From<AllocError> for Halt {
    ghost from_gives = { λ _ h. h ≡ halts.NoMemory };

    fn from(_e: AllocError) -> Halt {
        Halt::NoMemory
    }
}

impl<T: Drop> From<AllocFailed<T>> for Halt {
    ghost from_gives = { λ _ h. h ≡ halts.NoMemory };

    fn from(_e: AllocFailed<T>) -> Halt {
        Halt::NoMemory
    }
}

impl From<NoMemory> for Halt {
    ghost from_gives = { λ _ h. h ≡ halts.NoMemory };

    fn from(_e: NoMemory) -> Halt {
        Halt::NoMemory
    }
}

impl From<Refusal> for Halt {
    ghost from_gives = { λ r h. h ≡ halts.Refused r };

    fn from(r: Refusal) -> Halt {
        Halt::Refused(r)
    }
}

impl From<AllocError> for NoMemory {
    fn from(_e: AllocError) -> NoMemory {
        NoMemory
    }
}

impl<T: Drop> From<AllocFailed<T>> for NoMemory {
    fn from(_e: AllocFailed<T>) -> NoMemory {
        NoMemory
    }
}
