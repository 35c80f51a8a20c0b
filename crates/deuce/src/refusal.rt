//! What is printed of a refusal.
ghost use Rattle.std.specs.Prelude.{◌≡◌, ◌++◌, ◌∷◌, OnOk};
ghost use Rattle.std.specs.Fmt.{signed_decimal};
ghost use Rattle.jmodel.specs.history.Output.{name_of as name_text, details_of, refusal_text};

use jmodel::{Bytes, Refusal};
use runner::{push_number, push_signed};
use std::alloc::{AllocError, Global};

/// The number, the name and the details of a refusal, at the end.
pub fn push_refusal(alloc: Global, out: &mut Bytes, refusal: &Refusal) -> Result<(), AllocError>
    ensures { OnOk result (out.new ≡ out.old ++ refusal_text refusal.now) }
{
    push_number(alloc, out, u64::from(refusal.number()))?;
    out.push(b' ')?;
    out.extend_from_slice(name_of(refusal).as_bytes())?;
    push_details(alloc, out, refusal)
}

fn name_of(refusal: &Refusal) -> &'static str
    ensures { result.now ≡ name_text refusal.now }
{
    match refusal {
        Refusal::Truncated(_) => "Truncated",
        Refusal::BadTag(_) => "BadTag",
        Refusal::BadIndex(_) => "BadIndex",
        Refusal::WrongKind(_) => "WrongKind",
        Refusal::BadUtf8(_) => "BadUtf8",
        Refusal::BadDescriptor(_) => "BadDescriptor",
        Refusal::PoolFull(_) => "PoolFull",
        Refusal::BadMagic => "BadMagic",
        Refusal::BadVersion(_) => "BadVersion",
        Refusal::Trailing(_) => "Trailing",
        Refusal::BadCode(_) => "BadCode",
        Refusal::Doubled(_) => "Doubled",
        Refusal::BadInstr(_, _) => "BadInstr",
        Refusal::BadTarget(_, _) => "BadTarget",
        Refusal::CodeTooLarge(_) => "CodeTooLarge",
        Refusal::BranchTooFar(_, _) => "BranchTooFar",
        Refusal::DoubledClass(_) => "DoubledClass",
        Refusal::UnknownClass(_) => "UnknownClass",
        Refusal::Circular(_) => "Circular",
        Refusal::Construct(_, _, _) => "Construct",
        Refusal::ReservedName(_) => "ReservedName",
        Refusal::BadAnnotation(_, _) => "BadAnnotation",
        Refusal::BadRetries(_, _) => "BadRetries",
        Refusal::TooManyPlaces(_, _) => "TooManyPlaces",
        Refusal::NotJson => "NotJson",
        Refusal::BadShape(_) => "BadShape",
        Refusal::UnknownMethod(_) => "UnknownMethod",
        Refusal::NotAtomic(_) => "NotAtomic",
        Refusal::BadArgs(_) => "BadArgs",
        Refusal::OverLimit(_, _) => "OverLimit",
        Refusal::BadSuper(_, _) => "BadSuper",
        Refusal::Untypable(_, _) => "Untypable",
    }
}

fn push_details(alloc: Global, out: &mut Bytes, refusal: &Refusal) -> Result<(), AllocError>
    ensures { OnOk result (out.new ≡ out.old ++ details_of refusal.now) }
{
    match refusal {
        Refusal::BadMagic | Refusal::NotJson => Ok(()),
        Refusal::Truncated(place)
        | Refusal::BadTag(place)
        | Refusal::BadIndex(place)
        | Refusal::WrongKind(place)
        | Refusal::BadUtf8(place)
        | Refusal::BadDescriptor(place)
        | Refusal::BadVersion(place)
        | Refusal::Trailing(place) => push_place(alloc, out, *place),
        Refusal::PoolFull(name)
        | Refusal::BadCode(name)
        | Refusal::Doubled(name)
        | Refusal::CodeTooLarge(name)
        | Refusal::DoubledClass(name)
        | Refusal::UnknownClass(name)
        | Refusal::Circular(name)
        | Refusal::ReservedName(name)
        | Refusal::BadShape(name)
        | Refusal::UnknownMethod(name)
        | Refusal::NotAtomic(name)
        | Refusal::BadArgs(name) => push_name(out, name),
        Refusal::BadInstr(name, place)
        | Refusal::BadTarget(name, place)
        | Refusal::BranchTooFar(name, place)
        | Refusal::BadAnnotation(name, place)
        | Refusal::BadRetries(name, place)
        | Refusal::OverLimit(name, place)
        | Refusal::Untypable(name, place) => {
            push_name(out, name)?;
            push_place(alloc, out, *place)
        }
        Refusal::TooManyPlaces(first, second) | Refusal::BadSuper(first, second) => {
            push_name(out, first)?;
            push_name(out, second)
        }
        Refusal::Construct(kind, name, place) => {
            push_name(out, kind)?;
            push_name(out, name)?;
            push_place(alloc, out, *place)
        }
    }
}

// A space and a number.
fn push_place(alloc: Global, out: &mut Bytes, place: i64) -> Result<(), AllocError>
    ensures { OnOk result (out.new ≡ out.old ++ 32 ∷ signed_decimal place) }
{
    out.push(b' ')?;
    push_signed(alloc, out, place)
}

// A space and a name.
fn push_name(out: &mut Bytes, name: &Bytes) -> Result<(), AllocError>
    ensures { OnOk result (out.new ≡ out.old ++ 32 ∷ name.now) }
{
    out.push(b' ')?;
    out.extend_from_slice(name.as_slice())
}
