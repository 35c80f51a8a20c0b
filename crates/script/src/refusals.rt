//! Why a script is refused, with the place: a JSON Pointer (RFC 6901).
ghost use Rattle.std.specs.Prelude.{◌≡◌, IfOk};
ghost use Rattle.jmodel.specs.declared.refusal.Refusal.TheVariants as refusal;
ghost use Rattle.script.specs.Json.{IsRefused, under as key_under, at as item_at, bad_shape as bad_shape_at};

use jmodel::{Bytes, Halt, Refusal};
use std::alloc::{AllocError, Global};

/// The path of a member of the object at a path.
pub fn under(alloc: Global, path: &[u8], key: &str) -> Result<Bytes, AllocError>
    ensures { IfOk result (λ p. p ≡ key_under path.now key.now) }
{
    let mut place = Bytes::from_slice(alloc, path)?;
    place.push(b'/')?;
    place.extend_from_slice(key.as_bytes())?;
    Ok(place)
}

/// The path of an item of the list at a path.
pub fn at(alloc: Global, path: &[u8], index: usize) -> Result<Bytes, AllocError>
    ensures { IfOk result (λ p. p ≡ item_at path.now index) }
{
    let index = format!(in alloc; "{index}")?;
    under(alloc, path, index.as_str())
}

/// The value at a path isn't as a script has it. The path of the whole is printed as a slash.
pub fn bad_shape(alloc: Global, path: &[u8]) -> Halt
    ensures { IsRefused (bad_shape_at path.now) result }
{
    let shown: &[u8] = if path.is_empty() { b"/" } else { path };
    match Bytes::from_slice(alloc, shown) {
        Ok(place) => Halt::Refused(Refusal::BadShape(place)),
        Err(_) => Halt::NoMemory,
    }
}

/// The value of a key of the object at a path isn't as a script has it, or isn't there.
pub fn bad_member(alloc: Global, path: &[u8], key: &str) -> Halt
    ensures { IsRefused (bad_shape_at (key_under path.now key.now)) result }
{
    match under(alloc, path, key) {
        Ok(place) => Halt::Refused(Refusal::BadShape(place)),
        Err(_) => Halt::NoMemory,
    }
}

/// A number passes the limit of this name.
pub fn over_limit(alloc: Global, name: &str, number: i64) -> Halt
    ensures { IsRefused (refusal.OverLimit name.now number) result }
{
    match Bytes::from_slice(alloc, name.as_bytes()) {
        Ok(name) => Halt::Refused(Refusal::OverLimit(name, number)),
        Err(_) => Halt::NoMemory,
    }
}
