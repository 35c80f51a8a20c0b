//! The mark of a method.
ghost use Rattle.std.specs.Prelude.{◌≡◌, pos, ◌≤ℤ◌, IfOk, IfSome};
ghost use Rattle.jmodel.specs.format.ClassRules.{named_attributes};
ghost use Rattle.annotations.specs.Walk.{top_end, tops_end, attribute_end, next_end, attributes_end, value_end};
ghost use Rattle.jmodel.specs.format.Mark.{retries_in, granted as granted_with, mark_of};

use crate::DEEPEST;
use crate::fields::{is_text, text_at, u2_at};
use crate::retries::mark_at;
use crate::values::pairs_at;
use const_pool::{Attribute, Member, Pool};
use jmodel::{AnnotationFault, Atomic};

// The next annotation at the top, with what the first mark grants.
#[tactic(auto, unfolding(crate::specs::Walk::top_end))]
fn top_at(
    pool: &Pool,
    bytes: &[u8],
    found: Option<i32>,
    at: usize,
) -> Result<(Option<i32>, usize), usize>
    ensures { result ≡ top_end pool.now (value_end 16 pool.now bytes.now) bytes.now (found, at) }
{
    let (class, start) = text_at(pool, bytes, at)?;
    if found.is_none() && is_text(pool, b"Lorg/deuce/Atomic;", class) {
        let (n, after) = mark_at(pool, bytes, start)?;
        Ok((Some(n), after))
    } else {
        let after = pairs_at(pool, bytes, start, DEEPEST)?;
        Ok((found, after))
    }
}

// The annotations of an attribute, with what the first mark grants.
#[tactic(auto, unfolding(crate::specs::Walk::tops_end))]
fn tops_at(pool: &Pool, bytes: &[u8], before: Option<i32>) -> Result<(Option<i32>, usize), usize>
    ensures { result ≡ tops_end pool.now (value_end 16 pool.now bytes.now) bytes.now before }
{
    let (count, start) = u2_at(bytes, 0)?;
    let mut found = before;
    let mut at = start;
    for _ in 0..count {
        let (next, after) = top_at(pool, bytes, found, at)?;
        found = next;
        at = after;
    }
    Ok((found, at))
}

// All of an attribute, with what the first mark grants.
#[tactic(auto, unfolding(crate::specs::Walk::attribute_end))]
fn attribute_found(pool: &Pool, bytes: &[u8], before: Option<i32>) -> Result<Option<i32>, usize>
    ensures { result ≡ attribute_end pool.now (value_end 16 pool.now bytes.now) bytes.now before }
{
    let (found, at) = tops_at(pool, bytes, before)?;
    if at == bytes.len() {
        Ok(found)
    } else {
        Err(at)
    }
}

// The next attribute, which counts where it has this name.
fn next_found(
    pool: &Pool,
    name: &[u8],
    attribute: &Attribute,
    before: Option<i32>,
) -> Result<Option<i32>, usize>
    ensures { result ≡ next_end pool.now (value_end 16 pool.now) name.now attribute.now before }
{
    if is_text(pool, name, attribute.name) {
        attribute_found(pool, attribute.bytes.as_slice(), before)
    } else {
        Ok(before)
    }
}

// The attributes of this name, with what the first mark grants.
fn attributes_found(
    pool: &Pool,
    name: &[u8],
    attributes: &[Attribute],
    before: Option<i32>,
) -> Result<Option<i32>, usize>
    ensures { result ≡ attributes_end pool.now (value_end 16 pool.now) (named_attributes pool.now name.now attributes.now) before }
{
    let mut found = before;
    for attribute in attributes {
        found = next_found(pool, name, attribute, found)?;
    }
    Ok(found)
}

// What the first mark of a method grants, or the first fault.
fn retries_of(pool: &Pool, attributes: &[Attribute]) -> Result<Option<i32>, usize>
    ensures { result ≡ retries_in pool.now attributes.now }
{
    let seen = attributes_found(pool, b"RuntimeVisibleAnnotations", attributes, None)?;
    attributes_found(pool, b"RuntimeInvisibleAnnotations", attributes, seen)
}

// A mark grants at least one attempt.
fn granted(found: Option<i32>) -> Result<Option<Atomic>, AnnotationFault>
    ensures exact { result ≡ granted_with found }
    ensures granted { IfOk result (λ found. IfSome found (λ a. pos 1 ≤ℤ a.retries)) }
{
    match found {
        None => Ok(None),
        Some(retries) => {
            if retries < 1 {
                return Err(AnnotationFault::Retries(retries));
            }
            Ok(Some(Atomic { retries }))
        }
    }
}

/// The mark `@org.deuce.Atomic` of a method (JVM Specification, Java SE 7, sections 4.7.16 and 4.7.17): None where it has none. Takes
/// no memory.
///
/// The method's attributes named `RuntimeVisibleAnnotations` are looked at in their order, then those named
/// `RuntimeInvisibleAnnotations`. The mark is the first annotation among theirs, and not inside a value, whose type is
/// `Lorg/deuce/Atomic;`. Its first pair named `retries` says how many attempts a call may make. Its other pairs and further marks
/// say nothing. Refused as
///
/// - `Bad` with an offset in the bytes of an attribute: that of the first field which breaks the grammar of annotations or isn't
///   wholly there, of the first attribute that has one. A field is a count, a tag, an index or the first byte that is left over.
///   Types and names of pairs are indexes of texts; values nest at most 16 deep, and that of one deeper is the offset of its tag.
///   The `retries` that counts has the tag `I`, and the index of an Integer.
/// - else `Retries` with the number that counts, where it is below 1.
pub fn atomic_of(pool: &Pool, method: &Member) -> Result<Option<Atomic>, AnnotationFault>
    // What `laws` speak of: it is the answer that the attributes' annotations give, and a fault where they spell none.
    ensures exact { result ≡ mark_of pool.now method.now }
    ensures granted { IfOk result (λ found. IfSome found (λ a. pos 1 ≤ℤ a.retries)) }
{
    match retries_of(pool, &method.attributes) {
        Ok(found) => granted(found),
        Err(at) => Err(AnnotationFault::Bad(at)),
    }
}
