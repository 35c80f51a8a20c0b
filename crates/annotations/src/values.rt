//! Values and annotations, which are passed over: each gives the place after it, or the offset of its first field that breaks the
//! grammar or isn't wholly there. `depth` says how deep the values may nest.
ghost use Rattle.std.specs.Prelude.{◌≡◌};
ghost use Rattle.jmodel.specs.format.AnnotationRules.{is_single as single};
ghost use Rattle.annotations.specs.Walk.{single_end, enum_end, pairs_end, annotation_end, values_end, shape_end, value_end, pair_end, steps};

use crate::fields::{text_at, u1_at, u2_at};
use const_pool::Pool;

// Whether one index stands behind a tag.
fn is_single(tag: u8) -> bool
    ensures { result ≡ single tag }
{
    matches!(
        tag,
        b'B' | b'C' | b'D' | b'F' | b'I' | b'J' | b'S' | b'Z' | b's' | b'c'
    )
}

#[tactic(auto, unfolding(crate::specs::Walk::single_end))]
fn single_at(bytes: &[u8], at: usize) -> Result<usize, usize>
    ensures { result ≡ single_end bytes.now at }
{
    let (_, at) = u2_at(bytes, at)?;
    Ok(at)
}

#[tactic(auto, unfolding(crate::specs::Walk::enum_end))]
fn enum_at(bytes: &[u8], at: usize) -> Result<usize, usize>
    ensures { result ≡ enum_end bytes.now at }
{
    let (_, at) = u2_at(bytes, at)?;
    let (_, at) = u2_at(bytes, at)?;
    Ok(at)
}

#[cycle(values)]
#[tactic(auto, unfolding(crate::specs::Walk::pair_end))]
fn pair_at(pool: &Pool, bytes: &[u8], at: usize, depth: u8) -> Result<usize, usize>
    ensures { result ≡ pair_end pool.now (value_end depth pool.now bytes.now) bytes.now at }
{
    let (_, at) = text_at(pool, bytes, at)?;
    value_at(pool, bytes, at, depth)
}

/// The pairs of an annotation, behind their count.
#[cycle(values)]
#[tactic(auto, unfolding(crate::specs::Walk::pairs_end))]
pub fn pairs_at(pool: &Pool, bytes: &[u8], at: usize, depth: u8) -> Result<usize, usize>
    ensures { result ≡ pairs_end pool.now (value_end depth pool.now bytes.now) bytes.now at }
{
    let (count, start) = u2_at(bytes, at)?;
    let mut at = start;
    for _ in 0..count {
        at = pair_at(pool, bytes, at, depth)?;
    }
    Ok(at)
}

#[cycle(values)]
#[tactic(auto, unfolding(crate::specs::Walk::annotation_end))]
fn annotation_at(pool: &Pool, bytes: &[u8], at: usize, depth: u8) -> Result<usize, usize>
    ensures { result ≡ annotation_end pool.now (value_end depth pool.now bytes.now) bytes.now at }
{
    let (_, at) = text_at(pool, bytes, at)?;
    pairs_at(pool, bytes, at, depth)
}

// The values of an array, behind their count.
#[cycle(values)]
#[tactic(auto, unfolding(crate::specs::Walk::values_end))]
fn values_at(pool: &Pool, bytes: &[u8], at: usize, depth: u8) -> Result<usize, usize>
    ensures { result ≡ values_end (value_end depth pool.now bytes.now) bytes.now at }
{
    let (count, start) = u2_at(bytes, at)?;
    let mut at = start;
    for _ in 0..count {
        at = value_at(pool, bytes, at, depth)?;
    }
    Ok(at)
}

// A value whose parts may nest so deep.
#[cycle(values)]
#[tactic(auto, unfolding(crate::specs::Walk::shape_end, crate::specs::Walk::tagged_end))]
fn shape_at(pool: &Pool, bytes: &[u8], at: usize, depth: u8) -> Result<usize, usize>
    ensures { result ≡ shape_end pool.now (value_end depth pool.now bytes.now) bytes.now at }
{
    let (tag, after) = u1_at(bytes, at)?;
    if is_single(tag) {
        single_at(bytes, after)
    } else if tag == b'e' {
        enum_at(bytes, after)
    } else if tag == b'@' {
        annotation_at(pool, bytes, after, depth)
    } else if tag == b'[' {
        values_at(pool, bytes, after, depth)
    } else {
        Err(at)
    }
}

/// A value.
#[cycle(values)]
#[tactic(auto, unfolding(crate::specs::Walk::value_end))]
pub fn value_at(pool: &Pool, bytes: &[u8], at: usize, depth: u8) -> Result<usize, usize>
    ensures { result ≡ value_end depth pool.now bytes.now at }
{
    if depth == 0 {
        return Err(at);
    }
    shape_at(pool, bytes, at, depth - 1)
}
