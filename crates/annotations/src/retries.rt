//! The mark's pairs: how many attempts it grants.
ghost use Rattle.std.specs.Prelude.{◌≡◌, is_none, None, ◌&&◌};
ghost use Rattle.annotations.specs.Walk.{int_end, mark_pair_end, mark_pairs_end, mark_end, value_end};

use crate::DEEPEST;
use crate::fields::{is_text, text_at, u1_at, u2_at};
use crate::values::value_at;
use const_pool::{Constant, Pool};

// An int's value: the tag I, and the index of an Integer.
#[tactic(auto, unfolding(crate::specs::Walk::int_end))]
fn int_at(pool: &Pool, bytes: &[u8], at: usize) -> Result<(i32, usize), usize>
    ensures { result ≡ int_end pool.now bytes.now at }
{
    let (tag, start) = u1_at(bytes, at)?;
    if tag != b'I' {
        return Err(at);
    }
    let (index, after) = u2_at(bytes, start)?;
    match pool.entry(index) {
        Some(Constant::Integer(n)) => Ok((*n, after)),
        _ => Err(start),
    }
}

// The next pair, with the number of the first that is named retries.
#[tactic(auto, unfolding(crate::specs::Walk::mark_pair_end))]
fn mark_pair_at(
    pool: &Pool,
    bytes: &[u8],
    found: Option<i32>,
    at: usize,
) -> Result<(Option<i32>, usize), usize>
    ensures { result ≡ mark_pair_end pool.now (value_end 16 pool.now bytes.now) bytes.now (found, at) }
{
    let (name, start) = text_at(pool, bytes, at)?;
    if found.is_none() && is_text(pool, b"retries", name) {
        let (n, after) = int_at(pool, bytes, start)?;
        Ok((Some(n), after))
    } else {
        let after = value_at(pool, bytes, start, DEEPEST)?;
        Ok((found, after))
    }
}

// The pairs behind their count, with the number of the first that is named retries.
#[tactic(auto, unfolding(crate::specs::Walk::mark_pairs_end))]
fn mark_pairs_at(pool: &Pool, bytes: &[u8], at: usize) -> Result<(Option<i32>, usize), usize>
    ensures { result ≡ mark_pairs_end pool.now (value_end 16 pool.now bytes.now) bytes.now at }
{
    let (count, start) = u2_at(bytes, at)?;
    let mut found = None;
    let mut at = start;
    for _ in 0..count {
        let (next, after) = mark_pair_at(pool, bytes, found, at)?;
        found = next;
        at = after;
    }
    Ok((found, at))
}

/// How many attempts the mark grants whose pairs stand at a place, behind their count, and the place after them.
#[tactic(auto, unfolding(crate::specs::Walk::mark_end))]
pub fn mark_at(pool: &Pool, bytes: &[u8], at: usize) -> Result<(i32, usize), usize>
    ensures { result ≡ mark_end pool.now (value_end 16 pool.now bytes.now) bytes.now at }
{
    let (found, after) = mark_pairs_at(pool, bytes, at)?;
    Ok((found.unwrap_or(i32::MAX), after))
}
