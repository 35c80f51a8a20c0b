//! Attributes, whose bytes are kept as they are (JVM Specification, Java SE 7, section 4.7).
ghost use Rattle.std.specs.Prelude.{◌≡◌};
ghost use Rattle.jmodel.specs.format.Reading.{Gives, items_at};
ghost use Rattle.jmodel.specs.format.ClassReading.{attribute_at as attribute, attributes_at as attributes};

use crate::class_file::Attribute;
use crate::fields::{run_at, u2_at, u4_at};
use crate::pool::Pool;
use jmodel::{Bytes, Halt};
use std::alloc::Global;

/// The attribute at a place, and the place after it. Its name is to be a Utf8.
#[tactic(auto, unfolding(jmodel::specs::format::ClassReading::attribute_at))]
pub fn attribute_at(
    alloc: Global,
    pool: &Pool,
    bytes: &[u8],
    at: usize,
) -> Result<(Attribute, usize), Halt>
    ensures { Gives (λ x. x) result (attribute pool.now bytes.now at) }
{
    let (name, at) = u2_at(bytes, at)?;
    let _ = pool.utf8_at(name)?;
    let (len, at) = u4_at(bytes, at)?;
    let (run, at) = run_at(bytes, at, len as usize)?;
    let bytes = Bytes::from_slice(alloc, run)?;
    Ok((Attribute { name, bytes }, at))
}

fn attribute_list(
    alloc: Global,
    pool: &Pool,
    bytes: &[u8],
    count: u16,
    start: usize,
) -> Result<(Vec<Attribute>, usize), Halt>
    ensures { Gives (λ x. (x.0.items, x.1)) result (items_at (attribute pool.now bytes.now) count start) }
{
    let mut items = Vec::new(alloc);
    let mut at = start;
    for _ in 0..count {
        let (item, after) = attribute_at(alloc, pool, bytes, at)?;
        items.push(item)?;
        at = after;
    }
    Ok((items, at))
}

/// The attributes at a place, behind their count, and the place after them.
#[tactic(auto, unfolding(jmodel::specs::format::ClassReading::attributes_at))]
pub fn attributes_at(
    alloc: Global,
    pool: &Pool,
    bytes: &[u8],
    at: usize,
) -> Result<(Vec<Attribute>, usize), Halt>
    ensures { Gives (λ x. (x.0.items, x.1)) result (attributes pool.now bytes.now at) }
{
    let (count, at) = u2_at(bytes, at)?;
    attribute_list(alloc, pool, bytes, count, at)
}
