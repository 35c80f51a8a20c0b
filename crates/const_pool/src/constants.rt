//! The entries of a constant pool, as they are spelled (JVM Specification, Java SE 7, section 4.4).
ghost use Rattle.std.specs.Prelude.{◌≡◌, IfOk, length, position};
ghost use Rattle.jmodel.specs.format.Reading.{Gives};
ghost use Rattle.jmodel.specs.format.ClassRules.{is_wide as wide};
ghost use Rattle.jmodel.specs.format.PoolReading.{is_bad_byte as bad, text_at as text, word_at as word, wide_at as double_word, index_at as index, pair_at as pair, tagged_at as tagged, constant_at as constant, entry_if as entry, entries_at as all_entries};

use crate::fields::{offset, run_at, u1_at, u2_at, u4_at, u8_at};
use jmodel::{Bytes, Constant, Halt, Refusal};
use std::alloc::Global;

fn is_bad_byte(b: u8) -> bool
    ensures { result ≡ bad b }
{
    b == 0 || b > 239
}

// The place of the first byte that may not stand in a text.
fn first_bad_byte(text: &[u8]) -> Option<usize>
    ensures { result ≡ position bad text.now }
{
    text.iter().position(|b| is_bad_byte(*b))
}

#[tactic(auto, unfolding(jmodel::specs::format::PoolReading::text_at))]
fn text_at(alloc: Global, bytes: &[u8], at: usize) -> Result<(Constant, usize), Halt>
    ensures { Gives (λ x. x) result (text bytes.now at) }
{
    let (len, start) = u2_at(bytes, at)?;
    let (run, after) = run_at(bytes, start, len as usize)?;
    if let Some(i) = first_bad_byte(run) {
        return Err(Halt::Refused(Refusal::BadUtf8(offset(start + i))));
    }
    Ok((Constant::Utf8(Bytes::from_slice(alloc, run)?), after))
}

#[tactic(auto, unfolding(jmodel::specs::format::PoolReading::word_at))]
fn word_at(tag: u8, bytes: &[u8], at: usize) -> Result<(Constant, usize), Halt>
    ensures { Gives (λ x. x) result (word tag bytes.now at) }
{
    let (n, after) = u4_at(bytes, at)?;
    let entry = if tag == 3 {
        Constant::Integer(n.cast_signed())
    } else {
        Constant::Float(n)
    };
    Ok((entry, after))
}

#[tactic(auto, unfolding(jmodel::specs::format::PoolReading::wide_at))]
fn wide_at(tag: u8, bytes: &[u8], at: usize) -> Result<(Constant, usize), Halt>
    ensures { Gives (λ x. x) result (double_word tag bytes.now at) }
{
    let (n, after) = u8_at(bytes, at)?;
    let entry = if tag == 5 {
        Constant::Long(n.cast_signed())
    } else {
        Constant::Double(n)
    };
    Ok((entry, after))
}

#[tactic(auto, unfolding(jmodel::specs::format::PoolReading::index_at))]
fn index_at(tag: u8, bytes: &[u8], at: usize) -> Result<(Constant, usize), Halt>
    ensures { Gives (λ x. x) result (index tag bytes.now at) }
{
    let (i, after) = u2_at(bytes, at)?;
    let entry = if tag == 7 {
        Constant::Class(i)
    } else {
        Constant::Text(i)
    };
    Ok((entry, after))
}

#[tactic(auto, unfolding(jmodel::specs::format::PoolReading::pair_at))]
fn pair_at(tag: u8, bytes: &[u8], at: usize) -> Result<(Constant, usize), Halt>
    ensures { Gives (λ x. x) result (pair tag bytes.now at) }
{
    let (first, at) = u2_at(bytes, at)?;
    let (second, after) = u2_at(bytes, at)?;
    let entry = match tag {
        9 => Constant::Field {
            class: first,
            pair: second,
        },
        10 => Constant::Method {
            class: first,
            pair: second,
        },
        11 => Constant::InterfaceMethod {
            class: first,
            pair: second,
        },
        _ => Constant::NameAndType {
            name: first,
            descriptor: second,
        },
    };
    Ok((entry, after))
}

// An entry behind its tag, which stands at `start`.
#[tactic(auto, unfolding(jmodel::specs::format::PoolReading::tagged_at))]
fn tagged_at(
    alloc: Global,
    start: usize,
    left: u16,
    tag: u8,
    bytes: &[u8],
    at: usize,
) -> Result<(Constant, usize), Halt>
    ensures { Gives (λ x. x) result (tagged start left tag bytes.now at) }
{
    match tag {
        1 => text_at(alloc, bytes, at),
        3 | 4 => word_at(tag, bytes, at),
        5 | 6 if left > 0 => wide_at(tag, bytes, at),
        7 | 8 => index_at(tag, bytes, at),
        9..=12 => pair_at(tag, bytes, at),
        _ => Err(Halt::Refused(Refusal::BadTag(offset(start)))),
    }
}

// An entry, behind which `left` indexes are left.
#[tactic(auto, unfolding(jmodel::specs::format::PoolReading::constant_at))]
fn constant_at(alloc: Global, bytes: &[u8], left: u16, at: usize) -> Result<(Constant, usize), Halt>
    ensures { Gives (λ x. x) result (constant bytes.now left at) }
{
    let (tag, after) = u1_at(bytes, at)?;
    tagged_at(alloc, at, left, tag, bytes, after)
}

fn is_wide(c: &Constant) -> bool
    ensures { result ≡ wide c.now }
{
    matches!(c, Constant::Long(_) | Constant::Double(_))
}

// An entry, or the second place that is due.
fn entry_if(
    alloc: Global,
    due: bool,
    bytes: &[u8],
    left: u16,
    at: usize,
) -> Result<(Constant, usize), Halt>
    ensures { Gives (λ x. x) result (entry due bytes.now left at) }
{
    if due {
        return Ok((Constant::Second, at));
    }
    constant_at(alloc, bytes, left, at)
}

/// The entries up to the last index, and the place after them.
pub fn entries_at(
    alloc: Global,
    bytes: &[u8],
    last: u16,
    start: usize,
) -> Result<(Vec<Constant>, usize), Halt>
    ensures gives { Gives (λ x. (x.0.items, x.1)) result (all_entries bytes.now last start) }
    ensures few { IfOk result (λ x. length x.0.items ≡ last) }
{
    let mut entries = Vec::new(alloc);
    let mut at = start;
    let mut due = false;
    for i in 0..last {
        let (entry, after) = entry_if(alloc, due, bytes, last - i - 1, at)?;
        due = is_wide(&entry);
        entries.push(entry)?;
        at = after;
    }
    Ok((entries, at))
}
