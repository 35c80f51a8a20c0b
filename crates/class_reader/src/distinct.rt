//! No two fields, and no two methods, have one name and one descriptor (JVM Specification, Java SE 7, sections 4.5 and
//! 4.6). Texts are numbered first, so that each is compared with few others, however many members name it.
ghost use Rattle.std.specs.Prelude.{◌≡◌, ℕ, List, length, IfOk, OnOk, ◌<◌, ◌≤◌, [], ◌∷◌, ◌++◌};
ghost use Rattle.jmodel.specs.format.Reading.{Gives, Fails};
ghost use Rattle.jmodel.specs.format.ClassFileReading.{distinct as distinct_from, full_name as full_name_of};
ghost use Rattle.class_reader.specs.Numbers.{number_known, number_for, or_at, is_text, numbers_of, number_at as number_of_index, key_of as key_of_member, AreNamed};
ghost use Rattle.class_reader.specs.Heads.{no_method as no_unit};
ghost use Rattle.jmodel.specs.declared.refusal.Refusal.TheVariants.{Doubled};

use crate::members::full_name;
use const_pool::{Constant, Member, Pool};
use jmodel::{Halt, Refusal};
use std::alloc::{AllocError, Global};
use std::collections::{BTreeMap, BTreeSet};

// The number of an entry's text: that which is known, or the next, which is then known.
fn entry_number<'a>(
    known: &mut BTreeMap<&'a [u8], u16>,
    entry: &'a Constant,
    next: u16,
) -> Result<u16, AllocError>
    ensures number { IfOk result (λ n. n ≡ number_for (number_known known.old) entry.now next) }
    ensures known { OnOk result ((q : List ℕ) → number_known known.new q ≡ or_at (number_known known.old q) (is_text q entry.now) next) }
{
    let Constant::Utf8(text) = entry else {
        return Ok(0);
    };
    let bytes = text.as_slice();
    match known.get(bytes) {
        Some(number) => Ok(*number),
        None => {
            known.insert(bytes, next)?;
            Ok(next)
        }
    }
}

// For each entry the first index, from 0, of an entry with its text.
fn text_numbers(alloc: Global, pool: &Pool) -> Result<Vec<u16>, AllocError>
    requires { length pool.now ≤ 65536 }
    ensures { IfOk result (λ v. v.items ≡ numbers_of pool.now) }
{
    let mut known: BTreeMap<&[u8], u16> = BTreeMap::new(alloc);
    let mut numbers = Vec::new(alloc);
    let entries = pool.entries();
    for i in 0..entries.len() {
        let number = entry_number(&mut known, &entries[i], i as u16)?;
        numbers.push(number)?;
    }
    Ok(numbers)
}

fn number_at(numbers: &[u16], i: u16) -> u16
    ensures { result ≡ number_of_index numbers.now i }
{
    if i == 0 {
        return 0;
    }
    match numbers.get(i as usize - 1) {
        Some(number) => *number,
        None => 0,
    }
}

fn key_of(numbers: &[u16], m: &Member) -> u32
    ensures { result ≡ key_of_member numbers.now m.now }
{
    u32::from(number_at(numbers, m.name)) * 65536 + u32::from(number_at(numbers, m.descriptor))
}

fn doubled(alloc: Global, pool: &Pool, m: &Member) -> Halt
    ensures { Fails result (no_unit (Doubled (full_name_of pool.now m.now.name m.now.descriptor))) }
{
    match full_name(alloc, pool, m.name, m.descriptor) {
        Ok(name) => Halt::Refused(Refusal::Doubled(name)),
        Err(_) => Halt::NoMemory,
    }
}

/// Refuses the first member that has name and descriptor of an earlier one, as Doubled.
pub fn distinct(alloc: Global, pool: &Pool, members: &[Member]) -> Result<(), Halt>
    requires few { length pool.now ≤ 65536 }
    requires named { AreNamed pool.now members.now }
    ensures { Gives (λ x. x) result (distinct_from pool.now [] members.now) }
{
    let numbers = text_numbers(alloc, pool)?;
    let mut seen = BTreeSet::new(alloc);
    for m in members {
        if !seen.insert(key_of(&numbers, m))? {
            return Err(doubled(alloc, pool, m));
        }
    }
    Ok(())
}
