//! What stands before and behind the pool: the magic number and the version, then the class's own names.
ghost use Rattle.std.specs.Prelude.{◌≡◌, ◌==◌};
ghost use Rattle.std.specs.List.{list_any};
ghost use Rattle.jmodel.specs.format.Reading.{Gives, items_at};
ghost use Rattle.jmodel.specs.format.ClassFileReading.{magic_at as magic, version_at as version, is_class_name as class_name, class_index_at as class_index, this_at as this, interfaces_at as interfaces, head_at as head};

use const_pool::fields::{u2_at, u4_at};
use const_pool::{Pool, is_array_name};
use jmodel::{Halt, Refusal};
use std::alloc::Global;
use std::marker::Model;

/// What a class is, above and beside which classes.
#[derive(Drop)]
pub struct Head {
    pub flags: u16,
    pub this_class: u16,
    pub super_class: u16,
    pub interfaces: Vec<u16>,
}

impl Model for Head {
    ghost use Rattle.jmodel.specs.format.ClassFileReading.{Head as Form};

    ghost Value = { Form };

    ghost view = { λ h. record { flags = h.flags; this_class = h.this_class; super_class = h.super_class; interfaces = h.interfaces.items } };
}

// The place after the magic number.
#[tactic(auto, unfolding(jmodel::specs::format::ClassFileReading::magic_at))]
pub fn magic_at(bytes: &[u8]) -> Result<usize, Halt>
    ensures { Gives (λ x. x) result (magic bytes.now) }
{
    let (magic, after) = u4_at(bytes, 0)?;
    if magic == 0xcafe_babe {
        Ok(after)
    } else {
        Err(Halt::Refused(Refusal::BadMagic))
    }
}

// The minor number of a class of version 49, and the place after the version.
#[tactic(auto, unfolding(jmodel::specs::format::ClassFileReading::version_at))]
pub fn version_at(bytes: &[u8], at: usize) -> Result<(u16, usize), Halt>
    ensures { Gives (λ x. x) result (version bytes.now at) }
{
    let (minor, at) = u2_at(bytes, at)?;
    let (major, after) = u2_at(bytes, at)?;
    if major == 49 {
        Ok((minor, after))
    } else {
        Err(Halt::Refused(Refusal::BadVersion(major as i64)))
    }
}

fn has_semicolon(name: &[u8]) -> bool
    ensures { result ≡ list_any (λ c. c == 59) name.now }
{
    name.iter().any(|c| *c == b';')
}

fn is_class_name(name: &[u8]) -> bool
    ensures { result ≡ class_name name.now }
{
    !name.is_empty() && !has_semicolon(name) && !is_array_name(name)
}

#[tactic(auto, unfolding(jmodel::specs::format::ClassFileReading::class_index_at))]
fn class_index_at(pool: &Pool, bytes: &[u8], at: usize) -> Result<(u16, usize), Halt>
    ensures { Gives (λ x. x) result (class_index pool.now bytes.now at) }
{
    let (i, after) = u2_at(bytes, at)?;
    let _ = pool.class_at(i)?;
    Ok((i, after))
}

// A Class that can be this one. One of another name is of a wrong kind.
#[tactic(auto, unfolding(jmodel::specs::format::ClassFileReading::this_at))]
fn this_at(pool: &Pool, bytes: &[u8], at: usize) -> Result<(u16, usize), Halt>
    ensures { Gives (λ x. x) result (this pool.now bytes.now at) }
{
    let (i, after) = class_index_at(pool, bytes, at)?;
    match pool.class_name(i) {
        Some(name) if is_class_name(name.as_slice()) => Ok((i, after)),
        _ => Err(Halt::Refused(Refusal::WrongKind(i as i64))),
    }
}

fn interface_list(
    alloc: Global,
    pool: &Pool,
    bytes: &[u8],
    count: u16,
    start: usize,
) -> Result<(Vec<u16>, usize), Halt>
    ensures { Gives (λ x. (x.0.items, x.1)) result (items_at (class_index pool.now bytes.now) count start) }
{
    let mut items = Vec::new(alloc);
    let mut at = start;
    for _ in 0..count {
        let (item, after) = class_index_at(pool, bytes, at)?;
        items.push(item)?;
        at = after;
    }
    Ok((items, at))
}

#[tactic(auto, unfolding(jmodel::specs::format::ClassFileReading::interfaces_at))]
fn interfaces_at(
    alloc: Global,
    pool: &Pool,
    bytes: &[u8],
    at: usize,
) -> Result<(Vec<u16>, usize), Halt>
    ensures { Gives (λ x. (x.0.items, x.1)) result (interfaces pool.now bytes.now at) }
{
    let (count, at) = u2_at(bytes, at)?;
    interface_list(alloc, pool, bytes, count, at)
}

#[tactic(auto, unfolding(jmodel::specs::format::ClassFileReading::head_at))]
pub fn head_at(alloc: Global, pool: &Pool, bytes: &[u8], at: usize) -> Result<(Head, usize), Halt>
    ensures { Gives (λ x. x) result (head pool.now bytes.now at) }
{
    let (flags, at) = u2_at(bytes, at)?;
    let (this_class, at) = this_at(pool, bytes, at)?;
    let (super_class, at) = class_index_at(pool, bytes, at)?;
    let (interfaces, after) = interfaces_at(alloc, pool, bytes, at)?;
    let head = Head {
        flags,
        this_class,
        super_class,
        interfaces,
    };
    Ok((head, after))
}
