//! Methods, with their Code where it stands (JVM Specification, Java SE 7, sections 4.6 and 4.7.3).
ghost use Rattle.std.specs.Prelude.{◌≡◌, false, codes};
ghost use Rattle.jmodel.specs.format.Reading.{Gives, Fails, items_at};
ghost use Rattle.jmodel.specs.format.ClassRules.{is_named as named, has_no_code as no_code};
ghost use Rattle.jmodel.specs.format.ClassFileReading.{judge as judged, method_attribute_at as method_attribute, method_attributes_at as method_attributes, method_at as method, full_name as name_of};
ghost use Rattle.const_pool.specs.Uses.{uses_of};
ghost use Rattle.class_reader.specs.Heads.{no_method};
ghost use Rattle.jmodel.specs.declared.refusal.Refusal.TheVariants.{BadCode};

use crate::members::{MemberHead, full_name, member_head_at};
use const_pool::fields::u2_at;
use const_pool::{Attribute, Code, Descriptors, Member, Pool, attribute_at};
use jmodel::{Halt, Refusal};
use std::alloc::Global;

fn is_named_code(pool: &Pool, a: &Attribute) -> bool
    ensures { result ≡ named pool.now (codes "Code") a.now }
{
    match pool.utf8(a.name) {
        Some(name) => name.as_slice() == b"Code".as_slice(),
        None => false,
    }
}

// Whether a method of these flags, native or abstract ones, has no code.
fn has_no_code(flags: u16) -> bool
    ensures { result ≡ no_code flags }
{
    flags & 0x500 != 0
}

fn bad_code(alloc: Global, pool: &Pool, head: MemberHead) -> Halt
    ensures { Fails result (no_method (BadCode (name_of pool.now head.name head.descriptor))) }
{
    match full_name(alloc, pool, head.name, head.descriptor) {
        Ok(name) => Halt::Refused(Refusal::BadCode(name)),
        Err(_) => Halt::NoMemory,
    }
}

// Whether a Code attribute of the method is found by now. There is one, in its form, where the method has code.
fn judge(
    alloc: Global,
    pool: &Pool,
    head: MemberHead,
    none: bool,
    found: bool,
    a: &Attribute,
) -> Result<bool, Halt>
    ensures { Gives (λ x. x) result (judged pool.now none (name_of pool.now head.name head.descriptor) found a.now) }
{
    if !is_named_code(pool, a) {
        return Ok(found);
    }
    if none || found {
        return Err(bad_code(alloc, pool, head));
    }
    match Code::read(alloc, pool, a.bytes.as_slice()) {
        None => Err(bad_code(alloc, pool, head)),
        Some(Err(_)) => Err(Halt::NoMemory),
        Some(Ok(_)) => Ok(true),
    }
}

fn attribute_list(
    alloc: Global,
    pool: &Pool,
    head: MemberHead,
    none: bool,
    bytes: &[u8],
    count: u16,
    start: usize,
) -> Result<(Vec<Attribute>, bool, usize), Halt>
    ensures { Gives (λ x. (x.0.items, record { found = x.1; at = x.2 })) result (items_at (method_attribute pool.now none (name_of pool.now head.name head.descriptor) bytes.now) count (record { found = false; at = start })) }
{
    let mut items = Vec::new(alloc);
    let mut at = start;
    let mut found = false;
    for _ in 0..count {
        let (item, after) = attribute_at(alloc, pool, bytes, at)?;
        found = judge(alloc, pool, head, none, found, &item)?;
        items.push(item)?;
        at = after;
    }
    Ok((items, found, at))
}

#[tactic(auto, unfolding(jmodel::specs::format::ClassFileReading::method_attributes_at))]
fn method_attributes_at(
    alloc: Global,
    pool: &Pool,
    head: MemberHead,
    none: bool,
    bytes: &[u8],
    at: usize,
) -> Result<(Vec<Attribute>, usize), Halt>
    ensures { Gives (λ x. (x.0.items, x.1)) result (method_attributes pool.now none (name_of pool.now head.name head.descriptor) bytes.now at) }
{
    let (count, at) = u2_at(bytes, at)?;
    let (attributes, found, after) = attribute_list(alloc, pool, head, none, bytes, count, at)?;
    if none || found {
        return Ok((attributes, after));
    }
    Err(bad_code(alloc, pool, head))
}

/// A method, and the place after it.
#[tactic(auto, unfolding(jmodel::specs::format::ClassFileReading::method_at))]
pub fn method_at(
    alloc: Global,
    pool: &Pool,
    known: &Descriptors,
    bytes: &[u8],
    at: usize,
) -> Result<(Member, usize), Halt>
    requires { known.now ≡ uses_of pool.now }
    ensures { Gives (λ x. x) result (method pool.now bytes.now at) }
{
    let (head, at) = member_head_at(pool, known, true, bytes, at)?;
    let none = has_no_code(head.flags);
    let (attributes, after) = method_attributes_at(alloc, pool, head, none, bytes, at)?;
    let member = Member {
        flags: head.flags,
        name: head.name,
        descriptor: head.descriptor,
        attributes,
    };
    Ok((member, after))
}
