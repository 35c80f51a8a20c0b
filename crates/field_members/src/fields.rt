//! The fields that are added: for each field its place, and one for the object of the class's static fields.
ghost use Rattle.std.specs.Prelude.{◌≡◌, suc, filter, length};
ghost use Rattle.std.specs.Int.{w64, cast_signed};
ghost use Rattle.objects.specs.linking.Members.{is_static as is_static_member};
ghost use Rattle.objects.specs.linking.StaticBases.{has_base as has_static};
ghost use Rattle.objects.specs.linking.Resolution.{is_interface as is_interface_class};
ghost use Rattle.member_code.specs.Growing.{Grows, Becomes, grow_from};
ghost use Rattle.field_members.specs.Fields.{added_field as field_of, constant_value as value, address_of as address, static_base as base, needs_base as wants_base, bases as base_if, added_fields as all_fields, with_fields};

use crate::names::address_name;
use const_pool::{Attribute, ClassFile, Member, Pool};
use hierarchy::Field;
use jmodel::{Bytes, Halt};
use member_code::bytes::{high, low};
use member_code::members::{alone, typed_name};
use std::alloc::Global;

// A public static final synthetic field.
fn added_field(named: (u16, u16), attributes: Vec<Attribute>) -> Member
    ensures { result ≡ field_of named attributes.items }
{
    let (name, descriptor) = named;
    Member {
        flags: 0x1019,
        name,
        descriptor,
        attributes,
    }
}

// The attribute that gives a field its constant.
#[tactic(auto, unfolding(crate::specs::Fields::constant_value))]
fn constant_value(alloc: Global, pool: &mut Pool, n: i64) -> Result<Attribute, Halt>
    ensures { Grows (λ a. a) result pool.new (value n pool.old) }
{
    let name = pool.add_utf8(b"ConstantValue")?;
    let value = pool.add_long(n)?;
    let bytes = Bytes::from_slice(alloc, &[high(value), low(value)])?;
    Ok(Attribute { name, bytes })
}

// How far the word of a field lies behind the header of its object.
fn distance(field: &Field) -> i64
    ensures { result ≡ cast_signed w64 (suc field.now.index) }
{
    field.index.saturating_add(1).cast_signed()
}

// `f__ADDRESS__` of type J, whose constant is the field's place.
#[tactic(auto, unfolding(crate::specs::Fields::address_of))]
fn address_of(alloc: Global, pool: &mut Pool, field: &Field) -> Result<Member, Halt>
    ensures { Grows (λ m. m) result pool.new (address field.now pool.old) }
{
    let name = address_name(alloc, field)?;
    let named = typed_name(pool, name.as_slice(), b"J")?;
    let value = constant_value(alloc, pool, distance(field))?;
    Ok(added_field(named, alone(alloc, value)?))
}

// `__CLASS_BASE__` of type Object.
#[tactic(auto, unfolding(crate::specs::Fields::static_base))]
fn static_base(alloc: Global, pool: &mut Pool) -> Result<Member, Halt>
    ensures { Grows (λ m. m) result pool.new (base pool.old) }
{
    let named = typed_name(pool, b"__CLASS_BASE__", b"Ljava/lang/Object;")?;
    Ok(added_field(named, Vec::new(alloc)))
}

fn is_static(field: &Member) -> bool
    ensures { result ≡ is_static_member field.now }
{
    field.flags & 8 != 0
}

// How many of the fields are static.
fn count_statics(fields: &[Member]) -> usize
    ensures { result ≡ length (filter is_static_member fields.now) }
{
    fields.iter().filter(|f| is_static(f)).count()
}

fn has_base(class: &ClassFile) -> bool
    ensures { result ≡ has_static class.now }
{
    count_statics(class.fields.as_slice()) != 0
}

fn is_interface(class: &ClassFile) -> bool
    ensures { result ≡ is_interface_class class.now }
{
    class.flags & 0x200 != 0
}

fn needs_base(class: &ClassFile) -> bool
    ensures { result ≡ wants_base class.now }
{
    has_base(class) && !is_interface(class)
}

fn add_addresses(alloc: Global, pool: &mut Pool, fields: &[Field]) -> Result<Vec<Member>, Halt>
    ensures { Grows (λ v. v.items) result pool.new (grow_from (λ n f. address f) 0 fields.now pool.old) }
{
    let mut members = Vec::new(alloc);
    for field in fields {
        members.push(address_of(alloc, pool, field)?)?;
    }
    Ok(members)
}

fn add_static_base(alloc: Global, pool: &mut Pool, based: bool) -> Result<Vec<Member>, Halt>
    ensures { Grows (λ v. v.items) result pool.new (base_if based pool.old) }
{
    let mut members = Vec::new(alloc);
    if based {
        members.push(static_base(alloc, pool)?)?;
    }
    Ok(members)
}

#[tactic(auto, unfolding(crate::specs::Fields::added_fields))]
fn added_fields(
    alloc: Global,
    pool: &mut Pool,
    fields: &[Field],
    based: bool,
) -> Result<Vec<Member>, Halt>
    ensures { Grows (λ v. v.items) result pool.new (all_fields fields.now based pool.old) }
{
    let mut members = add_addresses(alloc, pool, fields)?;
    let mut base = add_static_base(alloc, pool, based)?;
    members.append(&mut base)?;
    Ok(members)
}

/// Adds to a class an address for each of its fields, which are these as the program has them, in the order of its file, and then the
/// static base where it is no interface and has a static field. Refused as PoolFull, without the class's name, where the count of the
/// class's pool would pass 65535 or a name would have more than 65535 bytes (JVM Specification, Java SE 7, sections 4.1 and 4.4.7).
pub fn add_fields(alloc: Global, fields: &[Field], class: &mut ClassFile) -> Result<(), Halt>
    ensures { Becomes result class.new (with_fields fields.now class.old) }
{
    let based = needs_base(class);
    let mut added = added_fields(alloc, &mut class.pool, fields, based)?;
    class.fields.append(&mut added)?;
    Ok(())
}
