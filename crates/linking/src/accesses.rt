//! Accesses to fields (JVM Specification, Java SE 7, section 6.5: getstatic, putstatic, getfield, putfield).
ghost use Rattle.std.specs.Prelude.{◌≡◌, find, option_copied, option_and_then, IfOk};
ghost use Rattle.jmodel.specs.format.Pool.{field_name};
ghost use Rattle.objects.specs.linking.Members.{is_member as is_member_of};
ghost use Rattle.objects.specs.linking.Decoding.{added_address as address_of, is_base as is_base_of, get_static_op as get_static, field_op as accessed};

use crate::symbols::Symbols;
use crate::text::equal;
use bytecode::opcodes;
use const_pool::{ClassFile, Member, Pool};
use hierarchy::constants::long_value;
use hierarchy::reference::{Reference, field_reference};
use hierarchy::symbols::{is_text, own_name};
use jmodel::value::Value;
use objects::op::Op;
use std::alloc::{AllocError, Global};

fn is_member(pool: &Pool, name: &[u8], descriptor: &[u8], member: &Member) -> bool
    ensures { result ≡ is_member_of pool.now name.now descriptor.now member.now }
{
    is_text(pool.utf8(member.name), name) && is_text(pool.utf8(member.descriptor), descriptor)
}

// The first member of this name and descriptor.
fn find_member<'a>(
    pool: &Pool,
    name: &[u8],
    descriptor: &[u8],
    list: &'a [Member],
) -> Option<&'a Member>
    ensures { option_copied result ≡ find (is_member_of pool.now name.now descriptor.now) list.now }
{
    list.iter().find(|m| is_member(pool, name, descriptor, m))
}

// The constant of a class's own long field, which rewriting added.
fn added_address(class: &ClassFile, r: &Reference) -> Option<i64>
    ensures { result ≡ address_of class.now r.now }
{
    if !(equal(r.class, own_name(class)) && equal(r.descriptor, b"J")) {
        return None;
    }
    let field = find_member(&class.pool, r.name, b"J", class.fields.as_slice())?;
    long_value(&class.pool, field)
}

// Whether it is the added field that holds the object of the class's static fields.
fn is_base(class: &ClassFile, r: &Reference) -> bool
    ensures { result ≡ is_base_of class.now r.now }
{
    equal(r.name, b"__CLASS_BASE__")
        && equal(r.descriptor, b"Ljava/lang/Object;")
        && equal(r.class, own_name(class))
}

// A static field; in rewritten code also one that rewriting added, which is a constant.
fn get_static_op<'a>(symbols: &Symbols<'_, 'a>, r: &Reference<'a>) -> Option<Op>
    ensures { result ≡ get_static symbols.now r.now }
{
    if let Some(number) = symbols.field_number(r) {
        Some(Op::GetStatic(number))
    } else if let Some(address) = added_address(symbols.class, r) {
        Some(Op::Constant(Value::Long(address)))
    } else if is_base(symbols.class, r) {
        Some(Op::Constant(Value::Ref(symbols.base)))
    } else {
        None
    }
}

fn put_static_op<'a>(symbols: &Symbols<'_, 'a>, r: &Reference<'a>) -> Option<Op>
    ensures { result ≡ accessed symbols.now 179 r.now }
{
    Some(Op::PutStatic(symbols.field_number(r)?))
}

fn get_field_op<'a>(
    alloc: Global,
    symbols: &Symbols<'_, 'a>,
    r: &Reference<'a>,
) -> Result<Option<Op>, AllocError>
    ensures { IfOk result (λ o. o ≡ accessed symbols.now 180 r.now) }
{
    let Some(field) = symbols.field_number(r) else {
        return Ok(None);
    };
    let class = symbols.class_read(alloc, r.class)?;
    Ok(Some(Op::GetField { field, class }))
}

fn put_field_op<'a>(
    alloc: Global,
    symbols: &Symbols<'_, 'a>,
    r: &Reference<'a>,
) -> Result<Option<Op>, AllocError>
    ensures { IfOk result (λ o. o ≡ accessed symbols.now 181 r.now) }
{
    let Some(field) = symbols.field_number(r) else {
        return Ok(None);
    };
    let class = symbols.class_read(alloc, r.class)?;
    Ok(Some(Op::PutField { field, class }))
}

// An opcode from getstatic to putfield.
fn field_op<'a>(
    alloc: Global,
    symbols: &Symbols<'_, 'a>,
    opcode: u8,
    r: &Reference<'a>,
) -> Result<Option<Op>, AllocError>
    ensures { IfOk result (λ o. o ≡ accessed symbols.now opcode r.now) }
{
    match opcode {
        opcodes::GETSTATIC => Ok(get_static_op(symbols, r)),
        opcodes::PUTSTATIC => Ok(put_static_op(symbols, r)),
        opcodes::GETFIELD => get_field_op(alloc, symbols, r),
        opcodes::PUTFIELD => put_field_op(alloc, symbols, r),
        _ => Ok(None),
    }
}

/// What an access to the field of an index of the pool means.
pub fn field_at(
    alloc: Global,
    symbols: &Symbols,
    opcode: u8,
    i: u16,
) -> Result<Option<Op>, AllocError>
    ensures { IfOk result (λ o. o ≡ option_and_then (accessed symbols.now opcode) (field_name symbols.now.class.pool i)) }
{
    let class = symbols.class;
    match field_reference(&class.pool, i) {
        Some(found) => field_op(alloc, symbols, opcode, &found),
        None => Ok(None),
    }
}
