//! Calls of methods (JVM Specification, Java SE 7, section 6.5: invokevirtual, invokespecial, invokestatic, invokeinterface).
ghost use Rattle.std.specs.Prelude.{◌≡◌, bytes_eq, option_map, option_and_then, IfOk};
ghost use Rattle.jmodel.specs.format.Pool.{member_name};
ghost use Rattle.objects.specs.linking.Decoding.{static_call_op as static_call, special_call_op as special_call, interface_call_op as interface_call, virtual_call_op as virtual_call, call_op as called, context_call as call_of_context, method_number as number_of_method};
ghost use Rattle.objects.specs.declared.op.Op.TheVariants.{Context, InvokeVirtual};
ghost use Rattle.objects.specs.typing.TypeOrder.{context_class};
ghost use Rattle.objects.specs.linking.Layout.{class_read as class_as_read};

use crate::context::{context_call, is_get_context};
use crate::functions::{function_op, parameter_places};
use crate::symbols::Symbols;
use crate::text::equal;
use bytecode::opcodes;
use hierarchy::library::{is_library_constructor, is_library_function};
use hierarchy::reference::{Reference, member_reference};
use jmodel::{Bytes, NoMemory};
use objects::op::Op;
use std::alloc::{AllocError, Global};

fn static_call_op<'a>(symbols: &Symbols<'_, 'a>, r: &Reference<'a>) -> Option<Op>
    ensures { result ≡ static_call symbols.now r.now }
{
    if is_get_context(r) {
        Some(Op::GetContext)
    } else if is_library_function(r) {
        Some(function_op(r))
    } else {
        Some(Op::InvokeStatic(symbols.method_number(r)?))
    }
}

// A constructor of the library, or the method that invokespecial runs.
fn special_call_op<'a>(
    alloc: Global,
    symbols: &Symbols<'_, 'a>,
    r: &Reference<'a>,
) -> Result<Option<Op>, NoMemory>
    ensures { IfOk result (λ o. o ≡ special_call symbols.now r.now) }
{
    if is_library_constructor(r) {
        let Some(places) = parameter_places(alloc, r.descriptor)? else {
            return Ok(None);
        };
        let class = Bytes::from_slice(alloc, r.class)?;
        return Ok(Some(Op::InitLibrary { class, places }));
    }
    match symbols.special_number(r) {
        Some(number) => Ok(Some(Op::InvokeSpecial(number))),
        None => Ok(None),
    }
}

fn interface_call_op<'a>(
    alloc: Global,
    symbols: &Symbols<'_, 'a>,
    r: &Reference<'a>,
) -> Result<Option<Op>, AllocError>
    ensures { IfOk result (λ o. o ≡ interface_call symbols.now r.now) }
{
    let Some(method) = symbols.method_number(r) else {
        return Ok(None);
    };
    let interface = Bytes::from_slice(alloc, r.class)?;
    Ok(Some(Op::InvokeInterface { method, interface }))
}

// Whether it is a method of a transaction's context.
fn is_of_context(r: &Reference) -> bool
    ensures { result ≡ bytes_eq r.now.class context_class }
{
    equal(r.class, b"org/deuce/transaction/Context")
}

fn context_op(r: &Reference) -> Option<Op>
    ensures { result ≡ option_map Context (call_of_context r.now) }
{
    match context_call(r) {
        Some(call) => Some(Op::Context(call)),
        None => None,
    }
}

// A call of a method of an object, by the class that it names.
fn object_call_op<'a>(
    alloc: Global,
    symbols: &Symbols<'_, 'a>,
    r: &Reference<'a>,
) -> Result<Option<Op>, AllocError>
    ensures { IfOk result (λ o. o ≡ option_map (λ m. InvokeVirtual m (class_as_read symbols.now.classes r.now.class)) (number_of_method symbols.now r.now)) }
{
    let Some(method) = symbols.method_number(r) else {
        return Ok(None);
    };
    let class = symbols.class_read(alloc, r.class)?;
    Ok(Some(Op::InvokeVirtual { method, class }))
}

fn virtual_call_op<'a>(
    alloc: Global,
    symbols: &Symbols<'_, 'a>,
    r: &Reference<'a>,
) -> Result<Option<Op>, AllocError>
    ensures { IfOk result (λ o. o ≡ virtual_call symbols.now r.now) }
{
    if is_of_context(r) {
        Ok(context_op(r))
    } else {
        object_call_op(alloc, symbols, r)
    }
}

// An opcode from invokevirtual to invokeinterface.
fn call_op<'a>(
    alloc: Global,
    symbols: &Symbols<'_, 'a>,
    opcode: u8,
    r: &Reference<'a>,
) -> Result<Option<Op>, NoMemory>
    ensures { IfOk result (λ o. o ≡ called symbols.now opcode r.now) }
{
    match opcode {
        opcodes::INVOKEVIRTUAL => Ok(virtual_call_op(alloc, symbols, r)?),
        opcodes::INVOKESPECIAL => special_call_op(alloc, symbols, r),
        opcodes::INVOKESTATIC => Ok(static_call_op(symbols, r)),
        opcodes::INVOKEINTERFACE => Ok(interface_call_op(alloc, symbols, r)?),
        _ => Ok(None),
    }
}

// The names of the method of an index of the class's pool.
fn named_member<'a>(symbols: &Symbols<'_, 'a>, i: u16) -> Option<Reference<'a>>
    ensures { result ≡ member_name symbols.now.class.pool i }
{
    let class = symbols.class;
    member_reference(&class.pool, i)
}

/// What a call of the method of an index of the pool means.
pub fn call_at(alloc: Global, symbols: &Symbols, opcode: u8, i: u16) -> Result<Option<Op>, NoMemory>
    ensures { IfOk result (λ o. o ≡ option_and_then (called symbols.now opcode) (member_name symbols.now.class.pool i)) }
{
    match named_member(symbols, i) {
        Some(found) => call_op(alloc, symbols, opcode, &found),
        None => Ok(None),
    }
}
