//! What instructions that go by an object's class do to the types before them.
ghost use Rattle.std.specs.Prelude.{◌≡◌, ◌+◌, ◌^◌, ◌<◌, false, IfOk, bytes_eq, drop, length, option_copied, slice_get};
ghost use Rattle.objects.specs.declared.op.Op.TheVariants as op;
ghost use Rattle.objects.specs.typing.TypeOrder.{name_read};
ghost use Rattle.objects.specs.typing.Typing.{arguments, flow, is_received, puts, special};
ghost use Rattle.verifier.specs.Flows.{flow_of, is_at_most, is_put, object_flow};

use crate::building::{Site, init_library, invoke_constructor, is_constructor, make_new};
use crate::led::{Led, are_taken, leaves, ruled};
use crate::members::{arguments, called_rule, get_field_rule, rule_of, stack_types};
use crate::names::{equal, name_read};
use crate::order::is_below;
use hierarchy::{Field, Method, Program, TypeEntry};
use jmodel::VType;
use objects::op::Op;
use std::alloc::{AllocError, Global};

/// Whether an object is at most of the class that an instruction names.
fn is_received(program: &Program, class: &[u8], item: Option<&VType>) -> bool
    ensures { result ≡ is_received program.now class.now (option_copied item.entry) }
{
    match item {
        Some(VType::UninitThis) => true,
        Some(item) => is_below(program, item, class),
        None => false,
    }
}

/// A read of an object's field (JVM Specification, Java SE 7, section 4.10.1.9, getfield).
fn get_field(
    alloc: Global,
    site: &Site,
    field: usize,
    class: &[u8],
    entry: &TypeEntry,
) -> Result<Option<Led>, AllocError>
    requires { site.now.pc + 1 < 2 ^ 64 }
    ensures { IfOk result (λ o. flow_of o ≡ flow site.now.program.now site.now.method.now site.now.pc (op.GetField field class.now) entry.now) }
{
    if !is_received(site.program, class, entry.stack().first()) {
        return Ok(None);
    }
    let rule = get_field_rule(alloc, site.program, site.pc, field)?;
    ruled(alloc, site.program, entry, rule)
}

/// Whether an object may be stored to as one of a field's class: `this` that isn't built too, where the class is the constructor's.
fn is_put(site: &Site, field: &Field, object: Option<&VType>) -> bool
    ensures { result ≡ is_put site.now.program.now (bytes_eq field.now.class site.now.method.now.name.class) field.now.class (option_copied object.entry) }
{
    match object {
        Some(VType::UninitThis) => equal(
            field.class.as_slice(),
            site.method.name().class.as_slice(),
        ),
        Some(item) => is_below(site.program, item, field.class.as_slice()),
        None => false,
    }
}

/// A store to a field of the object under so many places.
#[tactic(auto, using(crate::proofs::Received::puts_is, crate::proofs::Received::puts_past))]
fn puts(
    alloc: Global,
    site: &Site,
    field: &Field,
    entry: &TypeEntry,
    places: usize,
) -> Result<Option<Led>, AllocError>
    requires { site.now.pc + 1 < 2 ^ 64 }
    ensures { IfOk result (λ o. flow_of o ≡ puts site.now.program.now site.now.method.now site.now.pc field.now entry.now (drop places entry.now.stack)) }
{
    if places >= entry.stack().len() {
        return Ok(None);
    }
    if !is_put(site, field, entry.stack().get(places)) {
        return Ok(None);
    }
    leaves(alloc, site.pc, entry, Vec::new(alloc), places + 1)
}

/// A write of an object's field (JVM Specification, Java SE 7, section 4.10.1.9, putfield).
#[tactic(auto, using(crate::proofs::Received::put_field_is))]
fn put_field(
    alloc: Global,
    site: &Site,
    field: usize,
    class: &[u8],
    entry: &TypeEntry,
) -> Result<Option<Led>, AllocError>
    requires { site.now.pc + 1 < 2 ^ 64 }
    ensures { IfOk result (λ o. flow_of o ≡ flow site.now.program.now site.now.method.now site.now.pc (op.PutField field class.now) entry.now) }
{
    let Some(field) = site.program.field(field) else {
        return Ok(None);
    };
    let value = stack_types(alloc, &field.declared)?;
    let stack = entry.stack();
    if !is_received(site.program, class, stack.get(value.len()))
        || !are_taken(site.program, value.as_slice(), stack)
    {
        return Ok(None);
    }
    puts(alloc, site, field, entry, value.len())
}

/// The object of a call of a method, under its arguments.
fn object_under<'a>(called: &Method, entry: &'a TypeEntry) -> Option<&'a VType>
    ensures { option_copied result ≡ slice_get entry.now.stack (length (arguments called.now)) }
{
    entry.stack().get(arguments(called).len())
}

/// A call that an object's class selects (JVM Specification, Java SE 7, section 4.10.1.9, invokevirtual).
fn invoke_virtual(
    alloc: Global,
    site: &Site,
    called: usize,
    class: &[u8],
    entry: &TypeEntry,
) -> Result<Option<Led>, AllocError>
    requires { site.now.pc + 1 < 2 ^ 64 }
    ensures { IfOk result (λ o. flow_of o ≡ flow site.now.program.now site.now.method.now site.now.pc (op.InvokeVirtual called class.now) entry.now) }
{
    let Some(called) = site.program.method(called) else {
        return Ok(None);
    };
    let object = object_under(called, entry);
    if !is_received(site.program, class, object) {
        return Ok(None);
    }
    let rule = called_rule(alloc, site.pc, called)?;
    ruled(alloc, site.program, entry, rule)
}

/// Whether an object is at most of the class of a method, as typing reads its name.
fn is_own(alloc: Global, site: &Site, object: Option<&VType>) -> Result<bool, AllocError>
    ensures { IfOk result (λ b. b ≡ is_at_most site.now.program.now (name_read site.now.program.now site.now.method.now.name.class) (option_copied object.entry)) }
{
    let own = site.method.name().class.as_slice();
    let class = name_read(alloc, site.program, own)?;
    match object {
        Some(item) => Ok(is_below(site.program, item, class.as_slice())),
        None => Ok(false),
    }
}

/// A call by name of a method over an object that is at most of the current class.
fn invoke_own(
    alloc: Global,
    site: &Site,
    called: &Method,
    entry: &TypeEntry,
) -> Result<Option<Led>, AllocError>
    requires { site.now.pc + 1 < 2 ^ 64 }
    ensures { IfOk result (λ o. flow_of o ≡ special false site.now.program.now site.now.method.now site.now.pc called.now entry.now) }
{
    let object = object_under(called, entry);
    if !is_own(alloc, site, object)? {
        return Ok(None);
    }
    let rule = called_rule(alloc, site.pc, called)?;
    ruled(alloc, site.program, entry, rule)
}

/// A call by name over an object (JVM Specification, Java SE 7, section 4.10.1.9, invokespecial).
fn invoke_special(
    alloc: Global,
    site: &Site,
    called: usize,
    entry: &TypeEntry,
) -> Result<Option<Led>, AllocError>
    requires { site.now.pc + 1 < 2 ^ 64 }
    ensures { IfOk result (λ o. flow_of o ≡ flow site.now.program.now site.now.method.now site.now.pc (op.InvokeSpecial called) entry.now) }
{
    match site.program.method(called) {
        Some(called) => {
            if is_constructor(called) {
                invoke_constructor(alloc, site, called, entry)
            } else {
                invoke_own(alloc, site, called, entry)
            }
        }
        None => Ok(None),
    }
}

/// What an instruction does that goes by an object's class or makes one; of another, what its rule says.
pub fn object_flow(
    alloc: Global,
    site: &Site,
    op: &Op,
    entry: &TypeEntry,
) -> Result<Option<Led>, AllocError>
    requires { site.now.pc + 1 < 2 ^ 64 }
    ensures { IfOk result (λ o. flow_of o ≡ object_flow site.now.program.now site.now.method.now site.now.pc op.now entry.now) }
{
    match op {
        Op::GetField { field, class } => get_field(alloc, site, *field, class.as_slice(), entry),
        Op::PutField { field, class } => put_field(alloc, site, *field, class.as_slice(), entry),
        Op::InvokeSpecial(called) => invoke_special(alloc, site, *called, entry),
        Op::InvokeVirtual { method, class } => {
            invoke_virtual(alloc, site, *method, class.as_slice(), entry)
        }
        Op::InitLibrary { class, places } => {
            init_library(alloc, site, class.as_slice(), *places, entry)
        }
        Op::New(of) => make_new(alloc, site, *of, entry),
        _ => {
            let rule = rule_of(alloc, site.program, site.method, site.pc, op)?;
            ruled(alloc, site.program, entry, rule)
        }
    }
}
