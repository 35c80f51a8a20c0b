//! Fields, methods and classes that instructions name, where a taken method may not name them so.
ghost use Rattle.std.specs.Prelude.{◌≡◌, ◌≤◌, length, option_copied, option_map, Some, false};
ghost use Rattle.jmodel.specs.declared.refusal.Refusal.TheVariants.{UnknownClass};
ghost use Rattle.jmodel.specs.format.Descriptor.{is_array_name as is_array_name_of};
ghost use Rattle.jmodel.specs.format.DescriptorReading.{brackets as brackets_of, type_of};
ghost use Rattle.objects.specs.linking.Resolution.{holds_of};
ghost use Rattle.objects.specs.linking.Constructs.{named_class as class_named_by, innermost as core_of, unknown_in as unknown_by, is_abstract as abstract_class, has_no_object as no_object_of, is_bad_new as bad_new, is_library_call as library_call, is_misused as misused, is_bad_access as bad_access, is_bad_static as bad_static, is_bad_interface as bad_interface, is_elsewhere as elsewhere, is_bad_special_name as bad_special_name, is_bad_special as bad_special, is_bad_call as bad_call, reference_name as named_reference, is_in_interface as in_interface, last_kinds, first_kind};
ghost use Rattle.resolution.specs.Kinds.{access_kinds, call_kinds};

use crate::floats::accessed;
use crate::resolution::Resolver;
use crate::text::equal;
use bytecode::opcodes;
use const_pool::{ClassFile, Pool, is_array_name};
use hierarchy::declared::Declared;
use hierarchy::library::{
    is_library_constructor, is_library_function, is_library_method, is_object_method,
};
use hierarchy::member_faults::is_interface;
use hierarchy::places::Places;
use hierarchy::reference::Reference;
use hierarchy::superclasses::{is_in_folder, is_known, names_interface};
use hierarchy::symbols::{is_static, own_name};
use hierarchy::taken::{index_of, invoked};
use jmodel::Instr;

/// The class that new, anewarray, checkcast or instanceof names.
pub fn named_class<'a>(pool: &'a Pool, i: &Instr) -> Option<&'a [u8]>
    ensures { option_copied result ≡ class_named_by pool.now i.now }
{
    match i.op {
        opcodes::NEW | opcodes::ANEWARRAY | opcodes::CHECKCAST | opcodes::INSTANCEOF => {
            Some(pool.class_name(index_of(&i.operands)?)?.as_slice())
        }
        _ => None,
    }
}

// How many brackets stand at the front.
fn brackets(name: &[u8]) -> usize
    ensures exact { result ≡ brackets_of name.now }
    ensures inside { result ≤ length name.now }
{
    name.iter().take_while(|c| **c == b'[').count()
}

// The class of the elements of arrays of a descriptor, None where these aren't references.
#[tactic(auto, unfolding(jmodel::specs::format::DescriptorReading::type_of))]
fn reference_name(element: &[u8]) -> Option<&[u8]>
    requires { is_array_name_of element.now ≡ false }
    ensures { option_copied result ≡ named_reference (type_of element.now) }
{
    match element {
        [] => Some(b""),
        [b'B' | b'C' | b'D' | b'F' | b'I' | b'J' | b'S' | b'Z', ..] => None,
        [_, rest @ ..] => Some(&rest[..rest.len().saturating_sub(1)]),
    }
}

// The class at the core of a class's name: of an array type that of its elements, and of theirs; none where these aren't references.
fn innermost(name: &[u8]) -> Option<&[u8]>
    ensures { option_copied result ≡ core_of name.now }
{
    if !is_array_name(name) {
        return Some(name);
    }
    let dimensions = brackets(name);
    reference_name(&name[dimensions..])
}

/// A class at the core of a name that neither the folder nor the library has.
pub fn unknown_core<'a>(places: &Places<'a>, name: &'a [u8]) -> Option<&'a [u8]>
    ensures { option_map (λ n. UnknownClass n.now) result ≡ unknown_by places.now (Some name.now) }
{
    let core = innermost(name)?;
    if is_known(places, core) {
        None
    } else {
        Some(core)
    }
}

// Whether a class is an interface or abstract, by the flags 0200 and 0400.
fn is_abstract(class: &ClassFile) -> bool
    ensures { result ≡ abstract_class class.now }
{
    class.flags & 0x600 != 0
}

// Whether new makes no object of a class.
fn has_no_object<'a>(places: &Places<'a>, name: &'a [u8]) -> bool
    ensures { result ≡ no_object_of places.now name.now }
{
    is_array_name(name)
        || match places.class_named(name) {
            Some(class) => is_abstract(class),
            None => false,
        }
}

// Whether new is of such a class, or anewarray makes an array of more than 255 dimensions.
fn is_bad_new<'a>(places: &Places<'a>, opcode: u8, name: &'a [u8]) -> bool
    ensures { result ≡ bad_new places.now opcode name.now }
{
    opcode == opcodes::NEW && has_no_object(places, name)
        || opcode == opcodes::ANEWARRAY && 254 < brackets(name)
}

// Whether what a name was found to stand for is in an interface.
fn is_in_interface(found: &Option<Declared>) -> bool
    ensures { result ≡ holds_of in_interface found.now }
{
    match found {
        Some(member) => is_interface(member.class),
        None => false,
    }
}

// Whether neither the folder nor the library has a method.
fn is_library_call<'a>(resolver: &Resolver<'a>, r: &Reference<'a>) -> bool
    ensures { result ≡ library_call resolver.now r.now }
{
    let places = resolver.places();
    if is_in_folder(places, r.class) {
        is_object_method(r)
            && (names_interface(places, r.class) || is_in_interface(&resolver.resolved_method(r)))
    } else {
        !is_library_method(r)
    }
}

// Whether a member is static where it is to be one of an instance, or the reverse.
fn is_misused(wanted: bool, found: &Option<Declared>) -> bool
    ensures { result ≡ holds_of (misused wanted) found.now }
{
    match found {
        Some(member) => is_static(member.member) != wanted,
        None => false,
    }
}

// Whether getstatic or putstatic names a field that isn't static, or getfield or putfield one that is.
fn is_bad_access<'a>(resolver: &Resolver<'a>, opcode: u8, r: &Reference<'a>) -> bool
    ensures { result ≡ bad_access resolver.now opcode r.now }
{
    is_misused(opcode <= opcodes::PUTSTATIC, &resolver.resolved_field(r))
}

// Whether invokestatic names a method that isn't static, or another invoke one that is.
fn is_bad_static<'a>(resolver: &Resolver<'a>, opcode: u8, r: &Reference<'a>) -> bool
    ensures { result ≡ bad_static resolver.now opcode r.now }
{
    let is_static_call = opcode == opcodes::INVOKESTATIC;
    if is_in_folder(resolver.places(), r.class) {
        is_misused(is_static_call, &resolver.resolved_method(r))
    } else {
        is_library_function(r) && !is_static_call || is_library_constructor(r) && is_static_call
    }
}

// Whether invokeinterface names no interface, or another invoke names one.
fn is_bad_interface<'a>(resolver: &Resolver<'a>, opcode: u8, r: &Reference<'a>) -> bool
    ensures { result ≡ bad_interface resolver.now opcode r.now }
{
    let names = names_interface(resolver.places(), r.class);
    if opcode == opcodes::INVOKEINTERFACE {
        !names
    } else {
        names
    }
}

// Whether a member stands in another class than that of a name.
fn is_elsewhere(name: &[u8], found: &Option<Declared>) -> bool
    ensures { result ≡ holds_of (elsewhere name.now) found.now }
{
    match found {
        Some(member) => !equal(own_name(member.class), name),
        None => false,
    }
}

// Whether a static initialiser is called, or a constructor otherwise than by invokespecial and of its own class.
fn is_bad_special_name<'a>(resolver: &Resolver<'a>, opcode: u8, r: &Reference<'a>) -> bool
    ensures { result ≡ bad_special_name resolver.now opcode r.now }
{
    equal(r.name, b"<clinit>")
        || equal(r.name, b"<init>")
            && (opcode != opcodes::INVOKESPECIAL
                || is_elsewhere(r.class, &resolver.resolved_method(r)))
}

// Whether invokespecial of a method that is no constructor names a class that is neither that which it stands in nor above it.
fn is_bad_special<'a>(
    resolver: &Resolver<'a>,
    class: &'a ClassFile,
    opcode: u8,
    r: &Reference<'a>,
) -> bool
    ensures { result ≡ bad_special resolver.now class.now opcode r.now }
{
    opcode == opcodes::INVOKESPECIAL
        && !equal(r.name, b"<init>")
        && !resolver.is_in_lineage(own_name(class), r.class)
}

fn is_bad_call<'a>(
    resolver: &Resolver<'a>,
    class: &'a ClassFile,
    opcode: u8,
    r: &Reference<'a>,
) -> bool
    ensures { result ≡ bad_call resolver.now class.now opcode r.now }
{
    is_bad_static(resolver, opcode, r)
        || is_bad_interface(resolver, opcode, r)
        || is_bad_special_name(resolver, opcode, r)
        || is_bad_special(resolver, class, opcode, r)
}

// The first kind of construct of the field that an instruction names.
fn access_kind<'a>(resolver: &Resolver<'a>, opcode: u8, r: &Reference<'a>) -> Option<&'static [u8]>
    ensures { option_copied result ≡ first_kind (access_kinds resolver.now opcode r.now) }
{
    if !is_in_folder(resolver.places(), r.class) {
        return Some(b"LibraryCall");
    }
    let found = resolver.resolved_field(r);
    if found.is_none() {
        Some(b"Unresolved")
    } else if is_in_interface(&found) {
        Some(b"InterfaceField")
    } else if is_bad_access(resolver, opcode, r) {
        Some(b"BadCall")
    } else {
        None
    }
}

// The first kind of construct of the method that an instruction names.
fn call_kind<'a>(
    resolver: &Resolver<'a>,
    class: &'a ClassFile,
    opcode: u8,
    r: &Reference<'a>,
) -> Option<&'static [u8]>
    ensures { option_copied result ≡ first_kind (call_kinds resolver.now class.now opcode r.now) }
{
    if is_library_call(resolver, r) {
        Some(b"LibraryCall")
    } else if is_in_folder(resolver.places(), r.class) && resolver.resolved_method(r).is_none() {
        Some(b"Unresolved")
    } else if is_bad_call(resolver, class, opcode, r) {
        Some(b"BadCall")
    } else {
        None
    }
}

/// The first kind of construct of what an instruction names: `BadNew`, `LibraryCall`, `Unresolved`, `InterfaceField` or `BadCall`.
pub fn kind_by_names<'a>(
    resolver: &Resolver<'a>,
    class: &'a ClassFile,
    i: &Instr,
) -> Option<&'static [u8]>
    ensures { option_copied result ≡ first_kind (last_kinds resolver.now class.now i.now) }
{
    let pool = &class.pool;
    if let Some(name) = named_class(pool, i) {
        return if is_bad_new(resolver.places(), i.op, name) {
            Some(b"BadNew")
        } else {
            None
        };
    }
    if let Some(field) = accessed(pool, i) {
        return access_kind(resolver, i.op, &field);
    }
    call_kind(resolver, class, i.op, &invoked(pool, i)?)
}
