//! What instructions on arrays do to the types before them.
ghost use Rattle.std.specs.Prelude.{◌≡◌, ◌+◌, ◌^◌, ◌<◌, ◌∷◌, ◌++◌, IfOk, option_copied};
ghost use Rattle.jmodel.specs.declared.typing.VType.TheVariants as type;
ghost use Rattle.objects.specs.declared.op.WordType.TheVariants as word;
ghost use Rattle.objects.specs.typing.TypeOrder.{element_class};
ghost use Rattle.objects.specs.typing.Typing.{element_types, fits_elements, has_elements, has_references, if_so, leaves, on_array, on_each, on_int, stored_types};
ghost use Rattle.verifier.specs.Flows.{flow_of, array_under, has_array, is_array_type};

use crate::led::{Led, are_taken, leaves, shared_one, single};
use crate::loads::is_int;
use crate::names::{equal, is_array, rest as bytes_from, without_last};
use crate::order::class_type;
use crate::rule::{Want, stored, want_types};
use hierarchy::{Program, TypeEntry};
use jmodel::VType;
use objects::op::WordType;
use std::alloc::{AllocError, Global};
use type_lists::{TypeStack, shared_types};

/// Whether a type is that of an array, or of null.
fn is_array_type(item: &VType) -> bool
    ensures { result ≡ is_array_type item.now }
{
    match item {
        VType::Null => true,
        VType::Ref(name) => is_array(name.as_slice()),
        _ => false,
    }
}

/// Whether an array, or null, is on top.
fn has_array(stack: &TypeStack) -> bool
    ensures { result ≡ has_array stack.now }
{
    match stack.first() {
        Some(item) => is_array_type(item),
        None => false,
    }
}

/// Whether an array's elements are references: objects of a class, L, 76, or arrays, 91.
fn has_references(name: &[u8]) -> bool
    ensures { result ≡ has_references name.now }
{
    matches!(bytes_from(name, 1).first(), Some(76 | 91))
}

/// Whether an array has elements of a type; those of booleans are read and written as bytes are.
fn has_elements(of: WordType, name: &[u8]) -> bool
    ensures { result ≡ has_elements of name.now }
{
    match of {
        WordType::Boolean => equal(name, b"[Z"),
        WordType::Byte => equal(name, b"[B") || equal(name, b"[Z"),
        WordType::Char => equal(name, b"[C"),
        WordType::Short => equal(name, b"[S"),
        WordType::Int => equal(name, b"[I"),
        WordType::Long => equal(name, b"[J"),
        WordType::Reference => has_references(name),
    }
}

/// Whether a type is no array, or one with elements of a type.
fn fits_elements(of: WordType, item: &VType) -> bool
    ensures { result ≡ fits_elements of item.now }
{
    match item {
        VType::Ref(name) => has_elements(of, name.as_slice()),
        _ => true,
    }
}

/// The class of the elements of an array of references.
fn element_class(name: &[u8]) -> &[u8]
    ensures { result.now ≡ element_class name.now }
{
    let element = bytes_from(name, 1);
    match element.first() {
        Some(76) => without_last(bytes_from(element, 1)),
        _ => element,
    }
}

/// The type of an element that is a reference; null has null.
fn reference_element(alloc: Global, array: &VType) -> Result<Vec<VType>, AllocError>
    ensures { IfOk result (λ v. v.items ≡ element_types word.Reference array.now) }
{
    match array {
        VType::Ref(name) => single(alloc, class_type(alloc, element_class(name.as_slice()))?),
        _ => single(alloc, VType::Null),
    }
}

/// The types of an element of an array.
fn element_types(alloc: Global, of: WordType, array: &VType) -> Result<Vec<VType>, AllocError>
    ensures { IfOk result (λ v. v.items ≡ element_types of array.now) }
{
    match of {
        WordType::Reference => reference_element(alloc, array),
        WordType::Long => want_types(alloc, &[Want::Second, Want::Long]),
        _ => single(alloc, VType::Int),
    }
}

/// An array's length (JVM Specification, Java SE 7, section 4.10.1.9, arraylength).
#[tactic(auto, using(crate::proofs::Parts::array_length_is))]
pub fn array_length(alloc: Global, pc: usize, entry: &TypeEntry) -> Result<Option<Led>, AllocError>
    requires { pc + 1 < 2 ^ 64 }
    ensures { IfOk result (λ o. flow_of o ≡ on_array entry.now.stack (λ t s. leaves pc entry.now (type.Int ∷ s))) }
{
    if has_array(entry.stack()) {
        leaves(alloc, pc, entry, shared_one(alloc, VType::Int)?, 1)
    } else {
        Ok(None)
    }
}

/// The array of an access to an element of a type, which lies under its index, if both are there.
fn array_under(of: WordType, stack: &TypeStack) -> Option<&VType>
    ensures { option_copied result ≡ array_under of stack.now }
{
    if !is_int(stack.first()) {
        return None;
    }
    let array = stack.get(1)?;
    if is_array_type(array) && fits_elements(of, array) {
        Some(array)
    } else {
        None
    }
}

/// A load of an element (JVM Specification, Java SE 7, section 4.10.1.9, iaload, laload and aaload).
#[tactic(auto, using(crate::proofs::Parts::load_element_is))]
pub fn load_element(
    alloc: Global,
    of: WordType,
    pc: usize,
    entry: &TypeEntry,
) -> Result<Option<Led>, AllocError>
    requires { pc + 1 < 2 ^ 64 }
    ensures { IfOk result (λ o. flow_of o ≡ on_int entry.now.stack (λ s. on_array s (λ u s. if_so (fits_elements of u) (leaves pc entry.now (element_types of u ++ s))))) }
{
    match array_under(of, entry.stack()) {
        Some(array) => {
            let types = element_types(alloc, of, array)?;
            leaves(alloc, pc, entry, shared_types(alloc, types)?, 2)
        }
        None => Ok(None),
    }
}

/// A store of an element (JVM Specification, Java SE 7, section 4.10.1.9, iastore, lastore and aastore).
#[tactic(auto, using(crate::proofs::Parts::store_not))]
pub fn store_element(
    alloc: Global,
    program: &Program,
    of: WordType,
    pc: usize,
    entry: &TypeEntry,
) -> Result<Option<Led>, AllocError>
    requires { pc + 1 < 2 ^ 64 }
    ensures { IfOk result (λ o. flow_of o ≡ on_each program.now (stored_types of) entry.now.stack (λ s. on_int s (λ s. on_array s (λ u s. if_so (fits_elements of u) (leaves pc entry.now s))))) }
{
    let value = want_types(alloc, stored(of))?;
    if !are_taken(program, value.as_slice(), entry.stack()) {
        return Ok(None);
    }
    let count = value.len();
    let under = entry.stack().rest(alloc, count)?;
    match array_under(of, &under) {
        Some(_) => leaves(alloc, pc, entry, Vec::new(alloc), count + 2),
        None => Ok(None),
    }
}
