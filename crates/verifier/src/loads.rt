//! What loads do to the types before them, and sums with a local.
ghost use Rattle.std.specs.Prelude.{◌≡◌, ◌+◌, ◌^◌, ◌<◌, ◌∷◌, IfOk, option_copied, slice_get};
ghost use Rattle.jmodel.specs.declared.typing.VType.TheVariants as type;
ghost use Rattle.objects.specs.typing.Typing.{if_so, int_in, is_reference, leaves, loads, local_in, long_at};
ghost use Rattle.verifier.specs.Flows.{flow_of, is_int, is_long};

use crate::led::{Led, leaves, shared_one};
use crate::rule::{Want, want_types};
use hierarchy::TypeEntry;
use jmodel::VType;
use objects::op::Sort;
use std::alloc::{AllocError, Global};
use type_lists::{TypeTree, shared_types};

/// Whether a type is that of null, of an object, or of one that isn't built.
pub fn is_reference(item: &VType) -> bool
    ensures { result ≡ is_reference item.now }
{
    matches!(
        item,
        VType::Null | VType::Ref(_) | VType::Uninit(_) | VType::UninitThis
    )
}

/// Whether a place has an int.
pub fn is_int(item: Option<&VType>) -> bool
    ensures { result ≡ is_int (option_copied item.entry) }
{
    matches!(item, Some(VType::Int))
}

/// Whether a local and the next one have a long.
fn is_long_at(locals: &TypeTree, local: usize) -> bool
    ensures { result ≡ is_long (slice_get locals.now local) (slice_get locals.now (local + 1)) }
{
    if local >= locals.len() {
        return false;
    }
    match locals.get(local) {
        Some(VType::Long) => matches!(locals.get(local + 1), Some(VType::Second)),
        _ => false,
    }
}

/// A load of an int.
#[tactic(auto, using(crate::proofs::Parts::int_in_is))]
fn load_int(
    alloc: Global,
    pc: usize,
    entry: &TypeEntry,
    local: usize,
) -> Result<Option<Led>, AllocError>
    requires { pc + 1 < 2 ^ 64 }
    ensures { IfOk result (λ o. flow_of o ≡ int_in (slice_get entry.now.locals local) (leaves pc entry.now (type.Int ∷ entry.now.stack))) }
{
    if is_int(entry.locals().get(local)) {
        leaves(alloc, pc, entry, shared_one(alloc, VType::Int)?, 0)
    } else {
        Ok(None)
    }
}

/// A load of a long.
#[tactic(auto, using(crate::proofs::Parts::long_at_is))]
fn load_long(
    alloc: Global,
    pc: usize,
    entry: &TypeEntry,
    local: usize,
) -> Result<Option<Led>, AllocError>
    requires { pc + 1 < 2 ^ 64 }
    ensures { IfOk result (λ o. flow_of o ≡ long_at (slice_get entry.now.locals local) (slice_get entry.now.locals (local + 1)) (leaves pc entry.now (type.Second ∷ type.Long ∷ entry.now.stack))) }
{
    if is_long_at(entry.locals(), local) {
        let types = want_types(alloc, &[Want::Second, Want::Long])?;
        leaves(alloc, pc, entry, shared_types(alloc, types)?, 0)
    } else {
        Ok(None)
    }
}

/// A load of a reference, which may be of an object that isn't built.
fn load_reference(
    alloc: Global,
    pc: usize,
    entry: &TypeEntry,
    local: usize,
) -> Result<Option<Led>, AllocError>
    requires { pc + 1 < 2 ^ 64 }
    ensures { IfOk result (λ o. flow_of o ≡ local_in (slice_get entry.now.locals local) (λ t. if_so (is_reference t) (leaves pc entry.now (t ∷ entry.now.stack)))) }
{
    match entry.locals().shared_at(local) {
        Some(item) if is_reference(item.as_type()) => {
            let mut types = Vec::new(alloc);
            types.push(item.share()?)?;
            leaves(alloc, pc, entry, types, 0)
        }
        _ => Ok(None),
    }
}

/// A load (JVM Specification, Java SE 7, section 4.10.1.9, iload, lload and aload).
pub fn loads(
    alloc: Global,
    sort: Sort,
    local: usize,
    pc: usize,
    entry: &TypeEntry,
) -> Result<Option<Led>, AllocError>
    requires { pc + 1 < 2 ^ 64 }
    ensures { IfOk result (λ o. flow_of o ≡ loads sort local pc entry.now) }
{
    match sort {
        Sort::Int => load_int(alloc, pc, entry, local),
        Sort::Long => load_long(alloc, pc, entry, local),
        Sort::Reference => load_reference(alloc, pc, entry, local),
    }
}

/// A sum with a local, which has an int.
#[tactic(auto, using(crate::proofs::Parts::int_in_is))]
pub fn increments(
    alloc: Global,
    pc: usize,
    entry: &TypeEntry,
    local: usize,
) -> Result<Option<Led>, AllocError>
    requires { pc + 1 < 2 ^ 64 }
    ensures { IfOk result (λ o. flow_of o ≡ int_in (slice_get entry.now.locals local) (leaves pc entry.now entry.now.stack)) }
{
    if is_int(entry.locals().get(local)) {
        leaves(alloc, pc, entry, Vec::new(alloc), 0)
    } else {
        Ok(None)
    }
}
