//! What stores do to the types before them.
ghost use Rattle.std.specs.Prelude.{◌≡◌, ◌+◌, ◌^◌, ◌<◌, ◌∷◌, [], IfOk, drop, length, nat_lt, slice_set};
ghost use Rattle.jmodel.specs.declared.typing.VType.TheVariants as type;
ghost use Rattle.objects.specs.declared.op.Sort.TheVariants as sort;
ghost use Rattle.objects.specs.typing.Typing.{Leads, freed, set_local, set_long, stores};
ghost use Rattle.verifier.specs.Flows.{flow_of};

use crate::led::Led;
use crate::loads::{is_int, is_reference};
use crate::rule::next;
use crate::stack::has_long;
use hierarchy::{Program, TypeEntry};
use jmodel::VType;
use objects::op::Sort;
use std::alloc::{AllocError, Global};
use type_lists::{SharedType, TypeTree};

/// Puts a type into a local, if there is one.
fn put(alloc: Global, locals: &TypeTree, local: usize, item: VType) -> Result<TypeTree, AllocError>
    ensures { IfOk result (λ l. l ≡ slice_set locals.now local item) }
{
    locals.set(alloc, local, SharedType::new(alloc, item)?)
}

/// Of a long whose one place is written, the other has nothing left.
fn free(alloc: Global, locals: &TypeTree, local: usize) -> Result<TypeTree, AllocError>
    requires { local < length locals.now }
    ensures { IfOk result (λ l. l ≡ freed local locals.now) }
{
    let _ = locals.len();
    match locals.get(local) {
        Some(VType::Second) => put(alloc, locals, local.saturating_sub(1), VType::Top),
        Some(VType::Long) => put(alloc, locals, local + 1, VType::Top),
        _ => locals.share(),
    }
}

/// On to the next instruction with these locals, and without so many of the topmost places.
fn with_locals(
    alloc: Global,
    pc: usize,
    entry: &TypeEntry,
    locals: TypeTree,
    takes: usize,
) -> Result<Option<Led>, AllocError>
    requires { pc + 1 < 2 ^ 64 }
    ensures { IfOk result (λ o. flow_of o ≡ Leads ((pc + 1) ∷ []) (record entry.now { locals = locals; stack = drop takes entry.now.stack })) }
{
    let stack = entry.stack().rest(alloc, takes)?;
    let to = next(alloc, pc)?;
    let left = TypeEntry::new(locals, stack, entry.built());
    Ok(Some(Led { to, left }))
}

/// Locals with a value of one place in one of them.
fn value_set(
    alloc: Global,
    locals: &TypeTree,
    local: usize,
    item: SharedType,
) -> Result<TypeTree, AllocError>
    requires { local < length locals.now }
    ensures { IfOk result (λ l. l ≡ slice_set (freed local locals.now) local item) }
{
    free(alloc, locals, local)?.set(alloc, local, item)
}

/// A store of a value of one place.
fn set_local(
    alloc: Global,
    pc: usize,
    entry: &TypeEntry,
    local: usize,
    item: SharedType,
) -> Result<Option<Led>, AllocError>
    requires { pc + 1 < 2 ^ 64 }
    ensures { IfOk result (λ o. flow_of o ≡ set_local (nat_lt local (length entry.now.locals)) local item pc entry.now (drop 1 entry.now.stack)) }
{
    if local >= entry.locals().len() {
        return Ok(None);
    }
    let locals = value_set(alloc, entry.locals(), local, item)?;
    with_locals(alloc, pc, entry, locals, 1)
}

/// Frees a local and the next one.
fn free_two(alloc: Global, locals: &TypeTree, local: usize) -> Result<TypeTree, AllocError>
    requires { local + 1 < length locals.now }
    ensures { IfOk result (λ l. l ≡ freed (local + 1) (freed local locals.now)) }
{
    let _ = locals.len();
    let first = free(alloc, locals, local)?;
    free(alloc, &first, local + 1)
}

/// Locals with a long in two of them.
fn long_set(alloc: Global, locals: &TypeTree, local: usize) -> Result<TypeTree, AllocError>
    requires { local + 1 < length locals.now }
    ensures { IfOk result (λ l. l ≡ slice_set (slice_set (freed (local + 1) (freed local locals.now)) local type.Long) (local + 1) type.Second) }
{
    let freed = free_two(alloc, locals, local)?;
    let first = put(alloc, &freed, local, VType::Long)?;
    put(alloc, &first, local + 1, VType::Second)
}

/// A store of a long.
fn set_long(
    alloc: Global,
    pc: usize,
    entry: &TypeEntry,
    local: usize,
) -> Result<Option<Led>, AllocError>
    requires { pc + 1 < 2 ^ 64 }
    ensures { IfOk result (λ o. flow_of o ≡ set_long (nat_lt (local + 1) (length entry.now.locals)) local pc entry.now (drop 2 entry.now.stack)) }
{
    if local >= entry.locals().len() || local + 1 >= entry.locals().len() {
        return Ok(None);
    }
    let locals = long_set(alloc, entry.locals(), local)?;
    with_locals(alloc, pc, entry, locals, 2)
}

/// A store of an int.
#[tactic(auto, using(crate::proofs::Parts::store_int_is))]
fn store_int(
    alloc: Global,
    program: &Program,
    local: usize,
    pc: usize,
    entry: &TypeEntry,
) -> Result<Option<Led>, AllocError>
    requires { pc + 1 < 2 ^ 64 }
    ensures { IfOk result (λ o. flow_of o ≡ stores program.now sort.Int local pc entry.now) }
{
    if is_int(entry.stack().first()) {
        set_local(alloc, pc, entry, local, SharedType::new(alloc, VType::Int)?)
    } else {
        Ok(None)
    }
}

/// A store of a reference, which may be of an object that isn't built.
#[tactic(auto, using(crate::proofs::Parts::store_reference_is))]
fn store_reference(
    alloc: Global,
    program: &Program,
    local: usize,
    pc: usize,
    entry: &TypeEntry,
) -> Result<Option<Led>, AllocError>
    requires { pc + 1 < 2 ^ 64 }
    ensures { IfOk result (λ o. flow_of o ≡ stores program.now sort.Reference local pc entry.now) }
{
    match entry.stack().shared_at(0) {
        Some(item) if is_reference(item.as_type()) => {
            set_local(alloc, pc, entry, local, item.share()?)
        }
        _ => Ok(None),
    }
}

/// A store of a long.
#[tactic(auto, using(crate::proofs::Parts::store_long_is))]
fn store_long(
    alloc: Global,
    program: &Program,
    local: usize,
    pc: usize,
    entry: &TypeEntry,
) -> Result<Option<Led>, AllocError>
    requires { pc + 1 < 2 ^ 64 }
    ensures { IfOk result (λ o. flow_of o ≡ stores program.now sort.Long local pc entry.now) }
{
    if has_long(entry.stack()) {
        set_long(alloc, pc, entry, local)
    } else {
        Ok(None)
    }
}

/// A store (JVM Specification, Java SE 7, section 4.10.1.9, istore, lstore and astore). What it overwrites half of is
/// freed.
pub fn stores(
    alloc: Global,
    program: &Program,
    sort: Sort,
    local: usize,
    pc: usize,
    entry: &TypeEntry,
) -> Result<Option<Led>, AllocError>
    requires { pc + 1 < 2 ^ 64 }
    ensures { IfOk result (λ o. flow_of o ≡ stores program.now sort local pc entry.now) }
{
    match sort {
        Sort::Int => store_int(alloc, program, local, pc, entry),
        Sort::Long => store_long(alloc, program, local, pc, entry),
        Sort::Reference => store_reference(alloc, program, local, pc, entry),
    }
}
