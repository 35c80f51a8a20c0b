//! What rearranges the operand stack (JVM Specification, Java SE 7, section 4.10.1.9, dup, pop and swap).
ghost use Rattle.std.specs.Prelude.{◌≡◌, ◌+◌, ◌^◌, ◌<◌, IfOk, drop, map};
ghost use Rattle.objects.specs.typing.Typing.{is_one, rearranged};
ghost use Rattle.verifier.specs.Flows.{arranged_places, arrangement, flow_of, has_long, has_one, has_two, is_arranged, type_at};

use crate::led::{Led, leaves};
use hierarchy::TypeEntry;
use jmodel::VType;
use objects::op::StackOp;
use std::alloc::{AllocError, Global};
use type_lists::{SharedType, TypeStack};

/// Whether a type is that of a value of one place.
fn is_one(item: &VType) -> bool
    ensures { result ≡ is_one item.now }
{
    matches!(
        item,
        VType::Int | VType::Null | VType::Ref(_) | VType::Uninit(_) | VType::UninitThis
    )
}

/// Whether a place, counted from the top, has a value of one place.
#[tactic(auto, using(crate::proofs::Arranged::one_at, crate::proofs::Arranged::none_at))]
fn has_one(stack: &TypeStack, place: usize) -> bool
    ensures { result ≡ has_one (drop place stack.now) }
{
    match stack.get(place) {
        Some(item) => is_one(item),
        None => false,
    }
}

/// Whether a long is at a place and the next one.
#[tactic(auto, using(crate::proofs::Arranged::long_at))]
fn has_long_at(stack: &TypeStack, place: usize) -> bool
    requires { place + 1 < 2 ^ 64 }
    ensures { result ≡ has_long (drop place stack.now) }
{
    match stack.get(place) {
        Some(VType::Second) => matches!(stack.get(place + 1), Some(VType::Long)),
        _ => false,
    }
}

/// Whether a long is on top.
pub fn has_long(stack: &TypeStack) -> bool
    ensures { result ≡ has_long stack.now }
{
    has_long_at(stack, 0)
}

/// Whether a long, or two values of one place, are at a place and the next one.
#[tactic(auto, using(crate::proofs::Arranged::two_at))]
fn has_two(stack: &TypeStack, place: usize) -> bool
    requires { place + 1 < 2 ^ 64 }
    ensures { result ≡ has_two (drop place stack.now) }
{
    has_long_at(stack, place) || has_one(stack, place) && has_one(stack, place + 1)
}

/// Whether a stack has what is rearranged.
fn is_arranged(op: StackOp, stack: &TypeStack) -> bool
    ensures { result ≡ is_arranged op stack.now }
{
    match op {
        StackOp::Nop => true,
        StackOp::Pop | StackOp::Dup => has_one(stack, 0),
        StackOp::Pop2 | StackOp::Dup2 => has_two(stack, 0),
        StackOp::DupX1 | StackOp::Swap => has_one(stack, 0) && has_one(stack, 1),
        StackOp::DupX2 => has_one(stack, 0) && has_two(stack, 1),
        StackOp::Dup2X1 => has_two(stack, 0) && has_one(stack, 2),
        StackOp::Dup2X2 => has_two(stack, 0) && has_two(stack, 2),
    }
}

/// How many places are taken.
fn places(op: StackOp) -> usize
    ensures { result ≡ arranged_places op }
{
    match op {
        StackOp::Nop => 0,
        StackOp::Pop | StackOp::Dup => 1,
        StackOp::Pop2 | StackOp::Dup2 | StackOp::DupX1 | StackOp::Swap => 2,
        StackOp::DupX2 | StackOp::Dup2X1 => 3,
        StackOp::Dup2X2 => 4,
    }
}

/// Which of the places are put in their stead, the topmost first.
fn arrangement(op: StackOp) -> &'static [usize]
    ensures { result.now ≡ arrangement op }
{
    match op {
        StackOp::Nop | StackOp::Pop | StackOp::Pop2 => &[],
        StackOp::Dup => &[0, 0],
        StackOp::DupX1 => &[0, 1, 0],
        StackOp::DupX2 => &[0, 1, 2, 0],
        StackOp::Dup2 => &[0, 1, 0, 1],
        StackOp::Dup2X1 => &[0, 1, 2, 0, 1],
        StackOp::Dup2X2 => &[0, 1, 2, 3, 0, 1],
        StackOp::Swap => &[1, 0],
    }
}

/// The type of a place, once more.
fn copy_at(alloc: Global, types: &TypeStack, place: usize) -> Result<SharedType, AllocError>
    ensures { IfOk result (λ t. t ≡ type_at types.now place) }
{
    match types.shared_at(place) {
        Some(item) => item.share(),
        None => SharedType::new(alloc, VType::Top),
    }
}

/// The types of places, once more.
fn picked(alloc: Global, types: &TypeStack, places: &[usize]) -> Result<Vec<SharedType>, AllocError>
    ensures { IfOk result (λ v. v.items ≡ map (type_at types.now) places.now) }
{
    let mut picked = Vec::new(alloc);
    for place in places {
        picked.push(copy_at(alloc, types, *place)?)?;
    }
    Ok(picked)
}

/// What a rearrangement of the stack does.
pub fn rearranged(
    alloc: Global,
    op: StackOp,
    pc: usize,
    entry: &TypeEntry,
) -> Result<Option<Led>, AllocError>
    requires { pc + 1 < 2 ^ 64 }
    ensures { IfOk result (λ o. flow_of o ≡ rearranged op pc entry.now) }
{
    if !is_arranged(op, entry.stack()) {
        return Ok(None);
    }
    let types = picked(alloc, entry.stack(), arrangement(op))?;
    leaves(alloc, pc, entry, types, places(op))
}
