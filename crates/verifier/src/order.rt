//! Types in their order: which are within others, and the narrowest ones above two.
ghost use Rattle.std.specs.Prelude.{◌≡◌, ◌++◌, IfOk, OnOk, drop, length, option_copied, replicate};
ghost use Rattle.objects.specs.typing.TypeOrder.{is_within};
ghost use Rattle.verifier.specs.Order.{are_within, fits_in};

use crate::names::is_reference_within;
use hierarchy::{Program, TypeEntry};
use jmodel::{Bytes, VType};
use std::alloc::{AllocError, Global};
use type_lists::{Parts, TypeStack, TypeTree};

/// Whether the second type is at least as wide as the first.
pub fn is_within(program: &Program, narrow: &VType, wide: &VType) -> bool
    ensures { result ≡ is_within program.now narrow.now wide.now }
{
    match (narrow, wide) {
        (_, VType::Top) => true,
        (VType::Int, VType::Int) => true,
        (VType::Long, VType::Long) => true,
        (VType::Second, VType::Second) => true,
        (VType::Null, VType::Null | VType::Ref(_)) => true,
        (VType::Ref(m), VType::Ref(n)) => {
            is_reference_within(program, m.as_slice(), n.as_slice())
        }
        (VType::Uninit(p), VType::Uninit(q)) => p == q,
        (VType::UninitThis, VType::UninitThis) => true,
        _ => false,
    }
}

/// Whether a type is within that of a class.
pub fn is_below(program: &Program, narrow: &VType, class: &[u8]) -> bool
    ensures { result ≡ is_within program.now narrow.now (VType.Ref class.now) }
{
    match narrow {
        VType::Null => true,
        VType::Ref(name) => is_reference_within(program, name.as_slice(), class),
        _ => false,
    }
}

/// Whether each type of a list is within one. Top is above all of them.
#[tactic(auto, using(crate::proofs::Runs::within_run, crate::proofs::Runs::under_parts, crate::proofs::Runs::under_top))]
fn are_under(program: &Program, narrow: &TypeTree, wide: &VType) -> bool
    ensures { result ≡ are_within program.now narrow.now (replicate (length narrow.now) wide.now) }
{
    if matches!(wide, VType::Top) {
        return true;
    }
    match narrow.parts() {
        Parts::Empty => true,
        Parts::Run(item) => is_within(program, item.as_type(), wide),
        Parts::Fork(left, right) => {
            are_under(program, left, wide) && are_under(program, right, wide)
        }
    }
}

/// Whether a type is within each of a list.
#[tactic(auto, using(crate::proofs::Runs::within_run, crate::proofs::Runs::over_parts))]
fn are_over(program: &Program, narrow: &VType, wide: &TypeTree) -> bool
    ensures { result ≡ are_within program.now (replicate (length wide.now) narrow.now) wide.now }
{
    match wide.parts() {
        Parts::Empty => true,
        Parts::Run(item) => is_within(program, narrow, item.as_type()),
        Parts::Fork(left, right) => {
            are_over(program, narrow, left) && are_over(program, narrow, right)
        }
    }
}

/// Whether each type of a list is within the one at its place of another.
#[tactic(auto, using(crate::proofs::Runs::none_within, crate::proofs::Runs::in_none, crate::proofs::Lists::unlike))]
fn are_lists_within(program: &Program, narrow: &TypeTree, wide: &TypeTree) -> bool
    ensures { result ≡ are_within program.now narrow.now wide.now }
{
    if narrow.len() != wide.len() {
        return false;
    }
    match (narrow.parts(), wide.parts()) {
        (Parts::Empty, _) => true,
        (_, Parts::Empty) => true,
        (Parts::Run(item), _) => are_over(program, item.as_type(), wide),
        (_, Parts::Run(item)) => are_under(program, narrow, item.as_type()),
        (Parts::Fork(left, right), Parts::Fork(left_wide, right_wide)) => {
            are_lists_within(program, left, left_wide)
                && are_lists_within(program, right, right_wide)
        }
    }
}

/// The same of two stacks, place by place.
#[tactic(auto, using(crate::proofs::Placed::within_step, crate::proofs::Placed::not_within, crate::proofs::Placed::no_narrow, crate::proofs::Placed::no_wide, crate::proofs::Placed::past_all, crate::proofs::Lists::unlike))]
fn are_places_within(program: &Program, narrow: &TypeStack, wide: &TypeStack) -> bool
    ensures { result ≡ are_within program.now narrow.now wide.now }
{
    if narrow.len() != wide.len() {
        return false;
    }
    for place in 0..narrow.len() {
        match (narrow.get(place), wide.get(place)) {
            (Some(item), Some(wider)) if is_within(program, item, wider) => {}
            _ => return false,
        }
    }
    true
}

/// The same of two stacks: part by part, as far as their parts are as long.
fn is_stack_within(program: &Program, narrow: &TypeStack, wide: &TypeStack) -> bool
    ensures { result ≡ are_within program.now narrow.now wide.now }
{
    match (narrow.split(), wide.split()) {
        (Some((part, under)), Some((wider, under_wider))) if part.len() == wider.len() => {
            are_lists_within(program, part, wider) && is_stack_within(program, under, under_wider)
        }
        _ => are_places_within(program, narrow, wide),
    }
}

/// Whether types are within others.
pub fn fits_in(program: &Program, narrow: &TypeEntry, wide: &TypeEntry) -> bool
    ensures { result ≡ fits_in program.now narrow.now wide.now }
{
    are_lists_within(program, narrow.locals(), wide.locals())
        && is_stack_within(program, narrow.stack(), wide.stack())
        && (!wide.built() || narrow.built())
}

/// The type of a class.
pub fn class_type(alloc: Global, name: &[u8]) -> Result<VType, AllocError>
    ensures { IfOk result (λ t. t ≡ VType.Ref name.now) }
{
    Ok(VType::Ref(Bytes::from_slice(alloc, name)?))
}

/// A type once more.
pub fn copy(alloc: Global, from: &VType) -> Result<VType, AllocError>
    ensures { IfOk result (λ t. t ≡ from.now) }
{
    match from {
        VType::Int => Ok(VType::Int),
        VType::Long => Ok(VType::Long),
        VType::Second => Ok(VType::Second),
        VType::Null => Ok(VType::Null),
        VType::Ref(name) => class_type(alloc, name.as_slice()),
        VType::Uninit(place) => Ok(VType::Uninit(*place)),
        VType::UninitThis => Ok(VType::UninitThis),
        VType::Top => Ok(VType::Top),
    }
}

/// Puts copies of types at the end.
pub fn push_copies(alloc: Global, types: &mut Vec<VType>, from: &[VType]) -> Result<(), AllocError>
    ensures { OnOk result (types.new.items ≡ types.old.items ++ from.now) }
{
    for item in from {
        types.push(copy(alloc, item)?)?;
    }
    Ok(())
}

/// Types once more.
pub fn copies(alloc: Global, from: &[VType]) -> Result<Vec<VType>, AllocError>
    ensures { IfOk result (λ v. v.items ≡ from.now) }
{
    let mut types = Vec::new(alloc);
    push_copies(alloc, &mut types, from)?;
    Ok(types)
}

/// The types from a place on.
pub fn rest(types: &[VType], from: usize) -> &[VType]
    ensures { result.now ≡ drop from types.now }
{
    if from < types.len() {
        &types[from..]
    } else {
        &[]
    }
}
