ghost use Rattle.std.specs.Prelude.{◌≡◌, length, IfOk};

use jmodel::VType;
use std::alloc::{AllocError, Global};
use std::test::*;
use type_lists::{Parts, SharedType, TypeStack, TypeTree, is_named, is_same, shared_types};

// Whether there is a type, and it is this one.
fn is_type(found: Option<&VType>, wanted: &VType) -> bool {
    found.is_some_and(|found| is_same(found, wanted))
}

// The two places of a long, the topmost first.
fn places_of_long(alloc: Global) -> Result<Vec<VType>, AllocError> {
    Ok(vec![in alloc; VType::Second, VType::Long]?)
}

// A stack of a long.
fn long_stack(alloc: Global) -> Result<TypeStack, AllocError> {
    let places = shared_types(alloc, places_of_long(alloc)?)?;
    TypeStack::new().push_all(alloc, places)
}

// The same types with an int on top. They share what is under it.
fn with_int(alloc: Global, stack: &TypeStack) -> Result<TypeStack, AllocError> {
    stack
        .share()?
        .push(alloc, SharedType::new(alloc, VType::Int)?)
}

// A stack of a long and an int on it.
fn int_on_long(alloc: Global) -> Result<TypeStack, AllocError> {
    with_int(alloc, &long_stack(alloc)?)
}

// The types of a stack as one part.
fn part_of(alloc: Global, stack: &TypeStack) -> Result<TypeTree, AllocError> {
    TypeTree::from_slice(alloc, stack.flat(alloc)?.as_slice())
}

// A stack of a long and an int on it, in one part.
fn one_part(alloc: Global) -> Result<TypeStack, AllocError> {
    let part = part_of(alloc, &int_on_long(alloc)?)?;
    TypeStack::new().push_part(alloc, part)
}

#[test]
fn stacks_share_what_is_under(rt: HostRuntime) -> Result<(), Fail> {
    let stack = long_stack(rt.alloc())?;
    let more = with_int(rt.alloc(), &stack)?;
    assert!(rt; stack.len() == 2);
    assert!(rt; more.len() == 3);
    Ok(())
}

// Whether an int is first, and a long lies under it.
fn is_int_on_long(stack: &TypeStack) -> bool {
    is_type(stack.first(), &VType::Int) && is_type(stack.get(2), &VType::Long)
}

#[test]
fn stacks_tell_their_types(rt: HostRuntime) -> Result<(), Fail> {
    let stack = int_on_long(rt.alloc())?;
    assert!(rt; stack.is_under(false) && !stack.has_names());
    assert!(rt; stack.shared_at(3).is_none());
    assert!(rt; is_int_on_long(&stack));
    Ok(())
}

#[test]
fn half_a_long_lies_under_its_other_half(rt: HostRuntime) -> Result<(), Fail> {
    let stack = int_on_long(rt.alloc())?;
    let rest = stack.rest(rt.alloc(), 2)?;
    assert!(rt; !rest.is_under(false) && rest.is_under(true));
    Ok(())
}

#[test]
fn stacks_are_made_of_parts(rt: HostRuntime) -> Result<(), Fail> {
    let stack = one_part(rt.alloc())?;
    assert!(rt; stack.len() == 3);
    assert!(rt; stack.split().is_some());
    Ok(())
}

// Whether a stack has types from a place on.
fn has_under(alloc: Global, stack: &TypeStack, place: usize) -> Result<bool, AllocError> {
    Ok(stack.under(alloc, place)?.is_some())
}

#[test]
fn stacks_end_under_their_last_type(rt: HostRuntime) -> Result<(), Fail> {
    let stack = one_part(rt.alloc())?;
    assert!(rt; has_under(rt.alloc(), &stack, 2)?);
    assert!(rt; !has_under(rt.alloc(), &stack, 3)?);
    Ok(())
}

// Top nine times.
fn tops(alloc: Global) -> Result<TypeTree, AllocError>
    ensures { IfOk result (λ types. length types ≡ 9) }
{
    Ok(TypeTree::run(SharedType::new(alloc, VType::Top)?, 9))
}

// The same types with another one in the middle of nine.
fn with_middle(alloc: Global, types: &TypeTree, item: VType) -> Result<TypeTree, AllocError>
    ensures { IfOk result (λ set. length set ≡ length types.now) }
{
    types.set(alloc, 4, SharedType::new(alloc, item)?)
}

// Top nine times but for null in the middle.
fn null_in_tops(alloc: Global) -> Result<TypeTree, AllocError>
    ensures { IfOk result (λ types. length types ≡ 9) }
{
    with_middle(alloc, &tops(alloc)?, VType::Null)
}

// The halves of nine types, put together again.
fn joined(alloc: Global, types: &TypeTree) -> Result<TypeTree, AllocError>
    requires { length types.now ≡ 9 }
{
    let (left, right) = types.halves()?;
    TypeTree::pair(alloc, left, right)
}

// The same types, read from a list of them.
fn read_again(alloc: Global, types: &TypeTree) -> Result<TypeTree, AllocError> {
    TypeTree::from_slice(alloc, types.flat(alloc)?.as_slice())
}

fn is_run(types: &TypeTree) -> bool {
    matches!(types.parts(), Parts::Run(_))
}

fn is_fork(types: &TypeTree) -> bool {
    matches!(types.parts(), Parts::Fork(_, _))
}

#[test]
fn a_tree_may_be_empty(rt: HostRuntime) {
    assert!(rt; TypeTree::new().len() == 0);
    assert!(rt; TypeTree::new().under_all(true) == Some(true));
}

#[test]
fn equal_types_are_a_run(rt: HostRuntime) -> Result<(), Fail> {
    let tops = tops(rt.alloc())?;
    assert!(rt; tops.under_all(false).is_none());
    assert!(rt; is_run(&tops));
    Ok(())
}

#[test]
fn a_type_is_set_in_a_run(rt: HostRuntime) -> Result<(), Fail> {
    let set = null_in_tops(rt.alloc())?;
    assert!(rt; set.len() == 9 && is_fork(&set));
    assert!(rt; is_type(set.get(4), &VType::Null));
    assert!(rt; set.shared_at(9).is_none());
    Ok(())
}

#[test]
fn types_have_halves(rt: HostRuntime) -> Result<(), Fail> {
    let (left, right) = null_in_tops(rt.alloc())?.halves()?;
    assert!(rt; left.len() == 4 && right.len() == 5);
    assert!(rt; !left.share()?.has_names());
    Ok(())
}

#[test]
fn halves_make_their_whole_again(rt: HostRuntime) -> Result<(), Fail> {
    let same = joined(rt.alloc(), &null_in_tops(rt.alloc())?)?;
    assert!(rt; same.len() == 9);
    let back = with_middle(rt.alloc(), &same, VType::Top)?;
    assert!(rt; is_run(&back));
    Ok(())
}

#[test]
fn a_list_is_read_as_a_tree(rt: HostRuntime) -> Result<(), Fail> {
    let read = read_again(rt.alloc(), &null_in_tops(rt.alloc())?)?;
    assert!(rt; is_type(read.get(3), &VType::Top));
    Ok(())
}

// Whether this is null, and has no name.
fn is_plain_null(item: &SharedType) -> Result<bool, AllocError> {
    let copy = item.share()?;
    Ok(is_same(item.as_type(), &VType::Null) && !is_named(copy.as_type()))
}

#[test]
fn a_tree_is_listed(rt: HostRuntime) -> Result<(), Fail> {
    let types = null_in_tops(rt.alloc())?.flat(rt.alloc())?;
    let null = types.get(4).ok_or("a type")?;
    assert!(rt; is_plain_null(null)?);
    Ok(())
}
