//! The narrowest types above two.
ghost use Rattle.std.specs.Prelude.{◌≡◌, ◌≤◌, ◌++◌, true, IfOk, IfSome, IsTrue, Some, None, bytes_eq, drop, length, option_copied, option_map, replicate, if◌then◌else◌};
ghost use Rattle.objects.specs.typing.Typing.{begins};
ghost use Rattle.objects.specs.typing.Source.{AreTypes};
ghost use Rattle.verifier.specs.Above.{above_of, IsOneSide};
ghost use Rattle.verifier.specs.Order.{are_within, array_over, class_descriptor, common_depth, join, join_all, join_base, first_common, join_class, join_described, join_other, join_element, join_name, joined, object_over, ref_or_top, under_object, wrapped};

use crate::names::{
    classes_from, equal, is_among, is_array, is_class_above, object_class, rest, without_last,
};
use crate::order::is_within;
use hierarchy::{Program, TypeEntry};
use jmodel::{Bytes, VType};
use std::alloc::{AllocError, Global};
use type_lists::{Parts, SharedType, TypeStack, TypeTree, is_same};

/// The first of some names that is among others, if one is.
fn first_common<'a>(names: &'a [Bytes], others: &[Bytes]) -> Option<&'a Bytes>
    ensures { option_copied result ≡ first_common names.now others.now }
{
    names.iter().find(|name| is_among(name.as_slice(), others))
}

/// A name once more, where there is one.
fn copied(alloc: Global, name: Option<&Bytes>) -> Result<Option<Bytes>, AllocError>
    ensures { IfOk result (λ o. o ≡ option_copied name.entry) }
{
    match name {
        Some(name) => Ok(Some(Bytes::from_slice(alloc, name.as_slice())?)),
        None => Ok(None),
    }
}

/// The nearest class that is above two, if one is.
fn join_class(
    alloc: Global,
    program: &Program,
    a: &[u8],
    b: &[u8],
) -> Result<Option<Bytes>, AllocError>
    ensures { IfOk result (λ o. o ≡ join_class program.now a.now b.now) }
{
    let names = classes_from(alloc, program, a)?;
    let others = classes_from(alloc, program, b)?;
    copied(alloc, first_common(names.as_slice(), others.as_slice()))
}

/// Object, if a class is below it.
fn object_over(alloc: Global, program: &Program, class: &[u8]) -> Result<Option<Bytes>, AllocError>
    ensures { IfOk result (λ o. o ≡ object_over program.now class.now) }
{
    if is_class_above(program, class, object_class()) {
        Ok(Some(Bytes::from_slice(alloc, object_class())?))
    } else {
        Ok(None)
    }
}

/// The element Object, if a class is below it, by the rest of its descriptor.
fn under_object(alloc: Global, program: &Program, class: &[u8]) -> Result<Option<Bytes>, AllocError>
    ensures { IfOk result (λ o. o ≡ under_object program.now class.now) }
{
    if is_class_above(program, without_last(class), object_class()) {
        Ok(Some(Bytes::from_slice(alloc, b"Ljava/lang/Object;")?))
    } else {
        Ok(None)
    }
}

/// The descriptor of a class.
fn class_descriptor(alloc: Global, name: &[u8]) -> Result<Bytes, AllocError>
    ensures { IfOk result (λ d. d ≡ class_descriptor name.now) }
{
    let mut bytes = Vec::new(alloc);
    bytes.push(76)?;
    bytes.extend_from_slice(name)?;
    bytes.push(59)?;
    Ok(Bytes::from_vec(bytes))
}

/// The descriptor of a class, where there is one.
fn described(alloc: Global, name: Option<Bytes>) -> Result<Option<Bytes>, AllocError>
    ensures { IfOk result (λ o. o ≡ option_map class_descriptor name) }
{
    match name {
        Some(name) => Ok(Some(class_descriptor(alloc, name.as_slice())?)),
        None => Ok(None),
    }
}

/// The descriptor of the nearest class that is above two, if one is, by their descriptors.
fn join_described(
    alloc: Global,
    program: &Program,
    a: &[u8],
    b: &[u8],
) -> Result<Option<Bytes>, AllocError>
    ensures { IfOk result (λ o. o ≡ join_described program.now a.now b.now) }
{
    let a = without_last(rest(a, 1));
    let b = without_last(rest(b, 1));
    let name = join_class(alloc, program, a, b)?;
    described(alloc, name)
}

/// Whether an element is of a class.
fn is_class(element: &[u8]) -> bool
    ensures { result ≡ begins 76 element.now }
{
    matches!(element.first(), Some(76))
}

/// The narrowest element above two, of which not both are of classes and not both are arrays, by their descriptors.
fn join_other(
    alloc: Global,
    program: &Program,
    a: &[u8],
    b: &[u8],
) -> Result<Option<Bytes>, AllocError>
    ensures { IfOk result (λ o. o ≡ join_other program.now a.now b.now) }
{
    match (a.first(), b.first()) {
        (Some(91), Some(76)) => under_object(alloc, program, rest(b, 1)),
        (Some(76), Some(91)) => under_object(alloc, program, rest(a, 1)),
        (Some(91 | 76), _) => Ok(None),
        (Some(_), _) => join_same(alloc, a, b),
        _ => Ok(None),
    }
}

/// The narrowest element above two of which no more than one is an array, by their descriptors.
#[tactic(auto, using(crate::proofs::Depths::base_classes, crate::proofs::Depths::base_first, crate::proofs::Depths::base_second))]
fn join_base(
    alloc: Global,
    program: &Program,
    a: &[u8],
    b: &[u8],
) -> Result<Option<Bytes>, AllocError>
    ensures { IfOk result (λ o. o ≡ join_base program.now a.now b.now) }
{
    if is_class(a) && is_class(b) {
        join_described(alloc, program, a, b)
    } else {
        join_other(alloc, program, a, b)
    }
}

/// A descriptor, if it is another too.
fn join_same(alloc: Global, a: &[u8], b: &[u8]) -> Result<Option<Bytes>, AllocError>
    ensures { IfOk result (λ o. o ≡ (if bytes_eq a.now b.now then Some a.now else None)) }
{
    if equal(a, b) {
        Ok(Some(Bytes::from_slice(alloc, a)?))
    } else {
        Ok(None)
    }
}

/// How many brackets two descriptors both begin with.
#[tactic(auto, using(crate::proofs::Depths::depth_more, crate::proofs::Depths::depth_end, crate::proofs::Depths::depth_past, crate::proofs::Depths::depth_none))]
fn common_depth(a: &[u8], b: &[u8]) -> usize
    ensures { result ≡ common_depth a.now b.now }
{
    for i in 0..a.len() {
        if !is_array(rest(a, i)) || !is_array(rest(b, i)) {
            return i;
        }
    }
    a.len()
}

/// So many brackets, and bytes behind them.
fn with_brackets(alloc: Global, count: usize, bytes: &[u8]) -> Result<Bytes, AllocError>
    ensures { IfOk result (λ d. d ≡ replicate count 91 ++ bytes.now) }
{
    let mut items = Vec::new(alloc);
    for _ in 0..count {
        items.push(91)?;
    }
    items.extend_from_slice(bytes)?;
    Ok(Bytes::from_vec(items))
}

/// Arrays so deep of an element; where there is none, of Object, and one less deep.
fn wrapped(alloc: Global, depth: usize, base: Option<Bytes>) -> Result<Option<Bytes>, AllocError>
    ensures { IfOk result (λ o. o ≡ wrapped depth base) }
{
    match base {
        Some(element) => Ok(Some(with_brackets(alloc, depth, element.as_slice())?)),
        None => match depth.checked_sub(1) {
            Some(less) => Ok(Some(with_brackets(alloc, less, b"Ljava/lang/Object;")?)),
            None => Ok(None),
        },
    }
}

/// The narrowest element above two, if one is, by their descriptors.
#[tactic(auto, using(crate::proofs::Depths::element_is))]
fn join_element(
    alloc: Global,
    program: &Program,
    a: &[u8],
    b: &[u8],
) -> Result<Option<Bytes>, AllocError>
    ensures { IfOk result (λ o. o ≡ join_element program.now a.now b.now) }
{
    let depth = common_depth(a, b);
    let base = join_base(alloc, program, rest(a, depth), rest(b, depth))?;
    wrapped(alloc, depth, base)
}

/// The narrowest array above two.
fn join_arrays(alloc: Global, program: &Program, a: &[u8], b: &[u8]) -> Result<Bytes, AllocError>
    ensures { IfOk result (λ n. n ≡ array_over (join_element program.now (drop 1 a.now) (drop 1 b.now))) }
{
    match join_element(alloc, program, rest(a, 1), rest(b, 1))? {
        Some(element) => with_brackets(alloc, 1, element.as_slice()),
        None => Bytes::from_slice(alloc, object_class()),
    }
}

/// The narrowest class or array above two, if one is.
fn join_name(
    alloc: Global,
    program: &Program,
    a: &[u8],
    b: &[u8],
) -> Result<Option<Bytes>, AllocError>
    ensures { IfOk result (λ o. o ≡ join_name program.now a.now b.now) }
{
    match (is_array(a), is_array(b)) {
        (true, true) => Ok(Some(join_arrays(alloc, program, a, b)?)),
        (true, false) => object_over(alloc, program, b),
        (false, true) => object_over(alloc, program, a),
        (false, false) => join_class(alloc, program, a, b),
    }
}

/// The narrowest type above two references.
fn join_references(
    alloc: Global,
    program: &Program,
    a: &[u8],
    b: &[u8],
) -> Result<VType, AllocError>
    ensures { IfOk result (λ t. t ≡ ref_or_top (join_name program.now a.now b.now)) }
{
    match join_name(alloc, program, a, b)? {
        Some(name) => Ok(VType::Ref(name)),
        None => Ok(VType::Top),
    }
}

/// The narrowest type above two.
pub fn join(alloc: Global, program: &Program, a: &VType, b: &VType) -> Result<VType, AllocError>
    ensures { IfOk result (λ t. t ≡ join program.now a.now b.now) }
{
    match (a, b) {
        (VType::Int, VType::Int) => Ok(VType::Int),
        (VType::Long, VType::Long) => Ok(VType::Long),
        (VType::Second, VType::Second) => Ok(VType::Second),
        (VType::Null, VType::Null) => Ok(VType::Null),
        (VType::Null, VType::Ref(n)) => {
            join_references(alloc, program, n.as_slice(), n.as_slice())
        }
        (VType::Ref(m), VType::Null) => {
            join_references(alloc, program, m.as_slice(), m.as_slice())
        }
        (VType::Ref(m), VType::Ref(n)) => {
            join_references(alloc, program, m.as_slice(), n.as_slice())
        }
        (VType::Uninit(p), VType::Uninit(q)) if p == q => Ok(VType::Uninit(*p)),
        (VType::UninitThis, VType::UninitThis) => Ok(VType::UninitThis),
        _ => Ok(VType::Top),
    }
}

/// The narrowest type above two. It shares the memory of one that is the same.
fn join_shared(
    alloc: Global,
    program: &Program,
    a: &SharedType,
    b: &SharedType,
) -> Result<SharedType, AllocError>
    ensures { IfOk result (λ t. t ≡ join program.now a.now b.now) }
{
    let item = join(alloc, program, a.as_type(), b.as_type())?;
    if is_same(&item, b.as_type()) {
        return b.share();
    }
    if is_same(&item, a.as_type()) {
        return a.share();
    }
    SharedType::new(alloc, item)
}

/// The narrowest types above those of two lists of one length.
#[tactic(auto, using(crate::proofs::Lists::join_step, crate::proofs::Lists::join_end))]
fn join_all(
    alloc: Global,
    program: &Program,
    a: &[SharedType],
    b: &[SharedType],
) -> Result<Vec<SharedType>, AllocError>
    requires { length a.now ≡ length b.now }
    ensures { IfOk result (λ v. v.items ≡ join_all program.now a.now b.now) }
{
    let mut types = Vec::new(alloc);
    for (i, item) in a.iter().enumerate() {
        types.push(join_shared(alloc, program, item, &b[i])?)?;
    }
    Ok(types)
}

/// The narrowest types above those of two lists: the types of one of them, or others.
#[derive(Drop)]
enum Above {
    First,
    Second,
    Own(TypeTree),
}

/// The narrowest types above two, in the memory of one of them where they are its own.
fn above_of(above: Above, first: TypeTree, second: TypeTree) -> TypeTree
    ensures { result ≡ above_of above first second }
{
    match above {
        Above::First => first,
        Above::Second => second,
        Above::Own(types) => types,
    }
}

/// The list that both halves are those of, if it is one.
fn one_side(left: &Above, right: &Above) -> Option<Above>
    ensures { IfSome result (λ j. IsOneSide j left.now right.now) }
{
    match (left, right) {
        (Above::First, Above::First) => Some(Above::First),
        (Above::Second, Above::Second) => Some(Above::Second),
        _ => None,
    }
}

/// The narrowest types above so many of one type and as many of another.
fn join_runs(
    alloc: Global,
    program: &Program,
    a: &SharedType,
    b: &SharedType,
    len: usize,
) -> Result<Above, AllocError>
    ensures { IfOk result (λ j. above_of j (replicate len a.now) (replicate len b.now) ≡ replicate len (join program.now a.now b.now)) }
{
    let item = join(alloc, program, a.as_type(), b.as_type())?;
    if is_same(&item, b.as_type()) {
        return Ok(Above::Second);
    }
    if is_same(&item, a.as_type()) {
        return Ok(Above::First);
    }
    Ok(Above::Own(TypeTree::run(SharedType::new(alloc, item)?, len)))
}

/// The narrowest types above those of two lists of one length and of two types at least, half by half.
#[cycle(joining)]
fn join_halves(
    alloc: Global,
    program: &Program,
    a: &TypeTree,
    b: &TypeTree,
) -> Result<Above, AllocError>
    requires same { length a.now ≡ length b.now }
    requires two { 2 ≤ length a.now }
    ensures { IfOk result (λ j. above_of j a.now b.now ≡ join_all program.now a.now b.now) }
{
    let (first_left, first_right) = a.halves()?;
    let (second_left, second_right) = b.halves()?;
    let left = join_parts(alloc, program, &first_left, &second_left)?;
    let right = join_parts(alloc, program, &first_right, &second_right)?;
    if let Some(side) = one_side(&left, &right) {
        return Ok(side);
    }
    let left = above_of(left, first_left, second_left);
    let right = above_of(right, first_right, second_right);
    Ok(Above::Own(TypeTree::pair(alloc, left, right)?))
}

/// The narrowest types above those of two lists of one length, part by part.
#[cycle(joining)]
fn join_parts(
    alloc: Global,
    program: &Program,
    a: &TypeTree,
    b: &TypeTree,
) -> Result<Above, AllocError>
    requires same { length a.now ≡ length b.now }
    ensures { IfOk result (λ j. above_of j a.now b.now ≡ join_all program.now a.now b.now) }
{
    match (a.parts(), b.parts()) {
        (Parts::Run(first), Parts::Run(second)) => {
            join_runs(alloc, program, first, second, a.len())
        }
        (Parts::Fork(_, _), _) => join_halves(alloc, program, a, b),
        (_, Parts::Fork(_, _)) => join_halves(alloc, program, a, b),
        _ => Ok(Above::First),
    }
}

/// The narrowest types above those of two lists of one length. Parts that are the same as one's are shared.
fn joined_list(
    alloc: Global,
    program: &Program,
    a: &TypeTree,
    b: &TypeTree,
) -> Result<TypeTree, AllocError>
    requires { length a.now ≡ length b.now }
    ensures { IfOk result (λ l. l ≡ join_all program.now a.now b.now) }
{
    match join_parts(alloc, program, a, b)? {
        Above::First => a.share(),
        Above::Second => b.share(),
        Above::Own(types) => Ok(types),
    }
}

/// The narrowest types above those of two stacks of one height: part by part, as far as their parts are as long. Parts that
/// are the same as one's are shared.
#[tactic(auto, using(crate::proofs::Halves::stack_join, crate::proofs::Halves::rest_length))]
fn joined_stack(
    alloc: Global,
    program: &Program,
    a: &TypeStack,
    b: &TypeStack,
) -> Result<TypeStack, AllocError>
    requires { length a.now ≡ length b.now }
    ensures { IfOk result (λ s. s ≡ join_all program.now a.now b.now) }
{
    match (a.split(), b.split()) {
        (Some((part, under)), Some((other, under_other))) if part.len() == other.len() => {
            let part = joined_list(alloc, program, part, other)?;
            let under = joined_stack(alloc, program, under, under_other)?;
            under.push_part(alloc, part)
        }
        _ => {
            let (first, second) = (a.flat(alloc)?, b.flat(alloc)?);
            let types = join_all(alloc, program, first.as_slice(), second.as_slice())?;
            TypeStack::new().push_all(alloc, types)
        }
    }
}

/// The narrowest types above two of as many places.
pub fn joined(
    alloc: Global,
    program: &Program,
    a: &TypeEntry,
    b: &TypeEntry,
) -> Result<TypeEntry, AllocError>
    requires locals { length a.now.locals ≡ length b.now.locals }
    requires stack { length a.now.stack ≡ length b.now.stack }
    ensures { IfOk result (λ h. h ≡ joined program.now a.now b.now) }
{
    let locals = joined_list(alloc, program, a.locals(), b.locals())?;
    let stack = joined_stack(alloc, program, a.stack(), b.stack())?;
    Ok(TypeEntry::new(locals, stack, a.built() && b.built()))
}

/// Whether each type of a list is within itself, and so the narrowest above it.
fn are_settled(program: &Program, types: &TypeTree) -> bool
    ensures { IsTrue result → are_within program.now types.now types.now ≡ true }
{
    if !types.has_names() {
        return true;
    }
    match types.parts() {
        Parts::Empty => true,
        Parts::Run(item) => is_within(program, item.as_type(), item.as_type()),
        Parts::Fork(left, right) => are_settled(program, left) && are_settled(program, right),
    }
}

/// Whether each type of a stack is within itself, and so the narrowest above it.
#[tactic(auto, using(crate::proofs::Runs::settled_part))]
fn is_settled(program: &Program, stack: &TypeStack) -> bool
    ensures { IsTrue result → are_within program.now stack.now stack.now ≡ true }
{
    let mut left = stack;
    while let Some((part, under)) = left.split() {
        if !are_settled(program, part) {
            return false;
        }
        left = under;
    }
    true
}

/// The narrowest types above some. They are shared where each is the narrowest above itself.
pub fn settled(alloc: Global, program: &Program, entry: &TypeEntry) -> Result<TypeEntry, AllocError>
    requires types { AreTypes program.now }
    ensures { IfOk result (λ h. h ≡ joined program.now entry.now entry.now) }
{
    if are_settled(program, entry.locals()) && is_settled(program, entry.stack()) {
        entry.share()
    } else {
        joined(alloc, program, entry, entry)
    }
}
