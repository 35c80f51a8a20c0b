//! Objects that aren't built: what makes them, and calls of constructors.
ghost use Rattle.std.specs.Prelude.{◌≡◌, ◌+◌, ◌^◌, ◌<◌, ◌∷◌, true, false, IfOk, codes, drop, map, option_copied, replicate, slice_get};
ghost use Rattle.std.specs.List.{list_any};
ghost use Rattle.jmodel.specs.declared.typing.VType.TheVariants as type;
ghost use Rattle.objects.specs.semantics.Program.{row_at};
ghost use Rattle.objects.specs.typing.TypeOrder.{is_within, string_class};
ghost use Rattle.objects.specs.typing.Typing.{become, constructs, direct_superclass, is_constructor, is_named, is_uninit, makes_new, new_class, on_each, on_top, row_in, special};
ghost use Rattle.verifier.specs.Flows.{constructed, flow_of, may_construct};
ghost use Rattle.verifier.specs.Rules.{are_taken};

use crate::led::{Led, are_taken};
use crate::members::{arguments, reversed};
use crate::names::{classes_from, equal, string_class};
use crate::order::{class_type, is_below};
use crate::rule::next;
use hierarchy::{Method, Program, TypeEntry};
use jmodel::VType;
use objects::op::Op;
use std::alloc::{AllocError, Global};
use type_lists::{Parts, SharedType, TypeStack, TypeTree};

/// Where an instruction stands: in a method of a program.
#[derive(Drop)]
pub struct Site<'a> {
    pub program: &'a Program,
    pub method: &'a Method,
    pub pc: usize,
}

/// Whether two types are of one object that isn't built.
fn is_uninit(item: &VType, other: &VType) -> bool
    ensures { result ≡ is_uninit item.now other.now }
{
    match (item, other) {
        (VType::Uninit(p), VType::Uninit(q)) => p == q,
        (VType::UninitThis, VType::UninitThis) => true,
        _ => false,
    }
}

/// Whether a list has an object that isn't built.
#[tactic(auto, using(crate::proofs::Copies::has_parts, crate::proofs::Copies::has_run))]
fn has_copy(types: &TypeTree, object: &VType) -> bool
    ensures { result ≡ list_any (is_uninit object.now) types.now }
{
    match types.parts() {
        Parts::Empty => false,
        Parts::Run(item) => is_uninit(object, item.as_type()),
        Parts::Fork(left, right) => has_copy(left, object) || has_copy(right, object),
    }
}

/// Types of a list, with another in place of each copy of an object that isn't built. Parts without a copy are shared.
fn replaced_list(
    alloc: Global,
    from: &TypeTree,
    object: &VType,
    by: &SharedType,
) -> Result<TypeTree, AllocError>
    ensures { IfOk result (λ l. l ≡ map (become object.now by.now) from.now) }
{
    if !has_copy(from, object) {
        return from.share();
    }
    match from.parts() {
        Parts::Empty => Ok(TypeTree::new()),
        Parts::Run(_) => Ok(TypeTree::run(by.share()?, from.len())),
        Parts::Fork(left, right) => {
            let left = replaced_list(alloc, left, object, by)?;
            let right = replaced_list(alloc, right, object, by)?;
            TypeTree::pair(alloc, left, right)
        }
    }
}

/// Types of a stack, with another in place of each copy of an object that isn't built. Parts without a copy are shared.
#[tactic(auto, using(crate::proofs::Copies::parts_become))]
fn replaced_stack(
    alloc: Global,
    from: &TypeStack,
    object: &VType,
    by: &SharedType,
) -> Result<TypeStack, AllocError>
    ensures { IfOk result (λ s. s ≡ map (become object.now by.now) from.now) }
{
    match from.split() {
        Some((part, under)) => {
            let part = replaced_list(alloc, part, object, by)?;
            let under = replaced_stack(alloc, under, object, by)?;
            under.push_part(alloc, part)
        }
        None => Ok(TypeStack::new()),
    }
}

/// Whether a method is a constructor.
pub fn is_constructor(method: &Method) -> bool
    ensures { result ≡ is_constructor method.now }
{
    equal(method.name().name.as_slice(), b"<init>")
}

/// Whether an instruction of a method makes objects of a class.
fn makes(program: &Program, op: Option<&Op>, class: &[u8]) -> bool
    ensures { result ≡ is_named class.now (new_class program.now (option_copied op.entry)) }
{
    match op {
        Some(Op::New(of)) => match program.row(*of) {
            Some(row) => equal(row.name().as_slice(), class),
            None => false,
        },
        _ => false,
    }
}

/// Whether a class stands right above another.
fn is_right_above(
    alloc: Global,
    program: &Program,
    class: &[u8],
    below: &[u8],
) -> Result<bool, AllocError>
    ensures { IfOk result (λ b. b ≡ is_named class.now (direct_superclass program.now below.now)) }
{
    let classes = classes_from(alloc, program, below)?;
    match classes.get(1) {
        Some(above) => Ok(equal(above.as_slice(), class)),
        None => Ok(false),
    }
}

/// Whether a constructor of a class may run over `this`: it is of the same class, or of the one right above.
fn may_delegate(alloc: Global, site: &Site, class: &[u8]) -> Result<bool, AllocError>
    ensures { IfOk result (λ b. b ≡ may_construct site.now.program.now site.now.method.now class.now type.UninitThis) }
{
    let own = site.method.name().class.as_slice();
    if equal(class, own) {
        return Ok(true);
    }
    is_right_above(alloc, site.program, class, own)
}

/// Whether a constructor of a class may run over an object.
fn may_construct(
    alloc: Global,
    site: &Site,
    class: &[u8],
    object: &VType,
) -> Result<bool, AllocError>
    ensures { IfOk result (λ b. b ≡ may_construct site.now.program.now site.now.method.now class.now object.now) }
{
    match object {
        VType::Uninit(place) => {
            let op = site.method.ops().get(usize::from(*place));
            Ok(makes(site.program, op, class))
        }
        VType::UninitThis => may_delegate(alloc, site, class),
        _ => Ok(false),
    }
}

/// The types after a constructor of a class has run over an object, over what lay under it.
fn constructed(
    alloc: Global,
    method: &Method,
    class: &[u8],
    entry: &TypeEntry,
    object: &VType,
    under: &TypeStack,
) -> Result<TypeEntry, AllocError>
    ensures { IfOk result (λ h. h ≡ constructed method.now class.now entry.now object.now under.now) }
{
    let this = matches!(object, VType::UninitThis);
    let class = if this {
        method.name().class.as_slice()
    } else {
        class
    };
    let built = SharedType::new(alloc, class_type(alloc, class)?)?;
    let locals = replaced_list(alloc, entry.locals(), object, &built)?;
    let stack = replaced_stack(alloc, under, object, &built)?;
    Ok(TypeEntry::new(locals, stack, this || entry.built()))
}

/// Runs a constructor of a class over an object, over what lies under it.
fn constructs_over(
    alloc: Global,
    site: &Site,
    class: &[u8],
    entry: &TypeEntry,
    object: &VType,
    under: &TypeStack,
) -> Result<Option<Led>, AllocError>
    requires { site.now.pc + 1 < 2 ^ 64 }
    ensures { IfOk result (λ o. flow_of o ≡ constructs site.now.program.now site.now.method.now site.now.pc class.now entry.now object.now under.now) }
{
    if !may_construct(alloc, site, class, object)? {
        return Ok(None);
    }
    let to = next(alloc, site.pc)?;
    let left = constructed(alloc, site.method, class, entry, object, under)?;
    Ok(Some(Led { to, left }))
}

/// Runs a constructor of a class over the object under so many places.
fn constructs(
    alloc: Global,
    site: &Site,
    class: &[u8],
    entry: &TypeEntry,
    places: usize,
) -> Result<Option<Led>, AllocError>
    requires { site.now.pc + 1 < 2 ^ 64 }
    ensures { IfOk result (λ o. flow_of o ≡ on_top (drop places entry.now.stack) (λ t s. constructs site.now.program.now site.now.method.now site.now.pc class.now entry.now t s)) }
{
    match entry.stack().under(alloc, places)? {
        Some((object, under)) => {
            constructs_over(alloc, site, class, entry, object.as_type(), &under)
        }
        None => Ok(None),
    }
}

/// A call of a constructor (JVM Specification, Java SE 7, section 4.10.1.9, invokespecial). It gives nothing.
#[tactic(auto, using(crate::proofs::Constructing::constructor_is))]
pub fn invoke_constructor(
    alloc: Global,
    site: &Site,
    called: &Method,
    entry: &TypeEntry,
) -> Result<Option<Led>, AllocError>
    requires { site.now.pc + 1 < 2 ^ 64 }
    ensures { IfOk result (λ o. flow_of o ≡ special true site.now.program.now site.now.method.now site.now.pc called.now entry.now) }
{
    if called.result().is_some() {
        return Ok(None);
    }
    let takes = reversed(alloc, arguments(called))?;
    if !are_taken(site.program, takes.as_slice(), entry.stack()) {
        return Ok(None);
    }
    constructs(
        alloc,
        site,
        called.name().class.as_slice(),
        entry,
        takes.len(),
    )
}

/// Whether so many of the topmost places have strings.
#[tactic(auto, using(crate::proofs::Texts::no_place_left))]
fn are_texts(program: &Program, count: usize, stack: &TypeStack) -> bool
    ensures { result ≡ are_taken program.now (replicate count (type.Ref string_class)) stack.now }
{
    for place in 0..count {
        match stack.get(place) {
            Some(item) if is_below(program, item, string_class()) => {}
            _ => return false,
        }
    }
    true
}

/// A call of a constructor of a library class, over so many places with strings.
pub fn init_library(
    alloc: Global,
    site: &Site,
    class: &[u8],
    places: usize,
    entry: &TypeEntry,
) -> Result<Option<Led>, AllocError>
    requires { site.now.pc + 1 < 2 ^ 64 }
    ensures { IfOk result (λ o. flow_of o ≡ on_each site.now.program.now (replicate places (type.Ref string_class)) entry.now.stack (λ s. on_top s (λ t s. constructs site.now.program.now site.now.method.now site.now.pc class.now entry.now t s))) }
{
    if are_texts(site.program, places, entry.stack()) {
        constructs(alloc, site, class, entry, places)
    } else {
        Ok(None)
    }
}

/// Whether a stack has an object that isn't built.
fn has_object(stack: &TypeStack, object: &VType) -> bool
    ensures { result ≡ list_any (is_uninit object.now) stack.now }
{
    let mut left = stack;
    while let Some((part, under)) = left.split() {
        if has_copy(part, object) {
            return true;
        }
        left = under;
    }
    false
}

/// The object that an instruction makes, as a type. Want of memory also for a place from 65536 on, which no method of a class
/// file has.
fn made_at(pc: usize) -> Result<VType, AllocError>
    ensures { IfOk result (λ t. t ≡ type.Uninit pc) }
{
    match u16::try_from(pc) {
        Ok(place) => Ok(VType::Uninit(place)),
        Err(_) => Err(AllocError),
    }
}

/// The types after an object was made, of which no copies made before are left.
fn made_entry(alloc: Global, entry: &TypeEntry, object: VType) -> Result<TypeEntry, AllocError>
    ensures { IfOk result (λ h. h ≡ record entry.now { locals = map (become object type.Top) entry.now.locals; stack = object ∷ entry.now.stack }) }
{
    let top = SharedType::new(alloc, VType::Top)?;
    let locals = replaced_list(alloc, entry.locals(), &object, &top)?;
    let made = SharedType::new(alloc, object)?;
    let stack = entry.stack().share()?.push(alloc, made)?;
    Ok(TypeEntry::new(locals, stack, entry.built()))
}

/// A new object (JVM Specification, Java SE 7, section 4.10.1.9, new). Want of memory also at a place from 65536 on.
pub fn make_new(
    alloc: Global,
    site: &Site,
    of: usize,
    entry: &TypeEntry,
) -> Result<Option<Led>, AllocError>
    requires { site.now.pc + 1 < 2 ^ 64 }
    ensures { IfOk result (λ o. flow_of o ≡ row_in (row_at site.now.program.now of) (λ r. makes_new (list_any (is_uninit (type.Uninit site.now.pc)) entry.now.stack) site.now.pc entry.now)) }
{
    if site.program.row(of).is_none() {
        return Ok(None);
    }
    let object = made_at(site.pc)?;
    if has_object(entry.stack(), &object) {
        return Ok(None);
    }
    let to = next(alloc, site.pc)?;
    let left = made_entry(alloc, entry, object)?;
    Ok(Some(Led { to, left }))
}
