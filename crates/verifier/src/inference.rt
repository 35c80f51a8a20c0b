//! The narrowest typing of a method, or the place from which on it has none.
ghost use Rattle.std.specs.Prelude.{◌≡◌, ◌++◌, ◌<◌, IfOk, IfErr, OnOk, length, replicate};
ghost use Rattle.std.specs.List.{AllByRecursion};
ghost use Rattle.jmodel.specs.declared.typing.VType.TheVariants as type;
ghost use Rattle.objects.specs.typing.Typing.{first_locals, first_types, IsUntypableAt};
ghost use Rattle.objects.specs.typing.Source.{AreTypes, IsReadType};
ghost use Rattle.verifier.specs.Answer.{IsEnd, IsInferred, TakesRead};
ghost use Rattle.verifier.specs.Bounded.{IsFoundUpTo, IsUntypedUpTo};

use crate::building::is_constructor;
use crate::order::{copies, push_copies, rest};
use crate::search::{Search, is_entered};
use crate::visit::visit;
use hierarchy::{Method, Program, TypeEntry, Typing};
use jmodel::VType;
use std::alloc::{AllocError, Global};
use type_lists::{TypeStack, TypeTree, shared_types};

/// Why a method got no typing.
#[derive(Clone, Copy, PartialEq, Eq)]
pub enum TypeEnd {
    /// It has none. No table meets the rules of the instructions up to this place, counted in instructions, and for each
    /// lower place there is one that does.
    Untypable(usize),
    NoMemory,
}

impl From<AllocError> for TypeEnd {
    ghost use Rattle.std.specs.Prelude.{◌≡◌};
    ghost use Rattle.verifier.specs.declared.inference.TypeEnd.TheVariants as ends;

    ghost from_gives = { λ _ e. e ≡ ends.NoMemory };

    fn from(_: AllocError) -> Self {
        TypeEnd::NoMemory
    }
}

/// The types of the parameters. The object of a constructor isn't built at first.
fn first_locals(
    alloc: Global,
    constructor: bool,
    parameters: &[VType],
) -> Result<Vec<VType>, AllocError>
    ensures { IfOk result (λ v. v.items ≡ first_locals constructor parameters.now) }
{
    if !constructor || parameters.is_empty() {
        return copies(alloc, parameters);
    }
    let mut types = Vec::new(alloc);
    types.push(VType::UninitThis)?;
    push_copies(alloc, &mut types, rest(parameters, 1))?;
    Ok(types)
}

/// Puts so many tops at the end.
fn push_tops(types: &mut Vec<VType>, count: usize) -> Result<(), AllocError>
    ensures { OnOk result (types.new.items ≡ types.old.items ++ replicate count type.Top) }
{
    for _ in 0..count {
        types.push(VType::Top)?;
    }
    Ok(())
}

/// The types before a method's first instruction: its parameters, and nothing else.
pub fn first_types(alloc: Global, method: &Method) -> Result<TypeEntry, AllocError>
    ensures { IfOk result (λ h. h ≡ first_types method.now) }
{
    let constructor = is_constructor(method);
    let mut locals = first_locals(alloc, constructor, method.parameters())?;
    let entry = method.entry();
    push_tops(&mut locals, entry.locals.saturating_sub(entry.places))?;
    let locals = TypeTree::from_slice(alloc, shared_types(alloc, locals)?.as_slice())?;
    Ok(TypeEntry::new(locals, TypeStack::new(), !constructor))
}

/// The narrowest table that meets the rules of a method's instructions up to a place; none where there is no such table. No
/// place behind that one is looked at.
fn table_up_to(
    alloc: Global,
    program: &Program,
    method: &Method,
    last: usize,
) -> Result<Option<Typing>, AllocError>
    requires some { 0 < length method.now.ops }
    requires types { AreTypes program.now }
    requires takes { AllByRecursion (IsReadType program.now) method.now.parameters }
    ensures { IfOk result (IsFoundUpTo program.now method.now last) }
{
    let first = first_types(alloc, method)?;
    if !is_entered(method, &first) {
        return Ok(None);
    }
    let mut search = Search::start(alloc, method, first)?;
    while let Some(pc) = search.next(last) {
        if !visit(alloc, program, method, pc, &mut search)? {
            return Ok(None);
        }
    }
    Ok(Some(search.into_typing()))
}

/// The least place such that no table meets the rules up to it, where none meets those up to a last one. It is found by
/// bisection: a table up to a place is one up to each lower place.
fn least_untyped(
    alloc: Global,
    program: &Program,
    method: &Method,
    last: usize,
) -> Result<usize, AllocError>
    requires some { 0 < length method.now.ops }
    requires types { AreTypes program.now }
    requires takes { AllByRecursion (IsReadType program.now) method.now.parameters }
    requires none { IsUntypedUpTo program.now method.now last }
    ensures { IfOk result (IsUntypableAt program.now method.now) }
{
    let mut low = 0;
    let mut high = last;
    while low < high {
        let middle = low + (high - low) / 2;
        if table_up_to(alloc, program, method, middle)?.is_some() {
            low = middle + 1;
        } else {
            high = middle;
        }
    }
    Ok(low)
}

/// The typing of a program's method by its number, the narrowest: at each place that has types, each other typing has some
/// that are at least as wide (JVM Specification, Java SE 7, section 4.10.2). A method without code has none from its first
/// place on.
pub fn infer(alloc: Global, program: &Program, method: usize) -> Result<Typing, TypeEnd>
    requires there { method < length program.now.methods }
    requires types { AreTypes program.now }
    requires takes { TakesRead program.now method }
    ensures ok { IfOk result (IsInferred program.now method) }
    ensures err { IfErr result (IsEnd program.now method) }
{
    let code = &program.methods()[method];
    if code.ops().is_empty() {
        return Err(TypeEnd::Untypable(0));
    }
    let last = code.ops().len() - 1;
    let Some(typing) = table_up_to(alloc, program, code, last)? else {
        let place = least_untyped(alloc, program, code, last)?;
        return Err(TypeEnd::Untypable(place));
    };
    Ok(typing)
}
