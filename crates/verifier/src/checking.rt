//! A given table, tested against the rules.
ghost use Rattle.std.specs.Prelude.{◌≡◌, ◌+◌, ◌^◌, ◌<◌, ◌↔◌, IfOk, IsTrue, Some, length, slice_get};
ghost use Rattle.objects.specs.semantics.Program.{Method as JMethod, method_at};
ghost use Rattle.objects.specs.typing.Typing.{IsTyping, first_types};
ghost use Rattle.verifier.specs.Check.{covers, covers_each, is_shaped, keeps, keeps_at, keeps_flow};
ghost use Rattle.verifier.specs.Search.{caught, each_to, thrown};

use crate::building::Site;
use crate::flow::flow;
use crate::inference::first_types;
use crate::led::Led;
use crate::order::fits_in;
use crate::search::{are_locals, is_guarded, is_ready, stays, thrown};
use hierarchy::{Method, Program, TypeEntry, Typing};
use objects::op::Catch;
use std::alloc::{AllocError, Global};
use type_lists::{SharedType, TypeStack, TypeTree, is_same};

/// Whether two lists have the same types.
fn are_same(a: &[SharedType], b: &[SharedType]) -> bool
    ensures { IsTrue result ↔ (a.now ≡ b.now) }
{
    if a.len() != b.len() {
        return false;
    }
    for (i, item) in a.iter().enumerate() {
        if !is_same(item.as_type(), b[i].as_type()) {
            return false;
        }
    }
    true
}

/// Whether two lists, in parts, have the same types.
fn are_same_lists(alloc: Global, a: &TypeTree, b: &TypeTree) -> Result<bool, AllocError>
    ensures { IfOk result (λ s. IsTrue s ↔ (a.now ≡ b.now)) }
{
    let a = a.flat(alloc)?;
    let b = b.flat(alloc)?;
    Ok(are_same(a.as_slice(), b.as_slice()))
}

/// Whether two stacks have the same types.
fn are_same_stacks(alloc: Global, a: &TypeStack, b: &TypeStack) -> Result<bool, AllocError>
    ensures { IfOk result (λ s. IsTrue s ↔ (a.now ≡ b.now)) }
{
    let a = a.flat(alloc)?;
    let b = b.flat(alloc)?;
    Ok(are_same(a.as_slice(), b.as_slice()))
}

/// Whether two entries are the same.
fn are_same_entries(alloc: Global, a: &TypeEntry, b: &TypeEntry) -> Result<bool, AllocError>
    ensures { IfOk result (λ s. IsTrue s ↔ (a.now ≡ b.now)) }
{
    let locals = are_same_lists(alloc, a.locals(), b.locals())?;
    let stack = are_same_stacks(alloc, a.stack(), b.stack())?;
    Ok(locals && stack && a.built() == b.built())
}

/// Whether these are the types before the method's first instruction.
fn is_first(alloc: Global, method: &Method, entry: &TypeEntry) -> Result<bool, AllocError>
    ensures { IfOk result (λ b. IsTrue b ↔ (entry.now ≡ first_types method.now)) }
{
    let first = first_types(alloc, method)?;
    are_same_entries(alloc, entry, &first)
}

/// Whether these are types of a frame of the method.
fn is_shaped(method: &Method, entry: &TypeEntry) -> bool
    ensures { result ≡ is_shaped method.now entry.now }
{
    entry.locals().len() == method.entry().locals
        && are_locals(entry.locals())
        && is_ready(method, entry)
}

/// Whether a place of the code has types that are at least as wide as these.
fn covers(program: &Program, method: &Method, typing: &Typing, to: usize, entry: &TypeEntry) -> bool
    ensures { result ≡ covers program.now method.now typing.now to entry.now }
{
    if to >= method.ops().len() {
        return false;
    }
    match typing.at(to) {
        Some(wider) => fits_in(program, entry, wider),
        None => false,
    }
}

/// Whether each of these places has such types.
fn covers_ways(
    program: &Program,
    method: &Method,
    typing: &Typing,
    places: &[usize],
    left: &TypeEntry,
) -> bool
    ensures { result ≡ covers_each program.now method.now typing.now (each_to places.now left.now) }
{
    for to in places {
        if !covers(program, method, typing, *to, left) {
            return false;
        }
    }
    true
}

/// Whether the place of an exception entry has types that are at least as wide as these locals, with the exception.
fn covers_thrown(
    alloc: Global,
    program: &Program,
    method: &Method,
    typing: &Typing,
    entry: &Catch,
    over: &TypeEntry,
) -> Result<bool, AllocError>
    ensures { IfOk result (λ b. b ≡ covers program.now method.now typing.now entry.now.at (thrown program.now over.now.locals over.now.built entry.now)) }
{
    let out = thrown(alloc, program, over, entry)?;
    Ok(covers(program, method, typing, entry.at, &out))
}

/// Whether the place of each exception entry that guards a place has types that are at least as wide as these locals, with
/// the exception.
fn covers_caught(
    alloc: Global,
    program: &Program,
    method: &Method,
    typing: &Typing,
    pc: usize,
    over: &TypeEntry,
) -> Result<bool, AllocError>
    ensures { IfOk result (λ b. b ≡ covers_each program.now method.now typing.now (caught program.now method.now.catches pc over.now.locals over.now.built)) }
{
    for entry in method.catches() {
        if is_guarded(entry, pc) && !covers_thrown(alloc, program, method, typing, entry, over)? {
            return Ok(false);
        }
    }
    Ok(true)
}

/// Whether an instruction keeps its rules over these types, by where it goes on and what it leaves there.
fn keeps_flow(
    alloc: Global,
    site: &Site,
    typing: &Typing,
    entry: &TypeEntry,
    led: &Led,
) -> Result<bool, AllocError>
    ensures { IfOk result (λ b. b ≡ keeps_flow site.now.program.now site.now.method.now typing.now site.now.pc entry.now led.now) }
{
    let (program, method, pc) = (site.program, site.method, site.pc);
    if !stays(alloc, program, method, pc, &led.left)? {
        return Ok(false);
    }
    if !covers_ways(program, method, typing, led.to.as_slice(), &led.left) {
        return Ok(false);
    }
    if !covers_caught(alloc, program, method, typing, pc, entry)? {
        return Ok(false);
    }
    covers_caught(alloc, program, method, typing, pc, &led.left)
}

/// Whether the instruction of a place keeps its rules over these types.
fn keeps(
    alloc: Global,
    program: &Program,
    method: &Method,
    typing: &Typing,
    pc: usize,
    entry: &TypeEntry,
) -> Result<bool, AllocError>
    requires { pc + 1 < 2 ^ 64 }
    ensures { IfOk result (λ b. b ≡ keeps program.now method.now typing.now pc entry.now) }
{
    let Some(op) = method.op(pc) else {
        return Ok(false);
    };
    let site = Site {
        program,
        method,
        pc,
    };
    match flow(alloc, program, method, pc, op, entry)? {
        Some(led) => keeps_flow(alloc, &site, typing, entry, &led),
        None => Ok(false),
    }
}

/// Whether a place has no types, or such as its rules allow.
fn keeps_at(
    alloc: Global,
    program: &Program,
    method: &Method,
    typing: &Typing,
    pc: usize,
    entry: &Option<TypeEntry>,
) -> Result<bool, AllocError>
    requires { pc + 1 < 2 ^ 64 }
    ensures { IfOk result (λ b. b ≡ keeps_at program.now method.now typing.now pc entry.now) }
{
    match entry {
        Some(entry) if is_shaped(method, entry) => keeps(alloc, program, method, typing, pc, entry),
        Some(_) => Ok(false),
        None => Ok(true),
    }
}

/// Whether a table is a typing of a program's method, by its number (JVM Specification, Java SE 7, section 4.10.1).
pub fn check(
    alloc: Global,
    program: &Program,
    method: usize,
    typing: &Typing,
) -> Result<bool, AllocError>
    requires { method < length program.now.methods }
    ensures { IfOk result (λ b. (k : JMethod) → method_at program.now method ≡ Some k → (IsTrue b ↔ IsTyping program.now k typing.now)) }
{
    let code = &program.methods()[method];
    let Some(first) = typing.at(0) else {
        return Ok(false);
    };
    if !is_first(alloc, code, first)? {
        return Ok(false);
    }
    for (pc, entry) in typing.entries().iter().enumerate() {
        if !keeps_at(alloc, program, code, typing, pc, entry)? {
            return Ok(false);
        }
    }
    Ok(true)
}
