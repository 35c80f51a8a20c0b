//! Of what a duplicate may not have too many (JVM Specification, Java SE 7, sections 4.3.3, 4.7.3 and 4.9.1).
ghost use Rattle.std.specs.Prelude.{◌≡◌, ◌+◌, ◌≤◌, ◌<◌, length, OnOk};
ghost use Rattle.std.specs.List.{list_any, AllByRecursion};
ghost use Rattle.jmodel.specs.format.Reading.{Gives};
ghost use Rattle.objects.specs.rewriting.Rewriting.{is_stray as is_stray_in, moved as moved_by, moved_to as moved_so};
ghost use Rattle.objects.specs.declared.op.Op.{Op as Form};
ghost use Rattle.dup_methods.specs.Limits.{called_places as places_of_called, count_of as count_in, calls_full as is_calling_full, counts_full as is_counting_full, few_arguments, few_places, added_locals as locals_added, moved_local, is_far as is_far_in, FitsCount};

use bytecode::{Instr, Operands};
use const_pool::Code;
use hierarchy::{Method, Program};
use jmodel::Halt;
use member_code::places::too_many;
use objects::op::{Op, Sort};
use std::alloc::Global;

// How many places the arguments of a method take, none where the program has no such method.
fn places_of(program: &Program, method: usize) -> usize
    ensures { result ≡ places_in (method_at program.now method) }
{
    match program.methods().get(method) {
        Some(found) => found.entry().places,
        None => 0,
    }
}

ghost use Rattle.objects.specs.semantics.Program.{method_at};
ghost use Rattle.dup_methods.specs.Limits.{places_in};

// How many places the arguments of the folder's method take that an instruction calls.
fn called_places(program: &Program, op: &Op) -> usize
    ensures { result ≡ places_of_called program.now op.now }
{
    match op {
        Op::InvokeStatic(m) | Op::InvokeSpecial(m) => places_of(program, *m),
        Op::InvokeVirtual { method, .. } | Op::InvokeInterface { method, .. } => {
            places_of(program, *method)
        }
        _ => 0,
    }
}

/// The count of argument places that an invokeinterface has, 0 of any other instruction.
pub(crate) fn count_of(operands: &Operands) -> u8
    ensures { result ≡ count_in operands.now }
{
    match operands {
        Operands::Interface { count, .. } => *count,
        _ => 0,
    }
}

// Whether an instruction calls a method whose arguments leave no place for the context.
fn calls_full(program: &Program, op: &Op) -> bool
    ensures { result ≡ is_calling_full program.now op.now }
{
    called_places(program, op) > 254
}

fn counts_full(i: &Instr) -> bool
    ensures { result ≡ is_counting_full i.now }
{
    count_of(&i.operands) > 254
}

// Whether some instruction calls a method whose arguments leave no place for the context.
fn some_calls_full(program: &Program, ops: &[Op]) -> bool
    ensures { result ≡ list_any (is_calling_full program.now) ops.now }
{
    ops.iter().any(|o| calls_full(program, o))
}

fn some_counts_full(instrs: &[Instr]) -> bool
    ensures { result ≡ list_any is_counting_full instrs.now }
{
    instrs.iter().any(|i| counts_full(i))
}

/// Refuses the duplicate of a method with these instructions, as `TooManyPlaces` with the method's printed name and `Arguments`. It is refused where
/// arguments with the context would take more than 255 places: its own, or those of a method that it calls (JVM Specification, Java SE 7, section 4.3.3).
#[tactic(auto, using(crate::proofs::Fitting::counts_fit), unfolding(crate::specs::Limits::few_arguments))]
pub fn want_arguments(
    alloc: Global,
    program: &Program,
    method: &Method,
    instrs: &[Instr],
) -> Result<(), Halt>
    ensures exact { Gives (λ x. x) result (few_arguments program.now method.now instrs.now) }
    ensures few { OnOk result (method.now.places ≤ 254) }
    ensures counts { OnOk result (AllByRecursion FitsCount instrs.now) }
{
    let own = method.entry().places > 254;
    if own || some_calls_full(program, method.ops()) || some_counts_full(instrs) {
        return Err(too_many(alloc, method.name(), b"Arguments")?);
    }
    Ok(())
}

// A number that two bytes hold.
fn in_two_bytes(n: usize) -> Option<u16>
    ensures { result ≡ two_bytes n }
{
    u16::try_from(n).ok()
}

ghost use Rattle.dup_methods.specs.Limits.{two_bytes};

// The local that stands in the duplicate for one of the original, where the context is local `context`.
fn moved(context: usize, local: usize) -> Option<u16>
    ensures { result ≡ two_bytes (moved_by context local) }
{
    if local < context {
        in_two_bytes(local)
    } else {
        in_two_bytes(local.checked_add(1)?)
    }
}

// Whether a local stands right before that of the context.
fn is_before(local: usize, context: usize) -> bool
    ensures { result ≡ nat_eq (local + 1) context }
{
    context > 0 && local == context - 1
}

ghost use Rattle.std.specs.Prelude.{nat_eq};

// The local that stands in the duplicate of a method for one of a load or a store.
fn moved_to(method: &Method, sort: Sort, local: usize) -> Option<u16>
    ensures { result ≡ two_bytes (moved_so sort method.now.places method.now.locals local) }
{
    let entry = method.entry();
    match sort {
        Sort::Long if is_before(local, entry.places) => in_two_bytes(entry.locals.checked_add(1)?),
        _ => moved(entry.places, local),
    }
}

// The local that stands in the duplicate for the one that an instruction has, 0 where it has none.
fn local_of(method: &Method, op: &Op) -> Option<u16>
    ensures { result ≡ two_bytes (moved_local method.now op.now) }
{
    match op {
        Op::Load(sort, local) | Op::Store(sort, local) => moved_to(method, *sort, *local),
        Op::Increment(local, _) => moved(method.entry().places, *local),
        _ => Some(0),
    }
}

/// The local that stands in the duplicate for the one that an instruction has.
pub(crate) fn moved_local_of(method: &Method, op: &Op) -> u16
    requires { moved_local method.now op.now < 65536 }
    ensures { result ≡ moved_local method.now op.now }
{
    match local_of(method, op) {
        Some(local) => local,
        None => unreachable!(),
    }
}

fn is_far(method: &Method, op: &Op) -> bool
    ensures { result ≡ is_far_in method.now op.now }
{
    local_of(method, op).is_none()
}

fn some_far(method: &Method) -> bool
    ensures { result ≡ list_any (is_far_in method.now) method.now.ops }
{
    method.ops().iter().any(|o| is_far(method, o))
}

// Whether an instruction has a long whose second place is the context's in the duplicate.
fn is_stray(context: usize, op: &Op) -> bool
    ensures { result ≡ is_stray_in context op.now }
{
    match op {
        Op::Load(Sort::Long, local) | Op::Store(Sort::Long, local) => is_before(*local, context),
        _ => false,
    }
}

fn some_stray(method: &Method) -> bool
    ensures { result ≡ list_any (is_stray_in method.now.places) method.now.ops }
{
    let context = method.entry().places;
    method.ops().iter().any(|o| is_stray(context, o))
}

/// How many locals the duplicate of a method has more.
pub fn added_locals(method: &Method) -> u16
    ensures says { result ≡ locals_added method.now }
    ensures few { result ≤ 3 }
{
    if some_stray(method) { 3 } else { 1 }
}

/// Refuses the duplicate of a method with this code, as `TooManyPlaces` with the method's printed name and `Handlers`, `Locals` or `Stack`. It is refused
/// where the duplicate would have more than 65,535 of them (JVM Specification, Java SE 7, sections 4.7.3 and 4.9.1). A local past 65,535, which only an
/// instruction can name that is never reached, is one too many as well.
#[tactic(auto, using(crate::proofs::Fitting::all_near), unfolding(crate::specs::Limits::few_places))]
pub fn want_places(alloc: Global, method: &Method, code: &Code) -> Result<(), Halt>
    ensures exact { Gives (λ x. x) result (few_places method.now code.now) }
    ensures handlers { OnOk result (length code.now.handlers ≤ 65534) }
    ensures locals { OnOk result (code.now.max_locals + locals_added method.now ≤ 65535) }
    ensures stack { OnOk result (code.now.max_stack ≤ 65534) }
    ensures near { OnOk result (AllByRecursion (λ (o : Form). moved_local method.now o < 65536) method.now.ops) }
{
    if code.handlers.len() > 65534 {
        return Err(too_many(alloc, method.name(), b"Handlers")?);
    }
    let locals = code.max_locals as u32 + added_locals(method) as u32;
    if locals > 65535 || some_far(method) {
        return Err(too_many(alloc, method.name(), b"Locals")?);
    }
    if code.max_stack > 65534 {
        return Err(too_many(alloc, method.name(), b"Stack")?);
    }
    Ok(())
}
