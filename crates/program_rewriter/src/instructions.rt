//! Copies of instructions.
ghost use Rattle.std.specs.Prelude.{◌≡◌, IfOk};
ghost use Rattle.program_rewriter.specs.Copied.{frame_copy as copy_of_frame, jump_copy as copy_of_jump, heap_copy as copy_of_heap, owned_copy as copy_of_owned};

use objects::Cases;
use objects::op::Op;
use std::alloc::{AllocError, Global};

// The cases of a switch once more. The keys ascend as they do there.
fn copy_cases(alloc: Global, from: &Cases) -> Result<Cases, AllocError>
    ensures { IfOk result (λ c. c ≡ from.now) }
{
    let pairs = Vec::from_slice(alloc, from.as_slice())?;
    match Cases::new(pairs) {
        Some(cases) => Ok(cases),
        None => unreachable!(),
    }
}

// An instruction that is of its frame alone.
fn copy_in_frame(op: &Op) -> Op
    ensures { result ≡ copy_of_frame op.now }
{
    match op {
        Op::Constant(value) => Op::Constant(*value),
        Op::Text(n) => Op::Text(*n),
        Op::Load(sort, local) => Op::Load(*sort, *local),
        Op::Store(sort, local) => Op::Store(*sort, *local),
        Op::Stack(how) => Op::Stack(*how),
        Op::Binary(width, how) => Op::Binary(*width, *how),
        Op::Shift(width, how) => Op::Shift(*width, *how),
        Op::Divide(width, how) => Op::Divide(*width, *how),
        Op::Unary(width, how) => Op::Unary(*width, *how),
        Op::Convert(how) => Op::Convert(*how),
        Op::CompareLongs => Op::CompareLongs,
        Op::Increment(local, add) => Op::Increment(*local, *add),
        Op::GetContext => Op::GetContext,
        Op::Context(call) => Op::Context(*call),
        Op::Throw => Op::Throw,
        _ => Op::Return,
    }
}

// One that goes to another place or method, or one of its frame alone.
fn copy_jump(op: &Op) -> Op
    ensures { result ≡ copy_of_jump op.now }
{
    match op {
        Op::Branch(test, to) => Op::Branch(*test, *to),
        Op::BranchInts(test, to) => Op::BranchInts(*test, *to),
        Op::BranchNull(is, to) => Op::BranchNull(*is, *to),
        Op::BranchReferences(are, to) => Op::BranchReferences(*are, *to),
        Op::Goto(to) => Op::Goto(*to),
        Op::InvokeStatic(method) => Op::InvokeStatic(*method),
        Op::InvokeSpecial(method) => Op::InvokeSpecial(*method),
        Op::ReturnValue(sort) => Op::ReturnValue(*sort),
        _ => copy_in_frame(op),
    }
}

// One that names no class.
fn copy_unnamed(op: &Op) -> Op
    ensures { result ≡ copy_of_heap op.now }
{
    match op {
        Op::GetStatic(field) => Op::GetStatic(*field),
        Op::PutStatic(field) => Op::PutStatic(*field),
        Op::New(of) => Op::New(*of),
        Op::NewArray(of) => Op::NewArray(*of),
        Op::ArrayLength => Op::ArrayLength,
        Op::LoadElement(word) => Op::LoadElement(*word),
        Op::StoreElement(word) => Op::StoreElement(*word),
        _ => copy_jump(op),
    }
}

fn copy_any(alloc: Global, op: &Op) -> Result<Op, AllocError>
    ensures { IfOk result (λ o. o ≡ copy_of_owned op.now) }
{
    match op {
        Op::Switch { other, cases } => Ok(Op::Switch {
            other: *other,
            cases: copy_cases(alloc, cases)?,
        }),
        Op::GetField { field, class } => Ok(Op::GetField {
            field: *field,
            class: class.copy(alloc)?,
        }),
        Op::PutField { field, class } => Ok(Op::PutField {
            field: *field,
            class: class.copy(alloc)?,
        }),
        Op::InvokeVirtual { method, class } => Ok(Op::InvokeVirtual {
            method: *method,
            class: class.copy(alloc)?,
        }),
        Op::InvokeInterface { method, interface } => Ok(Op::InvokeInterface {
            method: *method,
            interface: interface.copy(alloc)?,
        }),
        Op::InitLibrary { class, places } => Ok(Op::InitLibrary {
            class: class.copy(alloc)?,
            places: *places,
        }),
        Op::CheckCast(class) => Ok(Op::CheckCast(class.copy(alloc)?)),
        Op::InstanceOf(class) => Ok(Op::InstanceOf(class.copy(alloc)?)),
        _ => Ok(copy_unnamed(op)),
    }
}

/// An instruction once more.
#[tactic(auto, using(crate::proofs::OpCopies::copy_is_same))]
pub(crate) fn copy_op(alloc: Global, op: &Op) -> Result<Op, AllocError>
    ensures { IfOk result (λ o. o ≡ op.now) }
{
    copy_any(alloc, op)
}
