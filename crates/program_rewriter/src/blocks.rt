//! The blocks of a duplicate: what stands there for each instruction.
ghost use Rattle.std.specs.Prelude.{◌≡◌, ◌++◌, ◌∷◌, [], option_copied, IfOk, OnOk};
ghost use Rattle.objects.specs.rewriting.Rewriting.{after_load as after_loading, element_load as loading, element_store as storing, moved_cases as cases_moved, block_of};
ghost use Rattle.program_rewriter.specs.Places.{start_of};
ghost use Rattle.program_rewriter.specs.Blocks.{moved_op, access_block, call_block};

use crate::arrays::{array_under, element_class, helped};
use crate::instructions::copy_op;
use crate::locals::{moved, moved_to};
use crate::numbers::{duplicate, element_getter, element_setter, getter, setter};
use crate::places::start_at;
use crate::shapes::{places_of, push_cast};
use hierarchy::{Program, TypeEntry};
use jmodel::{NoMemory, VType, Value};
use objects::Cases;
use objects::op::{Op, Sort, StackOp, WordType};
use std::alloc::{AllocError, Global};

/// What the blocks of a duplicate need: the program, the local of the context, how many locals the original has, and where the blocks begin.
#[derive(Drop)]
pub(crate) struct Blocks<'a> {
    pub(crate) program: &'a Program,
    pub(crate) context: usize,
    pub(crate) locals: usize,
    pub(crate) starts: &'a [usize],
}

// Puts the context, and a call that takes it, behind instructions.
fn push_call(ops: &mut Vec<Op>, context: usize, call: Op) -> Result<(), AllocError>
    ensures { OnOk result (ops.new.items ≡ ops.old.items ++ Op.Load Sort.Reference context ∷ call ∷ []) }
{
    ops.push(Op::Load(Sort::Reference, context))?;
    ops.push(call)?;
    Ok(())
}

// Puts behind instructions what follows the load of an element of an array of this type.
fn push_after_load(
    alloc: Global,
    ops: &mut Vec<Op>,
    word: WordType,
    array: Option<&VType>,
) -> Result<(), AllocError>
    ensures { OnOk result (ops.new.items ≡ ops.old.items ++ after_loading word (option_copied array.entry)) }
{
    match (word, array) {
        (WordType::Reference, Some(VType::Ref(name))) => {
            push_cast(alloc, ops, element_class(name.as_slice()))
        }
        (WordType::Reference, Some(VType::Null)) => {
            ops.push(Op::Stack(StackOp::Pop))?;
            ops.push(Op::Constant(Value::Ref(0)))?;
            Ok(())
        }
        _ => Ok(()),
    }
}

// Puts the load of an element of an array of this type behind instructions.
fn push_element_load(
    alloc: Global,
    ops: &mut Vec<Op>,
    blocks: &Blocks<'_>,
    word: WordType,
    array: Option<&VType>,
) -> Result<(), NoMemory>
    ensures { OnOk result (ops.new.items ≡ ops.old.items ++ loading blocks.now.program.now blocks.now.context word (option_copied array.entry)) }
{
    let called = element_getter(blocks.program, helped(array, word))?;
    push_call(ops, blocks.context, Op::InvokeStatic(called))?;
    push_after_load(alloc, ops, word, array)?;
    Ok(())
}

// Puts the store of one behind them.
fn push_element_store(
    ops: &mut Vec<Op>,
    blocks: &Blocks<'_>,
    word: WordType,
    array: Option<&VType>,
) -> Result<(), NoMemory>
    ensures { OnOk result (ops.new.items ≡ ops.old.items ++ storing blocks.now.program.now blocks.now.context word (option_copied array.entry)) }
{
    let called = element_setter(blocks.program, helped(array, word))?;
    push_call(ops, blocks.context, Op::InvokeStatic(called))?;
    Ok(())
}

// The cases of a switch, with their targets moved. The keys ascend as they did.
fn moved_cases(alloc: Global, starts: &[usize], cases: &Cases) -> Result<Cases, NoMemory>
    ensures { IfOk result (λ c. c ≡ cases_moved (start_of starts.now) cases.now) }
{
    let mut pairs = Vec::new(alloc);
    for (key, target) in cases.as_slice() {
        pairs.push((*key, start_at(starts, *target)))?;
    }
    Cases::new(pairs).ok_or(NoMemory)
}

// An instruction that moves within the method, or stays.
fn moved_one(alloc: Global, blocks: &Blocks<'_>, op: &Op) -> Result<Op, NoMemory>
    ensures { IfOk result (λ o. o ∷ [] ≡ moved_op blocks.now.context blocks.now.locals (start_of blocks.now.starts.now) op.now) }
{
    let starts = blocks.starts;
    let context = blocks.context;
    match op {
        Op::Branch(test, to) => Ok(Op::Branch(*test, start_at(starts, *to))),
        Op::BranchInts(test, to) => Ok(Op::BranchInts(*test, start_at(starts, *to))),
        Op::BranchNull(is, to) => Ok(Op::BranchNull(*is, start_at(starts, *to))),
        Op::BranchReferences(are, to) => Ok(Op::BranchReferences(*are, start_at(starts, *to))),
        Op::Goto(to) => Ok(Op::Goto(start_at(starts, *to))),
        Op::Switch { other, cases } => Ok(Op::Switch {
            other: start_at(starts, *other),
            cases: moved_cases(alloc, starts, cases)?,
        }),
        Op::Load(sort, local) => {
            Ok(Op::Load(*sort, moved_to(*sort, context, blocks.locals, *local)?))
        }
        Op::Store(sort, local) => {
            Ok(Op::Store(*sort, moved_to(*sort, context, blocks.locals, *local)?))
        }
        Op::Increment(local, add) => Ok(Op::Increment(moved(context, *local)?, *add)),
        _ => Ok(copy_op(alloc, op)?),
    }
}

// Puts behind instructions what stands for one that reads or writes a field or an element, moves within the method, or stays.
fn push_access(
    alloc: Global,
    ops: &mut Vec<Op>,
    blocks: &Blocks<'_>,
    types: Option<&TypeEntry>,
    op: &Op,
) -> Result<(), NoMemory>
    ensures { OnOk result (ops.new.items ≡ ops.old.items ++ access_block blocks.now.program.now blocks.now.context blocks.now.locals (start_of blocks.now.starts.now) (option_copied types.entry) op.now) }
{
    let program = blocks.program;
    let context = blocks.context;
    match op {
        Op::GetStatic(field) | Op::GetField { field, .. } => {
            push_call(ops, context, Op::InvokeStatic(getter(program, *field)?))?;
        }
        Op::PutStatic(field) | Op::PutField { field, .. } => {
            push_call(ops, context, Op::InvokeStatic(setter(program, *field)?))?;
        }
        Op::LoadElement(word) => {
            push_element_load(alloc, ops, blocks, *word, array_under(types, 1))?;
        }
        Op::StoreElement(word) => {
            let array = array_under(types, 1 + places_of(*word));
            push_element_store(ops, blocks, *word, array)?;
        }
        _ => ops.push(moved_one(alloc, blocks, op)?)?,
    }
    Ok(())
}

// The same of any instruction.
fn push_any(
    alloc: Global,
    ops: &mut Vec<Op>,
    blocks: &Blocks<'_>,
    types: Option<&TypeEntry>,
    op: &Op,
) -> Result<(), NoMemory>
    ensures { OnOk result (ops.new.items ≡ ops.old.items ++ call_block blocks.now.program.now blocks.now.context blocks.now.locals (start_of blocks.now.starts.now) (option_copied types.entry) op.now) }
{
    let called = match op {
        Op::InvokeStatic(method) => Op::InvokeStatic(duplicate(blocks.program, *method)?),
        Op::InvokeSpecial(method) => Op::InvokeSpecial(duplicate(blocks.program, *method)?),
        Op::InvokeVirtual { method, class } => Op::InvokeVirtual {
            method: duplicate(blocks.program, *method)?,
            class: class.copy(alloc)?,
        },
        Op::InvokeInterface { method, interface } => Op::InvokeInterface {
            method: duplicate(blocks.program, *method)?,
            interface: interface.copy(alloc)?,
        },
        _ => return push_access(alloc, ops, blocks, types, op),
    };
    push_call(ops, blocks.context, called)?;
    Ok(())
}

/// Puts behind instructions the block of one, before which the types are these.
#[tactic(auto, using(crate::proofs::SameBlocks::blocks_are_same))]
pub(crate) fn push_block(
    alloc: Global,
    ops: &mut Vec<Op>,
    blocks: &Blocks<'_>,
    types: Option<&TypeEntry>,
    op: &Op,
) -> Result<(), NoMemory>
    ensures { OnOk result (ops.new.items ≡ ops.old.items ++ block_of blocks.now.program.now blocks.now.context blocks.now.locals (start_of blocks.now.starts.now) (option_copied types.entry) op.now) }
{
    push_any(alloc, ops, blocks, types, op)
}
