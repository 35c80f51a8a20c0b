//! Where the blocks of a duplicate begin.
ghost use Rattle.std.specs.Prelude.{◌≡◌, length, option_copied, IfOk};
ghost use Rattle.objects.specs.rewriting.Rewriting.{after_load as after_loading, block_len_of};
ghost use Rattle.program_rewriter.specs.Places.{starts_from, start_of};

use crate::arrays::{array_under, is_cast};
use crate::numbers::sum;
use hierarchy::{Method, TypeEntry, Typing};
use jmodel::{NoMemory, VType};
use objects::op::{Op, WordType};
use std::alloc::Global;

// How many instructions follow the load of an element of an array of this type.
fn after_load_len(word: WordType, array: Option<&VType>) -> usize
    ensures { result ≡ length (after_loading word (option_copied array.entry)) }
{
    match (word, array) {
        (WordType::Reference, Some(VType::Ref(name))) if is_cast(name.as_slice()) => 1,
        (WordType::Reference, Some(VType::Null)) => 2,
        _ => 0,
    }
}

// How many instructions stand for one, before which the types are these.
fn block_len(types: Option<&TypeEntry>, op: &Op) -> usize
    ensures { result ≡ block_len_of (option_copied types.entry) op.now }
{
    match op {
        Op::LoadElement(word) => 2 + after_load_len(*word, array_under(types, 1)),
        Op::GetStatic(_)
        | Op::PutStatic(_)
        | Op::GetField { .. }
        | Op::PutField { .. }
        | Op::StoreElement(_)
        | Op::InvokeStatic(_)
        | Op::InvokeSpecial(_)
        | Op::InvokeVirtual { .. }
        | Op::InvokeInterface { .. } => 2,
        _ => 1,
    }
}

/// The places of the blocks of a method's instructions, and the place after the last block.
pub(crate) fn starts_of(
    alloc: Global,
    method: &Method,
    typing: &Typing,
) -> Result<Vec<usize>, NoMemory>
    ensures { IfOk result (λ v. v.items ≡ starts_from 0 0 typing.now method.now.ops) }
{
    let mut starts = Vec::new(alloc);
    let mut at = 0;
    for (pc, op) in method.ops().iter().enumerate() {
        starts.push(at)?;
        at = sum(at, block_len(typing.at(pc), op))?;
    }
    starts.push(at)?;
    Ok(starts)
}

// The last place.
fn last_start(starts: &[usize]) -> usize
    ensures { result ≡ last_of starts.now }
{
    match starts.last() {
        Some(start) => *start,
        None => 0,
    }
}

ghost use Rattle.program_rewriter.specs.Places.{last_of};

/// The place of the block with a number; past the last block the place after it.
#[tactic(auto, using(crate::proofs::Lasts::start_inside, crate::proofs::Lasts::start_past))]
pub(crate) fn start_at(starts: &[usize], number: usize) -> usize
    ensures { result ≡ start_of starts.now number }
{
    match starts.get(number) {
        Some(start) => *start,
        None => last_start(starts),
    }
}
