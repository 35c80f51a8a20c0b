//! Code as a list of instructions.
ghost use Rattle.std.specs.Prelude.{◌≡◌, ◌≤◌, List, length, IfOk, Ok};
ghost use Rattle.jmodel.specs.declared.instruction.Instr.{Instr as Form};
ghost use Rattle.jmodel.specs.format.Reading.{Gives};
ghost use Rattle.jmodel.specs.format.Instruction.{SpellsInstrs};
ghost use Rattle.jmodel.specs.format.InstructionReading.{instrs_of};

use crate::instructions::instrs_at;
use crate::targets::{entries_fit, marks_of, targets_fit};
use const_pool::Pool;
use jmodel::{Bytes, Halt, Handler, Instr};
use std::alloc::Global;

#[tactic(auto, unfolding(jmodel::specs::format::InstructionReading::instrs_of))]
fn read(alloc: Global, pool: &Pool, code: &[u8], handlers: &[Handler]) -> Result<Vec<Instr>, Halt>
    requires { length code.now ≤ 65535 }
    ensures { Gives (λ v. v.items) result (instrs_of pool.now handlers.now code.now) }
{
    let instrs = instrs_at(alloc, pool, code)?;
    let marks = marks_of(alloc, code.len(), &instrs)?;
    targets_fit(alloc, &marks, &instrs)?;
    entries_fit(alloc, &marks, code.len(), handlers)?;
    Ok(instrs)
}

fn decode_bytes(
    alloc: Global,
    pool: &Pool,
    code: &[u8],
    handlers: &[Handler],
) -> Result<Vec<Instr>, Halt>
    requires { length code.now ≤ 65535 }
    ensures found { IfOk result (λ v. SpellsInstrs pool.now handlers.now code.now v.items) }
    ensures only { (is : List Form) → SpellsInstrs pool.now handlers.now code.now is → Gives (λ v. v.items) result (Ok is) }
    ensures exact { Gives (λ v. v.items) result (instrs_of pool.now handlers.now code.now) }
{
    read(alloc, pool, code, handlers)
}

/// The instructions of code that stands over a pool and has these exception entries, in order of pc. Refused, with the
/// method's name left empty, as
///
/// - `BadInstr` with the least pc at which no instruction stands;
/// - else `BadTarget` with the least pc of a jump or a switch that leads to no instruction;
/// - else `BadTarget` with the least start, end or handler of an exception entry at which none begins; an end may be the
///   code's.
pub fn decode(
    alloc: Global,
    pool: &Pool,
    code: &Bytes,
    handlers: &[Handler],
) -> Result<Vec<Instr>, Halt>
    requires { length code.now ≤ 65535 }
    // What is read keeps the rules, and is what the code spells.
    ensures found { IfOk result (λ v. SpellsInstrs pool.now handlers.now code.now v.items) }
    // Each list of instructions that the code spells is read, unless memory runs out.
    ensures only { (is : List Form) → SpellsInstrs pool.now handlers.now code.now is → Gives (λ v. v.items) result (Ok is) }
    // Which instructions they are, or which fault is the first.
    ensures exact { Gives (λ v. v.items) result (instrs_of pool.now handlers.now code.now) }
{
    decode_bytes(alloc, pool, code.as_slice(), handlers)
}
