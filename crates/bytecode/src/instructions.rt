//! Instructions of code, one after another.
ghost use Rattle.std.specs.Prelude.{◌≡◌, ◌<◌, ◌≤◌, length, IfOk};
ghost use Rattle.std.specs.List.{AllByRecursion};
ghost use Rattle.jmodel.specs.declared.instruction.Instr.{Instr as Form};
ghost use Rattle.jmodel.specs.format.Reading.{Gives};
ghost use Rattle.jmodel.specs.format.InstructionReading.{parts_at as parts, instr_at as instr, instrs_at as instrs};

use crate::forms::form_of;
use crate::numbers::{bad_instr, u1_at};
use crate::operands::operands_at;
use const_pool::Pool;
use jmodel::{Halt, Instr};
use std::alloc::Global;

#[tactic(auto, unfolding(jmodel::specs::format::InstructionReading::parts_at))]
fn parts_at(alloc: Global, pool: &Pool, code: &[u8], pc: u16) -> Result<(Instr, usize), Halt>
    ensures { Gives (λ x. x) result (parts pool.now code.now pc) }
{
    let (op, at) = u1_at(code, pc as usize)?;
    let (operands, after) = operands_at(alloc, pool, pc, form_of(op), code, at)?;
    Ok((Instr { pc, op, operands }, after))
}

// The instruction at a pc and the place after it, refused as BadInstr.
fn instr_at(alloc: Global, pool: &Pool, code: &[u8], pc: u16) -> Result<(Instr, usize), Halt>
    ensures { Gives (λ x. x) result (instr pool.now code.now pc) }
{
    match parts_at(alloc, pool, code, pc) {
        Ok(found) => Ok(found),
        Err(Halt::Refused(_)) => Err(bad_instr(alloc, pc)),
        Err(Halt::NoMemory) => Err(Halt::NoMemory),
    }
}

/// The instructions of code, or BadInstr at the least pc where none stands.
pub fn instrs_at(alloc: Global, pool: &Pool, code: &[u8]) -> Result<Vec<Instr>, Halt>
    requires { length code.now ≤ 65535 }
    ensures gives { Gives (λ v. v.items) result (instrs pool.now code.now (length code.now) 0) }
    ensures inside { IfOk result (λ v. AllByRecursion (λ (i : Form). i.pc < length code.now) v.items) }
{
    let mut found = Vec::new(alloc);
    let mut at = 0;
    for _ in 0..code.len() {
        if at >= code.len() {
            return Ok(found);
        }
        let (instr, after) = instr_at(alloc, pool, code, at as u16)?;
        found.push(instr)?;
        at = after;
    }
    Ok(found)
}
