//! What instructions mean, with every name resolved (JVM Specification, Java SE 7, chapter 6).
ghost use Rattle.std.specs.Prelude.{◌≡◌, IfOk};
ghost use Rattle.objects.specs.linking.Decoding.{pool_op as pooled, meaning as meaning_of, op_of as op_of_instr, ops_of as all_ops};
ghost use Rattle.hierarchy.specs.Switches.{IsSwitchOf, AreSwitches};
ghost use Rattle.hierarchy.specs.Built.{Builds};

use crate::accesses::field_at;
use crate::calls::call_at;
use crate::classes::class_at;
use crate::constants::{ldc_op, number_op};
use crate::jumps::{jump_op, switch_op, table_cases};
use crate::symbols::Symbols;
use bytecode::opcodes;
use hierarchy::BuildEnd;
use hierarchy::numbered::Numbered;
use hierarchy::simple::{local_op, simple_op, wide_op};
use jmodel::{Instr, NoMemory, Operands};
use objects::op::Op;
use std::alloc::Global;

// One with an index of the pool.
fn pool_op(alloc: Global, symbols: &Symbols, opcode: u8, i: u16) -> Result<Option<Op>, NoMemory>
    ensures { IfOk result (λ o. o ≡ pooled symbols.now opcode i) }
{
    match opcode {
        opcodes::LDC..=opcodes::LDC2_W => Ok(ldc_op(symbols, i)),
        opcodes::GETSTATIC..=opcodes::PUTFIELD => Ok(field_at(alloc, symbols, opcode, i)?),
        opcodes::INVOKEVIRTUAL..=opcodes::INVOKEINTERFACE => call_at(alloc, symbols, opcode, i),
        _ => Ok(class_at(alloc, symbols, opcode, i)?),
    }
}

// What an opcode with its operands means, among instructions of one code.
fn meaning(
    alloc: Global,
    symbols: &Symbols,
    code: &Numbered,
    opcode: u8,
    operands: &Operands,
) -> Result<Option<Op>, NoMemory>
    requires { IsSwitchOf operands.now }
    ensures { IfOk result (λ o. o ≡ meaning_of symbols.now code.now opcode operands.now) }
{
    match operands {
        Operands::Nothing => Ok(simple_op(opcode)),
        Operands::Number(n) => Ok(number_op(symbols, opcode, *n)),
        Operands::Local(n) => Ok(local_op(opcode, *n)),
        Operands::LocalAdd(n, add) => Ok(Some(Op::Increment(*n as usize, *add as i32))),
        Operands::Pool(i) => pool_op(alloc, symbols, opcode, *i),
        Operands::Interface { index, .. } => pool_op(alloc, symbols, opcode, *index),
        Operands::Dimensions { .. } => Ok(None),
        Operands::Target(target) => Ok(jump_op(code, opcode, *target)),
        Operands::Table {
            other,
            low,
            targets,
        } => {
            let cases = table_cases(alloc, *low, targets.as_slice())?;
            Ok(switch_op(alloc, code, *other, cases.as_slice())?)
        }
        Operands::Lookup { other, pairs } => {
            Ok(switch_op(alloc, code, *other, pairs.as_slice())?)
        }
        Operands::Wide { op, local, add } => Ok(wide_op(*op, *local, *add)),
    }
}

/// What an instruction of a list of them means, None where it means nothing. The keys of a switch ascend.
pub fn op_of(
    alloc: Global,
    symbols: &Symbols,
    code: &Numbered,
    i: &Instr,
) -> Result<Option<Op>, NoMemory>
    requires { IsSwitchOf i.now.operands }
    ensures { IfOk result (λ o. o ≡ op_of_instr symbols.now code.now i.now) }
{
    meaning(alloc, symbols, code, i.op, &i.operands)
}

/// What instructions mean, one by one. NotBuilt where one of them means nothing. The keys of each switch ascend.
pub fn ops_of(alloc: Global, symbols: &Symbols, code: &Numbered) -> Result<Vec<Op>, BuildEnd>
    requires { AreSwitches code.now }
    ensures { Builds (λ v. v.items) result (all_ops symbols.now code.now) }
{
    let mut ops = Vec::new(alloc);
    let list = code.instrs();
    for i in list {
        match op_of(alloc, symbols, code, i)? {
            Some(op) => ops.push(op)?,
            None => return Err(BuildEnd::NotBuilt),
        }
    }
    Ok(ops)
}
