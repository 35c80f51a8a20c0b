//! A list of instructions as code.
ghost use Rattle.std.specs.Prelude.{◌≡◌, ℕ, ◌++◌, ◌<◌, ◌^◌, length, OnOk, IfOk, FitsSigned};
ghost use Rattle.std.specs.List.{flat_map, AllByRecursion};
ghost use Rattle.std.specs.Int.{w8, w16, w32, to_be_bytes};
ghost use Rattle.jmodel.specs.format.ClassFile.{u2, u4};
ghost use Rattle.jmodel.specs.format.Instruction.{signed, distance as distance_of, highest as highest_of, jump, zeros, pair_text as text_of_pair, number_text, local_text, increment_text, index_text, interface_text, dimensions_text, target_text, table_text, lookup_text, wide_text, operands_text, text, code_text, IsNumber, IsArrayType, IsLocal, IsIncrement, IsIndex, IsTarget, IsTable, IsLookup, IsWide, IsSized, IsInstr, AreInOrder, Holds};

use crate::forms::form_of;
use crate::opcodes;
use crate::switches::padding;
use jmodel::{Bytes, Form, Instr, NoMemory, Operands};
use std::alloc::{AllocError, Global};

fn put_u1(out: &mut Bytes, n: u8) -> Result<(), AllocError>
    ensures { OnOk result (out.new ≡ out.old ++ to_be_bytes w8 n) }
{
    out.extend_from_slice(&n.to_be_bytes())
}

fn put_u2(out: &mut Bytes, n: u16) -> Result<(), AllocError>
    ensures { OnOk result (out.new ≡ out.old ++ u2 n) }
{
    out.extend_from_slice(&n.to_be_bytes())
}

fn put_u4(out: &mut Bytes, n: u32) -> Result<(), AllocError>
    ensures { OnOk result (out.new ≡ out.old ++ u4 n) }
{
    out.extend_from_slice(&n.to_be_bytes())
}

fn put_s1(out: &mut Bytes, n: i8) -> Result<(), AllocError>
    ensures { OnOk result (out.new ≡ out.old ++ signed w8 n) }
{
    put_u1(out, n.cast_unsigned())
}

fn put_s2(out: &mut Bytes, n: i16) -> Result<(), AllocError>
    ensures { OnOk result (out.new ≡ out.old ++ signed w16 n) }
{
    put_u2(out, n.cast_unsigned())
}

fn put_s4(out: &mut Bytes, n: i32) -> Result<(), AllocError>
    ensures { OnOk result (out.new ≡ out.old ++ signed w32 n) }
{
    put_u4(out, n.cast_unsigned())
}

/// How far a target lies behind a pc.
pub fn distance(pc: u16, target: u16) -> i32
    ensures { result ≡ distance_of pc target }
{
    i32::from(target) - i32::from(pc)
}

fn put_near(out: &mut Bytes, pc: u16, target: u16) -> Result<(), AllocError>
    requires { FitsSigned w16 (distance_of pc target) }
    ensures { OnOk result (out.new ≡ out.old ++ jump w16 pc target) }
{
    put_s2(out, distance(pc, target) as i16)
}

fn put_far(out: &mut Bytes, pc: u16, target: u16) -> Result<(), AllocError>
    ensures { OnOk result (out.new ≡ out.old ++ jump w32 pc target) }
{
    put_s4(out, distance(pc, target))
}

fn put_padding(out: &mut Bytes, pc: u16) -> Result<(), AllocError>
    ensures { OnOk result (out.new ≡ out.old ++ zeros pc) }
{
    for _ in 0..padding(pc) {
        out.push(0)?;
    }
    Ok(())
}

fn put_byte(out: &mut Bytes, operands: &Operands) -> Result<(), AllocError>
    requires { IsNumber w8 operands.now }
    ensures { OnOk result (out.new ≡ out.old ++ number_text w8 operands.now) }
{
    match operands {
        Operands::Number(n) => put_s1(out, *n as i8),
        _ => Ok(()),
    }
}

fn put_short(out: &mut Bytes, operands: &Operands) -> Result<(), AllocError>
    requires { IsNumber w16 operands.now }
    ensures { OnOk result (out.new ≡ out.old ++ number_text w16 operands.now) }
{
    match operands {
        Operands::Number(n) => put_s2(out, *n as i16),
        _ => Ok(()),
    }
}

fn put_array_type(out: &mut Bytes, operands: &Operands) -> Result<(), AllocError>
    requires { IsArrayType operands.now }
    ensures { OnOk result (out.new ≡ out.old ++ number_text w8 operands.now) }
{
    match operands {
        Operands::Number(n) => put_s1(out, *n as i8),
        _ => Ok(()),
    }
}

fn put_local(out: &mut Bytes, operands: &Operands) -> Result<(), AllocError>
    requires { IsLocal operands.now }
    ensures { OnOk result (out.new ≡ out.old ++ local_text operands.now) }
{
    match operands {
        Operands::Local(n) => put_u1(out, *n as u8),
        _ => Ok(()),
    }
}

fn put_increment(out: &mut Bytes, operands: &Operands) -> Result<(), AllocError>
    requires { IsIncrement operands.now }
    ensures { OnOk result (out.new ≡ out.old ++ increment_text operands.now) }
{
    match operands {
        Operands::LocalAdd(n, add) => {
            put_u1(out, *n as u8)?;
            put_s1(out, *add as i8)
        }
        _ => Ok(()),
    }
}

fn put_short_index(out: &mut Bytes, operands: &Operands) -> Result<(), AllocError>
    requires { IsIndex (2 ^ 8) operands.now }
    ensures { OnOk result (out.new ≡ out.old ++ index_text w8 operands.now) }
{
    match operands {
        Operands::Pool(index) => put_u1(out, *index as u8),
        _ => Ok(()),
    }
}

fn put_index(out: &mut Bytes, operands: &Operands) -> Result<(), AllocError>
    ensures { OnOk result (out.new ≡ out.old ++ index_text w16 operands.now) }
{
    match operands {
        Operands::Pool(index) => put_u2(out, *index),
        _ => Ok(()),
    }
}

fn put_interface(out: &mut Bytes, operands: &Operands) -> Result<(), AllocError>
    ensures { OnOk result (out.new ≡ out.old ++ interface_text operands.now) }
{
    match operands {
        Operands::Interface { index, count } => {
            put_u2(out, *index)?;
            put_u1(out, *count)?;
            put_u1(out, 0)
        }
        _ => Ok(()),
    }
}

fn put_dimensions(out: &mut Bytes, operands: &Operands) -> Result<(), AllocError>
    ensures { OnOk result (out.new ≡ out.old ++ dimensions_text operands.now) }
{
    match operands {
        Operands::Dimensions { index, count } => {
            put_u2(out, *index)?;
            put_u1(out, *count)
        }
        _ => Ok(()),
    }
}

fn put_jump(out: &mut Bytes, pc: u16, operands: &Operands) -> Result<(), AllocError>
    requires { IsTarget w16 pc operands.now }
    ensures { OnOk result (out.new ≡ out.old ++ target_text w16 pc operands.now) }
{
    match operands {
        Operands::Target(target) => put_near(out, pc, *target),
        _ => Ok(()),
    }
}

fn put_far_jump(out: &mut Bytes, pc: u16, operands: &Operands) -> Result<(), AllocError>
    ensures { OnOk result (out.new ≡ out.old ++ target_text w32 pc operands.now) }
{
    match operands {
        Operands::Target(target) => put_far(out, pc, *target),
        _ => Ok(()),
    }
}

fn put_targets(out: &mut Bytes, pc: u16, targets: &[u16]) -> Result<(), AllocError>
    ensures { OnOk result (out.new ≡ out.old ++ flat_map (jump w32 pc) targets.now) }
{
    for target in targets {
        put_far(out, pc, *target)?;
    }
    Ok(())
}

fn put_pairs(out: &mut Bytes, pc: u16, pairs: &[(i32, u16)]) -> Result<(), AllocError>
    ensures { OnOk result (out.new ≡ out.old ++ flat_map (text_of_pair pc) pairs.now) }
{
    for pair in pairs {
        put_s4(out, pair.0)?;
        put_far(out, pc, pair.1)?;
    }
    Ok(())
}

// The highest key of a table.
fn highest(low: i32, targets: &[u16]) -> i32
    requires { FitsSigned w32 (highest_of low targets.now) }
    ensures { result ≡ highest_of low targets.now }
{
    (i64::from(low) + targets.len() as i64 - 1) as i32
}

// The lowest and the highest key of a table, and its targets.
fn put_keys(out: &mut Bytes, pc: u16, low: i32, targets: &[u16]) -> Result<(), AllocError>
    requires { FitsSigned w32 (highest_of low targets.now) }
    ensures { OnOk result (out.new ≡ out.old ++ (signed w32 low ++ (signed w32 (highest_of low targets.now) ++ flat_map (jump w32 pc) targets.now))) }
{
    put_s4(out, low)?;
    put_s4(out, highest(low, targets))?;
    put_targets(out, pc, targets)
}

fn put_jumps(
    out: &mut Bytes,
    pc: u16,
    other: u16,
    low: i32,
    targets: &[u16],
) -> Result<(), AllocError>
    requires { FitsSigned w32 (highest_of low targets.now) }
    ensures { OnOk result (out.new ≡ out.old ++ (zeros pc ++ (jump w32 pc other ++ (signed w32 low ++ (signed w32 (highest_of low targets.now) ++ flat_map (jump w32 pc) targets.now))))) }
{
    put_padding(out, pc)?;
    put_far(out, pc, other)?;
    put_keys(out, pc, low, targets)
}

fn put_table(out: &mut Bytes, pc: u16, operands: &Operands) -> Result<(), AllocError>
    requires { IsTable operands.now }
    ensures { OnOk result (out.new ≡ out.old ++ table_text (zeros pc) pc operands.now) }
{
    match operands {
        Operands::Table {
            other,
            low,
            targets,
        } => put_jumps(out, pc, *other, *low, targets.as_slice()),
        _ => Ok(()),
    }
}

fn put_lookup(out: &mut Bytes, pc: u16, operands: &Operands) -> Result<(), AllocError>
    requires { IsLookup operands.now }
    ensures { OnOk result (out.new ≡ out.old ++ lookup_text (zeros pc) pc operands.now) }
{
    match operands {
        Operands::Lookup { other, pairs } => {
            let pairs = pairs.as_slice();
            put_padding(out, pc)?;
            put_far(out, pc, *other)?;
            put_u4(out, pairs.len() as u32)?;
            put_pairs(out, pc, pairs)
        }
        _ => Ok(()),
    }
}

fn put_wide(out: &mut Bytes, operands: &Operands) -> Result<(), AllocError>
    ensures { OnOk result (out.new ≡ out.old ++ wide_text operands.now) }
{
    match operands {
        Operands::Wide { op, local, add } => {
            put_u1(out, *op)?;
            put_u2(out, *local)?;
            if *op == opcodes::IINC {
                put_s2(out, *add)
            } else {
                Ok(())
            }
        }
        _ => Ok(()),
    }
}

fn put_operands(out: &mut Bytes, pc: u16, form: Form, operands: &Operands) -> Result<(), AllocError>
    requires { IsSized pc form operands.now }
    ensures { OnOk result (out.new ≡ out.old ++ operands_text form (zeros pc) pc operands.now) }
{
    match form {
        Form::Plain => Ok(()),
        Form::Byte => put_byte(out, operands),
        Form::Short => put_short(out, operands),
        Form::ArrayType => put_array_type(out, operands),
        Form::Local => put_local(out, operands),
        Form::Increment => put_increment(out, operands),
        Form::ShortEntry(_) => put_short_index(out, operands),
        Form::Entry(_) => put_index(out, operands),
        Form::Interface => put_interface(out, operands),
        Form::Dimensions => put_dimensions(out, operands),
        Form::Jump => put_jump(out, pc, operands),
        Form::FarJump => put_far_jump(out, pc, operands),
        Form::Table => put_table(out, pc, operands),
        Form::Lookup => put_lookup(out, pc, operands),
        Form::Wide => put_wide(out, operands),
    }
}

/// Puts an instruction's bytes behind others, with padding of 0.
pub fn put_instr(out: &mut Bytes, i: &Instr) -> Result<(), AllocError>
    requires { IsInstr i.now }
    ensures { OnOk result (out.new ≡ out.old ++ text i.now) }
{
    let Some(form) = form_of(i.op) else {
        return Ok(());
    };
    put_u1(out, i.op)?;
    put_operands(out, i.pc, form, &i.operands)
}

fn put_instrs(alloc: Global, instrs: &[Instr]) -> Result<Bytes, AllocError>
    requires { AllByRecursion IsInstr instrs.now }
    ensures { IfOk result (λ b. b ≡ code_text instrs.now) }
{
    let mut out = Bytes::new(alloc);
    for i in instrs {
        put_instr(&mut out, i)?;
    }
    Ok(out)
}

/// The code of these instructions, one behind the other, with padding of 0.
pub fn encode(alloc: Global, instrs: &[Instr]) -> Result<Bytes, NoMemory>
    // Each has an opcode, and operands of its form and in their ranges.
    requires { AllByRecursion IsInstr instrs.now }
    ensures spelled { IfOk result (λ b. b ≡ code_text instrs.now) }
    // Where each stands behind the one before, the code holds them, so that decoding it gives them again.
    ensures held { AreInOrder 0 instrs.now → IfOk result (λ b. Holds 0 b instrs.now) }
{
    match put_instrs(alloc, instrs) {
        Ok(code) => Ok(code),
        Err(_) => Err(NoMemory),
    }
}
