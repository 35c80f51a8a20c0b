//! The operands of an instruction that isn't a switch, by their form.
ghost use Rattle.std.specs.Prelude.{◌≡◌};
ghost use Rattle.std.specs.Int.{w8, w16, w32};
ghost use Rattle.jmodel.specs.format.Reading.{Gives};
ghost use Rattle.jmodel.specs.format.Instruction.{form_of as form_in};
ghost use Rattle.jmodel.specs.format.InstructionReading.{signed_operand_at, array_type_at as array_type, local_at as local, increment_at as increment, entry_operand_at, interface_at as interface, dimensions_at as dimensions, jump_at, wide_of as wide_form, wide_at as wide, operands_as};

use crate::entries::is_entry;
use crate::forms::form_of;
use crate::numbers::{bad_instr, far_target_at, near_target_at, s1_at, s2_at, u1_at};
use crate::switches::{lookup_at, table_at};
use const_pool::Pool;
use const_pool::fields::u2_at;
use jmodel::{EntryKind, Form, Halt, Operands};
use std::alloc::Global;

#[tactic(auto, unfolding(jmodel::specs::format::InstructionReading::signed_operand_at))]
fn byte_at(bytes: &[u8], at: usize) -> Result<(Operands, usize), Halt>
    ensures { Gives (λ x. x) result (signed_operand_at w8 bytes.now at) }
{
    let (number, after) = s1_at(bytes, at)?;
    Ok((Operands::Number(i32::from(number)), after))
}

#[tactic(auto, unfolding(jmodel::specs::format::InstructionReading::signed_operand_at))]
fn short_at(bytes: &[u8], at: usize) -> Result<(Operands, usize), Halt>
    ensures { Gives (λ x. x) result (signed_operand_at w16 bytes.now at) }
{
    let (number, after) = s2_at(bytes, at)?;
    Ok((Operands::Number(i32::from(number)), after))
}

#[tactic(auto, unfolding(jmodel::specs::format::InstructionReading::array_type_at))]
fn array_type_at(alloc: Global, pc: u16, bytes: &[u8], at: usize) -> Result<(Operands, usize), Halt>
    ensures { Gives (λ x. x) result (array_type pc bytes.now at) }
{
    let (code, after) = u1_at(bytes, at)?;
    if 4 <= code && code <= 11 {
        Ok((Operands::Number(i32::from(code)), after))
    } else {
        Err(bad_instr(alloc, pc))
    }
}

#[tactic(auto, unfolding(jmodel::specs::format::InstructionReading::local_at))]
fn local_at(bytes: &[u8], at: usize) -> Result<(Operands, usize), Halt>
    ensures { Gives (λ x. x) result (local bytes.now at) }
{
    let (number, after) = u1_at(bytes, at)?;
    Ok((Operands::Local(u16::from(number)), after))
}

#[tactic(auto, unfolding(jmodel::specs::format::InstructionReading::increment_at))]
fn increment_at(bytes: &[u8], at: usize) -> Result<(Operands, usize), Halt>
    ensures { Gives (λ x. x) result (increment bytes.now at) }
{
    let (number, at) = u1_at(bytes, at)?;
    let (add, after) = s1_at(bytes, at)?;
    Ok((Operands::LocalAdd(u16::from(number), i16::from(add)), after))
}

#[tactic(auto, unfolding(jmodel::specs::format::InstructionReading::entry_operand_at))]
fn short_entry_at(
    alloc: Global,
    pool: &Pool,
    kind: EntryKind,
    pc: u16,
    bytes: &[u8],
    at: usize,
) -> Result<(Operands, usize), Halt>
    ensures { Gives (λ x. x) result (entry_operand_at pool.now w8 kind pc bytes.now at) }
{
    let (number, after) = u1_at(bytes, at)?;
    let index = u16::from(number);
    if is_entry(pool, kind, index) {
        Ok((Operands::Pool(index), after))
    } else {
        Err(bad_instr(alloc, pc))
    }
}

#[tactic(auto, unfolding(jmodel::specs::format::InstructionReading::entry_operand_at))]
fn entry_at(
    alloc: Global,
    pool: &Pool,
    kind: EntryKind,
    pc: u16,
    bytes: &[u8],
    at: usize,
) -> Result<(Operands, usize), Halt>
    ensures { Gives (λ x. x) result (entry_operand_at pool.now w16 kind pc bytes.now at) }
{
    let (index, after) = u2_at(bytes, at)?;
    if is_entry(pool, kind, index) {
        Ok((Operands::Pool(index), after))
    } else {
        Err(bad_instr(alloc, pc))
    }
}

#[tactic(auto, unfolding(jmodel::specs::format::InstructionReading::interface_at))]
fn interface_at(
    alloc: Global,
    pool: &Pool,
    pc: u16,
    bytes: &[u8],
    at: usize,
) -> Result<(Operands, usize), Halt>
    ensures { Gives (λ x. x) result (interface pool.now pc bytes.now at) }
{
    let (index, at) = u2_at(bytes, at)?;
    let (count, at) = u1_at(bytes, at)?;
    let (last, after) = u1_at(bytes, at)?;
    match pool.argument_places(index) {
        Some(places) if places == count as usize && last == 0 => {
            Ok((Operands::Interface { index, count }, after))
        }
        _ => Err(bad_instr(alloc, pc)),
    }
}

#[tactic(auto, unfolding(jmodel::specs::format::InstructionReading::dimensions_at))]
fn dimensions_at(
    alloc: Global,
    pool: &Pool,
    pc: u16,
    bytes: &[u8],
    at: usize,
) -> Result<(Operands, usize), Halt>
    ensures { Gives (λ x. x) result (dimensions pool.now pc bytes.now at) }
{
    let (index, at) = u2_at(bytes, at)?;
    let (count, after) = u1_at(bytes, at)?;
    if is_entry(pool, EntryKind::Class, index) && count > 0 {
        Ok((Operands::Dimensions { index, count }, after))
    } else {
        Err(bad_instr(alloc, pc))
    }
}

#[tactic(auto, unfolding(jmodel::specs::format::InstructionReading::jump_at))]
fn near_jump_at(pc: u16, bytes: &[u8], at: usize) -> Result<(Operands, usize), Halt>
    ensures { Gives (λ x. x) result (jump_at w16 pc bytes.now at) }
{
    let (target, after) = near_target_at(pc, bytes, at)?;
    Ok((Operands::Target(target), after))
}

#[tactic(auto, unfolding(jmodel::specs::format::InstructionReading::jump_at))]
fn far_jump_at(pc: u16, bytes: &[u8], at: usize) -> Result<(Operands, usize), Halt>
    ensures { Gives (λ x. x) result (jump_at w32 pc bytes.now at) }
{
    let (target, after) = far_target_at(pc, bytes, at)?;
    Ok((Operands::Target(target), after))
}

// What stands behind the local of a wide instruction.
fn wide_of(
    alloc: Global,
    pc: u16,
    bytes: &[u8],
    op: u8,
    local: u16,
    at: usize,
) -> Result<(Operands, usize), Halt>
    ensures { Gives (λ x. x) result (wide_form pc bytes.now op local (form_in op) at) }
{
    match form_of(op) {
        Some(Form::Local) => Ok((Operands::Wide { op, local, add: 0 }, at)),
        Some(Form::Increment) => {
            let (add, after) = s2_at(bytes, at)?;
            Ok((Operands::Wide { op, local, add }, after))
        }
        _ => Err(bad_instr(alloc, pc)),
    }
}

#[tactic(auto, unfolding(jmodel::specs::format::InstructionReading::wide_at))]
fn wide_at(alloc: Global, pc: u16, bytes: &[u8], at: usize) -> Result<(Operands, usize), Halt>
    ensures { Gives (λ x. x) result (wide pc bytes.now at) }
{
    let (op, at) = u1_at(bytes, at)?;
    let (local, at) = u2_at(bytes, at)?;
    wide_of(alloc, pc, bytes, op, local, at)
}

/// The operands of a form, which stand at a place, of the instruction at a pc, and the place after them.
pub fn operands_at(
    alloc: Global,
    pool: &Pool,
    pc: u16,
    form: Option<Form>,
    bytes: &[u8],
    at: usize,
) -> Result<(Operands, usize), Halt>
    ensures { Gives (λ x. x) result (operands_as pool.now pc form bytes.now at) }
{
    let Some(form) = form else {
        return Err(bad_instr(alloc, pc));
    };
    match form {
        Form::Plain => Ok((Operands::Nothing, at)),
        Form::Byte => byte_at(bytes, at),
        Form::Short => short_at(bytes, at),
        Form::ArrayType => array_type_at(alloc, pc, bytes, at),
        Form::Local => local_at(bytes, at),
        Form::Increment => increment_at(bytes, at),
        Form::ShortEntry(kind) => short_entry_at(alloc, pool, kind, pc, bytes, at),
        Form::Entry(kind) => entry_at(alloc, pool, kind, pc, bytes, at),
        Form::Interface => interface_at(alloc, pool, pc, bytes, at),
        Form::Dimensions => dimensions_at(alloc, pool, pc, bytes, at),
        Form::Jump => near_jump_at(pc, bytes, at),
        Form::FarJump => far_jump_at(pc, bytes, at),
        Form::Table => table_at(alloc, pc, bytes, at),
        Form::Lookup => lookup_at(alloc, pc, bytes, at),
        Form::Wide => wide_at(alloc, pc, bytes, at),
    }
}
