//! How many bytes instructions take.
ghost use Rattle.std.specs.Prelude.{◌≡◌, ◌<◌, ◌^◌, length, Some};
ghost use Rattle.std.specs.List.{AllByRecursion};
ghost use Rattle.jmodel.specs.format.Instruction.{zeros, table_text, lookup_text, wide_text, operands_text, IsTable, IsLookup, IsWide};
ghost use Rattle.jmodel.specs.format.Relocation.{IsShapedAs, IsShaped, size_at as size, behind as place_behind};
ghost use Rattle.bytecode.specs.Within.{within};

use crate::forms::form_of;
use crate::opcodes;
use crate::switches::padding;
use jmodel::{Form, Instr, Operands};

#[tactic(auto, using(crate::proofs::SizeLaws::table_length))]
fn table_size(pc: u16, operands: &Operands) -> usize
    requires { IsTable operands.now }
    ensures says { result ≡ length (table_text (zeros pc) pc operands.now) }
    ensures small { result < 2 ^ 35 }
{
    match operands {
        Operands::Table { targets, .. } => padding(pc) + 12 + 4 * targets.as_slice().len(),
        _ => 0,
    }
}

#[tactic(auto, using(crate::proofs::SizeLaws::lookup_length))]
fn lookup_size(pc: u16, operands: &Operands) -> usize
    requires { IsLookup operands.now }
    ensures says { result ≡ length (lookup_text (zeros pc) pc operands.now) }
    ensures small { result < 2 ^ 35 }
{
    match operands {
        Operands::Lookup { pairs, .. } => padding(pc) + 8 + 8 * pairs.as_slice().len(),
        _ => 0,
    }
}

fn wide_size(operands: &Operands) -> usize
    ensures says { result ≡ length (wide_text operands.now) }
    ensures small { result < 2 ^ 35 }
{
    match operands {
        Operands::Wide {
            op: opcodes::IINC,
            ..
        } => 5,
        Operands::Wide { .. } => 3,
        _ => 0,
    }
}

fn operands_size(pc: u16, form: Form, operands: &Operands) -> usize
    requires { IsShapedAs (Some form) operands.now }
    ensures says { result ≡ length (operands_text form (zeros pc) pc operands.now) }
    ensures small { result < 2 ^ 35 }
{
    match form {
        Form::Plain => 0,
        Form::Byte | Form::ArrayType | Form::Local | Form::ShortEntry(_) => 1,
        Form::Short | Form::Increment | Form::Entry(_) | Form::Jump => 2,
        Form::Dimensions => 3,
        Form::Interface | Form::FarJump => 4,
        Form::Table => table_size(pc, operands),
        Form::Lookup => lookup_size(pc, operands),
        Form::Wide => wide_size(operands),
    }
}

/// How many bytes an instruction takes at a pc. Takes no memory.
pub fn size_at(pc: u16, i: &Instr) -> usize
    requires { IsShaped i.now }
    ensures says { result ≡ size pc i.now }
    ensures small { result < 2 ^ 36 }
{
    match form_of(i.op) {
        Some(form) => 1 + operands_size(pc, form, &i.operands),
        None => 0,
    }
}

/// The place behind instructions that begin at a place, None where it would pass 65535. Takes no memory.
pub fn behind(start: u16, instrs: &[Instr]) -> Option<u16>
    requires { AllByRecursion IsShaped instrs.now }
    ensures { result ≡ within (place_behind start instrs.now) }
{
    let mut at = start;
    for i in instrs {
        let next = usize::from(at) + size_at(at, i);
        if next > 65535 {
            return None;
        }
        at = next as u16;
    }
    Some(at)
}
