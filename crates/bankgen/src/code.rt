//! Code that is made, as a list of instructions.
ghost use Rattle.std.specs.Prelude.{◌≡◌, ◌++◌, IfOk, OnOk};
ghost use Rattle.std.specs.List.{flat_map};
ghost use Rattle.bankgen.specs.Code.{bytes_of};

use bytecode::opcodes;
use jmodel::Bytes;
use std::alloc::{AllocError, Global};

/// An instruction, by its opcode and what stands behind that.
#[derive(Clone, Copy)]
pub enum Instruction {
    Plain(u8),
    /// With a number of one byte.
    Byte(u8, u8),
    /// With a number, an index of the pool or the offset of a jump, of two bytes.
    Short(u8, u16),
    /// iinc, of a local by a number.
    Increment(u8, u8),
}

fn push_short(out: &mut Bytes, op: u8, number: u16) -> Result<(), AllocError>
    ensures { OnOk result (out.new ≡ out.old ++ bytes_of (Instruction.Short op number)) }
{
    let [high, low] = number.to_be_bytes();
    out.extend_from_slice(&[op, high, low])
}

fn push(out: &mut Bytes, instruction: Instruction) -> Result<(), AllocError>
    ensures { OnOk result (out.new ≡ out.old ++ bytes_of instruction) }
{
    match instruction {
        Instruction::Plain(op) => out.push(op),
        Instruction::Byte(op, number) => out.extend_from_slice(&[op, number]),
        Instruction::Short(op, number) => push_short(out, op, number),
        Instruction::Increment(local, number) => {
            out.extend_from_slice(&[opcodes::IINC, local, number])
        }
    }
}

/// The bytes of instructions, one behind the other.
pub fn bytes(alloc: Global, code: &[Instruction]) -> Result<Bytes, AllocError>
    ensures { IfOk result (λ b. b ≡ flat_map bytes_of code.now) }
{
    let mut out = Bytes::new(alloc);
    for instruction in code {
        push(&mut out, *instruction)?;
    }
    Ok(out)
}
