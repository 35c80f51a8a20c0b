//! Numbers and places among the operands of an instruction. The highest byte of a number comes first.
ghost use Rattle.std.specs.Prelude.{◌≡◌, pos, ◌+ℤ◌, [], ◌∷◌};
ghost use Rattle.std.specs.Int.{w8, w16, w32};
ghost use Rattle.jmodel.specs.format.Reading.{Gives, number_at};
ghost use Rattle.jmodel.specs.format.InstructionReading.{signed_at, target_at, place_in_code as place, bad_instr as bad, want as wanted};
ghost use Rattle.jmodel.specs.declared.refusal.Halt.TheVariants as halts;

use const_pool::fields::{run_at, u2_at, u4_at};
use jmodel::{Bytes, Halt, Refusal};
use std::alloc::Global;

/// No instruction stands at this pc. The caller knows the method.
pub fn bad_instr(alloc: Global, pc: u16) -> Halt
    ensures { result ≡ halts.Refused (bad pc) }
{
    Halt::Refused(Refusal::BadInstr(Bytes::new(alloc), pc as i64))
}

/// A number of one byte, and the place after it.
#[tactic(auto, unfolding(jmodel::specs::format::Reading::number_at))]
pub fn u1_at(bytes: &[u8], at: usize) -> Result<(u8, usize), Halt>
    ensures { Gives (λ x. x) result (number_at w8 bytes.now at) }
{
    let (field, after) = run_at(bytes, at, 1)?;
    Ok((u8::from_be_bytes([field[0]]), after))
}

/// A signed number of one byte, and the place after it.
#[tactic(auto, unfolding(jmodel::specs::format::InstructionReading::signed_at))]
pub fn s1_at(bytes: &[u8], at: usize) -> Result<(i8, usize), Halt>
    ensures { Gives (λ x. x) result (signed_at w8 bytes.now at) }
{
    let (number, after) = u1_at(bytes, at)?;
    Ok((number.cast_signed(), after))
}

/// A signed number of two bytes, and the place after it.
#[tactic(auto, unfolding(jmodel::specs::format::InstructionReading::signed_at))]
pub fn s2_at(bytes: &[u8], at: usize) -> Result<(i16, usize), Halt>
    ensures { Gives (λ x. x) result (signed_at w16 bytes.now at) }
{
    let (number, after) = u2_at(bytes, at)?;
    Ok((number.cast_signed(), after))
}

/// A signed number of four bytes, and the place after it.
#[tactic(auto, unfolding(jmodel::specs::format::InstructionReading::signed_at))]
pub fn s4_at(bytes: &[u8], at: usize) -> Result<(i32, usize), Halt>
    ensures { Gives (λ x. x) result (signed_at w32 bytes.now at) }
{
    let (number, after) = u4_at(bytes, at)?;
    Ok((number.cast_signed(), after))
}

// The place so far behind a pc, 65535 where that isn't a place in code.
fn place_in_code(pc: u16, distance: i32) -> u16
    ensures { result ≡ place (pos pc +ℤ distance) }
{
    let at = i64::from(pc) + i64::from(distance);
    u16::try_from(at).unwrap_or(u16::MAX)
}

/// A target by its distance of two bytes from a pc, and the place after it. One outside code is 65535.
#[tactic(auto, unfolding(jmodel::specs::format::InstructionReading::target_at))]
pub fn near_target_at(pc: u16, bytes: &[u8], at: usize) -> Result<(u16, usize), Halt>
    ensures { Gives (λ x. x) result (target_at w16 pc bytes.now at) }
{
    let (distance, after) = s2_at(bytes, at)?;
    Ok((place_in_code(pc, i32::from(distance)), after))
}

/// The same by a distance of four bytes.
#[tactic(auto, unfolding(jmodel::specs::format::InstructionReading::target_at))]
pub fn far_target_at(pc: u16, bytes: &[u8], at: usize) -> Result<(u16, usize), Halt>
    ensures { Gives (λ x. x) result (target_at w32 pc bytes.now at) }
{
    let (distance, after) = s4_at(bytes, at)?;
    Ok((place_in_code(pc, distance), after))
}
