//! Fields of a class file: numbers, whose highest byte comes first, and runs of bytes. A field that isn't wholly there is
//! refused as Truncated at its offset.
ghost use Rattle.std.specs.Prelude.{◌≡◌, ◌+◌, [], ◌∷◌, length, nat_lt, IfOk};
ghost use Rattle.jmodel.specs.format.Reading.{Gives, Fails, place, run_at as run, number_at, u2_at as u2, u4_at as u4, u8_at as u8};
ghost use Rattle.jmodel.specs.declared.refusal.Halt.TheVariants.{Refused};
ghost use Rattle.jmodel.specs.declared.refusal.Refusal.TheVariants.{Truncated};

use jmodel::{Halt, Refusal};

/// An offset, as refusals have it.
pub fn offset(at: usize) -> i64
    ensures { result ≡ place at }
{
    at.min(i64::MAX as usize) as i64
}

/// The bytes from `at` on, `len` of them, and the place after them.
#[tactic(auto, unfolding(jmodel::specs::format::Reading::run_at))]
pub fn run_at(bytes: &[u8], at: usize, len: usize) -> Result<(&[u8], usize), Halt>
    ensures gives { Gives (λ x. (x.0.now, x.1)) result (run bytes.now at len) }
    ensures len { IfOk result (λ x. length x.0.now ≡ len) }
    ensures after { IfOk result (λ x. x.1 ≡ at + len) }
{
    if bytes.len() < len || bytes.len() - len < at {
        return Err(Halt::Refused(Refusal::Truncated(offset(at))));
    }
    let after = at + len;
    Ok((&bytes[at..after], after))
}

/// A number of one byte, and the place after it.
#[tactic(auto, unfolding(jmodel::specs::format::Reading::run_at))]
pub fn u1_at(bytes: &[u8], at: usize) -> Result<(u8, usize), Halt>
    ensures { Gives (λ x. (x.0 ∷ [], x.1)) result (run bytes.now at 1) }
{
    let (field, after) = run_at(bytes, at, 1)?;
    Ok((field[0], after))
}

/// A number of two bytes, and the place after it.
#[tactic(auto, unfolding(jmodel::specs::format::Reading::number_at))]
pub fn u2_at(bytes: &[u8], at: usize) -> Result<(u16, usize), Halt>
    ensures { Gives (λ x. x) result (u2 bytes.now at) }
{
    let (field, after) = run_at(bytes, at, 2)?;
    Ok((u16::from_be_bytes([field[0], field[1]]), after))
}

/// A number of four bytes, and the place after it.
#[tactic(auto, unfolding(jmodel::specs::format::Reading::number_at))]
pub fn u4_at(bytes: &[u8], at: usize) -> Result<(u32, usize), Halt>
    ensures { Gives (λ x. x) result (u4 bytes.now at) }
{
    let (field, after) = run_at(bytes, at, 4)?;
    Ok((
        u32::from_be_bytes([field[0], field[1], field[2], field[3]]),
        after,
    ))
}

/// A number of eight bytes, and the place after it.
#[tactic(auto, unfolding(jmodel::specs::format::Reading::number_at))]
pub fn u8_at(bytes: &[u8], at: usize) -> Result<(u64, usize), Halt>
    ensures { Gives (λ x. x) result (u8 bytes.now at) }
{
    let (field, after) = run_at(bytes, at, 8)?;
    let number = u64::from_be_bytes([
        field[0], field[1], field[2], field[3], field[4], field[5], field[6], field[7],
    ]);
    Ok((number, after))
}
