//! The operands of tableswitch and lookupswitch.
ghost use Rattle.std.specs.Prelude.{◌≡◌, ℕ, ◌-◌};
ghost use Rattle.std.specs.Int.{w32};
ghost use Rattle.jmodel.specs.format.Reading.{Gives, items_at};
ghost use Rattle.jmodel.specs.format.Instruction.{padding as padding_at, ascend as keys_ascend};
ghost use Rattle.jmodel.specs.format.InstructionReading.{target_at, keys_from as keys, table_of as table_form, table_at as table, pair_at as pair, count_at as count_of, lookup_at as lookup};

use crate::numbers::{bad_instr, far_target_at, s4_at};
use const_pool::fields::{run_at, u4_at};
use jmodel::{Halt, Operands, Pairs, Targets};
use std::alloc::Global;

/// How many bytes stand behind the opcode of a switch, so that its operands begin at a multiple of four.
pub fn padding(pc: u16) -> usize
    ensures { result ≡ padding_at pc }
{
    3 - pc as usize % 4
}

// How many keys a table has, None where the lowest is above the highest.
fn keys_from(low: i32, high: i32) -> Option<u64>
    ensures { result ≡ keys low high }
{
    if low <= high {
        Some(u64::from(high.abs_diff(low)) + 1)
    } else {
        None
    }
}

fn target_list(
    alloc: Global,
    pc: u16,
    bytes: &[u8],
    count: u64,
    start: usize,
) -> Result<(Vec<u16>, usize), Halt>
    ensures { Gives (λ x. (x.0.items, x.1)) result (items_at (target_at w32 pc bytes.now) count start) }
{
    let mut items = Vec::new(alloc);
    let mut at = start;
    for _ in 0..count {
        let (item, after) = far_target_at(pc, bytes, at)?;
        items.push(item)?;
        at = after;
    }
    Ok((items, at))
}

fn table_of(
    alloc: Global,
    pc: u16,
    bytes: &[u8],
    other: u16,
    low: i32,
    count: Option<u64>,
    at: usize,
) -> Result<(Operands, usize), Halt>
    ensures { Gives (λ x. x) result (table_form pc bytes.now other low count at) }
{
    let Some(count) = count else {
        return Err(bad_instr(alloc, pc));
    };
    let (items, after) = target_list(alloc, pc, bytes, count, at)?;
    let targets = Targets::from_vec(items);
    Ok((
        Operands::Table {
            other,
            low,
            targets,
        },
        after,
    ))
}

/// The operands of tableswitch.
#[tactic(auto, unfolding(jmodel::specs::format::InstructionReading::table_at))]
pub fn table_at(alloc: Global, pc: u16, bytes: &[u8], at: usize) -> Result<(Operands, usize), Halt>
    ensures { Gives (λ x. x) result (table pc bytes.now at) }
{
    let (_, at) = run_at(bytes, at, padding(pc))?;
    let (other, at) = far_target_at(pc, bytes, at)?;
    let (low, at) = s4_at(bytes, at)?;
    let (high, at) = s4_at(bytes, at)?;
    table_of(alloc, pc, bytes, other, low, keys_from(low, high), at)
}

#[tactic(auto, unfolding(jmodel::specs::format::InstructionReading::pair_at))]
fn pair_at(pc: u16, bytes: &[u8], at: usize) -> Result<((i32, u16), usize), Halt>
    ensures { Gives (λ x. x) result (pair pc bytes.now at) }
{
    let (key, at) = s4_at(bytes, at)?;
    let (target, after) = far_target_at(pc, bytes, at)?;
    Ok(((key, target), after))
}

fn pair_list(
    alloc: Global,
    pc: u16,
    bytes: &[u8],
    count: u32,
    start: usize,
) -> Result<(Vec<(i32, u16)>, usize), Halt>
    ensures { Gives (λ x. (x.0.items, x.1)) result (items_at (pair pc bytes.now) count start) }
{
    let mut items = Vec::new(alloc);
    let mut at = start;
    for _ in 0..count {
        let (item, after) = pair_at(pc, bytes, at)?;
        items.push(item)?;
        at = after;
    }
    Ok((items, at))
}

// A count that isn't negative.
#[tactic(auto, unfolding(jmodel::specs::format::InstructionReading::count_at))]
fn count_at(alloc: Global, pc: u16, bytes: &[u8], at: usize) -> Result<(u32, usize), Halt>
    ensures { Gives (λ x. x) result (count_of pc bytes.now at) }
{
    let (count, after) = u4_at(bytes, at)?;
    if count < 1 << 31 {
        Ok((count, after))
    } else {
        Err(bad_instr(alloc, pc))
    }
}

// Whether each key is above the one before.
fn ascend(pairs: &[(i32, u16)]) -> bool
    ensures { result ≡ keys_ascend pairs.now }
{
    let mut before: Option<i32> = None;
    for pair in pairs {
        if let Some(key) = before {
            if key >= pair.0 {
                return false;
            }
        }
        before = Some(pair.0);
    }
    true
}

/// The operands of lookupswitch.
#[tactic(auto, unfolding(jmodel::specs::format::InstructionReading::lookup_at))]
pub fn lookup_at(alloc: Global, pc: u16, bytes: &[u8], at: usize) -> Result<(Operands, usize), Halt>
    ensures { Gives (λ x. x) result (lookup pc bytes.now at) }
{
    let (_, at) = run_at(bytes, at, padding(pc))?;
    let (other, at) = far_target_at(pc, bytes, at)?;
    let (count, at) = count_at(alloc, pc, bytes, at)?;
    let (items, after) = pair_list(alloc, pc, bytes, count, at)?;
    if ascend(&items) {
        let pairs = Pairs::from_vec(items);
        Ok((Operands::Lookup { other, pairs }, after))
    } else {
        Err(bad_instr(alloc, pc))
    }
}
