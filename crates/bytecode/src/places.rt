//! Where blocks stand.
ghost use Rattle.std.specs.Prelude.{◌≡◌, ◌≤◌, IfOk, Some, slice_index_or};
ghost use Rattle.jmodel.specs.format.Relocation.{AscendFrom, IsAbove, IsShaped, EachInstr, end_of};
ghost use Rattle.bytecode.specs.Places.{place_in, ArePlaces, end_within as end_in};
ghost use Rattle.jmodel.specs.declared.instruction.Instr.{Instr as Form};
ghost use Rattle.std.specs.List.{AllByRecursion};

use crate::blocks::Block;
use crate::sizes::behind;
use jmodel::Instr;
use std::alloc::{AllocError, Global};

/// The place of the block of each pc, and the place behind all blocks.
#[derive(Drop)]
pub struct Places {
    pub starts: Vec<u16>,
    pub end: u16,
}

impl Places {
    /// Where the block of a pc stands.
    pub fn place(&self, pc: u16) -> u16
        ensures { result ≡ place_in self.now pc }
    {
        match self.starts.get(usize::from(pc)) {
            Some(place) => *place,
            None => self.end,
        }
    }
}

/// The place behind blocks, None where they would pass 65535 with the stub behind them.
pub fn end_within(blocks: &[Block], stub: &[Instr]) -> Option<u16>
    requires each { EachInstr IsShaped blocks.now }
    requires each_last { AllByRecursion IsShaped stub.now }
    ensures { result ≡ end_in blocks.now stub.now }
{
    let mut end = 0;
    for b in blocks {
        let Some(after) = behind(end, b.instrs()) else {
            return None;
        };
        end = after;
    }
    match behind(end, stub) {
        Some(_) => Some(end),
        None => None,
    }
}

// A number above the pcs of all blocks, whose pcs ascend.
fn above(blocks: &[Block]) -> usize
    requires { AscendFrom 0 blocks.now }
    ensures { IsAbove blocks.now result }
{
    match blocks.last() {
        Some(b) => usize::from(b.pc()) + 1,
        None => 0,
    }
}

/// Where each of the blocks stands, of which the end is known.
pub fn places_of(alloc: Global, blocks: &[Block], end: u16) -> Result<Places, AllocError>
    requires ascend { AscendFrom 0 blocks.now }
    requires each { EachInstr IsShaped blocks.now }
    requires end { end ≡ end_of blocks.now }
    ensures { IfOk result (λ p. ArePlaces p blocks.now) }
{
    let mut starts = Vec::from_elem(alloc, end, above(blocks))?;
    let mut at = 0;
    for b in blocks {
        starts[usize::from(b.pc())] = at;
        at = behind(at, b.instrs()).unwrap_or(end);
    }
    Ok(Places { starts, end })
}
