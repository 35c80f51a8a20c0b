//! Blocks of instructions as code, with jumps and exception entries that lead to them.
ghost use Rattle.std.specs.Prelude.{◌≡◌, ◌≤◌, ◌++◌, [], map, length, IfOk, pos};
ghost use Rattle.std.specs.List.{AllByRecursion};
ghost use Rattle.jmodel.specs.declared.refusal.Halt.TheVariants as halts;
ghost use Rattle.jmodel.specs.declared.instruction.Instr.{Instr as Form};
ghost use Rattle.jmodel.specs.declared.refusal.Refusal.TheVariants.{CodeTooLarge, BranchTooFar};
ghost use Rattle.jmodel.specs.format.Reading.{Gives};
ghost use Rattle.jmodel.specs.format.Instruction.{targets_of};
ghost use Rattle.jmodel.specs.format.Relocation.{all_instrs, put_at, behind, retarget as retarget_by, retargeted, reaches as reaches_target, moved as moved_by, moved_handlers as handlers_moved, relocate as relocate_all, IsShaped, EachInstr, AreBlocks, end_of};
ghost use Rattle.bytecode.specs.Places.{place_in, LeadsInside, ArePlaces, with_block, with_all, entry_to};

use crate::blocks::Block;
use crate::encoding::{distance, put_instr};
use crate::forms::form_of;
use crate::places::{Places, end_within, places_of};
use jmodel::{Bytes, Form, Halt, Handler, Instr, Operands, Pairs, Refusal, Targets};
use std::alloc::{AllocError, Global};

fn code_too_large(alloc: Global) -> Halt
    ensures { result ≡ halts.Refused (CodeTooLarge []) }
{
    Halt::Refused(Refusal::CodeTooLarge(Bytes::new(alloc)))
}

fn branch_too_far(alloc: Global, pc: u16) -> Halt
    ensures { result ≡ halts.Refused (BranchTooFar [] (pos pc)) }
{
    Halt::Refused(Refusal::BranchTooFar(Bytes::new(alloc), i64::from(pc)))
}

fn retarget_list(alloc: Global, places: &Places, targets: &[u16]) -> Result<Targets, AllocError>
    ensures { IfOk result (λ ts. ts ≡ map (place_in places.now) targets.now) }
{
    let mut items = Vec::new(alloc);
    for target in targets {
        items.push(places.place(*target))?;
    }
    Ok(Targets::from_vec(items))
}

fn retarget_pairs(alloc: Global, places: &Places, pairs: &[(i32, u16)]) -> Result<Pairs, AllocError>
    ensures { IfOk result (λ ps. ps ≡ map (λ p. (p.0, place_in places.now p.1)) pairs.now) }
{
    let mut items = Vec::new(alloc);
    for pair in pairs {
        items.push((pair.0, places.place(pair.1)))?;
    }
    Ok(Pairs::from_vec(items))
}

// Operands with each target replaced by the place of its block.
fn retarget(alloc: Global, places: &Places, operands: &Operands) -> Result<Operands, AllocError>
    ensures says { IfOk result (λ o. o ≡ retarget_by (place_in places.now) operands.now) }
    ensures inside { IfOk result LeadsInside }
{
    match operands {
        Operands::Nothing => Ok(Operands::Nothing),
        Operands::Number(n) => Ok(Operands::Number(*n)),
        Operands::Local(local) => Ok(Operands::Local(*local)),
        Operands::LocalAdd(local, add) => Ok(Operands::LocalAdd(*local, *add)),
        Operands::Pool(index) => Ok(Operands::Pool(*index)),
        Operands::Interface { index, count } => Ok(Operands::Interface {
            index: *index,
            count: *count,
        }),
        Operands::Dimensions { index, count } => Ok(Operands::Dimensions {
            index: *index,
            count: *count,
        }),
        Operands::Target(target) => Ok(Operands::Target(places.place(*target))),
        Operands::Table {
            other,
            low,
            targets,
        } => Ok(Operands::Table {
            other: places.place(*other),
            low: *low,
            targets: retarget_list(alloc, places, targets.as_slice())?,
        }),
        Operands::Lookup { other, pairs } => Ok(Operands::Lookup {
            other: places.place(*other),
            pairs: retarget_pairs(alloc, places, pairs.as_slice())?,
        }),
        Operands::Wide { op, local, add } => Ok(Operands::Wide {
            op: *op,
            local: *local,
            add: *add,
        }),
    }
}

// An instruction at a new place, with its targets replaced.
fn moved(alloc: Global, places: &Places, at: u16, i: &Instr) -> Result<Instr, AllocError>
    ensures says { IfOk result (λ j. j ≡ retargeted (place_in places.now) (put_at at i.now)) }
    ensures inside { IfOk result (λ j. LeadsInside j.operands) }
{
    Ok(Instr {
        pc: at,
        op: i.op,
        operands: retarget(alloc, places, &i.operands)?,
    })
}

// Whether a jump's distance fits its bytes.
fn reaches(i: &Instr) -> bool
    ensures { result ≡ reaches_target i.now }
{
    match (form_of(i.op), &i.operands) {
        (Some(Form::Jump), Operands::Target(target)) => {
            let far = distance(i.pc, *target);
            -32768 <= far && far <= 32767
        }
        _ => true,
    }
}

// Puts a block's instructions behind the code, or refuses its pc.
fn put_block(
    alloc: Global,
    out: &mut Bytes,
    places: &Places,
    pc: u16,
    instrs: &[Instr],
) -> Result<(), Halt>
    requires fits { behind (length out.old) instrs.now ≤ 65535 }
    requires each { AllByRecursion IsShaped instrs.now }
    ensures { Gives (λ _. out.new) result (with_block (place_in places.now) pc out.old instrs.now) }
{
    for i in instrs {
        let moved = moved(alloc, places, out.len() as u16, i)?;
        if !reaches(&moved) {
            return Err(branch_too_far(alloc, pc));
        }
        put_instr(out, &moved)?;
    }
    Ok(())
}

// The code of the blocks and the stub. No jump of the stub is too far, since it has none.
fn put_blocks(
    alloc: Global,
    places: &Places,
    blocks: &[Block],
    stub: &[Instr],
) -> Result<Bytes, Halt>
    requires fits { behind 0 (all_instrs blocks.now ++ stub.now) ≤ 65535 }
    requires each { EachInstr IsShaped blocks.now }
    requires each_last { AllByRecursion IsShaped stub.now }
    ensures { Gives (λ b. b) result (with_all (place_in places.now) blocks.now stub.now) }
{
    let mut out = Bytes::new(alloc);
    for b in blocks {
        put_block(alloc, &mut out, places, b.pc(), b.instrs())?;
    }
    put_block(alloc, &mut out, places, u16::MAX, stub)?;
    Ok(out)
}

fn moved_handler(places: &Places, h: Handler) -> Handler
    ensures { result ≡ moved_by (place_in places.now) h }
{
    Handler {
        start: places.place(h.start),
        end: places.place(h.end),
        handler: places.place(h.handler),
        catch_type: h.catch_type,
    }
}

// The exception entries at their new places, behind one that enters the stub where it is asked for.
fn moved_handlers(
    alloc: Global,
    places: &Places,
    handlers: &[Handler],
    first: Option<u16>,
) -> Result<Vec<Handler>, AllocError>
    ensures { IfOk result (λ v. v.items ≡ entry_to places.now first ++ map (moved_by (place_in places.now)) handlers.now) }
{
    let mut moved = Vec::new(alloc);
    if let Some(catch_type) = first {
        moved.push(Handler {
            start: 0,
            end: places.end,
            handler: places.end,
            catch_type,
        })?;
    }
    for h in handlers {
        moved.push(moved_handler(places, *h))?;
    }
    Ok(moved)
}

/// The code of these blocks, laid one behind the other, and the stub behind them, with the exception entries that go with it.
/// Each target, and each place of an entry, is a pc of a block, and is replaced by the place of that block; an end above all pcs
/// by the place behind the blocks. Where `first` names a class, an entry of this class over all blocks, which enters the
/// stub, is put before the others. Refused, with the method's name left empty, as
///
/// - `CodeTooLarge` where the code would pass 65535 bytes;
/// - else `BranchTooFar` with the least pc of a block with a jump whose distance two bytes can't hold (JVM Specification,
///   Java SE 7, section 4.9.1 and chapter 6).
pub fn relocate(
    alloc: Global,
    blocks: &[Block],
    handlers: &[Handler],
    first: Option<u16>,
    stub: &[Instr],
) -> Result<(Bytes, Vec<Handler>), Halt>
    requires { AreBlocks blocks.now handlers.now first stub.now }
    ensures { Gives (λ x. (x.0, x.1.items)) result (relocate_all blocks.now handlers.now first stub.now) }
{
    let Some(end) = end_within(blocks, stub) else {
        return Err(code_too_large(alloc));
    };
    let places = places_of(alloc, blocks, end)?;
    let code = put_blocks(alloc, &places, blocks, stub)?;
    let handlers = moved_handlers(alloc, &places, handlers, first)?;
    Ok((code, handlers))
}
