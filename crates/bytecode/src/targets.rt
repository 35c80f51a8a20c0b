//! Whether jumps and exception entries lead to instructions.
ghost use Rattle.std.specs.Prelude.{◌≡◌, ◌<◌, ◌≤◌, ℕ, List, length, slice_index_or, false, IfOk};
ghost use Rattle.std.specs.List.{AllByRecursion, flat_map, list_all};
ghost use Rattle.jmodel.specs.declared.instruction.Instr.{Instr as Form};
ghost use Rattle.jmodel.specs.format.Reading.{Gives};
ghost use Rattle.jmodel.specs.format.Instruction.{targets_of, is_start, places_of_handler};
ghost use Rattle.jmodel.specs.format.InstructionReading.{bad_target as bad, are_starts as starts, targets_fit as all_targets_fit, lesser as lesser_of, least_bad as least, places_fit as all_places_fit};
ghost use Rattle.jmodel.specs.declared.refusal.Halt.TheVariants as halts;
ghost use Rattle.bytecode.specs.Marks.{AreMarks, worse};

use jmodel::{Bytes, Halt, Handler, Instr, Operands, Refusal};
use std::alloc::{AllocError, Global};

fn bad_target(alloc: Global, pc: u16) -> Halt
    ensures { result ≡ halts.Refused (bad pc) }
{
    Halt::Refused(Refusal::BadTarget(Bytes::new(alloc), pc as i64))
}

/// For each place of the code whether an instruction begins there.
pub fn marks_of(alloc: Global, len: usize, instrs: &[Instr]) -> Result<Vec<bool>, AllocError>
    requires { AllByRecursion (λ (i : Form). i.pc < len) instrs.now }
    ensures { IfOk result (λ v. AreMarks v.items instrs.now) }
{
    let mut marks = Vec::from_elem(alloc, false, len)?;
    for i in instrs {
        marks[i.pc as usize] = true;
    }
    Ok(marks)
}

fn is_marked(marks: &[bool], place: u16) -> bool
    ensures { result ≡ slice_index_or marks.now place false }
{
    match marks.get(place as usize) {
        Some(mark) => *mark,
        None => false,
    }
}

fn are_marked(marks: &[bool], places: &[u16]) -> bool
    ensures { result ≡ list_all (λ t. slice_index_or marks.now t false) places.now }
{
    places.iter().all(|place| is_marked(marks, *place))
}

fn pairs_are_marked(marks: &[bool], pairs: &[(i32, u16)]) -> bool
    ensures { result ≡ list_all (λ p. slice_index_or marks.now p.1 false) pairs.now }
{
    pairs.iter().all(|pair| is_marked(marks, pair.1))
}

// Whether all targets of an instruction are marked.
fn leads_on(marks: &[bool], operands: &Operands) -> bool
    ensures { (all : List Form) → AreMarks marks.now all → result ≡ starts all (targets_of operands.now) }
{
    match operands {
        Operands::Target(target) => is_marked(marks, *target),
        Operands::Table { other, targets, .. } => {
            is_marked(marks, *other) && are_marked(marks, targets.as_slice())
        }
        Operands::Lookup { other, pairs } => {
            is_marked(marks, *other) && pairs_are_marked(marks, pairs.as_slice())
        }
        _ => true,
    }
}

/// Refuses the first jump that leads to no instruction as BadTarget.
pub fn targets_fit(alloc: Global, marks: &[bool], instrs: &[Instr]) -> Result<(), Halt>
    requires { AreMarks marks.now instrs.now }
    ensures { Gives (λ x. x) result (all_targets_fit instrs.now instrs.now) }
{
    for i in instrs {
        if !leads_on(marks, &i.operands) {
            return Err(bad_target(alloc, i.pc));
        }
    }
    Ok(())
}

// The lesser of a place found before and this one, if no instruction begins here.
fn lesser(marks: &[bool], place: u16, before: Option<u16>) -> Option<u16>
    ensures { result ≡ worse marks.now place before }
{
    if is_marked(marks, place) {
        return before;
    }
    match before {
        Some(other) => Some(other.min(place)),
        None => Some(place),
    }
}

// The same for the places of an exception entry.
fn lesser_of_entry(marks: &[bool], len: usize, h: &Handler, before: Option<u16>) -> Option<u16>
    ensures { (all : List Form) → AreMarks marks.now all → result ≡ lesser_of before (least all (places_of_handler len h.now)) }
{
    let found = lesser(marks, h.start, before);
    let found = if h.end as usize == len {
        found
    } else {
        lesser(marks, h.end, found)
    };
    lesser(marks, h.handler, found)
}

/// Refuses exception entries as BadTarget with the least of their places at which no instruction begins.
pub fn entries_fit(
    alloc: Global,
    marks: &[bool],
    len: usize,
    handlers: &[Handler],
) -> Result<(), Halt>
    ensures { (all : List Form) → AreMarks marks.now all → Gives (λ x. x) result (all_places_fit (least all (flat_map (places_of_handler len) handlers.now))) }
{
    let mut found = None;
    for h in handlers {
        found = lesser_of_entry(marks, len, h, found);
    }
    match found {
        Some(place) => Err(bad_target(alloc, place)),
        None => Ok(()),
    }
}
