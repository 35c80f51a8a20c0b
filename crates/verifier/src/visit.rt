//! One turn of the search for a typing: the instruction of a place is looked at.
ghost use Rattle.std.specs.Prelude.{◌≡◌, IfOk, None, Some, if◌then◌else◌};
ghost use Rattle.objects.specs.typing.Typing.{FitsIn, Leads, Types, types_at};
ghost use Rattle.objects.specs.typing.Source.{AreTypes};
ghost use Rattle.verifier.specs.Check.{stays};
ghost use Rattle.verifier.specs.Search.{demands, Flows, IsVisit};
ghost use Rattle.verifier.specs.Settled.{IsMarked};
ghost use Rattle.verifier.specs.Visits.{step, step_at, step_of};

use crate::building::{Site, is_constructor};
use crate::flow::flow;
use crate::led::Led;
use crate::search::{Outflow, Search, is_ready, stays};
use crate::settling::brings_itself;
use hierarchy::{Method, Program, TypeEntry};
use objects::op::Op;
use std::alloc::{AllocError, Global};
use std::marker::Model;

/// The types before an instruction, where it goes on, and what it leaves there.
#[derive(Drop)]
struct Step {
    before: Outflow,
    to: Vec<usize>,
    left: Outflow,
}

impl Model for Step {
    ghost use Rattle.verifier.specs.Visits.{Step as VStep};

    ghost Value = { VStep };

    ghost view = { λ s. record { before = s.before; to = s.to.items; left = s.left } };
}

/// What an instruction does, by the types before it, where it goes on, and what it leaves there, each marked as settled or
/// not.
fn marked_step(
    program: &Program,
    method: &Method,
    op: &Op,
    before: TypeEntry,
    to: Vec<usize>,
    left: TypeEntry,
) -> Step
    ensures { result ≡ step program.now method.now op.now before to.items left }
{
    let settled = brings_itself(program, method, op, left.stack());
    Step {
        before: Outflow {
            types: before,
            settled: true,
        },
        to,
        left: Outflow {
            types: left,
            settled,
        },
    }
}

/// The types before an instruction, shared, if the frame has room for those that it leaves, and each entry that guards its
/// place takes exceptions.
fn shared_before(
    alloc: Global,
    site: &Site,
    before: &TypeEntry,
    left: &TypeEntry,
) -> Result<Option<TypeEntry>, AllocError>
    ensures { IfOk result (λ o. o ≡ (if stays site.now.program.now site.now.method.now site.now.pc left.now then Some before.now else None)) }
{
    if !stays(alloc, site.program, site.method, site.pc, left)? {
        return Ok(None);
    }
    Ok(Some(before.share()?))
}

/// What the instruction of a place does, by where it goes on and what it leaves there. None where the frame has no room, or
/// where an entry that guards the place takes no exceptions.
fn step_of(
    alloc: Global,
    site: &Site,
    op: &Op,
    before: &TypeEntry,
    to: Vec<usize>,
    left: TypeEntry,
) -> Result<Option<Step>, AllocError>
    ensures { IfOk result (λ o. o ≡ step_of site.now.program.now site.now.method.now site.now.pc op.now before.now (Leads to.items left)) }
{
    match shared_before(alloc, site, before, &left)? {
        Some(before) => {
            let step = marked_step(site.program, site.method, op, before, to, left);
            Ok(Some(step))
        }
        None => Ok(None),
    }
}

/// What the instruction of a place does, if its rules hold of the types there.
fn step_at(
    alloc: Global,
    program: &Program,
    method: &Method,
    pc: usize,
    search: &Search,
) -> Result<Option<Step>, AllocError>
    ensures { IfOk result (λ o. o ≡ step_at program.now method.now pc (types_at search.now.table pc)) }
{
    let (Some(before), Some(op)) = (search.entry(pc), method.op(pc)) else {
        return Ok(None);
    };
    if !is_ready(method, before) {
        return Ok(None);
    }
    let site = Site {
        program,
        method,
        pc,
    };
    match flow(alloc, program, method, pc, op, before)? {
        Some(Led { to, left }) => step_of(alloc, &site, op, before, to, left),
        None => Ok(None),
    }
}

/// Whether an instruction is a call of a constructor, which makes a stack anew.
fn constructs(program: &Program, op: Option<&Op>) -> bool {
    match op {
        Some(Op::InvokeSpecial(called)) => match program.method(*called) {
            Some(called) => is_constructor(called),
            None => false,
        },
        Some(Op::InitLibrary { .. }) => true,
        _ => false,
    }
}

/// A step as it was. What its instruction made lies in the memory of equal types that were made before.
fn shared(
    program: &Program,
    op: Option<&Op>,
    step: Step,
    search: &mut Search,
) -> Result<Step, AllocError>
    ensures step { IfOk result (λ s. s ≡ step) }
    ensures search { search.new ≡ search.old }
{
    if !constructs(program, op) {
        return Ok(step);
    }
    let Step { before, to, left } = step;
    let left = search.shared(left)?;
    Ok(Step { before, to, left })
}

/// Lets what an instruction leaves flow on, and the exceptions of its place. False where a place can't take them.
fn follow(
    alloc: Global,
    program: &Program,
    method: &Method,
    pc: usize,
    step: &Step,
    search: &mut Search,
) -> Result<bool, AllocError>
    requires types { AreTypes program.now }
    requires before { IsMarked program.now step.now.before }
    requires left { IsMarked program.now step.now.left }
    ensures { IfOk result (λ b. Flows program.now (demands program.now method.now pc step.now.before.types step.now.to step.now.left.types) search.old search.new b) }
{
    if !search.flow_each(alloc, program, step.to.as_slice(), &step.left)? {
        return Ok(false);
    }
    if !search.flow_caught(alloc, program, method.catches(), pc, &step.before)? {
        return Ok(false);
    }
    search.flow_caught(alloc, program, method.catches(), pc, &step.left)
}

/// Looks at the instruction of a place, and lets what it leaves flow on. False where its rules fail, or a place where it goes
/// on can't take what flows there.
pub fn visit(
    alloc: Global,
    program: &Program,
    method: &Method,
    pc: usize,
    search: &mut Search,
) -> Result<bool, AllocError>
    requires types { AreTypes program.now }
    requires itself { (h : Types) → types_at search.old.table pc ≡ Some h → FitsIn program.now h h }
    ensures { IfOk result (λ b. IsVisit program.now method.now pc search.old search.new b) }
{
    match step_at(alloc, program, method, pc, search)? {
        Some(step) => {
            let step = shared(program, method.op(pc), step, search)?;
            follow(alloc, program, method, pc, &step, search)
        }
        None => Ok(false),
    }
}
