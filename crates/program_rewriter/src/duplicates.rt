//! Duplicates: methods that take the context, read and write over it, and call duplicates.
ghost use Rattle.std.specs.Prelude.{◌≡◌, ◌+◌, ◌++◌, [], ◌∷◌, length, map, IfOk};
ghost use Rattle.objects.specs.rewriting.Rewriting.{context as context_place, typed_from, moved_catch as moved_entry, catch as entry_of, duplicate_method};
ghost use Rattle.objects.specs.declared.op.Catches.TheVariants.{Conflict as OnConflict};
ghost use Rattle.program_rewriter.specs.Places.{start_of};
ghost use Rattle.program_rewriter.specs.Blocks.{blocks_from};

use crate::blocks::{Blocks, push_block};
use crate::copies::{copy_catches, copy_shape};
use crate::locals::more_locals;
use crate::numbers::sum;
use crate::places::{start_at, starts_of};
use crate::shapes::context_type;
use hierarchy::{Body, Method, Program, Shape, Typing};
use jmodel::NoMemory;
use member_code::names::duplicate_named;
use objects::op::{Catch, Catches, Op};
use std::alloc::{AllocError, Global};

// How calls find the duplicate: as they find the method, with the context as last parameter.
fn shape_of(alloc: Global, method: &Method) -> Result<Shape, AllocError>
    ensures dispatch { IfOk result (λ s. s.dispatch ≡ method.now.dispatch) }
    ensures parameters { IfOk result (λ s. s.parameters.items ≡ method.now.parameters ++ context_place ∷ []) }
    ensures gives { IfOk result (λ s. s.result ≡ method.now.result) }
{
    let mut shape = copy_shape(alloc, method)?;
    shape.parameters.push(context_type(alloc)?)?;
    Ok(shape)
}

// The blocks of a method's instructions, and behind them the stub that throws a conflict on.
fn ops_of(
    alloc: Global,
    blocks: &Blocks<'_>,
    method: &Method,
    typing: &Typing,
) -> Result<Vec<Op>, NoMemory>
    ensures { IfOk result (λ v. v.items ≡ blocks_from blocks.now.program.now blocks.now.context blocks.now.locals (start_of blocks.now.starts.now) typing.now 0 method.now.ops ++ Op.Throw ∷ []) }
{
    let mut ops = Vec::new(alloc);
    for (pc, op) in method.ops().iter().enumerate() {
        push_block(alloc, &mut ops, blocks, typing.at(pc), op)?;
    }
    ops.push(Op::Throw)?;
    Ok(ops)
}

// An exception entry, with its places moved.
fn moved_catch(alloc: Global, starts: &[usize], entry: &Catch) -> Result<Catch, AllocError>
    ensures { IfOk result (λ c. c ≡ moved_entry (start_of starts.now) entry.now) }
{
    Ok(Catch {
        from: start_at(starts, entry.from),
        to: start_at(starts, entry.to),
        at: start_at(starts, entry.at),
        catches: copy_catches(alloc, &entry.catches)?,
    })
}

// Of conflicts the blocks go to the stub; the other entries are the method's own.
fn catches_of(alloc: Global, starts: &[usize], method: &Method) -> Result<Vec<Catch>, AllocError>
    ensures { IfOk result (λ v. v.items ≡ entry_of 0 (start_of starts.now (length method.now.ops)) (start_of starts.now (length method.now.ops)) OnConflict ∷ map (moved_entry (start_of starts.now)) method.now.catches) }
{
    let stub = start_at(starts, method.ops().len());
    let mut entries = Vec::new(alloc);
    entries.push(Catch {
        from: 0,
        to: stub,
        at: stub,
        catches: Catches::Conflict,
    })?;
    for entry in method.catches() {
        entries.push(moved_catch(alloc, starts, entry)?)?;
    }
    Ok(entries)
}

// The code of the duplicate of a method that has code.
fn coded_body(
    alloc: Global,
    program: &Program,
    method: &Method,
    typing: &Typing,
) -> Result<Body, NoMemory>
    ensures { IfOk result (HasBody (duplicate_code program.now method.now (typed_from 0 typing.now method.now.ops))) }
{
    let entry = method.entry();
    let starts = starts_of(alloc, method, typing)?;
    let blocks = Blocks {
        program,
        context: entry.places,
        locals: entry.locals,
        starts: starts.as_slice(),
    };
    Ok(Body {
        locals: sum(entry.locals, more_locals(method))?,
        max_stack: sum(method.max_stack(), 1)?,
        ops: ops_of(alloc, &blocks, method, typing)?,
        catches: catches_of(alloc, starts.as_slice(), method)?,
    })
}

ghost use Rattle.objects.specs.rewriting.Rewriting.{duplicate_code};
ghost use Rattle.program_rewriter.specs.Bodies.{HasBody, IsShaped};

// The body of the duplicate of a method without code.
fn bare_body(alloc: Global, method: &Method) -> Result<Body, NoMemory>
    requires { method.now.ops ≡ [] }
    ensures locals { IfOk result (λ b. b.locals ≡ method.now.locals + 1) }
    ensures stack { IfOk result (λ b. b.max_stack ≡ 0) }
    ensures ops { IfOk result (λ b. b.ops.items ≡ []) }
    ensures catches { IfOk result (λ b. b.catches.items ≡ []) }
{
    Ok(Body {
        locals: sum(method.entry().locals, 1)?,
        max_stack: 0,
        ops: Vec::new(alloc),
        catches: Vec::new(alloc),
    })
}

fn body_of(
    alloc: Global,
    program: &Program,
    method: &Method,
    typing: &Typing,
) -> Result<Body, NoMemory>
    ensures { IfOk result (HasBody (duplicate_method program.now method.now typing.now)) }
{
    if method.has_code() {
        coded_body(alloc, program, method, typing)
    } else {
        bare_body(alloc, method)
    }
}

/// The duplicate of a method, by a table of its types: an empty one, where the method has no code.
pub fn duplicate_of(
    alloc: Global,
    program: &Program,
    method: &Method,
    typing: &Typing,
) -> Result<Method, NoMemory>
    requires { IsShaped method.now }
    ensures { IfOk result (λ m. m ≡ duplicate_method program.now method.now typing.now) }
{
    let name = duplicate_named(alloc, method.name())?;
    let shape = shape_of(alloc, method)?;
    let body = body_of(alloc, program, method, typing)?;
    Ok(Method::new(name, shape, true, None, body))
}
