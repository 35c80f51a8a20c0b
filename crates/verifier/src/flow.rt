//! What an instruction does to the types before it (JVM Specification, Java SE 7, section 4.10.1.9).
ghost use Rattle.std.specs.Prelude.{◌≡◌, ◌+◌, ◌^◌, ◌<◌, IfOk};
ghost use Rattle.objects.specs.declared.op.Op.TheVariants as op;
ghost use Rattle.objects.specs.typing.Typing.{flow};
ghost use Rattle.verifier.specs.Flows.{flow_of};

use crate::arrays::{array_length, load_element, store_element};
use crate::building::{Site, is_constructor};
use crate::led::Led;
use crate::loads::{increments, loads};
use crate::receivers::object_flow;
use crate::stack::rearranged;
use crate::storing::stores;
use hierarchy::{Method, Program, TypeEntry};
use objects::op::Op;
use std::alloc::{AllocError, Global};

/// A return without a value: of a constructor, once another has run over its object.
fn returns(
    alloc: Global,
    program: &Program,
    method: &Method,
    pc: usize,
    entry: &TypeEntry,
) -> Result<Option<Led>, AllocError>
    ensures { IfOk result (λ o. flow_of o ≡ flow program.now method.now pc op.Return entry.now) }
{
    if method.result().is_some() || is_constructor(method) && !entry.built() {
        return Ok(None);
    }
    let left = entry.share()?;
    let to = Vec::new(alloc);
    Ok(Some(Led { to, left }))
}

/// Where an instruction of a method goes on, and the types that it leaves there; none where it doesn't fit those before it.
/// Want of memory also for a `New` at a place from 65536 on, which no method of a class file has.
#[tactic(auto, using(crate::proofs::Flowing::object_is))]
pub fn flow(
    alloc: Global,
    program: &Program,
    method: &Method,
    pc: usize,
    op: &Op,
    entry: &TypeEntry,
) -> Result<Option<Led>, AllocError>
    requires { pc + 1 < 2 ^ 64 }
    ensures { IfOk result (λ o. flow_of o ≡ flow program.now method.now pc op.now entry.now) }
{
    match op {
        Op::Load(sort, local) => loads(alloc, *sort, *local, pc, entry),
        Op::Store(sort, local) => stores(alloc, program, *sort, *local, pc, entry),
        Op::Stack(arranged) => rearranged(alloc, *arranged, pc, entry),
        Op::Increment(local, _) => increments(alloc, pc, entry, *local),
        Op::ArrayLength => array_length(alloc, pc, entry),
        Op::LoadElement(of) => load_element(alloc, *of, pc, entry),
        Op::StoreElement(of) => store_element(alloc, program, *of, pc, entry),
        Op::Return => returns(alloc, program, method, pc, entry),
        _ => {
            let site = Site {
                program,
                method,
                pc,
            };
            object_flow(alloc, &site, op, entry)
        }
    }
}
