//! Whether types that an instruction brings are within themselves, and so the narrowest above themselves.
ghost use Rattle.std.specs.Prelude.{◌≡◌, option_copied};
ghost use Rattle.verifier.specs.Settled.{brings_itself, builds_itself, is_built_itself, is_itself, is_top_itself};

use crate::names::is_reference_within;
use crate::order::is_within;
use hierarchy::{Method, Program};
use jmodel::VType;
use objects::op::Op;
use type_lists::TypeStack;

/// Whether the type of a place is within itself, if there is one.
fn is_itself(program: &Program, item: Option<&VType>) -> bool
    ensures { result ≡ is_itself program.now (option_copied item.entry) }
{
    match item {
        Some(item) => is_within(program, item, item),
        None => true,
    }
}

/// Whether the two topmost types of a stack are within themselves.
pub fn is_top_itself(program: &Program, stack: &TypeStack) -> bool
    ensures { result ≡ is_top_itself program.now stack.now }
{
    is_itself(program, stack.first()) && is_itself(program, stack.get(1))
}

/// Whether what a constructor of a class makes of an object is within itself, and what it makes of `this`.
fn is_built_itself(program: &Program, method: &Method, class: &[u8]) -> bool
    ensures { result ≡ is_built_itself program.now method.now class.now }
{
    let own = method.name().class.as_slice();
    is_reference_within(program, own, own) && is_reference_within(program, class, class)
}

/// Whether what the constructor that an instruction calls makes of its object is within itself.
fn builds_itself(program: &Program, method: &Method, op: &Op) -> bool
    ensures { result ≡ builds_itself program.now method.now op.now }
{
    match op {
        Op::InvokeSpecial(called) => match program.method(*called) {
            Some(called) => is_built_itself(program, method, called.name().class.as_slice()),
            None => true,
        },
        Op::InitLibrary { class, .. } => is_built_itself(program, method, class.as_slice()),
        _ => true,
    }
}

/// Whether all types that an instruction of a method brings are within themselves, by the stack that it leaves. No more than
/// two places on top of that have types that weren't there.
pub fn brings_itself(program: &Program, method: &Method, op: &Op, stack: &TypeStack) -> bool
    ensures { result ≡ brings_itself program.now method.now op.now stack.now }
{
    builds_itself(program, method, op) && is_top_itself(program, stack)
}
