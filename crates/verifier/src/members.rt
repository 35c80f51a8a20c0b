//! The rules of instructions that name fields, methods and types.
ghost use Rattle.std.specs.Prelude.{◌≡◌, ◌+◌, ◌^◌, ◌<◌, ◌∷◌, [], IfOk, option_copied, reverse, is_some, slice_get};
ghost use Rattle.objects.specs.semantics.Program.{field_at, method_at, row_at};
ghost use Rattle.jmodel.specs.declared.typing.VType.TheVariants as type;
ghost use Rattle.objects.specs.typing.TypeOrder.{stack_types, object_class, string_class, name_read};
ghost use Rattle.objects.specs.typing.Typing.{arguments, result_types, results, returns};
ghost use Rattle.verifier.specs.Rules.{call_rule, field_rule, only, row_rule, rule, rule_of, next as next_place};

use crate::led::single;
use crate::names::{name_read, object_class};
use crate::order::{class_type, copies, copy, rest};
use crate::rule::{StackRule, Want, constant, next, number_rule, rule, want_types};
use hierarchy::{Declared, Method, Program};
use jmodel::VType;
use objects::op::{Op, Sort, WordType};
use std::alloc::{AllocError, Global};

/// The types of a word of a declared type on a stack, the topmost place first.
pub fn stack_types(alloc: Global, declared: &Declared) -> Result<Vec<VType>, AllocError>
    ensures { IfOk result (λ v. v.items ≡ stack_types declared.now) }
{
    match declared.word {
        WordType::Long => want_types(alloc, &[Want::Second, Want::Long]),
        WordType::Reference => single(alloc, class_type(alloc, declared.class.as_slice())?),
        _ => single(alloc, VType::Int),
    }
}

/// The types of what a method gives, the topmost place first.
pub fn result_types(alloc: Global, gives: Option<&VType>) -> Result<Vec<VType>, AllocError>
    ensures { IfOk result (λ v. v.items ≡ result_types (option_copied gives.entry)) }
{
    match gives {
        Some(VType::Long) => want_types(alloc, &[Want::Second, Want::Long]),
        Some(item) => single(alloc, copy(alloc, item)?),
        None => Ok(Vec::new(alloc)),
    }
}

/// Types the other way round.
pub fn reversed(alloc: Global, from: &[VType]) -> Result<Vec<VType>, AllocError>
    ensures { IfOk result (λ v. v.items ≡ reverse from.now) }
{
    let mut types = copies(alloc, from)?;
    types.reverse();
    Ok(types)
}

/// The types of a method's parameters behind the object.
pub fn arguments(called: &Method) -> &[VType]
    ensures { result.now ≡ arguments called.now }
{
    rest(called.parameters(), 1)
}

/// A rule of these types that goes on to the next instruction.
fn rule_on(
    alloc: Global,
    pc: usize,
    takes: Vec<VType>,
    leaves: Vec<VType>,
) -> Result<Option<StackRule>, AllocError>
    requires { pc + 1 < 2 ^ 64 }
    ensures { IfOk result (λ r. r ≡ rule takes.items leaves.items (next_place pc)) }
{
    let to = next(alloc, pc)?;
    Ok(Some(StackRule { takes, leaves, to }))
}

/// The rule of a call of a method.
pub fn called_rule(
    alloc: Global,
    pc: usize,
    called: &Method,
) -> Result<Option<StackRule>, AllocError>
    requires { pc + 1 < 2 ^ 64 }
    ensures { IfOk result (λ r. r ≡ rule (reverse called.now.parameters) (results called.now) (next_place pc)) }
{
    let takes = reversed(alloc, called.parameters())?;
    let leaves = result_types(alloc, called.result())?;
    rule_on(alloc, pc, takes, leaves)
}

/// The rule of a call of a method by its number.
fn call_rule(
    alloc: Global,
    program: &Program,
    pc: usize,
    method: usize,
) -> Result<Option<StackRule>, AllocError>
    requires { pc + 1 < 2 ^ 64 }
    ensures { IfOk result (λ r. r ≡ call_rule (method_at program.now method) pc) }
{
    match program.method(method) {
        Some(called) => called_rule(alloc, pc, called),
        None => Ok(None),
    }
}

/// The rule of a string constant.
fn text_rule(
    alloc: Global,
    program: &Program,
    pc: usize,
    text: usize,
) -> Result<Option<StackRule>, AllocError>
    requires { pc + 1 < 2 ^ 64 }
    ensures { IfOk result (λ r. r ≡ only (is_some (slice_get program.now.texts text)) (rule [] (type.Ref string_class ∷ []) (next_place pc))) }
{
    if program.text(text).is_some() {
        rule(alloc, &[], &[Want::Text], next(alloc, pc)?)
    } else {
        Ok(None)
    }
}

/// The rule of a read of a static field.
fn get_static_rule(
    alloc: Global,
    program: &Program,
    pc: usize,
    field: usize,
) -> Result<Option<StackRule>, AllocError>
    requires { pc + 1 < 2 ^ 64 }
    ensures { IfOk result (λ r. r ≡ field_rule (field_at program.now field) (λ d. only (is_some d.base) (rule [] (stack_types d.declared) (next_place pc)))) }
{
    let Some(field) = program.field(field) else {
        return Ok(None);
    };
    if field.base.is_none() {
        return Ok(None);
    }
    let leaves = stack_types(alloc, &field.declared)?;
    rule_on(alloc, pc, Vec::new(alloc), leaves)
}

/// The rule of a write of a static field.
fn put_static_rule(
    alloc: Global,
    program: &Program,
    pc: usize,
    field: usize,
) -> Result<Option<StackRule>, AllocError>
    requires { pc + 1 < 2 ^ 64 }
    ensures { IfOk result (λ r. r ≡ field_rule (field_at program.now field) (λ d. only (is_some d.base) (rule (stack_types d.declared) [] (next_place pc)))) }
{
    let Some(field) = program.field(field) else {
        return Ok(None);
    };
    if field.base.is_none() {
        return Ok(None);
    }
    let takes = stack_types(alloc, &field.declared)?;
    rule_on(alloc, pc, takes, Vec::new(alloc))
}

/// The rule of a read of an object's field.
pub fn get_field_rule(
    alloc: Global,
    program: &Program,
    pc: usize,
    field: usize,
) -> Result<Option<StackRule>, AllocError>
    requires { pc + 1 < 2 ^ 64 }
    ensures { IfOk result (λ r. r ≡ field_rule (field_at program.now field) (λ d. rule (type.Ref d.class ∷ []) (stack_types d.declared) (next_place pc))) }
{
    let Some(field) = program.field(field) else {
        return Ok(None);
    };
    let takes = single(alloc, class_type(alloc, field.class.as_slice())?)?;
    let leaves = stack_types(alloc, &field.declared)?;
    rule_on(alloc, pc, takes, leaves)
}

/// The rule of a new array.
fn array_rule(
    alloc: Global,
    program: &Program,
    pc: usize,
    of: usize,
) -> Result<Option<StackRule>, AllocError>
    requires { pc + 1 < 2 ^ 64 }
    ensures { IfOk result (λ r. r ≡ row_rule (row_at program.now of) (λ d. rule (type.Int ∷ []) (type.Ref d.read ∷ []) (next_place pc))) }
{
    let Some(row) = program.row(of) else {
        return Ok(None);
    };
    let takes = single(alloc, VType::Int)?;
    let leaves = single(alloc, class_type(alloc, row.read().as_slice())?)?;
    rule_on(alloc, pc, takes, leaves)
}

/// The rule of a cast.
fn cast_rule(
    alloc: Global,
    program: &Program,
    pc: usize,
    class: &[u8],
) -> Result<Option<StackRule>, AllocError>
    requires { pc + 1 < 2 ^ 64 }
    ensures { IfOk result (λ r. r ≡ rule (type.Ref object_class ∷ []) (type.Ref (name_read program.now class.now) ∷ []) (next_place pc)) }
{
    let takes = single(alloc, class_type(alloc, object_class())?)?;
    let leaves = single(alloc, VType::Ref(name_read(alloc, program, class)?))?;
    rule_on(alloc, pc, takes, leaves)
}

/// Whether a return of this sort gives what a method gives.
fn returns(sort: Sort, gives: Option<&VType>) -> bool
    ensures { result ≡ returns sort (option_copied gives.entry) }
{
    matches!(
        (sort, gives),
        (Sort::Int, Some(VType::Int))
            | (Sort::Long, Some(VType::Long))
            | (Sort::Reference, Some(VType::Ref(_)))
    )
}

/// The rule of a return of a value.
fn return_rule(alloc: Global, method: &Method, sort: Sort) -> Result<Option<StackRule>, AllocError>
    ensures { IfOk result (λ r. r ≡ only (returns sort method.now.result) (rule (results method.now) [] [])) }
{
    if !returns(sort, method.result()) {
        return Ok(None);
    }
    let takes = result_types(alloc, method.result())?;
    let leaves = Vec::new(alloc);
    let to = Vec::new(alloc);
    Ok(Some(StackRule { takes, leaves, to }))
}

/// The rule of an instruction, or none where there is none, or where what it does hangs on more than the types on the stack.
pub fn rule_of(
    alloc: Global,
    program: &Program,
    method: &Method,
    pc: usize,
    op: &Op,
) -> Result<Option<StackRule>, AllocError>
    requires { pc + 1 < 2 ^ 64 }
    ensures { IfOk result (λ r. r ≡ rule_of program.now method.now pc op.now) }
{
    match op {
        Op::Constant(value) => rule(alloc, &[], constant(*value), next(alloc, pc)?),
        Op::Text(text) => text_rule(alloc, program, pc, *text),
        Op::GetStatic(field) => get_static_rule(alloc, program, pc, *field),
        Op::PutStatic(field) => put_static_rule(alloc, program, pc, *field),
        Op::GetField { field, .. } => get_field_rule(alloc, program, pc, *field),
        Op::InvokeStatic(called) => call_rule(alloc, program, pc, *called),
        Op::InvokeVirtual { method: called, .. } => call_rule(alloc, program, pc, *called),
        Op::InvokeInterface { method: called, .. } => call_rule(alloc, program, pc, *called),
        Op::NewArray(of) => array_rule(alloc, program, pc, *of),
        Op::CheckCast(class) => cast_rule(alloc, program, pc, class.as_slice()),
        Op::ReturnValue(sort) => return_rule(alloc, method, *sort),
        _ => number_rule(alloc, pc, op),
    }
}
