//! Accessors: for each field a getter and a setter, which read and write it over the context.
ghost use Rattle.std.specs.Prelude.{◌≡◌, ◌∷◌, [], ◌++◌, IfOk, OnOk};
ghost use Rattle.objects.specs.rewriting.Rewriting.{distance as distance_op, static_getter as getter_of_static, static_setter as setter_of_static, field_getter as getter_of_field, field_setter as setter_of_field, getter_method as getter_for, setter_method as setter_for, accessors as accessors_from, context as context_place};

use crate::names::{
    field_getter_named, field_setter_named, static_getter_named, static_setter_named,
};
use crate::shapes::{
    added, as_result, class_type, context_type, places_of, push_given, push_places,
};
use hierarchy::{Field, Method, Program};
use jmodel::{NoMemory, VType, Value};
use member_code::words::sort_of;
use objects::op::{ContextCall, Op, Sort};
use std::alloc::{AllocError, Global};

// How far the word of a field lies behind the header of its object.
fn distance(field: &Field) -> Op
    ensures { result ≡ distance_op field.now.index }
{
    Op::Constant(Value::Long(field.index.saturating_add(1).cast_signed()))
}

// The context alone.
fn context_alone(alloc: Global) -> Result<Vec<VType>, AllocError>
    ensures { IfOk result (λ v. v.items ≡ context_place ∷ []) }
{
    Ok(vec![in alloc; context_type(alloc)?]?)
}

// An object of the field's class.
fn receiver(alloc: Global, field: &Field) -> Result<Vec<VType>, AllocError>
    ensures { IfOk result (λ v. v.items ≡ VType.Ref field.now.class ∷ []) }
{
    Ok(vec![in alloc; class_type(alloc, field.class.as_slice())?]?)
}

// Before the read, the plain load, after the read.
fn static_getter_ops(
    alloc: Global,
    number: usize,
    field: &Field,
    base: u64,
) -> Result<Vec<Op>, AllocError>
    ensures { IfOk result (λ v. v.items ≡ (getter_of_static number field.now base).ops) }
{
    let word = field.declared.word;
    let mut ops = vec![in alloc;
        Op::Load(Sort::Reference, 0),
        Op::Constant(Value::Ref(base)),
        distance(field),
        Op::Context(ContextCall::BeforeRead),
        Op::Load(Sort::Reference, 0),
        Op::Constant(Value::Ref(base)),
        Op::GetStatic(number),
        distance(field),
        Op::Context(ContextCall::OnRead(word)),
    ]?;
    push_given(alloc, &mut ops, &field.declared)?;
    Ok(ops)
}

fn static_getter(
    alloc: Global,
    number: usize,
    field: &Field,
    base: u64,
) -> Result<Method, AllocError>
    ensures { IfOk result (λ m. m ≡ getter_of_static number field.now base) }
{
    let name = static_getter_named(alloc, field)?;
    let takes = context_alone(alloc)?;
    let gives = as_result(alloc, &field.declared)?;
    let ops = static_getter_ops(alloc, number, field, base)?;
    let most = 4 + places_of(field.declared.word);
    Ok(added(alloc, name, takes, most, Some(gives), ops))
}

// In place of the store.
fn static_setter(alloc: Global, field: &Field, base: u64) -> Result<Method, AllocError>
    ensures { IfOk result (λ m. m ≡ setter_of_static field.now base) }
{
    let word = field.declared.word;
    let name = static_setter_named(alloc, field)?;
    let mut takes = Vec::new(alloc);
    push_places(alloc, &mut takes, &field.declared)?;
    takes.push(context_type(alloc)?)?;
    let ops = vec![in alloc;
        Op::Load(Sort::Reference, places_of(word)),
        Op::Constant(Value::Ref(base)),
        Op::Load(sort_of(word), 0),
        distance(field),
        Op::Context(ContextCall::OnWrite(word)),
        Op::Return,
    ]?;
    Ok(added(alloc, name, takes, 4 + places_of(word), None, ops))
}

// Before the read, the plain load, after the read.
fn field_getter_ops(alloc: Global, number: usize, field: &Field) -> Result<Vec<Op>, AllocError>
    ensures { IfOk result (λ v. v.items ≡ (getter_of_field number field.now).ops) }
{
    let word = field.declared.word;
    let class = field.class.copy(alloc)?;
    let mut ops = vec![in alloc;
        Op::Load(Sort::Reference, 1),
        Op::Load(Sort::Reference, 0),
        distance(field),
        Op::Context(ContextCall::BeforeRead),
        Op::Load(Sort::Reference, 1),
        Op::Load(Sort::Reference, 0),
        Op::Load(Sort::Reference, 0),
        Op::GetField {
            field: number,
            class
        },
        distance(field),
        Op::Context(ContextCall::OnRead(word)),
    ]?;
    push_given(alloc, &mut ops, &field.declared)?;
    Ok(ops)
}

fn field_getter(alloc: Global, number: usize, field: &Field) -> Result<Method, AllocError>
    ensures { IfOk result (λ m. m ≡ getter_of_field number field.now) }
{
    let name = field_getter_named(alloc, field)?;
    let mut takes = receiver(alloc, field)?;
    takes.push(context_type(alloc)?)?;
    let gives = as_result(alloc, &field.declared)?;
    let ops = field_getter_ops(alloc, number, field)?;
    let most = 4 + places_of(field.declared.word);
    Ok(added(alloc, name, takes, most, Some(gives), ops))
}

// In place of the store.
fn field_setter(alloc: Global, field: &Field) -> Result<Method, AllocError>
    ensures { IfOk result (λ m. m ≡ setter_of_field field.now) }
{
    let word = field.declared.word;
    let name = field_setter_named(alloc, field)?;
    let mut takes = receiver(alloc, field)?;
    push_places(alloc, &mut takes, &field.declared)?;
    takes.push(context_type(alloc)?)?;
    let ops = vec![in alloc;
        Op::Load(Sort::Reference, 1 + places_of(word)),
        Op::Load(Sort::Reference, 0),
        Op::Load(sort_of(word), 1),
        distance(field),
        Op::Context(ContextCall::OnWrite(word)),
        Op::Return,
    ]?;
    Ok(added(alloc, name, takes, 4 + places_of(word), None, ops))
}

// The getter of the field with a number.
fn getter_method(alloc: Global, number: usize, field: &Field) -> Result<Method, AllocError>
    ensures { IfOk result (λ m. m ≡ getter_for number field.now) }
{
    match field.base {
        None => field_getter(alloc, number, field),
        Some(base) => static_getter(alloc, number, field, base),
    }
}

fn setter_method(alloc: Global, field: &Field) -> Result<Method, AllocError>
    ensures { IfOk result (λ m. m ≡ setter_for field.now) }
{
    match field.base {
        None => field_setter(alloc, field),
        Some(base) => static_setter(alloc, field, base),
    }
}

// Puts the getter and the setter of the field with a number behind methods.
fn push_both(
    alloc: Global,
    methods: &mut Vec<Method>,
    number: usize,
    field: &Field,
) -> Result<(), AllocError>
    ensures { OnOk result (methods.new.items ≡ methods.old.items ++ getter_for number field.now ∷ setter_for field.now ∷ []) }
{
    methods.push(getter_method(alloc, number, field)?)?;
    methods.push(setter_method(alloc, field)?)?;
    Ok(())
}

/// A getter and a setter for each field of a program, one after another.
#[tactic(auto, using(crate::proofs::Pairs::accessors_go_on))]
pub fn accessors(alloc: Global, program: &Program) -> Result<Vec<Method>, NoMemory>
    ensures { IfOk result (λ v. v.items ≡ accessors_from 0 program.now.fields) }
{
    let mut methods = Vec::new(alloc);
    for (number, field) in program.fields().iter().enumerate() {
        push_both(alloc, &mut methods, number, field)?;
    }
    Ok(methods)
}
