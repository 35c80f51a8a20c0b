//! What instructions take from the stack and leave there, where that hangs on no local, on no object and on no array.
ghost use Rattle.std.specs.Prelude.{◌≡◌, ◌+◌, ◌^◌, ◌<◌, ◌∷◌, ◌++◌, [], IfOk, map};
ghost use Rattle.objects.specs.typing.Typing.{constant_types, number_types, exits, stored_types};
ghost use Rattle.objects.specs.typing.TypeOrder.{object_class, context_class};
ghost use Rattle.jmodel.specs.declared.typing.VType.TheVariants as type;
ghost use Rattle.verifier.specs.Rules.{context_rule, convert_rule, jump_rule, next, number_rule, plain_rule, rule, want_type};

use crate::names::{context_class, object_class, string_class, throwable_class};
use crate::order::class_type;
use jmodel::{VType, Value};
use objects::Cases;
use objects::op::{ContextCall, Conversion, Op, Width, WordType};
use std::alloc::{AllocError, Global};
use std::marker::Model;

/// A type that rules speak of.
#[derive(Clone, Copy)]
pub enum Want {
    Int,
    Long,
    Second,
    Null,
    Object,
    Throwable,
    Text,
    Context,
}

/// The types that an instruction takes, the first topmost, those that it leaves in their place, and where it goes on.
#[derive(Drop)]
pub struct StackRule {
    pub takes: Vec<VType>,
    pub leaves: Vec<VType>,
    pub to: Vec<usize>,
}

impl Model for StackRule {
    ghost use Rattle.verifier.specs.Rules.{Rule};

    ghost Value = { Rule };

    ghost view = { λ r. record { takes = r.takes.items; leaves = r.leaves.items; to = r.to.items } };
}

fn want_type(alloc: Global, want: Want) -> Result<VType, AllocError>
    ensures { IfOk result (λ t. t ≡ want_type want) }
{
    match want {
        Want::Int => Ok(VType::Int),
        Want::Long => Ok(VType::Long),
        Want::Second => Ok(VType::Second),
        Want::Null => Ok(VType::Null),
        Want::Object => class_type(alloc, object_class()),
        Want::Throwable => class_type(alloc, throwable_class()),
        Want::Text => class_type(alloc, string_class()),
        Want::Context => class_type(alloc, context_class()),
    }
}

pub fn want_types(alloc: Global, wants: &[Want]) -> Result<Vec<VType>, AllocError>
    ensures { IfOk result (λ v. v.items ≡ map want_type wants.now) }
{
    let mut types = Vec::new(alloc);
    for want in wants {
        types.push(want_type(alloc, *want)?)?;
    }
    Ok(types)
}

/// The place of the next instruction.
pub fn next(alloc: Global, pc: usize) -> Result<Vec<usize>, AllocError>
    requires { pc + 1 < 2 ^ 64 }
    ensures { IfOk result (λ v. v.items ≡ next pc) }
{
    let mut to = Vec::new(alloc);
    to.push(pc + 1)?;
    Ok(to)
}

/// The place of the next instruction, and a target.
fn either(alloc: Global, pc: usize, target: usize) -> Result<Vec<usize>, AllocError>
    requires { pc + 1 < 2 ^ 64 }
    ensures { IfOk result (λ v. v.items ≡ (pc + 1) ∷ target ∷ []) }
{
    let mut to = next(alloc, pc)?;
    to.push(target)?;
    Ok(to)
}

/// A rule of these types.
pub fn rule(
    alloc: Global,
    takes: &[Want],
    leaves: &[Want],
    to: Vec<usize>,
) -> Result<Option<StackRule>, AllocError>
    ensures { IfOk result (λ r. r ≡ rule (map want_type takes.now) (map want_type leaves.now) to.items) }
{
    let takes = want_types(alloc, takes)?;
    let leaves = want_types(alloc, leaves)?;
    Ok(Some(StackRule { takes, leaves, to }))
}

/// A number's places.
fn number(width: Width) -> &'static [Want]
    ensures { map want_type result.now ≡ number_types width }
{
    match width {
        Width::Int => &[Want::Int],
        Width::Long => &[Want::Second, Want::Long],
    }
}

/// Those of two.
fn two_numbers(width: Width) -> &'static [Want]
    ensures { map want_type result.now ≡ number_types width ++ number_types width }
{
    match width {
        Width::Int => &[Want::Int, Want::Int],
        Width::Long => &[Want::Second, Want::Long, Want::Second, Want::Long],
    }
}

/// Those of an int over a number.
fn int_and_number(width: Width) -> &'static [Want]
    ensures { map want_type result.now ≡ type.Int ∷ number_types width }
{
    match width {
        Width::Int => &[Want::Int, Want::Int],
        Width::Long => &[Want::Int, Want::Second, Want::Long],
    }
}

/// The places of a constant.
pub fn constant(value: Value) -> &'static [Want]
    ensures { map want_type result.now ≡ constant_types value }
{
    match value {
        Value::Int(_) => &[Want::Int],
        Value::Long(_) => &[Want::Second, Want::Long],
        Value::Ref(0) => &[Want::Null],
        Value::Ref(_) => &[Want::Object],
    }
}

fn convert_rule(
    alloc: Global,
    pc: usize,
    conversion: Conversion,
) -> Result<Option<StackRule>, AllocError>
    requires { pc + 1 < 2 ^ 64 }
    ensures { IfOk result (λ r. r ≡ convert_rule conversion pc) }
{
    let to = next(alloc, pc)?;
    match conversion {
        Conversion::IntToLong => rule(alloc, &[Want::Int], &[Want::Second, Want::Long], to),
        Conversion::LongToInt => rule(alloc, &[Want::Second, Want::Long], &[Want::Int], to),
        _ => rule(alloc, &[Want::Int], &[Want::Int], to),
    }
}

/// The rule of an instruction that computes with numbers, jumps, or asks for no more than the types on the stack.
pub fn number_rule(alloc: Global, pc: usize, op: &Op) -> Result<Option<StackRule>, AllocError>
    requires { pc + 1 < 2 ^ 64 }
    ensures { IfOk result (λ r. r ≡ number_rule pc op.now) }
{
    match op {
        Op::Binary(width, _) | Op::Divide(width, _) => {
            rule(alloc, two_numbers(*width), number(*width), next(alloc, pc)?)
        }
        Op::Shift(width, _) => {
            rule(
                alloc,
                int_and_number(*width),
                number(*width),
                next(alloc, pc)?,
            )
        }
        Op::Unary(width, _) => rule(alloc, number(*width), number(*width), next(alloc, pc)?),
        Op::Convert(conversion) => convert_rule(alloc, pc, *conversion),
        Op::CompareLongs => {
            rule(
                alloc,
                two_numbers(Width::Long),
                &[Want::Int],
                next(alloc, pc)?,
            )
        }
        _ => jump_rule(alloc, pc, op),
    }
}

/// The targets of a switch, the other one first.
fn exits(alloc: Global, other: usize, cases: &Cases) -> Result<Vec<usize>, AllocError>
    ensures { IfOk result (λ v. v.items ≡ exits other cases.now) }
{
    let exits = cases.exits(other);
    let mut to = Vec::new(alloc);
    for number in 0..exits.count() {
        to.push(exits.at(number))?;
    }
    Ok(to)
}

/// The rule of an instruction that takes these types, and may jump.
fn branch_rule(
    alloc: Global,
    pc: usize,
    takes: &[Want],
    target: usize,
) -> Result<Option<StackRule>, AllocError>
    requires { pc + 1 < 2 ^ 64 }
    ensures { IfOk result (λ r. r ≡ rule (map want_type takes.now) [] ((pc + 1) ∷ target ∷ [])) }
{
    rule(alloc, takes, &[], either(alloc, pc, target)?)
}

/// The rule of an instruction that jumps, or asks for no more than the types on the stack.
fn jump_rule(alloc: Global, pc: usize, op: &Op) -> Result<Option<StackRule>, AllocError>
    requires { pc + 1 < 2 ^ 64 }
    ensures { IfOk result (λ r. r ≡ jump_rule pc op.now) }
{
    match op {
        Op::Branch(_, to) => branch_rule(alloc, pc, &[Want::Int], *to),
        Op::BranchInts(_, to) => branch_rule(alloc, pc, &[Want::Int, Want::Int], *to),
        Op::BranchNull(_, to) => branch_rule(alloc, pc, &[Want::Object], *to),
        Op::BranchReferences(_, to) => {
            branch_rule(alloc, pc, &[Want::Object, Want::Object], *to)
        }
        Op::Goto(to) => rule(alloc, &[], &[], one(alloc, *to)?),
        Op::Switch { other, cases } => {
            rule(alloc, &[Want::Int], &[], exits(alloc, *other, cases)?)
        }
        _ => plain_rule(alloc, pc, op),
    }
}

/// A target alone.
fn one(alloc: Global, target: usize) -> Result<Vec<usize>, AllocError>
    ensures { IfOk result (λ v. v.items ≡ target ∷ []) }
{
    let mut to = Vec::new(alloc);
    to.push(target)?;
    Ok(to)
}

/// The rule of an instruction that asks for no more than the types on the stack.
fn plain_rule(alloc: Global, pc: usize, op: &Op) -> Result<Option<StackRule>, AllocError>
    requires { pc + 1 < 2 ^ 64 }
    ensures { IfOk result (λ r. r ≡ plain_rule pc op.now) }
{
    match op {
        Op::InstanceOf(_) => rule(alloc, &[Want::Object], &[Want::Int], next(alloc, pc)?),
        Op::Throw => rule(alloc, &[Want::Throwable], &[], Vec::new(alloc)),
        Op::GetContext => rule(alloc, &[], &[Want::Context], next(alloc, pc)?),
        Op::Context(call) => context_rule(alloc, pc, *call),
        _ => Ok(None),
    }
}

/// The places of a value of a word's type, where a reference is any.
pub fn stored(of: WordType) -> &'static [Want]
    ensures { map want_type result.now ≡ stored_types of }
{
    match of {
        WordType::Long => &[Want::Second, Want::Long],
        WordType::Reference => &[Want::Object],
        _ => &[Want::Int],
    }
}

/// What a call of the context takes for a field's value under its place: the value, the object and the context.
fn at_place(of: WordType) -> &'static [Want]
    ensures { map want_type result.now ≡ type.Second ∷ type.Long ∷ stored_types of ++ type.Ref object_class ∷ type.Ref context_class ∷ [] }
{
    match of {
        WordType::Long => &[
            Want::Second,
            Want::Long,
            Want::Second,
            Want::Long,
            Want::Object,
            Want::Context,
        ],
        WordType::Reference => &[
            Want::Second,
            Want::Long,
            Want::Object,
            Want::Object,
            Want::Context,
        ],
        _ => &[
            Want::Second,
            Want::Long,
            Want::Int,
            Want::Object,
            Want::Context,
        ],
    }
}

/// What it takes for an element's value under its index.
fn at_index(of: WordType) -> &'static [Want]
    ensures { map want_type result.now ≡ type.Int ∷ stored_types of ++ type.Ref object_class ∷ type.Ref context_class ∷ [] }
{
    match of {
        WordType::Long => &[
            Want::Int,
            Want::Second,
            Want::Long,
            Want::Object,
            Want::Context,
        ],
        WordType::Reference => &[Want::Int, Want::Object, Want::Object, Want::Context],
        _ => &[Want::Int, Want::Int, Want::Object, Want::Context],
    }
}

/// The rule of a call of the context. Its arguments lie in order, the last topmost.
fn context_rule(
    alloc: Global,
    pc: usize,
    call: ContextCall,
) -> Result<Option<StackRule>, AllocError>
    requires { pc + 1 < 2 ^ 64 }
    ensures { IfOk result (λ r. r ≡ context_rule call pc) }
{
    let to = next(alloc, pc)?;
    match call {
        ContextCall::Init => rule(alloc, &[Want::Int, Want::Int, Want::Context], &[], to),
        ContextCall::BeforeRead => {
            let takes = [Want::Second, Want::Long, Want::Object, Want::Context];
            rule(alloc, &takes, &[], to)
        }
        ContextCall::OnRead(of) => rule(alloc, at_place(of), stored(of), to),
        ContextCall::OnWrite(of) => rule(alloc, at_place(of), &[], to),
        ContextCall::BeforeReadElement => {
            rule(alloc, &[Want::Int, Want::Object, Want::Context], &[], to)
        }
        ContextCall::OnReadElement(of) => rule(alloc, at_index(of), stored(of), to),
        ContextCall::OnWriteElement(of) => rule(alloc, at_index(of), &[], to),
        ContextCall::Commit => rule(alloc, &[Want::Context], &[Want::Int], to),
        ContextCall::Rollback => rule(alloc, &[Want::Context], &[], to),
    }
}
