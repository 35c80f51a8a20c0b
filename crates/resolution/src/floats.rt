//! Floats and doubles, which are left out for good, and other constructs that an instruction shows by itself.
ghost use Rattle.std.specs.Prelude.{◌≡◌, option_copied, IfOk};
ghost use Rattle.std.specs.List.{list_any};
ghost use Rattle.jmodel.specs.format.DescriptorReading.{type_of};
ghost use Rattle.objects.specs.linking.Code.{widened as widened_op};
ghost use Rattle.objects.specs.linking.Taken.{invoked as invoked_by};
ghost use Rattle.objects.specs.linking.Resolution.{holds_of};
ghost use Rattle.objects.specs.linking.Constructs.{accessed as accessed_by, is_floating as floating, has_floats as with_floats, is_float_field as float_field, is_float_descriptor as float_descriptor, is_float_method as float_method, is_float_op as float_op, is_float_constant as float_constant, is_class_constant as class_constant, entry_pushed as pushed_by, is_float_array as float_array, is_float as float_instr, is_subroutine as subroutine, first_kinds, first_kind};

use bytecode::opcodes;
use const_pool::{Constant, Descriptor, FieldType, Pool};
use hierarchy::reference::{Reference, member_reference};
use hierarchy::taken::{index_of, invoked};
use jmodel::{Instr, NoMemory, Operands};
use std::alloc::Global;

/// Whether a type is float or double. An array of these is none.
pub fn is_floating(t: &FieldType) -> bool
    ensures { result ≡ floating t.now }
{
    matches!(t, FieldType::Float | FieldType::Double)
}

// Whether a field of a descriptor is one.
#[tactic(auto, unfolding(jmodel::specs::format::DescriptorReading::type_of))]
fn is_float_text(descriptor: &[u8]) -> bool
    ensures { result ≡ floating (type_of descriptor.now) }
{
    match descriptor {
        [] => false,
        [letter, ..] => *letter == b'F' || *letter == b'D',
    }
}

fn are_floating(types: &[FieldType]) -> bool
    ensures { result ≡ list_any floating types.now }
{
    types.iter().any(|t| is_floating(t))
}

fn has_floats(found: &Descriptor) -> bool
    ensures { result ≡ with_floats found.now }
{
    are_floating(found.parameters.as_slice()) || is_float_result(&found.result)
}

fn is_float_result(t: &Option<FieldType>) -> bool
    ensures { result ≡ holds_of floating t.now }
{
    match t {
        Some(found) => is_floating(found),
        None => false,
    }
}

/// Whether a method of a descriptor takes or gives a float or a double.
pub fn is_float_descriptor(alloc: Global, descriptor: &[u8]) -> Result<bool, NoMemory>
    ensures { IfOk result (λ b. b ≡ float_descriptor descriptor.now) }
{
    match Descriptor::find(alloc, descriptor)? {
        Some(found) => Ok(has_floats(&found)),
        None => Ok(false),
    }
}

// Constants, loads, stores, arithmetic, conversions, comparisons and returns of floats and doubles.
fn is_float_op(opcode: u8) -> bool
    ensures { result ≡ float_op opcode }
{
    matches!(
        opcode,
        opcodes::FCONST_0..=opcodes::DCONST_1
            | opcodes::FLOAD..=opcodes::DLOAD
            | opcodes::FLOAD_0..=opcodes::DLOAD_3
            | opcodes::FALOAD..=opcodes::DALOAD
            | opcodes::FSTORE..=opcodes::DSTORE
            | opcodes::FSTORE_0..=opcodes::DSTORE_3
            | opcodes::FASTORE..=opcodes::DASTORE
            | opcodes::FADD..=opcodes::DADD
            | opcodes::FSUB..=opcodes::DSUB
            | opcodes::FMUL..=opcodes::DMUL
            | opcodes::FDIV..=opcodes::DDIV
            | opcodes::FREM..=opcodes::DREM
            | opcodes::FNEG..=opcodes::DNEG
            | opcodes::I2F..=opcodes::I2D
            | opcodes::L2F..=opcodes::D2F
            | opcodes::FCMPL..=opcodes::DCMPG
            | opcodes::FRETURN..=opcodes::DRETURN
    )
}

// The opcode that wide stands before.
fn widened(opcode: u8, operands: &Operands) -> u8
    ensures { result ≡ widened_op opcode operands.now }
{
    match operands {
        Operands::Wide { op, .. } => *op,
        _ => opcode,
    }
}

// newarray of floats or doubles.
fn is_float_array(opcode: u8, operands: &Operands) -> bool
    ensures { result ≡ float_array opcode operands.now }
{
    match operands {
        Operands::Number(n) => opcode == opcodes::NEWARRAY && 6 <= *n && *n <= 7,
        _ => false,
    }
}

// The entry that ldc, ldc_w or ldc2_w puts on the stack.
fn pushed<'a>(pool: &'a Pool, i: &Instr) -> Option<&'a Constant>
    ensures { option_copied result ≡ pushed_by pool.now i.now }
{
    if !matches!(i.op, opcodes::LDC..=opcodes::LDC2_W) {
        return None;
    }
    pool.entry(index_of(&i.operands)?)
}

fn is_float_constant(pool: &Pool, i: &Instr) -> bool
    ensures { result ≡ holds_of float_constant (pushed_by pool.now i.now) }
{
    matches!(
        pushed(pool, i),
        Some(Constant::Float(_) | Constant::Double(_))
    )
}

// ldc or ldc_w of a class.
fn is_class_literal(pool: &Pool, i: &Instr) -> bool
    ensures { result ≡ holds_of class_constant (pushed_by pool.now i.now) }
{
    matches!(pushed(pool, i), Some(Constant::Class(_)))
}

/// The field that an instruction from getstatic to putfield names.
pub fn accessed<'a>(pool: &'a Pool, i: &Instr) -> Option<Reference<'a>>
    ensures { result ≡ accessed_by pool.now i.now }
{
    if !matches!(i.op, opcodes::GETSTATIC..=opcodes::PUTFIELD) {
        return None;
    }
    member_reference(pool, index_of(&i.operands)?)
}

fn is_float_access(pool: &Pool, i: &Instr) -> bool
    ensures { result ≡ holds_of float_field (accessed_by pool.now i.now) }
{
    match accessed(pool, i) {
        Some(found) => is_float_text(found.descriptor),
        None => false,
    }
}

fn is_float_call(alloc: Global, pool: &Pool, i: &Instr) -> Result<bool, NoMemory>
    ensures { IfOk result (λ b. b ≡ holds_of float_method (invoked_by pool.now i.now)) }
{
    match invoked(pool, i) {
        Some(found) => is_float_descriptor(alloc, found.descriptor),
        None => Ok(false),
    }
}

fn is_float(alloc: Global, pool: &Pool, i: &Instr) -> Result<bool, NoMemory>
    ensures { IfOk result (λ b. b ≡ float_instr pool.now i.now) }
{
    let by_itself = is_float_op(widened(i.op, &i.operands))
        || is_float_array(i.op, &i.operands)
        || is_float_constant(pool, i)
        || is_float_access(pool, i);
    if by_itself {
        return Ok(true);
    }
    is_float_call(alloc, pool, i)
}

// jsr, jsr_w and ret.
fn is_subroutine(i: &Instr) -> bool
    ensures { result ≡ subroutine i.now }
{
    i.op == opcodes::JSR || i.op == opcodes::JSR_W || widened(i.op, &i.operands) == opcodes::RET
}

/// The first kind of construct that an instruction shows by itself: `Float`, `JsrRet`, `Monitor`, `MultiArray` or `ClassLiteral`.
pub fn kind_by_itself(
    alloc: Global,
    pool: &Pool,
    i: &Instr,
) -> Result<Option<&'static [u8]>, NoMemory>
    ensures { IfOk result (λ o. option_copied o ≡ first_kind (first_kinds pool.now i.now)) }
{
    if is_float(alloc, pool, i)? {
        Ok(Some(b"Float"))
    } else if is_subroutine(i) {
        Ok(Some(b"JsrRet"))
    } else if matches!(i.op, opcodes::MONITORENTER..=opcodes::MONITOREXIT) {
        Ok(Some(b"Monitor"))
    } else if i.op == opcodes::MULTIANEWARRAY {
        Ok(Some(b"MultiArray"))
    } else if is_class_literal(pool, i) {
        Ok(Some(b"ClassLiteral"))
    } else {
        Ok(None)
    }
}
