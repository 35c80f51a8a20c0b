//! What instructions mean that name nothing: those without operands, and those with numbers and locals (JVM Specification, Java SE 7, section 6.5).
ghost use Rattle.std.specs.Prelude.{◌≡◌};
ghost use Rattle.objects.specs.linking.Decoding.{constant_op as constant, short_local_op as short_local, element_type as type_of_element, element_op as element, stack_op as stack, arithmetic_of as arithmetic, arithmetic_op as arithmetic_by_opcode, conversion_op as conversion, leaving_op as leaving, simple_op as simple, local_op as local, wide_op as wide, test_of as test, jump_to as jump_to_number};

use bytecode::opcodes;
use jmodel::value::Value;
use objects::op::{
    Binary, Conversion, Division, Op, Shift, Sort, StackOp, Test, Unary, Width, WordType,
};

// Null, and constants of an int or a long.
fn constant_op(opcode: u8) -> Option<Op>
    ensures { result ≡ constant opcode }
{
    match opcode {
        opcodes::ACONST_NULL => Some(Op::Constant(Value::Ref(0))),
        opcodes::ICONST_M1..=opcodes::ICONST_5 => Some(Op::Constant(Value::Int(
            opcode as i32 - opcodes::ICONST_0 as i32,
        ))),
        opcodes::LCONST_0..=opcodes::LCONST_1 => Some(Op::Constant(Value::Long(
            (opcode - opcodes::LCONST_0) as i64,
        ))),
        _ => None,
    }
}

// Loads and stores of the first four locals.
fn short_local_op(opcode: u8) -> Option<Op>
    ensures { result ≡ short_local opcode }
{
    let n = opcode as usize;
    match opcode {
        opcodes::ILOAD_0..=opcodes::ILOAD_3 => Some(Op::Load(Sort::Int, n - 26)),
        opcodes::LLOAD_0..=opcodes::LLOAD_3 => Some(Op::Load(Sort::Long, n - 30)),
        opcodes::ALOAD_0..=opcodes::ALOAD_3 => Some(Op::Load(Sort::Reference, n - 42)),
        opcodes::ISTORE_0..=opcodes::ISTORE_3 => Some(Op::Store(Sort::Int, n - 59)),
        opcodes::LSTORE_0..=opcodes::LSTORE_3 => Some(Op::Store(Sort::Long, n - 63)),
        opcodes::ASTORE_0..=opcodes::ASTORE_3 => Some(Op::Store(Sort::Reference, n - 75)),
        _ => None,
    }
}

// The type of an element that the first of these opcodes and the next seven load or store.
fn element_type(n: u8) -> Option<WordType>
    ensures { result ≡ type_of_element n }
{
    match n {
        0 => Some(WordType::Int),
        1 => Some(WordType::Long),
        4 => Some(WordType::Reference),
        5 => Some(WordType::Byte),
        6 => Some(WordType::Char),
        7 => Some(WordType::Short),
        _ => None,
    }
}

fn element_op(opcode: u8) -> Option<Op>
    ensures { result ≡ element opcode }
{
    match opcode {
        opcodes::IALOAD..=opcodes::SALOAD => {
            Some(Op::LoadElement(element_type(opcode - opcodes::IALOAD)?))
        }
        opcodes::IASTORE..=opcodes::SASTORE => {
            Some(Op::StoreElement(element_type(opcode - opcodes::IASTORE)?))
        }
        _ => None,
    }
}

fn stack_op(opcode: u8) -> Option<Op>
    ensures { result ≡ stack opcode }
{
    match opcode {
        opcodes::NOP => Some(Op::Stack(StackOp::Nop)),
        opcodes::POP => Some(Op::Stack(StackOp::Pop)),
        opcodes::POP2 => Some(Op::Stack(StackOp::Pop2)),
        opcodes::DUP => Some(Op::Stack(StackOp::Dup)),
        opcodes::DUP_X1 => Some(Op::Stack(StackOp::DupX1)),
        opcodes::DUP_X2 => Some(Op::Stack(StackOp::DupX2)),
        opcodes::DUP2 => Some(Op::Stack(StackOp::Dup2)),
        opcodes::DUP2_X1 => Some(Op::Stack(StackOp::Dup2X1)),
        opcodes::DUP2_X2 => Some(Op::Stack(StackOp::Dup2X2)),
        opcodes::SWAP => Some(Op::Stack(StackOp::Swap)),
        _ => None,
    }
}

// Arithmetic of a width, by the opcode for ints.
fn arithmetic_of(width: Width, opcode: u8) -> Option<Op>
    ensures { result ≡ arithmetic width opcode }
{
    match opcode {
        opcodes::IADD => Some(Op::Binary(width, Binary::Add)),
        opcodes::ISUB => Some(Op::Binary(width, Binary::Subtract)),
        opcodes::IMUL => Some(Op::Binary(width, Binary::Multiply)),
        opcodes::IDIV => Some(Op::Divide(width, Division::Quotient)),
        opcodes::IREM => Some(Op::Divide(width, Division::Remainder)),
        opcodes::INEG => Some(Op::Unary(width, Unary::Negate)),
        opcodes::ISHL => Some(Op::Shift(width, Shift::Left)),
        opcodes::ISHR => Some(Op::Shift(width, Shift::Right)),
        opcodes::IUSHR => Some(Op::Shift(width, Shift::UnsignedRight)),
        opcodes::IAND => Some(Op::Binary(width, Binary::And)),
        opcodes::IOR => Some(Op::Binary(width, Binary::Or)),
        opcodes::IXOR => Some(Op::Binary(width, Binary::Xor)),
        _ => None,
    }
}

// The opcode for longs follows that for ints.
fn arithmetic_op(opcode: u8) -> Option<Op>
    ensures { result ≡ arithmetic_by_opcode opcode }
{
    match arithmetic_of(Width::Int, opcode) {
        Some(op) => Some(op),
        None => arithmetic_of(Width::Long, opcode.saturating_sub(1)),
    }
}

fn conversion_op(opcode: u8) -> Option<Op>
    ensures { result ≡ conversion opcode }
{
    match opcode {
        opcodes::I2L => Some(Op::Convert(Conversion::IntToLong)),
        opcodes::L2I => Some(Op::Convert(Conversion::LongToInt)),
        opcodes::I2B => Some(Op::Convert(Conversion::IntToByte)),
        opcodes::I2C => Some(Op::Convert(Conversion::IntToChar)),
        opcodes::I2S => Some(Op::Convert(Conversion::IntToShort)),
        opcodes::LCMP => Some(Op::CompareLongs),
        _ => None,
    }
}

// What leaves the method.
fn leaving_op(opcode: u8) -> Option<Op>
    ensures { result ≡ leaving opcode }
{
    match opcode {
        opcodes::IRETURN => Some(Op::ReturnValue(Sort::Int)),
        opcodes::LRETURN => Some(Op::ReturnValue(Sort::Long)),
        opcodes::ARETURN => Some(Op::ReturnValue(Sort::Reference)),
        opcodes::RETURN => Some(Op::Return),
        opcodes::ATHROW => Some(Op::Throw),
        _ => None,
    }
}

/// What an instruction without operands means.
pub fn simple_op(opcode: u8) -> Option<Op>
    ensures { result ≡ simple opcode }
{
    if opcode == opcodes::ARRAYLENGTH {
        return Some(Op::ArrayLength);
    }
    if let Some(op) = constant_op(opcode) {
        return Some(op);
    }
    if let Some(op) = short_local_op(opcode) {
        return Some(op);
    }
    if let Some(op) = element_op(opcode) {
        return Some(op);
    }
    if let Some(op) = stack_op(opcode) {
        return Some(op);
    }
    if let Some(op) = arithmetic_op(opcode) {
        return Some(op);
    }
    if let Some(op) = conversion_op(opcode) {
        return Some(op);
    }
    leaving_op(opcode)
}

/// What a load or a store of a local means.
pub fn local_op(opcode: u8, n: u16) -> Option<Op>
    ensures { result ≡ local opcode n }
{
    let n = n as usize;
    match opcode {
        opcodes::ILOAD => Some(Op::Load(Sort::Int, n)),
        opcodes::LLOAD => Some(Op::Load(Sort::Long, n)),
        opcodes::ALOAD => Some(Op::Load(Sort::Reference, n)),
        opcodes::ISTORE => Some(Op::Store(Sort::Int, n)),
        opcodes::LSTORE => Some(Op::Store(Sort::Long, n)),
        opcodes::ASTORE => Some(Op::Store(Sort::Reference, n)),
        _ => None,
    }
}

/// What the instruction behind wide means.
pub fn wide_op(opcode: u8, n: u16, add: i16) -> Option<Op>
    ensures { result ≡ wide opcode n add }
{
    match opcode {
        opcodes::IINC => Some(Op::Increment(n as usize, add as i32)),
        _ => local_op(opcode, n),
    }
}

// The test of an opcode, by its distance from the first of six.
fn test_of(distance: u8) -> Option<Test>
    ensures { result ≡ test distance }
{
    match distance {
        0 => Some(Test::Equal),
        1 => Some(Test::NotEqual),
        2 => Some(Test::Less),
        3 => Some(Test::GreaterOrEqual),
        4 => Some(Test::Greater),
        5 => Some(Test::LessOrEqual),
        _ => None,
    }
}

/// What a jump to the instruction of a number means.
pub fn jump_to(opcode: u8, to: usize) -> Option<Op>
    ensures { result ≡ jump_to_number opcode to }
{
    match opcode {
        opcodes::IFEQ..=opcodes::IFLE => Some(Op::Branch(test_of(opcode - opcodes::IFEQ)?, to)),
        opcodes::IF_ICMPEQ..=opcodes::IF_ICMPLE => {
            Some(Op::BranchInts(test_of(opcode - opcodes::IF_ICMPEQ)?, to))
        }
        opcodes::IF_ACMPEQ => Some(Op::BranchReferences(true, to)),
        opcodes::IF_ACMPNE => Some(Op::BranchReferences(false, to)),
        opcodes::GOTO | opcodes::GOTO_W => Some(Op::Goto(to)),
        opcodes::IFNULL => Some(Op::BranchNull(true, to)),
        opcodes::IFNONNULL => Some(Op::BranchNull(false, to)),
        _ => None,
    }
}
