//! Instructions that name classes (JVM Specification, Java SE 7, section 6.5: new, anewarray, checkcast, instanceof).
ghost use Rattle.std.specs.Prelude.{◌≡◌, option_and_then, IfOk};
ghost use Rattle.jmodel.specs.format.Pool.{class_name};
ghost use Rattle.objects.specs.linking.Decoding.{class_op as of_class};

use crate::symbols::Symbols;
use bytecode::opcodes;
use jmodel::Bytes;
use objects::op::Op;
use std::alloc::{AllocError, Global};

// new, anewarray, checkcast and instanceof.
fn class_op<'a>(
    alloc: Global,
    symbols: &Symbols<'_, 'a>,
    opcode: u8,
    name: &'a [u8],
) -> Result<Option<Op>, AllocError>
    ensures { IfOk result (λ o. o ≡ of_class symbols.now opcode name.now) }
{
    match opcode {
        opcodes::NEW => match symbols.type_number(name) {
            Some(number) => Ok(Some(Op::New(number))),
            None => Ok(None),
        },
        opcodes::ANEWARRAY => match symbols.array_number(name) {
            Some(number) => Ok(Some(Op::NewArray(number))),
            None => Ok(None),
        },
        opcodes::CHECKCAST => Ok(Some(Op::CheckCast(Bytes::from_slice(alloc, name)?))),
        opcodes::INSTANCEOF => Ok(Some(Op::InstanceOf(Bytes::from_slice(alloc, name)?))),
        _ => Ok(None),
    }
}

/// What an instruction means that names the class of an index of the pool.
pub fn class_at(
    alloc: Global,
    symbols: &Symbols,
    opcode: u8,
    i: u16,
) -> Result<Option<Op>, AllocError>
    ensures { IfOk result (λ o. o ≡ option_and_then (of_class symbols.now opcode) (class_name symbols.now.class.pool i)) }
{
    let class = symbols.class;
    let pool = &class.pool;
    match pool.class_name(i) {
        Some(name) => class_op(alloc, symbols, opcode, name.as_slice()),
        None => Ok(None),
    }
}
