//! Constants that instructions push, and arrays by the numbers of their types (JVM Specification, Java SE 7, section 6.5: bipush, sipush,
//! newarray, ldc, ldc_w, ldc2_w).
ghost use Rattle.std.specs.Prelude.{◌≡◌, option_copied, option_and_then};
ghost use Rattle.jmodel.specs.format.Pool.{entry, string as text_of};
ghost use Rattle.objects.specs.linking.Decoding.{primitive_array as array_of_number, new_array as makes_array, number_op as number, pushed_op as pushed, text_op as pushed_text, ldc_op as constant};

use crate::symbols::Symbols;
use bytecode::opcodes;
use const_pool::{Constant, Pool};
use hierarchy::constants::integer;
use jmodel::value::Value;
use objects::op::Op;

// The array type that newarray makes by its number.
fn primitive_array(n: i32) -> Option<&'static [u8]>
    ensures { option_copied result ≡ array_of_number n }
{
    match n {
        4 => Some(b"[Z"),
        5 => Some(b"[C"),
        8 => Some(b"[B"),
        9 => Some(b"[S"),
        10 => Some(b"[I"),
        11 => Some(b"[J"),
        _ => None,
    }
}

fn new_array<'a>(symbols: &Symbols<'_, 'a>, name: &'a [u8]) -> Option<Op>
    ensures { result ≡ makes_array symbols.now name.now }
{
    Some(Op::NewArray(symbols.type_number(name)?))
}

/// What bipush, sipush or newarray means.
pub fn number_op(symbols: &Symbols, opcode: u8, n: i32) -> Option<Op>
    ensures { result ≡ number symbols.now opcode n }
{
    match opcode {
        opcodes::BIPUSH | opcodes::SIPUSH => Some(Op::Constant(Value::Int(n))),
        opcodes::NEWARRAY => new_array(symbols, primitive_array(n)?),
        _ => None,
    }
}

// The text of a String.
fn string(pool: &Pool, i: u16) -> Option<&[u8]>
    ensures { option_copied result ≡ text_of pool.now i }
{
    match pool.entry(i) {
        Some(Constant::Text(text)) => Some(pool.utf8(*text)?.as_slice()),
        _ => None,
    }
}

// A string constant.
fn text_op<'a>(symbols: &Symbols<'_, 'a>, text: &'a [u8]) -> Option<Op>
    ensures { result ≡ pushed_text symbols.now text.now }
{
    Some(Op::Text(symbols.text_number(text)?))
}

// The int or the long of an entry.
fn pushed_op(symbols: &Symbols, i: u16) -> Option<Op>
    ensures { result ≡ option_and_then (pushed symbols.now) (entry symbols.now.class.pool i) }
{
    let class = symbols.class;
    let pool = &class.pool;
    match pool.entry(i) {
        Some(Constant::Integer(_)) => Some(Op::Constant(Value::Int(integer(pool, i)?))),
        Some(Constant::Long(n)) => Some(Op::Constant(Value::Long(*n))),
        _ => None,
    }
}

/// What ldc, ldc_w or ldc2_w means.
pub fn ldc_op(symbols: &Symbols, i: u16) -> Option<Op>
    ensures { result ≡ constant symbols.now i }
{
    let class = symbols.class;
    if let Some(text) = string(&class.pool, i) {
        if let Some(op) = text_op(symbols, text) {
            return Some(op);
        }
    }
    pushed_op(symbols, i)
}
