//! The arithmetic of ints and longs (JVM Specification, Java SE 7, chapter 6).
ghost use Rattle.std.specs.Prelude.{◌≡◌, ◌≢◌, pos, ◌%◌, ◌^◌};
ghost use Rattle.std.specs.Int.{w32, cast_signed, cast_unsigned, w64};
ghost use Rattle.objects.specs.declared.op.Width.TheVariants as width;
ghost use Rattle.objects.specs.semantics.Step.{binary, shifted, shift_distance, divided, unary, holds as test_holds, compared};

use objects::op::{Binary, Division, Shift, Test, Unary};

/// Two ints to one. Sums and products wrap around.
#[inline(always)]
pub fn binary_ints(operation: Binary, x: i32, y: i32) -> i32
    ensures { result ≡ binary width.Int operation x y }
{
    match operation {
        Binary::Add => x.wrapping_add(y),
        Binary::Subtract => x.wrapping_sub(y),
        Binary::Multiply => x.wrapping_mul(y),
        Binary::And => x & y,
        Binary::Or => x | y,
        Binary::Xor => x ^ y,
        Binary::Minimum => { if x <= y { x } else { y } }
        Binary::Maximum => { if x <= y { y } else { x } }
    }
}

/// Two longs to one. Sums and products wrap around.
pub fn binary_longs(operation: Binary, x: i64, y: i64) -> i64
    ensures { result ≡ binary width.Long operation x y }
{
    match operation {
        Binary::Add => x.wrapping_add(y),
        Binary::Subtract => x.wrapping_sub(y),
        Binary::Multiply => x.wrapping_mul(y),
        Binary::And => x & y,
        Binary::Or => x | y,
        Binary::Xor => x ^ y,
        Binary::Minimum => { if x <= y { x } else { y } }
        Binary::Maximum => { if x <= y { y } else { x } }
    }
}

/// An int shifted by the low five bits of another.
pub fn shifted_int(shift: Shift, x: i32, y: i32) -> i32
    ensures { result ≡ shifted width.Int shift x (shift_distance width.Int y) }
{
    match shift {
        Shift::Left => x.wrapping_shl(y.cast_unsigned()),
        Shift::Right => x.wrapping_shr(y.cast_unsigned()),
        Shift::UnsignedRight => (x.cast_unsigned() >> (y.cast_unsigned() % 32)).cast_signed(),
    }
}

/// A long shifted by the low six bits of an int.
pub fn shifted_long(shift: Shift, x: i64, y: i32) -> i64
    ensures { result ≡ shifted width.Long shift x (shift_distance width.Long y) }
{
    match shift {
        Shift::Left => x.wrapping_shl(y.cast_unsigned()),
        Shift::Right => x.wrapping_shr(y.cast_unsigned()),
        Shift::UnsignedRight => (x.cast_unsigned() >> (y.cast_unsigned() % 64)).cast_signed(),
    }
}

/// Two ints to one, the second of which isn't 0. The quotient of the least int by -1 wraps around.
#[inline(always)]
pub fn divided_ints(operation: Division, x: i32, y: i32) -> i32
    requires { y ≢ pos 0 }
    ensures { result ≡ divided width.Int operation x y }
{
    match operation {
        Division::Quotient => x.wrapping_div(y),
        Division::Remainder => x.wrapping_rem(y),
    }
}

/// Two longs to one, the second of which isn't 0. The quotient of the least long by -1 wraps around.
pub fn divided_longs(operation: Division, x: i64, y: i64) -> i64
    requires { y ≢ pos 0 }
    ensures { result ≡ divided width.Long operation x y }
{
    match operation {
        Division::Quotient => x.wrapping_div(y),
        Division::Remainder => x.wrapping_rem(y),
    }
}

/// An int to its negative or its absolute value, both of which wrap around.
pub fn unary_int(operation: Unary, x: i32) -> i32
    ensures { result ≡ unary width.Int operation x }
{
    match operation {
        Unary::Negate => x.wrapping_neg(),
        Unary::Absolute => { if x < 0 { x.wrapping_neg() } else { x } }
    }
}

/// A long to its negative or its absolute value, both of which wrap around.
pub fn unary_long(operation: Unary, x: i64) -> i64
    ensures { result ≡ unary width.Long operation x }
{
    match operation {
        Unary::Negate => x.wrapping_neg(),
        Unary::Absolute => { if x < 0 { x.wrapping_neg() } else { x } }
    }
}

/// The low 32 bits of a long.
pub fn low_int(x: i64) -> i32
    ensures { result ≡ cast_signed w32 (cast_unsigned w64 x % 2 ^ 32) }
{
    ((x.cast_unsigned() % (1 << 32)) as u32).cast_signed()
}

/// Two longs to -1, 0 or 1.
pub fn compared_longs(x: i64, y: i64) -> i32
    ensures { result ≡ compared x y }
{
    if x < y {
        -1
    } else if y < x {
        1
    } else {
        0
    }
}

/// How two ints may lie to each other, each a bit.
const LESS: u8 = 1;

const EQUAL: u8 = 2;

const GREATER: u8 = 4;

/// Whether a test holds of two ints, with their signs.
#[inline(always)]
pub fn holds(test: Test, x: i32, y: i32) -> bool
    ensures { result ≡ test_holds test x y }
{
    let order: u8 = if x < y {
        LESS
    } else if x == y {
        EQUAL
    } else {
        GREATER
    };
    let wanted: u8 = match test {
        Test::Equal => EQUAL,
        Test::NotEqual => LESS | GREATER,
        Test::Less => LESS,
        Test::GreaterOrEqual => EQUAL | GREATER,
        Test::Greater => GREATER,
        Test::LessOrEqual => LESS | EQUAL,
    };
    wanted & order != 0
}
