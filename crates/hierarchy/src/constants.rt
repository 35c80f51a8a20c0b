//! The numbers that entries of a pool hold, and the constants of fields (JVM Specification, Java SE 7, sections 4.4.4,
//! 4.4.5 and 4.7.2).
ghost use Rattle.std.specs.Prelude.{◌≡◌, option_copied, option_and_then};
ghost use Rattle.jmodel.specs.format.Constants.{integer_in, integer as integer_of, named_entry as entry_named, constant_of as constant_of_field, long_value as long_of, int_value as int_of, pair_number as number_of};

use crate::symbols::find_attribute;
use const_pool::{Constant, Member, Pool};

/// The number that two bytes make, the highest first.
pub fn pair_number(high: u8, low: u8) -> u16
    ensures { result ≡ number_of high low }
{
    high as u16 * 256 + low as u16
}

// The int of an entry.
#[tactic(auto, using(objects::proofs::Narrow::narrow))]
fn int_in(entry: Option<&Constant>) -> Option<i32>
    ensures { result ≡ option_and_then integer_in (option_copied entry.entry) }
{
    match entry {
        Some(Constant::Integer(n)) => Some(*n),
        _ => None,
    }
}

/// The int of an index of the pool.
pub fn integer(pool: &Pool, i: u16) -> Option<i32>
    ensures { result ≡ integer_of pool.now i }
{
    int_in(pool.entry(i))
}

// The entry that an attribute of two bytes names.
fn named_entry<'a>(pool: &'a Pool, bytes: &[u8]) -> Option<&'a Constant>
    ensures { option_copied result ≡ entry_named pool.now bytes.now }
{
    match bytes {
        [a, b] => pool.entry(pair_number(*a, *b)),
        _ => None,
    }
}

// The entry that the first ConstantValue of a field names.
fn constant_of<'a>(pool: &'a Pool, field: &Member) -> Option<&'a Constant>
    ensures { option_copied result ≡ constant_of_field pool.now field.now }
{
    let found = find_attribute(pool, b"ConstantValue", field.attributes.as_slice())?;
    named_entry(pool, found.bytes.as_slice())
}

/// The constant of a long field, None where it has none of this type.
pub fn long_value(pool: &Pool, field: &Member) -> Option<i64>
    ensures { result ≡ long_of pool.now field.now }
{
    match constant_of(pool, field) {
        Some(Constant::Long(n)) => Some(*n),
        _ => None,
    }
}

/// The constant of an int field, None where it has none of this type.
pub fn int_value(pool: &Pool, field: &Member) -> Option<i32>
    ensures { result ≡ int_of pool.now field.now }
{
    int_in(constant_of(pool, field))
}
