//! The types of fields, by their descriptors (JVM Specification, Java SE 7, section 4.3.2).
ghost use Rattle.std.specs.Prelude.{◌≡◌, IfOk};
ghost use Rattle.jmodel.specs.format.DescriptorReading.{base, type_of as type_in};
ghost use Rattle.objects.specs.linking.Layout.{field_type as type_of_field, word_kind as kind_of_word};
ghost use Rattle.objects.specs.linking.Constructs.{is_floating as floating};

use const_pool::{FieldType, Member, Pool, is_array_name};
use hierarchy::symbols::text;
use jmodel::Bytes;
use objects::op::WordType;
use std::alloc::{AllocError, Global};

// The type that a letter stands for.
fn letter_type(letter: u8) -> Option<FieldType>
    ensures { result ≡ base letter }
{
    match letter {
        b'B' => Some(FieldType::Byte),
        b'C' => Some(FieldType::Char),
        b'D' => Some(FieldType::Double),
        b'F' => Some(FieldType::Float),
        b'I' => Some(FieldType::Int),
        b'J' => Some(FieldType::Long),
        b'S' => Some(FieldType::Short),
        b'Z' => Some(FieldType::Boolean),
        _ => None,
    }
}

/// The type that a whole descriptor says: what is no letter is a class between L and a semicolon, or an array.
#[tactic(auto, unfolding(jmodel::specs::format::DescriptorReading::type_of))]
pub fn type_of(alloc: Global, descriptor: &[u8]) -> Result<FieldType, AllocError>
    ensures { IfOk result (λ t. t ≡ type_in descriptor.now) }
{
    match descriptor {
        [] => Ok(FieldType::Reference(Bytes::new(alloc))),
        [letter, rest @ ..] => {
            if let Some(t) = letter_type(*letter) {
                return Ok(t);
            }
            if is_array_name(descriptor) {
                return Ok(FieldType::Reference(Bytes::from_slice(alloc, descriptor)?));
            }
            let name = &rest[..rest.len().saturating_sub(1)];
            Ok(FieldType::Reference(Bytes::from_slice(alloc, name)?))
        }
    }
}

/// The type of a field of a class with this pool.
pub fn field_type(alloc: Global, pool: &Pool, field: &Member) -> Result<FieldType, AllocError>
    ensures { IfOk result (λ t. t ≡ type_of_field pool.now field.now) }
{
    type_of(alloc, text(pool, field.descriptor))
}

/// Whether it is float or double.
pub fn is_floating(t: &FieldType) -> bool
    ensures { result ≡ floating t.now }
{
    matches!(t, FieldType::Float | FieldType::Double)
}

/// The type of the word of a field. No code that is rewritten touches a float or a double, whose word is an int's.
pub fn word_kind(t: &FieldType) -> WordType
    ensures { result ≡ kind_of_word t.now }
{
    match t {
        FieldType::Boolean => WordType::Boolean,
        FieldType::Byte => WordType::Byte,
        FieldType::Char => WordType::Char,
        FieldType::Short => WordType::Short,
        FieldType::Int | FieldType::Float | FieldType::Double => WordType::Int,
        FieldType::Long => WordType::Long,
        FieldType::Reference(_) => WordType::Reference,
    }
}
