//! Values and the words that stand for them.
ghost use Rattle.std.specs.Prelude.{◌≡◌};
ghost use Rattle.objects.specs.semantics.WordTypes.{narrowed as narrowed_of};
ghost use Rattle.objects.specs.semantics.Value.{kept_by as kept, word_of as word, value_of as value_in};

use jmodel::value::Value;
use objects::op::WordType;

/// What a word of a type keeps of an int: its low 1, 8 or 16 bits, with their sign where the type has one.
pub fn narrowed(word_type: WordType, x: i32) -> i32
    ensures { result ≡ narrowed_of word_type x }
{
    match word_type {
        WordType::Boolean => (x.cast_unsigned() % 2).cast_signed(),
        WordType::Byte => i32::from(((x.cast_unsigned() % (1 << 8)) as u8).cast_signed()),
        WordType::Char => (x.cast_unsigned() % (1 << 16)).cast_signed(),
        WordType::Short => i32::from(((x.cast_unsigned() % (1 << 16)) as u16).cast_signed()),
        WordType::Int | WordType::Long | WordType::Reference => x,
    }
}

/// What a word of a type keeps of a value: of an int the bits that the type has.
pub fn kept_by(word_type: WordType, value: Value) -> Value
    ensures { result ≡ kept word_type value }
{
    match value {
        Value::Int(x) => Value::Int(narrowed(word_type, x)),
        Value::Long(_) | Value::Ref(_) => value,
    }
}

/// The word of a value, an int with its sign in all 64 bits.
pub fn word_of(value: Value) -> u64
    ensures { result ≡ word value }
{
    match value {
        Value::Int(x) => i64::from(x).cast_unsigned(),
        Value::Long(x) => x.cast_unsigned(),
        Value::Ref(object) => object,
    }
}

/// The value that a word stands for at a place of this type.
pub fn value_of(word_type: WordType, word: u64) -> Value
    ensures { result ≡ value_in word_type word }
{
    match word_type {
        WordType::Reference => Value::Ref(word),
        WordType::Long => Value::Long(word.cast_signed()),
        WordType::Boolean | WordType::Byte | WordType::Char | WordType::Short | WordType::Int => {
            let low = ((word % (1 << 32)) as u32).cast_signed();
            Value::Int(narrowed(word_type, low))
        }
    }
}
