//! The names of the helper's methods.
ghost use Rattle.std.specs.Prelude.{◌≡◌, IfOk};
ghost use Rattle.objects.specs.rewriting.Rewriting.{helper_letter as letter_of, helper_class as name_of_helper};
ghost use Rattle.objects.specs.semantics.WordTypes.{type_descriptor as type_of};
ghost use Rattle.array_helper.specs.Names.{load_named as named_load, store_named as named_store};

use jmodel::{Bytes, MethodName};
use objects::op::WordType;
use std::alloc::{AllocError, Global};

/// The name of the helper's class.
pub fn helper_name() -> &'static [u8]
    ensures { result.now ≡ name_of_helper }
{
    b"org/deuce/transaction/ArrayHelper"
}

// The letter of an element's type in the names of methods.
fn letter(word: WordType) -> &'static [u8]
    ensures { result.now ≡ letter_of word }
{
    match word {
        WordType::Byte => b"b",
        WordType::Char => b"c",
        WordType::Boolean => b"z",
        WordType::Short => b"s",
        WordType::Int => b"i",
        WordType::Long => b"l",
        WordType::Reference => b"a",
    }
}

// The descriptor of an element's type.
fn descriptor(word: WordType) -> &'static [u8]
    ensures { result.now ≡ type_of word }
{
    match word {
        WordType::Byte => b"B",
        WordType::Char => b"C",
        WordType::Boolean => b"Z",
        WordType::Short => b"S",
        WordType::Int => b"I",
        WordType::Long => b"J",
        WordType::Reference => b"Ljava/lang/Object;",
    }
}

/// The name and the descriptor of the method that reads an element of this type: `kaload([E I X)E`, with the type's letter as k.
pub fn load_named(alloc: Global, word: WordType) -> Result<MethodName, AllocError>
    ensures { IfOk result (λ n. n ≡ named_load word) }
{
    let mut name = Bytes::from_slice(alloc, letter(word))?;
    name.extend_from_slice(b"aload")?;
    let mut text = Bytes::from_slice(alloc, b"([")?;
    text.extend_from_slice(descriptor(word))?;
    text.extend_from_slice(b"ILorg/deuce/transaction/Context;)")?;
    text.extend_from_slice(descriptor(word))?;
    Ok(MethodName {
        class: Bytes::from_slice(alloc, helper_name())?,
        name,
        descriptor: text,
    })
}

/// The same of the method that writes one: `kastore([E I E X)V`.
pub fn store_named(alloc: Global, word: WordType) -> Result<MethodName, AllocError>
    ensures { IfOk result (λ n. n ≡ named_store word) }
{
    let mut name = Bytes::from_slice(alloc, letter(word))?;
    name.extend_from_slice(b"astore")?;
    let mut text = Bytes::from_slice(alloc, b"([")?;
    text.extend_from_slice(descriptor(word))?;
    text.extend_from_slice(b"I")?;
    text.extend_from_slice(descriptor(word))?;
    text.extend_from_slice(b"Lorg/deuce/transaction/Context;)V")?;
    Ok(MethodName {
        class: Bytes::from_slice(alloc, helper_name())?,
        name,
        descriptor: text,
    })
}
