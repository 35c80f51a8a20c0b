//! Names of the methods that are added.
ghost use Rattle.std.specs.Prelude.{◌≡◌, ◌++◌, codes, IfOk};
ghost use Rattle.objects.specs.rewriting.Rewriting.{context_type, helper_class, helper_letter as letter_of, array_type};
ghost use Rattle.objects.specs.semantics.WordTypes.{type_descriptor as type_of};

use hierarchy::Field;
use jmodel::{Bytes, MethodName};
use member_code::bytes::joined;
use objects::op::WordType;
use std::alloc::{AllocError, Global};

const CONTEXT: &[u8] = b"Lorg/deuce/transaction/Context;";

fn static_getter_type(alloc: Global, field: &Field) -> Result<Bytes, AllocError>
    ensures { IfOk result (λ t. t ≡ codes "(" ++ context_type ++ codes ")" ++ field.now.descriptor) }
{
    let mut text = Bytes::from_slice(alloc, b"(")?;
    text.extend_from_slice(CONTEXT)?;
    text.extend_from_slice(b")")?;
    text.extend_from_slice(field.descriptor.as_slice())?;
    Ok(text)
}

fn static_setter_type(alloc: Global, field: &Field) -> Result<Bytes, AllocError>
    ensures { IfOk result (λ t. t ≡ codes "(" ++ field.now.descriptor ++ context_type ++ codes ")V") }
{
    let mut text = Bytes::from_slice(alloc, b"(")?;
    text.extend_from_slice(field.descriptor.as_slice())?;
    text.extend_from_slice(CONTEXT)?;
    text.extend_from_slice(b")V")?;
    Ok(text)
}

fn field_getter_type(alloc: Global, field: &Field) -> Result<Bytes, AllocError>
    ensures { IfOk result (λ t. t ≡ codes "(L" ++ field.now.class ++ codes ";" ++ context_type ++ codes ")" ++ field.now.descriptor) }
{
    let mut text = Bytes::from_slice(alloc, b"(L")?;
    text.extend_from_slice(field.class.as_slice())?;
    text.extend_from_slice(b";")?;
    text.extend_from_slice(CONTEXT)?;
    text.extend_from_slice(b")")?;
    text.extend_from_slice(field.descriptor.as_slice())?;
    Ok(text)
}

fn field_setter_type(alloc: Global, field: &Field) -> Result<Bytes, AllocError>
    ensures { IfOk result (λ t. t ≡ codes "(L" ++ field.now.class ++ codes ";" ++ field.now.descriptor ++ context_type ++ codes ")V") }
{
    let mut text = Bytes::from_slice(alloc, b"(L")?;
    text.extend_from_slice(field.class.as_slice())?;
    text.extend_from_slice(b";")?;
    text.extend_from_slice(field.descriptor.as_slice())?;
    text.extend_from_slice(CONTEXT)?;
    text.extend_from_slice(b")V")?;
    Ok(text)
}

// `f__Getter$`, in the field's class.
fn getter_named(alloc: Global, field: &Field, descriptor: Bytes) -> Result<MethodName, AllocError>
    ensures { IfOk result (λ n. n ≡ record { class = field.now.class; name = field.now.name ++ codes "__Getter$"; descriptor = descriptor }) }
{
    Ok(MethodName {
        class: field.class.copy(alloc)?,
        name: joined(alloc, field.name.as_slice(), b"__Getter$")?,
        descriptor,
    })
}

// `f__Setter$`, in the field's class.
fn setter_named(alloc: Global, field: &Field, descriptor: Bytes) -> Result<MethodName, AllocError>
    ensures { IfOk result (λ n. n ≡ record { class = field.now.class; name = field.now.name ++ codes "__Setter$"; descriptor = descriptor }) }
{
    Ok(MethodName {
        class: field.class.copy(alloc)?,
        name: joined(alloc, field.name.as_slice(), b"__Setter$")?,
        descriptor,
    })
}

/// The name and the descriptor of the getter of a static field.
pub(crate) fn static_getter_named(alloc: Global, field: &Field) -> Result<MethodName, AllocError>
    ensures { IfOk result (λ n. n ≡ record { class = field.now.class; name = field.now.name ++ codes "__Getter$"; descriptor = codes "(" ++ context_type ++ codes ")" ++ field.now.descriptor }) }
{
    getter_named(alloc, field, static_getter_type(alloc, field)?)
}

/// The same of its setter.
pub(crate) fn static_setter_named(alloc: Global, field: &Field) -> Result<MethodName, AllocError>
    ensures { IfOk result (λ n. n ≡ record { class = field.now.class; name = field.now.name ++ codes "__Setter$"; descriptor = codes "(" ++ field.now.descriptor ++ context_type ++ codes ")V" }) }
{
    setter_named(alloc, field, static_setter_type(alloc, field)?)
}

/// The name and the descriptor of the getter of a field of objects.
pub(crate) fn field_getter_named(alloc: Global, field: &Field) -> Result<MethodName, AllocError>
    ensures { IfOk result (λ n. n ≡ record { class = field.now.class; name = field.now.name ++ codes "__Getter$"; descriptor = codes "(L" ++ field.now.class ++ codes ";" ++ context_type ++ codes ")" ++ field.now.descriptor }) }
{
    getter_named(alloc, field, field_getter_type(alloc, field)?)
}

/// The same of its setter.
pub(crate) fn field_setter_named(alloc: Global, field: &Field) -> Result<MethodName, AllocError>
    ensures { IfOk result (λ n. n ≡ record { class = field.now.class; name = field.now.name ++ codes "__Setter$"; descriptor = codes "(L" ++ field.now.class ++ codes ";" ++ field.now.descriptor ++ context_type ++ codes ")V" }) }
{
    setter_named(alloc, field, field_setter_type(alloc, field)?)
}

fn letter(word: WordType) -> &'static [u8]
    ensures { result.now ≡ letter_of word }
{
    match word {
        WordType::Byte => b"b",
        WordType::Boolean => b"z",
        WordType::Char => b"c",
        WordType::Short => b"s",
        WordType::Int => b"i",
        WordType::Long => b"l",
        WordType::Reference => b"a",
    }
}

fn descriptor(word: WordType) -> &'static [u8]
    ensures { result.now ≡ type_of word }
{
    match word {
        WordType::Byte => b"B",
        WordType::Boolean => b"Z",
        WordType::Char => b"C",
        WordType::Short => b"S",
        WordType::Int => b"I",
        WordType::Long => b"J",
        WordType::Reference => b"Ljava/lang/Object;",
    }
}

/// The descriptor of the arrays of elements of a type; of a reference that of Object's.
pub(crate) fn array_of(alloc: Global, word: WordType) -> Result<Bytes, AllocError>
    ensures { IfOk result (λ t. t ≡ array_type word) }
{
    joined(alloc, b"[", descriptor(word))
}

fn load_type(alloc: Global, word: WordType) -> Result<Bytes, AllocError>
    ensures { IfOk result (λ t. t ≡ codes "(" ++ array_type word ++ codes "I" ++ context_type ++ codes ")" ++ type_of word) }
{
    let mut text = Bytes::from_slice(alloc, b"(")?;
    text.extend_from_slice(array_of(alloc, word)?.as_slice())?;
    text.extend_from_slice(b"I")?;
    text.extend_from_slice(CONTEXT)?;
    text.extend_from_slice(b")")?;
    text.extend_from_slice(descriptor(word))?;
    Ok(text)
}

fn store_type(alloc: Global, word: WordType) -> Result<Bytes, AllocError>
    ensures { IfOk result (λ t. t ≡ codes "(" ++ array_type word ++ codes "I" ++ type_of word ++ context_type ++ codes ")V") }
{
    let mut text = Bytes::from_slice(alloc, b"(")?;
    text.extend_from_slice(array_of(alloc, word)?.as_slice())?;
    text.extend_from_slice(b"I")?;
    text.extend_from_slice(descriptor(word))?;
    text.extend_from_slice(CONTEXT)?;
    text.extend_from_slice(b")V")?;
    Ok(text)
}

// The name of a method of the helper of arrays.
fn helper_named(alloc: Global, name: Bytes, descriptor: Bytes) -> Result<MethodName, AllocError>
    ensures { IfOk result (λ n. n ≡ record { class = helper_class; name = name; descriptor = descriptor }) }
{
    Ok(MethodName {
        class: Bytes::from_slice(alloc, b"org/deuce/transaction/ArrayHelper")?,
        name,
        descriptor,
    })
}

/// The name and the descriptor of the helper's method that reads an element.
pub(crate) fn load_named(alloc: Global, word: WordType) -> Result<MethodName, AllocError>
    ensures { IfOk result (λ n. n ≡ record { class = helper_class; name = letter_of word ++ codes "aload"; descriptor = codes "(" ++ array_type word ++ codes "I" ++ context_type ++ codes ")" ++ type_of word }) }
{
    let name = joined(alloc, letter(word), b"aload")?;
    helper_named(alloc, name, load_type(alloc, word)?)
}

/// The same of the one that writes one.
pub(crate) fn store_named(alloc: Global, word: WordType) -> Result<MethodName, AllocError>
    ensures { IfOk result (λ n. n ≡ record { class = helper_class; name = letter_of word ++ codes "astore"; descriptor = codes "(" ++ array_type word ++ codes "I" ++ type_of word ++ context_type ++ codes ")V" }) }
{
    let name = joined(alloc, letter(word), b"astore")?;
    helper_named(alloc, name, store_type(alloc, word)?)
}
