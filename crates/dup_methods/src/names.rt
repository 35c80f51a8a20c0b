//! Names of the members that duplicates call.
ghost use Rattle.std.specs.Prelude.{◌≡◌, ◌++◌, IfOk, OnOk};
ghost use Rattle.objects.specs.rewriting.Rewriting.{helper_letter as letter_of};
ghost use Rattle.objects.specs.semantics.WordTypes.{type_descriptor as type_of};
ghost use Rattle.dup_methods.specs.Names.{receiver_type as type_of_receiver, getter_named as named_getter, setter_named as named_setter, load_named as named_load, store_named as named_store, as_name as named_so};

use hierarchy::Field;
use hierarchy::reference::Reference;
use jmodel::{Bytes, MethodName};
use member_code::bytes::joined;
use objects::op::WordType;
use std::alloc::{AllocError, Global};

const HELPER: &[u8] = b"org/deuce/transaction/ArrayHelper";

// Puts what stands for the object among the parameters of accessors behind a text.
fn push_receiver(text: &mut Bytes, field: &Field) -> Result<(), AllocError>
    ensures { OnOk result (text.new ≡ text.old ++ type_of_receiver field.now) }
{
    if field.base.is_none() {
        text.extend_from_slice(b"L")?;
        text.extend_from_slice(field.class.as_slice())?;
        text.extend_from_slice(b";")?;
    }
    Ok(())
}

fn getter_type(alloc: Global, field: &Field) -> Result<Bytes, AllocError>
    ensures { IfOk result (λ t. t ≡ (named_getter field.now).descriptor) }
{
    let mut text = Bytes::from_slice(alloc, b"(")?;
    push_receiver(&mut text, field)?;
    text.extend_from_slice(b"Lorg/deuce/transaction/Context;")?;
    text.extend_from_slice(b")")?;
    text.extend_from_slice(field.descriptor.as_slice())?;
    Ok(text)
}

fn setter_type(alloc: Global, field: &Field) -> Result<Bytes, AllocError>
    ensures { IfOk result (λ t. t ≡ (named_setter field.now).descriptor) }
{
    let mut text = Bytes::from_slice(alloc, b"(")?;
    push_receiver(&mut text, field)?;
    text.extend_from_slice(field.descriptor.as_slice())?;
    text.extend_from_slice(b"Lorg/deuce/transaction/Context;")?;
    text.extend_from_slice(b")V")?;
    Ok(text)
}

/// The name and the descriptor of a field's getter, in the field's class.
pub fn getter_named(alloc: Global, field: &Field) -> Result<MethodName, AllocError>
    ensures { IfOk result (λ n. n ≡ named_getter field.now) }
{
    Ok(MethodName {
        class: field.class.copy(alloc)?,
        name: joined(alloc, field.name.as_slice(), b"__Getter$")?,
        descriptor: getter_type(alloc, field)?,
    })
}

/// The same of its setter.
pub fn setter_named(alloc: Global, field: &Field) -> Result<MethodName, AllocError>
    ensures { IfOk result (λ n. n ≡ named_setter field.now) }
{
    Ok(MethodName {
        class: field.class.copy(alloc)?,
        name: joined(alloc, field.name.as_slice(), b"__Setter$")?,
        descriptor: setter_type(alloc, field)?,
    })
}

fn letter(word: WordType) -> &'static [u8]
    ensures { result.now ≡ letter_of word }
{
    match word {
        WordType::Byte => b"b",
        WordType::Boolean => b"z",
        WordType::Char => b"c",
        WordType::Short => b"s",
        WordType::Int => b"i",
        WordType::Long => b"l",
        WordType::Reference => b"a",
    }
}

fn descriptor(word: WordType) -> &'static [u8]
    ensures { result.now ≡ type_of word }
{
    match word {
        WordType::Byte => b"B",
        WordType::Boolean => b"Z",
        WordType::Char => b"C",
        WordType::Short => b"S",
        WordType::Int => b"I",
        WordType::Long => b"J",
        WordType::Reference => b"Ljava/lang/Object;",
    }
}

/// The name and the descriptor of the helper's method that reads an element.
pub fn load_named(alloc: Global, word: WordType) -> Result<MethodName, AllocError>
    ensures { IfOk result (λ n. n ≡ named_load word) }
{
    let mut text = Bytes::from_slice(alloc, b"([")?;
    text.extend_from_slice(descriptor(word))?;
    text.extend_from_slice(b"ILorg/deuce/transaction/Context;)")?;
    text.extend_from_slice(descriptor(word))?;
    Ok(MethodName {
        class: Bytes::from_slice(alloc, HELPER)?,
        name: joined(alloc, letter(word), b"aload")?,
        descriptor: text,
    })
}

/// The same of the method that writes one.
pub fn store_named(alloc: Global, word: WordType) -> Result<MethodName, AllocError>
    ensures { IfOk result (λ n. n ≡ named_store word) }
{
    let mut text = Bytes::from_slice(alloc, b"([")?;
    text.extend_from_slice(descriptor(word))?;
    text.extend_from_slice(b"I")?;
    text.extend_from_slice(descriptor(word))?;
    text.extend_from_slice(b"Lorg/deuce/transaction/Context;)V")?;
    Ok(MethodName {
        class: Bytes::from_slice(alloc, HELPER)?,
        name: joined(alloc, letter(word), b"astore")?,
        descriptor: text,
    })
}

/// The name of the method that a reference says.
pub fn as_name(alloc: Global, reference: &Reference<'_>) -> Result<MethodName, AllocError>
    ensures { IfOk result (λ n. n ≡ named_so reference.now) }
{
    Ok(MethodName {
        class: Bytes::from_slice(alloc, reference.class)?,
        name: Bytes::from_slice(alloc, reference.name)?,
        descriptor: Bytes::from_slice(alloc, reference.descriptor)?,
    })
}
