//! Names of the members that are added for a field.
ghost use Rattle.std.specs.Prelude.{◌≡◌, ◌++◌, IfOk, OnOk};
ghost use Rattle.field_members.specs.Names.{address_name as name_of_address, receiver_type as type_of_receiver, getter_named as named_getter, setter_named as named_setter};

use hierarchy::Field;
use jmodel::{Bytes, MethodName};
use member_code::bytes::joined;
use std::alloc::{AllocError, Global};

/// `f__ADDRESS__`.
pub fn address_name(alloc: Global, field: &Field) -> Result<Bytes, AllocError>
    ensures { IfOk result (λ t. t ≡ name_of_address field.now) }
{
    joined(alloc, field.name.as_slice(), b"__ADDRESS__")
}

// Puts what stands for the object among the parameters of accessors behind a text.
fn push_receiver(text: &mut Bytes, field: &Field) -> Result<(), AllocError>
    ensures { OnOk result (text.new ≡ text.old ++ type_of_receiver field.now) }
{
    if field.base.is_none() {
        text.extend_from_slice(b"L")?;
        text.extend_from_slice(field.class.as_slice())?;
        text.extend_from_slice(b";")?;
    }
    Ok(())
}

fn getter_type(alloc: Global, field: &Field) -> Result<Bytes, AllocError>
    ensures { IfOk result (λ t. t ≡ (named_getter field.now).descriptor) }
{
    let mut text = Bytes::from_slice(alloc, b"(")?;
    push_receiver(&mut text, field)?;
    text.extend_from_slice(b"Lorg/deuce/transaction/Context;")?;
    text.extend_from_slice(b")")?;
    text.extend_from_slice(field.descriptor.as_slice())?;
    Ok(text)
}

fn setter_type(alloc: Global, field: &Field) -> Result<Bytes, AllocError>
    ensures { IfOk result (λ t. t ≡ (named_setter field.now).descriptor) }
{
    let mut text = Bytes::from_slice(alloc, b"(")?;
    push_receiver(&mut text, field)?;
    text.extend_from_slice(field.descriptor.as_slice())?;
    text.extend_from_slice(b"Lorg/deuce/transaction/Context;")?;
    text.extend_from_slice(b")V")?;
    Ok(text)
}

/// The name and the descriptor of a field's getter, in the field's class.
pub fn getter_named(alloc: Global, field: &Field) -> Result<MethodName, AllocError>
    ensures { IfOk result (λ n. n ≡ named_getter field.now) }
{
    Ok(MethodName {
        class: field.class.copy(alloc)?,
        name: joined(alloc, field.name.as_slice(), b"__Getter$")?,
        descriptor: getter_type(alloc, field)?,
    })
}

/// The same of its setter.
pub fn setter_named(alloc: Global, field: &Field) -> Result<MethodName, AllocError>
    ensures { IfOk result (λ n. n ≡ named_setter field.now) }
{
    Ok(MethodName {
        class: field.class.copy(alloc)?,
        name: joined(alloc, field.name.as_slice(), b"__Setter$")?,
        descriptor: setter_type(alloc, field)?,
    })
}
