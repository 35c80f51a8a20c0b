//! Names of classes and arrays (JVM Specification, Java SE 7, sections 4.2.1 and 4.3.2).
ghost use Rattle.std.specs.Prelude.{◌≡◌, ◌++◌, bytes_eq, codes, drop, IfOk, OnOk};
ghost use Rattle.objects.specs.typing.TypeOrder.{object_class as class_of_all, string_class as class_of_texts, context_class as class_of_contexts, is_array as array_name, is_class_name as name_of_class, without_last as all_but_last, named_by as name_in, descriptor_of as described};

use jmodel::Bytes;
use std::alloc::{AllocError, Global};

/// Whether two names are the same.
pub(crate) fn equal(a: &[u8], b: &[u8]) -> bool
    ensures { result ≡ bytes_eq a.now b.now }
{
    a == b
}

/// The name of `Object`.
pub(crate) fn object_class() -> &'static [u8]
    ensures { result.now ≡ class_of_all }
{
    b"java/lang/Object"
}

/// The name of `String`.
pub(crate) fn string_class() -> &'static [u8]
    ensures { result.now ≡ class_of_texts }
{
    b"java/lang/String"
}

/// The name of the class of a transaction's context.
pub(crate) fn context_class() -> &'static [u8]
    ensures { result.now ≡ class_of_contexts }
{
    b"org/deuce/transaction/Context"
}

/// Whether a name is an array's descriptor, which begins with a bracket.
pub fn is_array(name: &[u8]) -> bool
    ensures { result ≡ array_name name.now }
{
    matches!(name.first(), Some(91))
}

/// Whether a name is a class's: it isn't empty, and isn't an array's.
pub fn is_class_name(name: &[u8]) -> bool
    ensures { result ≡ name_of_class name.now }
{
    match name.first() {
        Some(c) => *c != 91,
        None => false,
    }
}

/// The bytes from a place on.
pub(crate) fn rest(bytes: &[u8], from: usize) -> &[u8]
    ensures { result.now ≡ drop from bytes.now }
{
    if from < bytes.len() {
        &bytes[from..]
    } else {
        &[]
    }
}

/// All bytes but the last.
#[tactic(auto, using(crate::proofs::Bytes::front_is))]
pub(crate) fn without_last(bytes: &[u8]) -> &[u8]
    ensures { result.now ≡ all_but_last bytes.now }
{
    if bytes.is_empty() {
        &[]
    } else {
        &bytes[..bytes.len() - 1]
    }
}

/// A class's name, or an array's or a primitive type's descriptor, by the descriptor of a type.
pub fn named_by(descriptor: &[u8]) -> &[u8]
    ensures { result.now ≡ name_in descriptor.now }
{
    match descriptor {
        [] => descriptor,
        [first, name @ ..] => {
            if *first == 76 {
                without_last(name)
            } else {
                descriptor
            }
        }
    }
}

/// Puts the descriptor of a class at the end.
pub(crate) fn push_class(bytes: &mut Bytes, name: &[u8]) -> Result<(), AllocError>
    ensures { OnOk result (bytes.new ≡ bytes.old ++ (codes "L" ++ name.now ++ codes ";")) }
{
    bytes.push(76)?;
    bytes.extend_from_slice(name)?;
    bytes.push(59)
}

/// Puts the descriptor of the type of a name at the end: an array's name is one.
pub(crate) fn push_descriptor(bytes: &mut Bytes, name: &[u8]) -> Result<(), AllocError>
    ensures { OnOk result (bytes.new ≡ bytes.old ++ described name.now) }
{
    if is_array(name) {
        bytes.extend_from_slice(name)
    } else {
        push_class(bytes, name)
    }
}

/// The descriptor of the type of a name: an array's name is one.
pub fn descriptor_of(alloc: Global, name: &[u8]) -> Result<Bytes, AllocError>
    ensures { IfOk result (λ b. b ≡ described name.now) }
{
    let mut bytes = Bytes::new(alloc);
    push_descriptor(&mut bytes, name)?;
    Ok(bytes)
}
