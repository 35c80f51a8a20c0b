//! Names of classes and arrays as typing reads them, where an interface is Object (JVM Specification, Java SE 7, section 4.10.1.2).
ghost use Rattle.std.specs.Prelude.{◌≡◌, ◌++◌, IfOk, OnOk};
ghost use Rattle.objects.specs.linking.Layout.{class_read as class_as_read, descriptor_read as descriptor_as_read, name_read as name_as_read, referred as reference_of, declared_as as type_declared};
ghost use Rattle.heap_layout.specs.Elements.{is_class_of, element_read};

use crate::folder::Folder;
use crate::text::{context_class, equal, is_array, object_class, push_class, rest, without_last};
use crate::types::word_kind;
use const_pool::FieldType;
use hierarchy::Declared;
use hierarchy::library::is_library;
use hierarchy::member_faults::is_interface;
use jmodel::Bytes;
use std::alloc::{AllocError, Global};

// Whether the folder has a class of a name, and no interface.
fn is_class_of(folder: &Folder, name: &[u8]) -> bool
    ensures { result ≡ is_class_of folder.now name.now }
{
    match folder.class_named(name) {
        Some(class) => !is_interface(class),
        None => false,
    }
}

/// A class's name as typing reads it: an interface, and a class that neither the folder nor the library has, is Object. The context of
/// rewritten code has its own name.
pub fn class_read<'a>(folder: &Folder, name: &'a [u8]) -> &'a [u8]
    ensures { result.now ≡ class_as_read folder.now name.now }
{
    if is_library(name) || equal(name, context_class()) || is_class_of(folder, name) {
        name
    } else {
        object_class()
    }
}

// Puts an element that is no array at the end, as typing reads it.
fn push_element(bytes: &mut Bytes, folder: &Folder, element: &[u8]) -> Result<(), AllocError>
    ensures { OnOk result (bytes.new ≡ bytes.old ++ element_read folder.now element.now) }
{
    if let Some(76) = element.first() {
        push_class(bytes, class_read(folder, without_last(rest(element, 1))))
    } else {
        bytes.extend_from_slice(element)
    }
}

/// An array's descriptor as typing reads it.
#[tactic(auto, using(crate::proofs::Bytes::read_array, crate::proofs::Bytes::read_class, crate::proofs::Bytes::read_other))]
pub fn descriptor_read(
    alloc: Global,
    folder: &Folder,
    descriptor: &[u8],
) -> Result<Bytes, AllocError>
    ensures { IfOk result (λ b. b ≡ descriptor_as_read folder.now descriptor.now) }
{
    let mut bytes = Bytes::new(alloc);
    for i in 0..descriptor.len() {
        let left = rest(descriptor, i);
        if !is_array(left) {
            push_element(&mut bytes, folder, left)?;
            return Ok(bytes);
        }
        bytes.push(91)?;
    }
    Ok(bytes)
}

/// The name of a class or an array as typing reads it.
pub fn name_read(alloc: Global, folder: &Folder, name: &[u8]) -> Result<Bytes, AllocError>
    ensures { IfOk result (λ b. b ≡ name_as_read folder.now name.now) }
{
    if is_array(name) {
        descriptor_read(alloc, folder, name)
    } else {
        Bytes::from_slice(alloc, class_read(folder, name))
    }
}

// The class of a reference, no bytes of another type.
fn referred(alloc: Global, folder: &Folder, t: &FieldType) -> Result<Bytes, AllocError>
    ensures { IfOk result (λ b. b ≡ reference_of folder.now t.now) }
{
    match t {
        FieldType::Reference(name) => name_read(alloc, folder, name.as_slice()),
        _ => Ok(Bytes::new(alloc)),
    }
}

/// The type of a word, by the type that a descriptor says.
pub fn declared_as(alloc: Global, folder: &Folder, t: &FieldType) -> Result<Declared, AllocError>
    ensures { IfOk result (λ d. d ≡ type_declared folder.now t.now) }
{
    Ok(Declared {
        word: word_kind(t),
        class: referred(alloc, folder, t)?,
    })
}
