//! What objects are instances of (JVM Specification, Java SE 7, section 6.5, checkcast).
ghost use Rattle.std.specs.Prelude.{◌≡◌, ◌++◌, map, IfOk, OnOk};
ghost use Rattle.objects.specs.typing.TypeOrder.{named_by as name_in, descriptor_of as described};
ghost use Rattle.objects.specs.linking.Layout.{library_lineage as library_lineage_of, above_last, names_upward as names_from_below, class_instances as instances_of_class, element_instances as instances_of_element};
ghost use Rattle.heap_layout.specs.Instances.{base_instances as instances_of_base};

use crate::folder::Folder;
use crate::interfaces::Hierarchy;
use crate::library_rows::{copies, library_lineage};
use crate::text::{descriptor_of, is_array, named_by, rest, without_last};
use const_pool::ClassFile;
use hierarchy::symbols::{own_name, super_name};
use jmodel::{Bytes, NoMemory};
use std::alloc::{AllocError, Global};

// The name right above the last of some classes, or the name itself where there are none.
fn above_last<'a>(classes: &[&'a ClassFile], name: &'a [u8]) -> &'a [u8]
    ensures { result.now ≡ above_last name.now (map (λ c. c.now) classes.now) }
{
    match classes.last() {
        Some(class) => super_name(class),
        None => name,
    }
}

/// The names of a class and those above it, the nearest first.
pub fn names_upward(alloc: Global, folder: &Folder, name: &[u8]) -> Result<Vec<Bytes>, AllocError>
    ensures { IfOk result (λ v. v.items ≡ names_from_below folder.now name.now) }
{
    let classes = folder.lineage(alloc, name)?;
    let mut names = Vec::new(alloc);
    for class in &classes {
        names.push(Bytes::from_slice(alloc, own_name(class))?)?;
    }
    let mut above = library_lineage(alloc, above_last(classes.as_slice(), name))?;
    names.append(&mut above)?;
    Ok(names)
}

/// A class, those above it, and the interfaces that these list, directly or through interfaces.
pub fn class_instances(
    alloc: Global,
    hierarchy: &Hierarchy,
    name: &[u8],
) -> Result<Vec<Bytes>, NoMemory>
    ensures { IfOk result (λ v. v.items ≡ instances_of_class hierarchy.now name.now) }
{
    let mut names = names_upward(alloc, hierarchy.folder(), name)?;
    let interfaces = hierarchy.interfaces(alloc, name)?;
    names.append(&mut copies(alloc, interfaces.as_slice())?)?;
    Ok(names)
}

// Two texts, one behind the other.
fn joined(alloc: Global, front: &[u8], back: &[u8]) -> Result<Bytes, AllocError>
    ensures { IfOk result (λ b. b ≡ front.now ++ back.now) }
{
    let mut bytes = Bytes::from_slice(alloc, front)?;
    bytes.extend_from_slice(back)?;
    Ok(bytes)
}

// Puts the descriptors of classes at the end, each behind this text.
fn push_described(
    alloc: Global,
    front: &[u8],
    classes: &[Bytes],
    names: &mut Vec<Bytes>,
) -> Result<(), AllocError>
    ensures { OnOk result (names.new.items ≡ names.old.items ++ map (λ n. front.now ++ described n) classes.now) }
{
    for class in classes {
        let descriptor = descriptor_of(alloc, class.as_slice())?;
        names.push(joined(alloc, front, descriptor.as_slice())?)?;
    }
    Ok(())
}

// Puts the descriptors of what a class is an instance of at the end, each behind this text.
fn push_classes(
    alloc: Global,
    hierarchy: &Hierarchy,
    front: &[u8],
    name: &[u8],
    names: &mut Vec<Bytes>,
) -> Result<(), NoMemory>
    ensures { OnOk result (names.new.items ≡ names.old.items ++ map (λ n. front.now ++ described n) (instances_of_class hierarchy.now name.now)) }
{
    let classes = class_instances(alloc, hierarchy, name)?;
    push_described(alloc, front, classes.as_slice(), names)?;
    Ok(())
}

// Puts the descriptors of what an element that is no array is an instance of at the end, each behind this text.
fn push_bases(
    alloc: Global,
    hierarchy: &Hierarchy,
    front: &[u8],
    element: &[u8],
    names: &mut Vec<Bytes>,
) -> Result<(), NoMemory>
    ensures { OnOk result (names.new.items ≡ names.old.items ++ map (λ n. front.now ++ n) (instances_of_base hierarchy.now element.now)) }
{
    let Some(first) = element.first() else {
        return Ok(());
    };
    if *first == 76 {
        return push_classes(
            alloc,
            hierarchy,
            front,
            without_last(rest(element, 1)),
            names,
        );
    }
    names.push(joined(alloc, front, element)?)?;
    Ok(())
}

/// Descriptors: of the types of which an element of a descriptor is an instance. An array is one of Object.
pub fn element_instances(
    alloc: Global,
    hierarchy: &Hierarchy,
    descriptor: &[u8],
) -> Result<Vec<Bytes>, NoMemory>
    ensures { IfOk result (λ v. v.items ≡ instances_of_element hierarchy.now descriptor.now) }
{
    let mut names = Vec::new(alloc);
    for i in 0..descriptor.len() {
        let element = rest(descriptor, i);
        let brackets = &descriptor[..i];
        if !is_array(element) {
            push_bases(alloc, hierarchy, brackets, element, &mut names)?;
            return Ok(names);
        }
        names.push(joined(alloc, brackets, b"Ljava/lang/Object;")?)?;
    }
    Ok(names)
}

/// The names of what an array of this descriptor is an instance of.
pub fn array_instances(
    alloc: Global,
    hierarchy: &Hierarchy,
    descriptor: &[u8],
) -> Result<Vec<Bytes>, NoMemory>
    ensures { IfOk result (λ v. v.items ≡ map name_in (instances_of_element hierarchy.now descriptor.now)) }
{
    let mut names = Vec::new(alloc);
    for element in &element_instances(alloc, hierarchy, descriptor)? {
        names.push(Bytes::from_slice(alloc, named_by(element.as_slice()))?)?;
    }
    Ok(names)
}
