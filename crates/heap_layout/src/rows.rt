//! The types of objects, in the order of their numbers (JVM Specification, Java SE 7, sections 2.4 and 5.4).
ghost use Rattle.std.specs.Prelude.{◌≡◌, ◌++◌, map, IfOk, OnOk};
ghost use Rattle.objects.specs.linking.LibraryClasses.{library_rows as rows_of_library};
ghost use Rattle.objects.specs.linking.Layout.{nameless as nameless_row, class_row as row_of_class, base_rows as rows_of_bases, array_row as row_of_array, primitive_arrays as arrays_of_primitives, rows as rows_of_classes};

use crate::instances::{array_instances, class_instances, names_upward};
use crate::interfaces::Hierarchy;
use crate::library_rows::library_rows;
use crate::made::made_arrays;
use crate::reading::{declared_as, descriptor_read};
use crate::text::{named_by, rest};
use crate::types::type_of;
use crate::words::{count_statics, static_words, words_upward};
use const_pool::ClassFile;
use hierarchy::member_faults::is_interface;
use hierarchy::symbols::own_name;
use hierarchy::{Declared, Holds, Row};
use jmodel::{Bytes, NoMemory};
use std::alloc::Global;

// Of this type is no object that code names: that of an interface, or of static fields.
fn nameless(alloc: Global, words: Vec<Declared>) -> Row
    ensures { result ≡ nameless_row words.items }
{
    Row::new(
        Bytes::new(alloc),
        Bytes::new(alloc),
        Holds::Words(words),
        Vec::new(alloc),
        Vec::new(alloc),
    )
}

/// The type of a class.
pub fn class_row(alloc: Global, hierarchy: &Hierarchy, class: &ClassFile) -> Result<Row, NoMemory>
    ensures { IfOk result (λ r. r ≡ row_of_class hierarchy.now class.now) }
{
    if is_interface(class) {
        return Ok(nameless(alloc, Vec::new(alloc)));
    }
    let name = own_name(class);
    Ok(Row::new(
        Bytes::from_slice(alloc, name)?,
        Bytes::from_slice(alloc, name)?,
        Holds::Words(words_upward(alloc, hierarchy.folder(), name)?),
        names_upward(alloc, hierarchy.folder(), name)?,
        class_instances(alloc, hierarchy, name)?,
    ))
}

// Puts the types of classes at the end.
fn push_class_rows(
    alloc: Global,
    hierarchy: &Hierarchy,
    rows: &mut Vec<Row>,
) -> Result<(), NoMemory>
    ensures { OnOk result (rows.new.items ≡ rows.old.items ++ map (row_of_class hierarchy.now) hierarchy.now) }
{
    for class in hierarchy.folder().classes() {
        rows.push(class_row(alloc, hierarchy, class)?)?;
    }
    Ok(())
}

// Puts the types of static bases at the end.
fn push_base_rows(alloc: Global, hierarchy: &Hierarchy, rows: &mut Vec<Row>) -> Result<(), NoMemory>
    ensures { OnOk result (rows.new.items ≡ rows.old.items ++ rows_of_bases hierarchy.now) }
{
    for class in hierarchy.folder().classes() {
        if count_statics(class) != 0 {
            rows.push(nameless(alloc, static_words(alloc, hierarchy.folder(), class)?))?;
        }
    }
    Ok(())
}

/// An array type, by its descriptor.
pub fn array_row(alloc: Global, hierarchy: &Hierarchy, name: &[u8]) -> Result<Row, NoMemory>
    ensures { IfOk result (λ r. r ≡ row_of_array hierarchy.now name.now) }
{
    let element = rest(name, 1);
    let t = type_of(alloc, element)?;
    let holds = Holds::Elements {
        declared: declared_as(alloc, hierarchy.folder(), &t)?,
        name: Bytes::from_slice(alloc, named_by(element))?,
    };
    Ok(Row::new(
        Bytes::from_slice(alloc, name)?,
        descriptor_read(alloc, hierarchy.folder(), name)?,
        holds,
        Vec::new(alloc),
        array_instances(alloc, hierarchy, name)?,
    ))
}

// The arrays of primitive types.
fn primitive_arrays() -> [&'static [u8]; 6]
    ensures { map (λ n. n.now) result ≡ arrays_of_primitives }
{
    [b"[B", b"[C", b"[I", b"[J", b"[S", b"[Z"]
}

// Puts the types of arrays of primitive types at the end.
fn push_primitive_rows(
    alloc: Global,
    hierarchy: &Hierarchy,
    rows: &mut Vec<Row>,
) -> Result<(), NoMemory>
    ensures { OnOk result (rows.new.items ≡ rows.old.items ++ map (row_of_array hierarchy.now) arrays_of_primitives) }
{
    for name in &primitive_arrays() {
        rows.push(array_row(alloc, hierarchy, name)?)?;
    }
    Ok(())
}

// Puts the types of arrays with these descriptors at the end.
fn push_array_rows(
    alloc: Global,
    hierarchy: &Hierarchy,
    names: &[Bytes],
    rows: &mut Vec<Row>,
) -> Result<(), NoMemory>
    ensures { OnOk result (rows.new.items ≡ rows.old.items ++ map (row_of_array hierarchy.now) names.now) }
{
    for name in names {
        rows.push(array_row(alloc, hierarchy, name.as_slice())?)?;
    }
    Ok(())
}

// The types of the program of classes, where the taken methods make arrays with these descriptors.
fn rows_with(alloc: Global, hierarchy: &Hierarchy, made: &[Bytes]) -> Result<Vec<Row>, NoMemory>
    ensures { IfOk result (λ v. v.items ≡ rows_of_library ++ map (row_of_class hierarchy.now) hierarchy.now ++ rows_of_bases hierarchy.now ++ map (row_of_array hierarchy.now) arrays_of_primitives ++ map (row_of_array hierarchy.now) made.now) }
{
    let mut rows = library_rows(alloc)?;
    push_class_rows(alloc, hierarchy, &mut rows)?;
    push_base_rows(alloc, hierarchy, &mut rows)?;
    push_primitive_rows(alloc, hierarchy, &mut rows)?;
    push_array_rows(alloc, hierarchy, made, &mut rows)?;
    Ok(rows)
}

/// The types of the program of classes: those of the library's classes, of classes, of static bases, of arrays of primitive types, and of the arrays
/// that the taken methods make.
pub fn rows<'a>(alloc: Global, classes: &'a [&'a ClassFile]) -> Result<Vec<Row>, NoMemory>
    ensures { IfOk result (λ v. v.items ≡ rows_of_classes (map (λ c. c.now) classes.now)) }
{
    let made = made_arrays(alloc, classes)?;
    let hierarchy = Hierarchy::new(alloc, classes)?;
    rows_with(alloc, &hierarchy, made.as_slice())
}
