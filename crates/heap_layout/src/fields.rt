//! The fields that code may use, and their places (JVM Specification, Java SE 7, section 4.5).
ghost use Rattle.std.specs.Prelude.{◌≡◌, ◌++◌, [], ℕ, map, IfOk, OnOk};
ghost use Rattle.objects.specs.linking.StaticBases.{base_of, bases_end as end_of_bases, base_words as words_of_base};
ghost use Rattle.objects.specs.linking.Layout.{class_fields as fields_of_class, fields_of as fields_of_classes};
ghost use Rattle.heap_layout.specs.Slots.{slot_before, slots_behind};

use crate::folder::Folder;
use crate::reading::declared_as;
use crate::sums::sum;
use crate::types::{field_type, is_floating};
use crate::words::{count_statics, count_upward};
use const_pool::{ClassFile, Member};
use hierarchy::Field;
use hierarchy::member_faults::is_interface;
use hierarchy::symbols::{is_static, own_name, super_name, text};
use jmodel::{Bytes, NoMemory};
use std::alloc::{AllocError, Global};

// Where a field lies: at an index of the static base at an address, or of each object.
#[derive(Clone, Copy)]
struct Slot {
    base: Option<u64>,
    index: u64,
}

// Puts a field of a class that lies at this place at the end, unless it is a float or a double.
fn push_field(
    alloc: Global,
    folder: &Folder,
    class: &ClassFile,
    member: &Member,
    slot: Slot,
    fields: &mut Vec<Field>,
) -> Result<(), AllocError>
    ensures { OnOk result (fields.new.items ≡ fields.old.items ++ slot_before folder.now class.now member.now slot.base slot.index []) }
{
    let t = field_type(alloc, &class.pool, member)?;
    if is_floating(&t) {
        return Ok(());
    }
    fields.push(Field {
        class: Bytes::from_slice(alloc, own_name(class))?,
        name: Bytes::from_slice(alloc, text(&class.pool, member.name))?,
        descriptor: Bytes::from_slice(alloc, text(&class.pool, member.descriptor))?,
        base: slot.base,
        index: slot.index,
        declared: declared_as(alloc, folder, &t)?,
    })?;
    Ok(())
}

// Puts the fields of a class at the end. Its static base lies at this address, and so many words of an object are those of the classes above.
fn push_fields(
    alloc: Global,
    folder: &Folder,
    class: &ClassFile,
    base: u64,
    above: u64,
    fields: &mut Vec<Field>,
) -> Result<(), AllocError>
    ensures { OnOk result (fields.new.items ≡ fields.old.items ++ slots_behind folder.now base class.now 0 above class.now.fields) }
{
    let mut statics = 0;
    let mut words = above;
    for member in &class.fields {
        if is_static(member) {
            let slot = Slot {
                base: Some(base),
                index: statics,
            };
            push_field(alloc, folder, class, member, slot, fields)?;
            statics = sum(statics, 1)?;
        } else {
            let slot = Slot {
                base: None,
                index: words,
            };
            push_field(alloc, folder, class, member, slot, fields)?;
            words = sum(words, 1)?;
        }
    }
    Ok(())
}

// Puts those at the end that code may use: an interface has none.
fn push_class_fields(
    alloc: Global,
    folder: &Folder,
    class: &ClassFile,
    base: u64,
    fields: &mut Vec<Field>,
) -> Result<(), AllocError>
    ensures { OnOk result ((n : ℕ) → base ≡ base_of folder.now n → fields.new.items ≡ fields.old.items ++ fields_of_class folder.now n class.now) }
{
    if is_interface(class) {
        return Ok(());
    }
    let above = count_upward(alloc, folder, super_name(class))?;
    push_fields(alloc, folder, class, base, above, fields)?;
    Ok(())
}

/// How many words the static base of a class takes: none where it has no static fields.
pub fn base_words(class: &ClassFile) -> Result<u64, AllocError>
    ensures { IfOk result (λ n. n ≡ words_of_base class.now) }
{
    let count = count_statics(class);
    if count == 0 {
        return Ok(0);
    }
    sum(count as u64, 1)
}

// The fields of classes, by their folder.
fn placed_fields(alloc: Global, folder: &Folder) -> Result<Vec<Field>, AllocError>
    ensures { IfOk result (λ v. v.items ≡ fields_of_classes folder.now) }
{
    let mut fields = Vec::new(alloc);
    let mut base = 2;
    for class in folder.classes() {
        push_class_fields(alloc, folder, class, base, &mut fields)?;
        base = sum(base, base_words(class)?)?;
    }
    Ok(fields)
}

/// The fields that code of classes may use, class by class in the order of their files. A static one has the address of its class's static
/// base, and its place among the static fields of its class; another, its place among the words of its objects.
pub fn fields_of<'a>(alloc: Global, classes: &'a [&'a ClassFile]) -> Result<Vec<Field>, NoMemory>
    ensures { IfOk result (λ v. v.items ≡ fields_of_classes (map (λ c. c.now) classes.now)) }
{
    let folder = Folder::new(alloc, classes)?;
    Ok(placed_fields(alloc, &folder)?)
}

/// The first address behind the static bases of classes.
pub fn bases_end(classes: &[&ClassFile]) -> Result<u64, AllocError>
    ensures { IfOk result (λ n. n ≡ end_of_bases (map (λ c. c.now) classes.now)) }
{
    let mut end = 2;
    for class in classes {
        end = sum(end, base_words(class)?)?;
    }
    Ok(end)
}
