//! The words that objects and static bases hold (JVM Specification, Java SE 7, section 4.5).
ghost use Rattle.std.specs.Prelude.{◌≡◌, ◌++◌, map, filter, length, not, IfOk, OnOk};
ghost use Rattle.objects.specs.linking.Members.{is_static as static_member, statics};
ghost use Rattle.objects.specs.linking.Layout.{declared_as as type_declared, field_type as type_of_field, own_words, words_upward as words_from_above, static_words as words_of_statics};

use crate::folder::Folder;
use crate::reading::declared_as;
use crate::sums::sum;
use crate::types::field_type;
use const_pool::{ClassFile, Member, Pool};
use hierarchy::Declared;
use hierarchy::symbols::is_static;
use std::alloc::{AllocError, Global};

// The type of the word of a field of a class with this pool.
fn declared(
    alloc: Global,
    folder: &Folder,
    pool: &Pool,
    member: &Member,
) -> Result<Declared, AllocError>
    ensures { IfOk result (λ d. d ≡ type_declared folder.now (type_of_field pool.now member.now)) }
{
    let t = field_type(alloc, pool, member)?;
    declared_as(alloc, folder, &t)
}

// Puts the words of an object's own class at the end, in the order of its file.
fn push_own_words(
    alloc: Global,
    folder: &Folder,
    class: &ClassFile,
    words: &mut Vec<Declared>,
) -> Result<(), AllocError>
    ensures { OnOk result (words.new.items ≡ words.old.items ++ own_words folder.now class.now) }
{
    for member in &class.fields {
        if !is_static(member) {
            words.push(declared(alloc, folder, &class.pool, member)?)?;
        }
    }
    Ok(())
}

/// The words of objects of the class of a name, those of the highest class first.
pub fn words_upward(
    alloc: Global,
    folder: &Folder,
    name: &[u8],
) -> Result<Vec<Declared>, AllocError>
    ensures { IfOk result (λ v. v.items ≡ words_from_above folder.now name.now) }
{
    let mut classes = folder.lineage(alloc, name)?;
    classes.reverse();
    let mut words = Vec::new(alloc);
    for class in &classes {
        push_own_words(alloc, folder, class, &mut words)?;
    }
    Ok(words)
}

// How many words an object's own class gives.
fn count_own(class: &ClassFile) -> usize
    ensures { result ≡ length (filter (λ m. not (static_member m)) class.now.fields) }
{
    class.fields.iter().filter(|m| !is_static(m)).count()
}

/// How many words objects of the class of a name have.
pub fn count_upward(alloc: Global, folder: &Folder, name: &[u8]) -> Result<u64, AllocError>
    ensures { IfOk result (λ n. n ≡ length (words_from_above folder.now name.now)) }
{
    let mut count = 0;
    for class in &folder.lineage(alloc, name)? {
        count = sum(count, count_own(class) as u64)?;
    }
    Ok(count)
}

/// The words of a class's static fields, in the order of its file.
pub fn static_words(
    alloc: Global,
    folder: &Folder,
    class: &ClassFile,
) -> Result<Vec<Declared>, AllocError>
    ensures { IfOk result (λ v. v.items ≡ words_of_statics folder.now class.now) }
{
    let mut words = Vec::new(alloc);
    for member in &class.fields {
        if is_static(member) {
            words.push(declared(alloc, folder, &class.pool, member)?)?;
        }
    }
    Ok(words)
}

/// How many fields of a class are static.
pub fn count_statics(class: &ClassFile) -> usize
    ensures { result ≡ length (statics class.now) }
{
    class.fields.iter().filter(|m| is_static(m)).count()
}
