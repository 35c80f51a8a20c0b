//! The classes of a folder in the byte order of their names.
ghost use Rattle.std.specs.Prelude.{◌≡◌, Some, None, map, IfOk};
ghost use Rattle.jmodel.specs.declared.refusal.Refusal.TheVariants.{DoubledClass};
ghost use Rattle.objects.specs.linking.Classes.{doubled_class as fault_of_names, in_order as order_of_classes};
ghost use Rattle.jmodel.specs.format.Reading.{Gives};
ghost use Rattle.hierarchy.specs.Ordered.{IsInOrder, ordered};

use crate::library::is_free_name;
use crate::reserved::reserved_class;
use crate::symbols::own_name;
use const_pool::ClassFile;
use jmodel::{Bytes, Halt, NoMemory, Refusal};
use std::alloc::Global;
use std::collections::{BTreeMap, BTreeSet};

fn doubled(alloc: Global, name: &[u8]) -> Result<Option<Refusal>, NoMemory>
    ensures { IfOk result (λ o. o ≡ Some (DoubledClass name.now)) }
{
    Ok(Some(Refusal::DoubledClass(Bytes::from_slice(alloc, name)?)))
}

// The fault of the names of classes, in the order of their files: the first name that a class of the library has, or an earlier file's class.
fn doubled_class(alloc: Global, files: &[ClassFile]) -> Result<Option<Refusal>, NoMemory>
    ensures { IfOk result (λ o. o ≡ fault_of_names files.now) }
{
    let mut names = BTreeSet::new(alloc);
    for file in files {
        let name = own_name(file);
        if !is_free_name(name) || !names.insert(name)? {
            return doubled(alloc, name);
        }
    }
    Ok(None)
}

// The class files by the names of their classes.
fn by_name<'a>(
    alloc: Global,
    files: &'a [ClassFile],
) -> Result<BTreeMap<&'a [u8], &'a ClassFile>, NoMemory>
    requires { fault_of_names files.now ≡ None }
    ensures { IfOk result (λ m. IsInOrder m.entries files.now) }
{
    let mut classes = BTreeMap::new(alloc);
    for file in files.iter().rev() {
        classes.insert(own_name(file), file)?;
    }
    Ok(classes)
}

// The class files in the byte order of the names of their classes, of which no two are the same.
fn sorted<'a>(alloc: Global, files: &'a [ClassFile]) -> Result<Vec<&'a ClassFile>, NoMemory>
    requires { fault_of_names files.now ≡ None }
    ensures { IfOk result (λ v. map (λ c. c.now) v.items ≡ order_of_classes files.now) }
{
    let classes = by_name(alloc, files)?;
    Ok(classes.into_values().collect(alloc)?)
}

/// The class files in the byte order of the names of their classes. Refused as `DoubledClass` with the name of the first class, in the order
/// of the files, that is named as one of the library or as that of an earlier file; else as `ReservedName` with the name of the first class in the
/// pool of which a text has a part that rewriting keeps for itself.
pub fn in_order<'a>(alloc: Global, files: &'a [ClassFile]) -> Result<Vec<&'a ClassFile>, Halt>
    ensures order { Gives (λ v. map (λ c. c.now) v.items) result (ordered files.now) }
    ensures single { IfOk result (λ v. fault_of_names (map (λ c. c.now) v.items) ≡ None) }
{
    if let Some(fault) = doubled_class(alloc, files)? {
        return Err(Halt::Refused(fault));
    }
    if let Some(reserved) = reserved_class(alloc, files)? {
        return Err(Halt::Refused(reserved));
    }
    Ok(sorted(alloc, files)?)
}
