//! The interfaces above classes (JVM Specification, Java SE 7, section 4.1).
ghost use Rattle.std.specs.Prelude.{◌≡◌, ◌++◌, map, filter, IfOk, OnOk};
ghost use Rattle.std.specs.List.{flat_map};
ghost use Rattle.objects.specs.typing.TypeOrder.{is_class_name as name_of_class};
ghost use Rattle.objects.specs.linking.Resolution.{interface_names, ancestry};
ghost use Rattle.objects.specs.linking.Layout.{in_text_order as sorted_texts};
ghost use Rattle.resolution.specs.Ways.{classes_at};
ghost use Rattle.heap_layout.specs.Instances.{listed};

use crate::folder::Folder;
use crate::text::is_class_name;
use crate::texts::in_text_order;
use const_pool::{ClassFile, Pool};
use hierarchy::places::Places;
use hierarchy::symbols::{class_text, own_name};
use jmodel::NoMemory;
use resolution::ways::Ways;
use std::alloc::{AllocError, Global};
use std::marker::Model;

/// The classes of a folder, with what stands above each.
pub struct Hierarchy<'a> {
    folder: Folder<'a>,
    ways: Ways<'a>,
}

impl Drop for Hierarchy<'_> {
    fn drop(self) {
        let Self { folder: _, ways: _ } = self;
    }
}

impl<'a> Model for Hierarchy<'a> {
    ghost use Rattle.std.specs.Prelude.{◌≡◌, List};
    ghost use Rattle.jmodel.specs.format.ClassFile.{ClassFile as ClassForm};

    ghost Value = { List ClassForm };

    ghost view = { λ h. h.folder };

    ghost invariant = { λ h. h.ways ≡ h.folder };
}

// Puts those of the names of classes at indexes of a pool at the end that are there.
fn push_listed<'a>(
    pool: &'a Pool,
    indexes: &[u16],
    names: &mut Vec<&'a [u8]>,
) -> Result<(), AllocError>
    ensures { OnOk result (map (λ t. t.now) names.new.items ≡ map (λ t. t.now) names.old.items ++ filter name_of_class (listed pool.now indexes.now)) }
{
    for index in indexes {
        let name = class_text(pool, *index);
        if is_class_name(name) {
            names.push(name)?;
        }
    }
    Ok(())
}

// Puts the interfaces at the end that a class lists.
fn push_interfaces<'a>(class: &'a ClassFile, names: &mut Vec<&'a [u8]>) -> Result<(), AllocError>
    ensures { OnOk result (map (λ t. t.now) names.new.items ≡ map (λ t. t.now) names.old.items ++ filter name_of_class (interface_names class.now)) }
{
    push_listed(&class.pool, class.interfaces.as_slice(), names)
}

// The interfaces that the classes at some places list.
fn listed_at<'a>(
    alloc: Global,
    places: &Places<'a>,
    way: &[usize],
) -> Result<Vec<&'a [u8]>, AllocError>
    ensures { IfOk result (λ v. map (λ t. t.now) v.items ≡ filter name_of_class (flat_map interface_names (classes_at places.now way.now))) }
{
    let mut names = Vec::new(alloc);
    for place in way {
        if let Some(class) = places.class_at(Some(*place)) {
            push_interfaces(class, &mut names)?;
        }
    }
    Ok(names)
}

impl<'a> Hierarchy<'a> {
    /// Looks up what stands above each of classes.
    pub fn new(alloc: Global, classes: &'a [&'a ClassFile]) -> Result<Self, NoMemory>
        ensures { IfOk result (λ h. h ≡ map (λ c. c.now) classes.now) }
    {
        Ok(Hierarchy {
            folder: Folder::new(alloc, classes)?,
            ways: Ways::new(alloc, classes)?,
        })
    }

    /// The classes by their names.
    pub fn folder(&self) -> &Folder<'a>
        ensures { result.now ≡ self.now }
    {
        &self.folder
    }

    /// The interfaces that the class of a name and all above it list, in byte order, each once.
    pub fn interfaces(&self, alloc: Global, name: &[u8]) -> Result<Vec<&'a [u8]>, NoMemory>
        ensures { IfOk result (λ v. map (λ t. t.now) v.items ≡ sorted_texts (filter name_of_class (flat_map interface_names (ancestry self.now name.now)))) }
    {
        let Some(class) = self.folder.class_named(name) else {
            return Ok(Vec::new(alloc));
        };
        let way = self.ways.ancestry(own_name(class));
        let names = listed_at(alloc, self.ways.places(), way)?;
        in_text_order(alloc, names.as_slice())
    }
}
