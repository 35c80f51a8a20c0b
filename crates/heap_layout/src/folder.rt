//! The classes of a folder, looked up by names of any owner.
ghost use Rattle.std.specs.Prelude.{◌≡◌, map, option_map, IfOk};
ghost use Rattle.objects.specs.linking.Superclasses.{class_named as class_of_name, lineage as lineage_of};
ghost use Rattle.hierarchy.specs.Places.{place_of as place_among};
ghost use Rattle.heap_layout.specs.Folder.{place_under, HasPlaces};

use const_pool::ClassFile;
use hierarchy::lineage::lineage;
use hierarchy::places::Places;
use hierarchy::symbols::own_name;
use jmodel::NoMemory;
use std::alloc::{AllocError, Global};
use std::collections::BTreeMap;
use std::marker::Model;

/// The classes of a folder, with the place of the first class of each name.
pub struct Folder<'a> {
    places: Places<'a>,
    own: BTreeMap<Vec<u8>, usize>,
}

impl Drop for Folder<'_> {
    fn drop(self) {
        let Self { places: _, own: _ } = self;
    }
}

impl<'a> Model for Folder<'a> {
    ghost use Rattle.std.specs.Prelude.{List};
    ghost use Rattle.jmodel.specs.format.ClassFile.{ClassFile as ClassForm};
    ghost use Rattle.heap_layout.specs.Folder.{HasPlaces};

    ghost Value = { List ClassForm };

    ghost view = { λ f. f.places };

    ghost invariant = { λ f. HasPlaces f.own.entries f.places };
}

// The places of classes by their names.
fn by_name(alloc: Global, classes: &[&ClassFile]) -> Result<BTreeMap<Vec<u8>, usize>, NoMemory>
    ensures { IfOk result (λ m. HasPlaces m.entries (map (λ c. c.now) classes.now)) }
{
    let mut own = BTreeMap::new(alloc);
    for (place, class) in classes.iter().enumerate() {
        let name = own_name(class);
        if own.get(name).is_none() {
            own.insert(Vec::from_slice(alloc, name)?, place)?;
        }
    }
    Ok(own)
}

impl<'a> Folder<'a> {
    /// Looks up the places of classes.
    pub fn new(alloc: Global, classes: &'a [&'a ClassFile]) -> Result<Self, NoMemory>
        ensures { IfOk result (λ f. f ≡ map (λ c. c.now) classes.now) }
    {
        Ok(Folder {
            places: Places::new(alloc, classes)?,
            own: by_name(alloc, classes)?,
        })
    }

    /// The classes.
    pub fn classes(&self) -> &'a [&'a ClassFile]
        ensures { map (λ c. c.now) result.now ≡ self.now }
    {
        self.places.classes()
    }

    /// The place of the first class of a name.
    fn place_of(&self, name: &[u8]) -> Option<usize>
        ensures { result ≡ place_among self.now name.now }
    {
        self.own.get(name).copied()
    }

    /// The first class of a name.
    pub fn class_named(&self, name: &[u8]) -> Option<&'a ClassFile>
        ensures { option_map (λ c. c.now) result ≡ class_of_name self.now name.now }
    {
        self.places.class_at(self.place_of(name))
    }

    /// The first class of a name and those above it, the nearest first; at most as many as there are classes.
    pub fn lineage(&self, alloc: Global, name: &[u8]) -> Result<Vec<&'a ClassFile>, AllocError>
        ensures { IfOk result (λ v. map (λ c. c.now) v.items ≡ lineage_of self.now name.now) }
    {
        match self.class_named(name) {
            Some(class) => Ok(lineage(alloc, &self.places, own_name(class))?),
            None => Ok(Vec::new(alloc)),
        }
    }
}
