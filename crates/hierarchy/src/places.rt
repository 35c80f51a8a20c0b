//! Classes, and where they stand among one another.
ghost use Rattle.std.specs.Prelude.{◌≡◌, length, map, slice_get, option_map, option_and_then, IfOk};
ghost use Rattle.objects.specs.linking.Superclasses.{super_name as super_name_of, class_named as class_of_name};
ghost use Rattle.hierarchy.specs.Names.{AreFirst};
ghost use Rattle.hierarchy.specs.Places.{class_key, place_of as place_among, place_above};

use crate::names::Numbers;
use crate::symbols::{own_name, super_name};
use const_pool::ClassFile;
use jmodel::NoMemory;
use std::alloc::{AllocError, Global};
use std::marker::Model;

/// Classes, with the place of the first class of each name, and for each class the place of its superclass.
pub struct Places<'a> {
    classes: &'a [&'a ClassFile],
    own: Numbers<'a>,
    above: Vec<Option<usize>>,
}

impl Drop for Places<'_> {
    fn drop(self) {
        let Self {
            classes: _,
            own: _,
            above: _,
        } = self;
    }
}

impl<'a> Model for Places<'a> {
    ghost use Rattle.std.specs.Prelude.{List, map};
    ghost use Rattle.jmodel.specs.format.ClassFile.{ClassFile as ClassForm};
    ghost use Rattle.hierarchy.specs.Places.{ArePlaces};

    ghost Value = { List ClassForm };

    ghost view = { λ p. map (λ c. c.now) p.classes.now };

    ghost invariant = { λ p. ArePlaces (map (λ c. c.now) p.classes.now) p.own p.above.items };
}

// The places of classes by their names.
fn by_name<'a>(alloc: Global, classes: &[&'a ClassFile]) -> Result<Numbers<'a>, NoMemory>
    ensures { IfOk result (λ n. AreFirst n (map class_key (map (λ c. c.now) classes.now))) }
{
    let mut places = Numbers::new(alloc);
    for (place, class) in classes.iter().enumerate() {
        places.note(own_name(class), b"", b"", place)?;
    }
    Ok(places)
}

// The places of the superclasses of classes, which have these places by their names.
fn superclasses<'a>(
    alloc: Global,
    classes: &[&'a ClassFile],
    own: &Numbers<'a>,
) -> Result<Vec<Option<usize>>, AllocError>
    requires { AreFirst own.now (map class_key (map (λ c. c.now) classes.now)) }
    ensures { IfOk result (λ v. v.items ≡ map (λ c. place_among (map (λ c. c.now) classes.now) (super_name_of c)) (map (λ c. c.now) classes.now)) }
{
    let mut above = Vec::new(alloc);
    for class in classes {
        above.push(own.get(super_name(class), b"", b""))?;
    }
    Ok(above)
}

impl<'a> Places<'a> {
    /// Looks up the places of classes and of their superclasses.
    pub fn new(alloc: Global, classes: &'a [&'a ClassFile]) -> Result<Self, NoMemory>
        ensures { IfOk result (λ p. p ≡ map (λ c. c.now) classes.now) }
    {
        let own = by_name(alloc, classes)?;
        let above = superclasses(alloc, classes, &own)?;
        Ok(Places {
            classes,
            own,
            above,
        })
    }

    /// The classes.
    pub fn classes(&self) -> &'a [&'a ClassFile]
        ensures { map (λ c. c.now) result.now ≡ self.now }
    {
        self.classes
    }

    /// How many classes there are.
    pub fn len(&self) -> usize
        ensures { result ≡ length self.now }
    {
        self.classes.len()
    }

    /// The place of the first class of a name.
    pub fn place_of(&self, name: &'a [u8]) -> Option<usize>
        ensures { result ≡ place_among self.now name.now }
    {
        self.own.get(name, b"", b"")
    }

    /// The class at a place, if there is a place and a class at it.
    pub fn class_at(&self, place: Option<usize>) -> Option<&'a ClassFile>
        ensures { option_map (λ c. c.now) result ≡ option_and_then (slice_get self.now) place }
    {
        self.classes.get(place?).copied()
    }

    /// The place of the superclass of the class at a place.
    pub fn above(&self, place: Option<usize>) -> Option<usize>
        ensures { result ≡ option_and_then (place_above self.now) place }
    {
        self.above.get(place?).copied().flatten()
    }

    /// The first class of a name.
    pub fn class_named(&self, name: &'a [u8]) -> Option<&'a ClassFile>
        ensures { option_map (λ c. c.now) result ≡ class_of_name self.now name.now }
    {
        self.class_at(self.place_of(name))
    }
}
