//! Where the objects of classes' static fields lie: one after another from 2 on, in the order of the classes.
ghost use Rattle.std.specs.Prelude.{◌≡◌, ◌+◌, map, IfOk};
ghost use Rattle.objects.specs.linking.Linking.{base_in as base_among};
ghost use Rattle.linking.specs.Bases.{AreBases};

use const_pool::ClassFile;
use heap_layout::fields::base_words;
use hierarchy::places::Places;
use jmodel::NoMemory;
use std::alloc::{AllocError, Global};
use std::marker::Model;

// The address so many words behind another.
fn behind(base: u64, words: u64) -> Result<u64, AllocError>
    ensures { IfOk result (λ n. n ≡ base + words) }
{
    base.checked_add(words).ok_or(AllocError)
}

// Where the object of each class lies, and the address behind all of them.
fn bases_of(alloc: Global, classes: &[&ClassFile]) -> Result<Vec<u64>, AllocError>
    ensures { IfOk result (λ v. AreBases v.items (map (λ c. c.now) classes.now)) }
{
    let mut bases = Vec::new(alloc);
    let mut base: u64 = 2;
    for class in classes {
        bases.push(base)?;
        base = behind(base, base_words(class)?)?;
    }
    bases.push(base)?;
    Ok(bases)
}

/// Classes, and where the object of each one's static fields lies.
pub struct Bases<'a> {
    places: Places<'a>,
    bases: Vec<u64>,
}

impl Drop for Bases<'_> {
    fn drop(self) {
        let Self {
            places: _,
            bases: _,
        } = self;
    }
}

impl<'a> Model for Bases<'a> {
    ghost use Rattle.std.specs.Prelude.{List};
    ghost use Rattle.jmodel.specs.format.ClassFile.{ClassFile as ClassForm};
    ghost use Rattle.linking.specs.Bases.{AreBases};

    ghost Value = { List ClassForm };

    ghost view = { λ b. b.places };

    ghost invariant = { λ b. AreBases b.bases.items b.places };
}

impl<'a> Bases<'a> {
    /// Lays the objects of classes' static fields one behind the other. NoMemory also where there are more words than addresses.
    pub fn new(alloc: Global, classes: &'a [&'a ClassFile]) -> Result<Self, NoMemory>
        ensures { IfOk result (λ b. b ≡ map (λ c. c.now) classes.now) }
    {
        let bases = bases_of(alloc, classes)?;
        Ok(Bases {
            places: Places::new(alloc, classes)?,
            bases,
        })
    }

    /// Where the object of the static fields of the class of a name lies; the address behind all of them, where there is none of that name.
    pub fn base_in(&self, name: &'a [u8]) -> u64
        ensures { result ≡ base_among self.now name.now }
    {
        let place = self.places.place_of(name).unwrap_or(self.places.len());
        let bases = self.bases.as_slice();
        bases[place]
    }
}
