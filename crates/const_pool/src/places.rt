//! How many places arguments take, by the method descriptors of a pool (JVM Specification, Java SE 7, section 4.3.3). A long
//! text may be named by many entries, and each of these by many instructions, so each text is walked once.
ghost use Rattle.std.specs.Prelude.{◌≡◌, [], map, take, IfOk, option_and_then};
ghost use Rattle.jmodel.specs.format.Instruction.{places_in, argument_places as arguments_of};
ghost use Rattle.jmodel.specs.format.Pool.{class_name as class_of, pair as pair_of, named as named_of};
ghost use Rattle.const_pool.specs.Places.{entry_places as places_of_entry, places_at, IsKept};

use crate::by_index::text;
use crate::descriptor::parameter_places;
use crate::pool::Pool;
use jmodel::Constant;
use std::alloc::{AllocError, Global};
use std::marker::Model;

/// For each of the entries at the front of a pool the places of the parameters that it describes, None where it is no
/// method descriptor.
#[derive(Drop)]
pub struct Places {
    counts: Vec<Option<u8>>,
}

impl Model for Places {
    ghost use Rattle.std.specs.Prelude.{List, Option, ℕ};

    ghost Value = { List (Option ℕ) };

    ghost view = { λ p. p.counts.items };
}

fn entry_places(entry: &Constant) -> Option<u8>
    ensures { result ≡ places_of_entry entry.now }
{
    match entry {
        Constant::Utf8(text) => parameter_places(text.as_slice()),
        _ => None,
    }
}

impl Places {
    /// Those of no entry. Takes no memory.
    pub fn new(alloc: Global) -> Self
        ensures { result ≡ [] }
    {
        Places {
            counts: Vec::new(alloc),
        }
    }

    /// Walks each text of the entries once.
    pub fn of(alloc: Global, entries: &[Constant]) -> Result<Self, AllocError>
        ensures { IfOk result (λ p. p ≡ map places_of_entry entries.now) }
    {
        let mut counts = Vec::new(alloc);
        for entry in entries {
            counts.push(entry_places(entry))?;
        }
        Ok(Places { counts })
    }

    /// Those of the text of an index. The text is walked where nothing is kept of it. Takes no memory.
    pub fn at(&self, entries: &[Constant], i: u16) -> Option<u8>
        requires { IsKept self.now entries.now }
        ensures { result ≡ places_at entries.now i }
    {
        let text = text(entries, i)?;
        match self.counts.as_slice().get(i as usize - 1) {
            Some(count) => *count,
            None => parameter_places(text.as_slice()),
        }
    }

    /// Forgets what stands behind the first `len`.
    pub fn truncate(&mut self, len: usize)
        ensures { self.new ≡ take len self.old }
    {
        self.counts.truncate(len);
    }
}

impl Pool {
    // The places of the arguments of a method, with the receiver, by the indexes of its class and of its NameAndType.
    fn places_of_method(&self, class: u16, pair: u16) -> Option<usize>
        ensures { result ≡ option_and_then places_in (named_of (class_of self.now class) (pair_of self.now pair)) }
    {
        let _ = self.class_name(class)?;
        match self.entry(pair) {
            Some(Constant::NameAndType { name, descriptor }) => {
                let _ = self.utf8(*name)?;
                let parameters = self.parameter_places(*descriptor)?;
                Some(1 + parameters as usize)
            }
            _ => None,
        }
    }

    /// The places of the arguments of an InterfaceMethodref with the receiver, None where the index isn't one's that has a
    /// class, a name and a method descriptor. Takes no memory.
    pub fn argument_places(&self, i: u16) -> Option<usize>
        ensures { result ≡ arguments_of self.now i }
    {
        match self.entry(i) {
            Some(Constant::InterfaceMethod { class, pair }) => self.places_of_method(*class, *pair),
            _ => None,
        }
    }
}
