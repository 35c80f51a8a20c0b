//! A constant pool, and what its entries mean (JVM Specification, Java SE 7, section 4.4).
ghost use Rattle.std.specs.Prelude.{◌≡◌, ◌<◌, [], ◌∷◌, ◌++◌, OnOk, OnErr, option_copied, length, take};
ghost use Rattle.jmodel.specs.declared.class_file.Constant.TheVariants.{Second};
ghost use Rattle.jmodel.specs.declared.refusal.Halt.TheVariants as halts;
ghost use Rattle.jmodel.specs.declared.refusal.Refusal.TheVariants.{PoolFull};
ghost use Rattle.jmodel.specs.format.PoolAdding.{Puts, IsLonger, put as put_entries};
ghost use Rattle.jmodel.specs.format.Reading.{Gives};
ghost use Rattle.const_pool.specs.Indexed.{IsIndexed};
ghost use Rattle.const_pool.specs.Places.{places_at};
ghost use Rattle.jmodel.specs.format.Pool.{entry, utf8 as text_of, class_name as class_of, member_name, MemberName};
ghost use Rattle.jmodel.specs.format.PoolReading.{entry_at, utf8_at, class_at, name_and_type_at};

use crate::by_index;
use crate::index::Index;
use crate::places::Places;
use jmodel::{Bytes, Constant, Halt, Refusal};
use std::alloc::{AllocError, Global};
use std::marker::Model;

/// A constant pool. A clause sees the list of its entries, from index 1.
pub struct Pool {
    entries: Vec<Constant>,
    index: Index,
    places: Places,
}

impl Drop for Pool {
    fn drop(self) {
        let Self {
            entries: _,
            index: _,
            places: _,
        } = self;
    }
}

impl Model for Pool {
    ghost use Rattle.std.specs.Prelude.{List};
    ghost use Rattle.jmodel.specs.declared.class_file.Constant.{Constant as Entry};

    ghost Value = { List Entry };

    ghost view = { λ p. p.entries.items };

    ghost use Rattle.std.specs.Prelude.{◌<◌, length};
    ghost use Rattle.const_pool.specs.Indexed.{IsIndexed};
    ghost use Rattle.const_pool.specs.Places.{IsKept};

    ghost invariant = { λ p. (length p.entries.items < 65535) × IsIndexed p.index p.entries.items × IsKept p.places p.entries.items };
}

// Refusal of an entry for which there is no room. The caller knows the class.
pub(crate) fn full(alloc: Global) -> Halt
    ensures { result ≡ halts.Refused (PoolFull []) }
{
    Halt::Refused(Refusal::PoolFull(Bytes::new(alloc)))
}

impl Pool {
    /// A pool without entries. Takes no memory.
    pub fn new(alloc: Global) -> Self
        ensures { result ≡ [] }
    {
        Pool {
            entries: Vec::new(alloc),
            index: Index::new(alloc),
            places: Places::new(alloc),
        }
    }

    /// A pool of these entries, whose count field has two bytes. Takes no memory.
    pub fn from_entries(entries: Vec<Constant>) -> Self
        requires { length entries.items < 65535 }
        ensures { result ≡ entries.items }
    {
        let alloc = *entries.allocator();
        Pool {
            entries,
            index: Index::new(alloc),
            places: Places::new(alloc),
        }
    }

    /// Walks each text once, so that `argument_places` walks none of these again. After an error nothing has changed.
    pub fn keep_places(&mut self) -> Result<(), AllocError>
        ensures { self.new ≡ self.old }
    {
        self.places = Places::of(self.allocator(), self.entries.as_slice())?;
        Ok(())
    }

    /// Puts an entry at the end, with the next index. After an error nothing has changed.
    pub fn push(&mut self, entry: Constant) -> Result<(), AllocError>
        requires { length self.old < 65534 }
        ensures ok { OnOk result (self.new ≡ self.old ++ entry ∷ []) }
        ensures err { OnErr result (self.new ≡ self.old) }
    {
        self.entries.push(entry)?;
        Ok(())
    }

    // The allocator of the entries.
    pub(crate) fn allocator(&self) -> Global {
        *self.entries.allocator()
    }

    // How many entries there are.
    pub(crate) fn len(&self) -> usize
        ensures len { result ≡ length self.now }
        ensures few { result < 65535 }
    {
        self.entries.len()
    }

    // An entry at the end, and its index. Refused as PoolFull where the count field has no room for it.
    pub(crate) fn put(&mut self, entry: Constant) -> Result<u16, Halt>
        ensures puts { Puts result self.new (put_entries self.old (entry ∷ [])) }
        ensures grows { IsLonger self.old self.new }
    {
        let len = self.entries.len();
        if len == 65534 {
            return Err(full(self.allocator()));
        }
        self.entries.push(entry)?;
        Ok(len as u16 + 1)
    }

    // An entry that takes two indexes at the end, and its index. Refused likewise.
    pub(crate) fn put_wide(&mut self, entry: Constant) -> Result<u16, Halt>
        ensures puts { Puts result self.new (put_entries self.old (entry ∷ Second ∷ [])) }
        ensures grows { IsLonger self.old self.new }
    {
        let len = self.entries.len();
        if len >= 65533 {
            return Err(full(self.allocator()));
        }
        self.entries.push(entry)?;
        self.entries.push(Constant::Second)?;
        Ok(len as u16 + 1)
    }

    // Takes out what stands behind the first `len` entries.
    pub(crate) fn truncate(&mut self, len: usize)
        ensures { self.new ≡ take len self.old }
    {
        if len < self.index.count() {
            self.index = Index::new(self.allocator());
        }
        self.places.truncate(len);
        self.entries.truncate(len);
    }

    // The index, which knows the entries at the front.
    pub(crate) fn index(&self) -> &Index
        ensures { IsIndexed result.now self.now }
    {
        &self.index
    }

    // Takes the other entries into the index.
    pub(crate) fn extend_index(&mut self) -> Result<(), AllocError>
        ensures { self.new ≡ self.old }
    {
        let alloc = self.allocator();
        self.index.extend(alloc, self.entries.as_slice())
    }

    // The places of the parameters that the text of an index describes.
    pub(crate) fn parameter_places(&self, i: u16) -> Option<u8>
        ensures { result ≡ places_at self.now i }
    {
        self.places.at(self.entries.as_slice(), i)
    }

    /// The entries, that of index 1 first.
    pub fn entries(&self) -> &[Constant]
        ensures value { result.now ≡ self.now }
        ensures few { length result.now < 65535 }
    {
        self.entries.as_slice()
    }

    /// The entry of an index. Takes no memory.
    pub fn entry(&self, i: u16) -> Option<&Constant>
        ensures { option_copied result ≡ entry self.now i }
    {
        by_index::entry(self.entries.as_slice(), i)
    }

    /// The bytes of a Utf8, None where the index isn't a Utf8's. Takes no memory.
    pub fn utf8(&self, i: u16) -> Option<&Bytes>
        ensures { option_copied result ≡ text_of self.now i }
    {
        by_index::text(self.entries.as_slice(), i)
    }

    /// The name of a Class, None where the index isn't a Class's that has a name. Takes no memory.
    pub fn class_name(&self, i: u16) -> Option<&Bytes>
        ensures { option_copied result ≡ class_of self.now i }
    {
        by_index::class_name(self.entries.as_slice(), i)
    }

    /// The entry of an index that is to be there. Refused as BadIndex where it is 0, past the end or a second place.
    pub fn entry_at(&self, i: u16) -> Result<&Constant, Halt>
        ensures { Gives (λ c. c.now) result (entry_at self.now i) }
    {
        match self.entry(i) {
            None | Some(Constant::Second) => Err(Halt::Refused(Refusal::BadIndex(i as i64))),
            Some(c) => Ok(c),
        }
    }

    /// The bytes of an index that is to be a Utf8's, else refused as BadIndex or WrongKind.
    #[tactic(auto, unfolding(jmodel::specs::format::PoolReading::utf8_at))]
    pub fn utf8_at(&self, i: u16) -> Result<&Bytes, Halt>
        ensures { Gives (λ b. b.now) result (utf8_at self.now i) }
    {
        match self.entry_at(i)? {
            Constant::Utf8(bytes) => Ok(bytes),
            _ => Err(Halt::Refused(Refusal::WrongKind(i as i64))),
        }
    }

    /// The name's index of an index that is to be a Class's, else refused as BadIndex or WrongKind.
    #[tactic(auto, unfolding(jmodel::specs::format::PoolReading::class_at))]
    pub fn class_at(&self, i: u16) -> Result<u16, Halt>
        ensures { Gives (λ n. n) result (class_at self.now i) }
    {
        match self.entry_at(i)? {
            Constant::Class(name) => Ok(*name),
            _ => Err(Halt::Refused(Refusal::WrongKind(i as i64))),
        }
    }

    /// The indexes of name and descriptor of an index that is to be a NameAndType's, else refused as BadIndex or WrongKind.
    #[tactic(auto, unfolding(jmodel::specs::format::PoolReading::name_and_type_at))]
    pub fn name_and_type_at(&self, i: u16) -> Result<(u16, u16), Halt>
        ensures { Gives (λ p. p) result (name_and_type_at self.now i) }
    {
        match self.entry_at(i)? {
            Constant::NameAndType { name, descriptor } => Ok((*name, *descriptor)),
            _ => Err(Halt::Refused(Refusal::WrongKind(i as i64))),
        }
    }
}
