//! Pools of the classes that are made.
ghost use Rattle.std.specs.Prelude.{◌≡◌, ◌<◌, IfOk, map, length};
ghost use Rattle.bankgen.specs.Entries.{constant_of};

use const_pool::{Constant, Pool};
use jmodel::Bytes;
use std::alloc::{AllocError, Global};

/// An entry of a pool, whose text is not yet copied.
#[derive(Clone, Copy)]
pub enum Entry {
    Text(&'static [u8]),
    Class(u16),
    NameAndType(u16, u16),
    Field(u16, u16),
    Method(u16, u16),
}

fn constant(alloc: Global, entry: Entry) -> Result<Constant, AllocError>
    ensures { IfOk result (λ c. c ≡ constant_of entry) }
{
    Ok(match entry {
        Entry::Text(text) => Constant::Utf8(Bytes::from_slice(alloc, text)?),
        Entry::Class(name) => Constant::Class(name),
        Entry::NameAndType(name, descriptor) => Constant::NameAndType { name, descriptor },
        Entry::Field(class, pair) => Constant::Field { class, pair },
        Entry::Method(class, pair) => Constant::Method { class, pair },
    })
}

/// A pool of these entries, from index 1.
pub fn pool_of(alloc: Global, entries: &[Entry]) -> Result<Pool, AllocError>
    requires { length entries.now < 65535 }
    ensures { IfOk result (λ p. p ≡ map constant_of entries.now) }
{
    let mut constants = Vec::new(alloc);
    for entry in entries {
        constants.push(constant(alloc, *entry)?)?;
    }
    Ok(Pool::from_entries(constants))
}
