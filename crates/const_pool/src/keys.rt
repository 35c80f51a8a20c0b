//! Keys of the entries of a pool, and maps from texts and keys to the place of the first entry that has them.
ghost use Rattle.std.specs.Prelude.{◌≡◌, ℕ, List, Bool, OnOk, Option, bytes_eq};
ghost use Rattle.const_pool.specs.Firsts.{or_at, text_known, key_known, has_key};

use std::alloc::{AllocError, Global};
use std::collections::BTreeMap;

/// A number, or what an entry names by the places of the first entries that mean the same.
#[derive(Clone, Copy, PartialEq, Eq, PartialOrd, Ord)]
pub enum Key {
    Integer(i32),
    Long(i64),
    /// A class, by its name's place.
    Class(u16),
    /// A name and a descriptor, by their places.
    Pair(u16, u16),
    /// A reference to a field, by the places of its class and its pair.
    Field(u16, u16),
    Method(u16, u16),
    InterfaceMethod(u16, u16),
}

/// Places by text.
pub type Texts = BTreeMap<Vec<u8>, u16>;

/// Places by key.
pub type Keys = BTreeMap<Key, u16>;

/// The place of a text.
pub fn place_of_text(texts: &Texts, text: &[u8]) -> Option<u16>
    ensures { result ≡ text_known texts.now text.now }
{
    texts.get(text).copied()
}

/// The place of a key.
pub fn place_of_key(keys: &Keys, key: Key) -> Option<u16>
    ensures { result ≡ key_known keys.now key }
{
    keys.get(&key).copied()
}

/// Notes the place of a text that has none yet.
pub fn note_text(alloc: Global, texts: &mut Texts, text: &[u8], at: u16) -> Result<(), AllocError>
    ensures { OnOk result ((q : List ℕ) → text_known texts.new q ≡ or_at (text_known texts.old q) (bytes_eq text.now q) at) }
{
    if texts.contains_key(text) {
        return Ok(());
    }
    let copy = Vec::from_slice(alloc, text)?;
    texts.insert(copy, at)?;
    Ok(())
}

/// Notes the place of an entry whose key has none yet.
pub fn note_key(keys: &mut Keys, key: Option<Key>, at: u16) -> Result<(), AllocError>
    ensures { OnOk result ((q : Key) → key_known keys.new q ≡ or_at (key_known keys.old q) (has_key q key) at) }
{
    let Some(key) = key else {
        return Ok(());
    };
    if keys.contains_key(&key) {
        return Ok(());
    }
    keys.insert(key, at)?;
    Ok(())
}
