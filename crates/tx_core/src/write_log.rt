//! The writes of an attempt, and at hand the last of each address.
ghost use Rattle.std.specs.Prelude.{◌≡◌, ◌==◌, ◌++◌, [], ◌∷◌, ℕ, nat_eq, reverse, length, is_ok, if◌then◌else◌};
ghost use Rattle.std.specs.List.{IsDistinct};
ghost use Rattle.std.specs.Map.{lookup, keys_of};
ghost use Rattle.jmodel.specs.history.Log.{written};
ghost use Rattle.tx_core.specs.Kept.{first_written};

use indexmap::IndexMap;
use indexmap::map::Iter;
use jmodel::access::Access;
use std::alloc::{AllocError, Global};
use std::marker::Model;
use std::snapshot::Snapshot;

/// The last word that an attempt wrote to each address, in the order of the first writes. A clause sees the list of all
/// writes, the oldest first, as `items`. A look-up takes constant time where hashes differ.
pub struct WriteLog {
    words: IndexMap<u64, u64>,
    /// All writes, the oldest first, for contracts alone. A snapshot has no bytes.
    accesses: Vec<Snapshot<Access>>,
}

impl Drop for WriteLog {
    fn drop(self) {
        let Self {
            words: _,
            accesses: _,
        } = self;
    }
}

impl Model for WriteLog {
    ghost use Rattle.tx_core.specs.Kept.{Kept, IsIndexed, accesses_of};

    ghost Value = { Kept };

    ghost view = { λ l. record { items = accesses_of l.accesses.items } };

    ghost invariant = { λ l. IsIndexed (accesses_of l.accesses.items) l.words.entries };
}

impl WriteLog {
    /// No writes. No memory.
    pub fn new(alloc: Global) -> Self
        ensures { result.items ≡ [] }
    {
        WriteLog {
            words: IndexMap::new(alloc),
            accesses: Vec::new(alloc),
        }
    }

    /// Adds a write. An `Err` leaves all as it was.
    pub fn push(&mut self, access: Access) -> Result<(), AllocError>
        ensures items { self.new.items ≡ (if is_ok result then self.old.items ++ access ∷ [] else self.old.items) }
    {
        self.accesses.push(Snapshot::of(&access))?;
        if self.words.insert(access.address, access.word).is_err() {
            self.accesses.pop();
            return Err(AllocError);
        }
        Ok(())
    }

    /// Forgets all. No memory.
    pub fn clear(&mut self)
        ensures items { self.new.items ≡ [] }
    {
        self.accesses.clear();
        self.words.clear();
    }

    /// The last word written to an address. No memory.
    pub fn written(&self, address: u64) -> Option<u64>
        ensures { result ≡ written (reverse self.now.items) address }
    {
        // Most reads of an attempt come before its first write, and need no hash.
        if self.words.is_empty() {
            return None;
        }
        self.words.get(&address).copied()
    }

    /// Whether there are none.
    pub fn is_empty(&self) -> bool
        ensures { result ≡ (length self.now.items == 0) }
    {
        self.accesses.is_empty()
    }

    /// Each address that was written, with its last word, in the order of the first writes.
    pub fn iter(&self) -> Iter<'_, u64, u64>
        ensures words { (a : ℕ) → lookup (nat_eq a) result ≡ written (reverse self.now.items) a }
        ensures order { keys_of result ≡ first_written (reverse self.now.items) }
        ensures once { IsDistinct nat_eq (keys_of result) }
    {
        self.words.iter()
    }
}
