//! What a commit takes and looks at once more. It is found out, with all memory that this takes, before the first step.
ghost use Rattle.std.specs.Prelude.{◌≡◌, ◌%◌, ℕ, filter, is_none, option_map, reverse, IfOk, OnOk};
ghost use Rattle.std.specs.Ordering.{nat_cmp};
ghost use Rattle.std.specs.BTreeMap.{get};
ghost use Rattle.tx_table.specs.Book.{pairs};
ghost use Rattle.tl2.specs.Plans.{marked, number_of, IsPlan, IsWritten};

use jmodel::NoMemory;
use std::alloc::Global;
use std::collections::BTreeMap;
use tx_core::WriteLog;

/// How many stripes there are.
const STRIPES: u64 = 4096;

/// A stripe that a commit takes.
#[derive(Clone, Copy)]
pub struct Stripe {
    /// An address on it that is written.
    pub address: u64,
    /// Whether one of its addresses was read.
    pub was_read: bool,
    /// The word that it had, once it is held.
    pub word: u64,
}

impl Stripe {
    /// Its number.
    pub fn number(&self) -> u64
        ensures { result ≡ number_of self.now }
    {
        self.address % STRIPES
    }
}

/// The stripes of one commit.
#[derive(Drop)]
pub struct Plan {
    /// The stripes that are written, ascending.
    pub stripes: Vec<Stripe>,
    /// The addresses that were read and lie on none of these.
    pub read_elsewhere: Vec<u64>,
}

impl Plan {
    /// The plan for an attempt that wrote this and read these addresses.
    pub fn of(alloc: Global, writes: &WriteLog, reads: &[u64]) -> Result<Plan, NoMemory>
        ensures { IfOk result (λ p. IsPlan (pairs (reverse writes.now.items)) reads.now p.stripes.items p.read_elsewhere.items) }
    {
        let mut stripes = written_stripes(alloc, writes)?;
        let read_elsewhere = mark_read(alloc, &mut stripes, reads)?;
        Ok(Plan {
            stripes: stripes.values().copied().collect(alloc)?,
            read_elsewhere,
        })
    }
}

/// The stripes that are written, by their numbers.
fn written_stripes(alloc: Global, writes: &WriteLog) -> Result<BTreeMap<u64, Stripe>, NoMemory>
    ensures { IfOk result (λ m. IsWritten (pairs (reverse writes.now.items)) m) }
{
    let mut stripes = BTreeMap::new(alloc);
    for (address, _word) in writes.iter() {
        let stripe = Stripe {
            address: *address,
            was_read: false,
            word: 0,
        };
        stripes.insert(stripe.number(), stripe)?;
    }
    Ok(stripes)
}

/// Marks the stripes of which an address was read, and answers the addresses that lie on no such stripe.
fn mark_read(
    alloc: Global,
    stripes: &mut BTreeMap<u64, Stripe>,
    reads: &[u64],
) -> Result<Vec<u64>, NoMemory>
    ensures marks { OnOk result ((n : ℕ) → get nat_cmp stripes.new n ≡ option_map (marked reads.now n) (get nat_cmp stripes.old n)) }
    ensures elsewhere { IfOk result (λ v. v.items ≡ filter (λ a. is_none (get nat_cmp stripes.old (a % 4096))) reads.now) }
{
    let mut read_elsewhere = Vec::new(alloc);
    for address in reads {
        match stripes.get_mut(&(*address % STRIPES)) {
            Some(stripe) => stripe.was_read = true,
            None => read_elsewhere.push(*address)?,
        }
    }
    Ok(read_elsewhere)
}
