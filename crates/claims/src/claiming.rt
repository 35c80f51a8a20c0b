//! How claims are opened, split, made and joined.
ghost use Rattle.std.specs.Prelude.{◌≡◌, ◌+◌, ◌<◌, ◌≤◌, IfOk};
ghost use Rattle.claims.specs.Claims.{first_claims, stays, goes, joined, HasClaimed};
ghost use Rattle.claims.specs.Passes.{claims_of, IsOf};

use crate::bag::{Bag, BagPass};
use crate::law::{Claim, Merge, Part, Sharing};
use atomic_table::Table;
use jmodel::NoMemory;
use std::alloc::Global;
use std::marker::Brand;

impl Bag {
    /// Opens the claims of a bag of so many calls. Nothing is claimed, and the pass may make 2^32 claims. `NoMemory` says that there was no memory
    /// for the word; no other call takes any.
    pub fn open(alloc: Global, length: u32) -> Result<(Bag, BagPass), NoMemory>
        ensures { IfOk result (λ r. (r.0.length ≡ length) × IsOf r.0 r.1 × (claims_of r.1 ≡ first_claims)) }
    {
        let (table, seat) = Table::of_words(alloc, &[0u64], &())?;
        Ok((Bag { table, length }, BagPass { seat }))
    }
}

impl BagPass {
    /// Splits off a pass with no index, which may make one claim more than the bag has calls.
    pub fn split(&mut self, b: &Bag) -> BagPass
        requires bag { IsOf b.now self.old }
        requires left { b.now.length + 1 ≤ (claims_of self.old).left }
        ensures bag { IsOf b.now self.new × IsOf b.now result }
        ensures claims { (claims_of self.new ≡ stays (b.now.length + 1) (claims_of self.old)) × (claims_of result ≡ goes (b.now.length + 1)) }
    {
        self.split_as::<Brand>(b)
    }

    fn split_as<G: Sharing>(&mut self, b: &Bag) -> BagPass
        requires bag { IsOf b.now self.old }
        requires left { G.count ≤ (claims_of self.old).left }
        ensures bag { IsOf b.now self.new × IsOf b.now result }
        ensures claims { (claims_of self.new ≡ stays G.count (claims_of self.old)) × (claims_of result ≡ goes G.count) }
    {
        let seat = b.table.shared.split_seat::<Part<G>>(&mut self.seat);
        BagPass { seat }
    }

    /// Joins another pass to this one, with its indexes and its claims.
    pub fn join(&mut self, b: &Bag, other: BagPass)
        requires bag { IsOf b.now self.old × IsOf b.now other }
        ensures bag { IsOf b.now self.new }
        ensures claims { claims_of self.new ≡ joined (claims_of self.old) (claims_of other) }
    {
        let BagPass { seat } = other;
        b.table.shared.join_seat::<Merge>(&mut self.seat, seat);
    }

    /// Claims the next number, and answers it as an index of the bag. None comes exactly where it is at or over the length of the bag.
    pub fn claim(&mut self, b: &Bag) -> Option<u32>
        requires bag { IsOf b.now self.old }
        requires left { 0 < (claims_of self.old).left }
        ensures bag { IsOf b.now self.new }
        ensures claims { HasClaimed b.now.length (claims_of self.old) (claims_of self.new) result }
    {
        let found = b.table.shared.fetch_add::<Claim>(&mut self.seat, 0, 1);
        if found < u64::from(b.length) {
            Some(found as u32)
        } else {
            None
        }
    }
}
