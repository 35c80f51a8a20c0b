//! A region of memory, from which calls take words. The region holds no memory itself: it counts.
#![tactic(auto)]

ghost use Rattle.std.specs.Prelude.{◌≡◌, ◌+◌, ◌<◌, ◌≤◌, ◌^◌, MatchResult};

use std::marker::Model;

/// The words from `base` on, of which the first `used` are taken. No call of it takes memory.
#[derive(Drop)]
pub struct Region {
    base: u64,
    size: u64,
    used: u64,
}

impl Model for Region {
    ghost use Rattle.std.specs.Prelude.{◌+◌, ◌<◌, ◌≤◌, ◌^◌};
    ghost use Rattle.region.specs.Region.{Words};

    ghost Value = { Words };

    ghost view = { λ r. record { base = r.base; size = r.size; used = r.used } };

    ghost invariant = { λ r. (r.used ≤ r.size) × (r.base + r.size < 2 ^ 64) };
}

/// A region hasn't so many words more: how many of its words are used, how many were wanted, and how many it has.
#[derive(Clone, Copy)]
pub struct HeapFull {
    pub used: u64,
    pub wanted: u64,
    pub size: u64,
}

impl Region {
    /// The region of `size` words from address `base` on, of which so many are used.
    pub fn new(base: u64, size: u64, used: u64) -> Self
        requires used { used ≤ size }
        requires fits { base + size < 2 ^ 64 }
        ensures { result ≡ record { base = base; size = size; used = used } }
    {
        Region { base, size, used }
    }

    /// Takes words behind the used ones, and answers the address of the first. `HeapFull` exactly where the region hasn't so many, and then nothing
    /// changed.
    pub fn take(&mut self, words: u64) -> Result<u64, HeapFull>
        ensures taken { MatchResult result
            (λ first. (self.old.used + words ≤ self.old.size) × (first ≡ self.old.base + self.old.used) × (self.new ≡ record self.old { used = self.old.used + words }))
            (λ full. (self.old.size < self.old.used + words) × (full ≡ record { used = self.old.used; wanted = words; size = self.old.size }) × (self.new ≡ self.old)) }
    {
        if words > self.size - self.used {
            return Err(HeapFull {
                used: self.used,
                wanted: words,
                size: self.size,
            });
        }
        let first = self.base + self.used;
        self.used += words;
        Ok(first)
    }

    /// Where the region stands, to be set back to.
    pub fn mark(&self) -> u64
        ensures { result ≡ self.now.used }
    {
        self.used
    }

    /// Gives back what was taken since the mark.
    pub fn reset(&mut self, mark: u64)
        requires { mark ≤ self.old.used }
        ensures { self.new ≡ record self.old { used = mark } }
    {
        self.used = mark;
    }

    /// How many words are used.
    pub fn used(&self) -> u64
        ensures { result ≡ self.now.used }
    {
        self.used
    }
}
