//! The words that a call may take, and the exceptions that it throws.
ghost use Rattle.std.specs.Prelude.{◌≡◌, ◌+◌, ◌*◌, ◌<◌, ◌^◌, true, false, IfSome, IsNone};
ghost use Rattle.objects.specs.semantics.Region.{has_words, next_reference};
ghost use Rattle.machine.specs.Machine.{region_of};

use region::Region;

/// The region that a call takes words from.
#[derive(Clone, Copy)]
pub struct Room {
    /// The region's number.
    pub region: u64,
    /// How many words each region has.
    pub size: u64,
    /// How many words of the region are used before the call.
    pub used: u64,
}

/// An exception that was thrown, by the number of its type.
#[derive(Clone, Copy)]
pub struct Thrown {
    pub reference: u64,
    pub of: usize,
}

impl Room {
    /// Where an object of so many words lies behind the used ones, if the region has room for it. No object lies at address 0, which is null, or at
    /// address 1, the conflict's.
    pub fn place(self, used: u64, words: u64) -> Option<u64>
        requires { self.region * self.size + self.size < 2 ^ 64 }
        ensures there { IfSome result (λ reference. (has_words (region_of self) used words ≡ true) × (reference ≡ next_reference (region_of self) used)) }
        ensures full { IsNone result → has_words (region_of self) used words ≡ false }
    {
        if used > self.size {
            return None;
        }
        let mut region = Region::new(self.region * self.size, self.size, used);
        match region.take(words) {
            Ok(reference) if reference > 1 => Some(reference),
            _ => None,
        }
    }
}
