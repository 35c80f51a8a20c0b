//! Memory between calls, and what each call may use of it.
ghost use Rattle.std.specs.Prelude.{◌≡◌};

use session::{Limits as CallLimits, Room};

/// How many lanes a phase has at most.
pub const LANES: usize = 16;

/// The words of memory, and how many of them are used in region 0. None is used in any other.
#[derive(Drop)]
pub struct Memory {
    pub words: Vec<u64>,
    pub used: u64,
}

/// What each call of a run may use: turns in each attempt, attempts, and a region of so many words.
#[derive(Clone, Copy)]
pub struct Limits {
    pub budget: u64,
    pub attempts: u64,
    pub size: u64,
}

impl Limits {
    /// The same for calls that take words of a region, of which so many are used.
    pub fn in_region(self, region: u64, used: u64) -> CallLimits
        ensures { result ≡ record { budget = self.budget; attempts = self.attempts; room = record { region = region; size = self.size; used = used } } }
    {
        CallLimits {
            budget: self.budget,
            attempts: self.attempts,
            room: Room {
                region,
                size: self.size,
                used,
            },
        }
    }
}
