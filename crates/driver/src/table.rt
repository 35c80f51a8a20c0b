//! A table of shared words for the phases of a script.
ghost use Rattle.std.specs.Prelude.{◌≡◌, ◌≤◌, ◌<◌, ◌+◌, ◌^◌, ℕ, length, IfOk};
ghost use Rattle.jmodel.specs.history.History.{Entry};
ghost use Rattle.tx_table.specs.Passes.{book};
ghost use Rattle.driver.specs.Passing.{used_of, AreUsed, IsWhole, IsUnused, HasRoom, IsSplit, AreStarting};

use crate::memory::{LANES, Memory};
use std::alloc::{AllocError, Global};
use std::marker::{Brand, PhantomData};
use std::snapshot::Snapshot;
use tx_table::{Pass, Ruled, Shared, Story};

/// What a table is opened with, and what its entries keep to. A caller picks all of it for its proof.
pub trait Keeping {
    ghost use Rattle.std.specs.Prelude.{ℕ, List};

    /// The words that a table is opened with.
    ghost words: { List ℕ };

    /// How many of them are used in region 0.
    ghost used: { ℕ };

    ghost rule: { Entry → Type 0 };
}

impl Keeping for Brand {
    ghost use Rattle.std.specs.Prelude.{[]};

    ghost words = { [] };

    ghost used = { 0 };

    ghost rule = { λ _. Unit {0} };
}

/// The story of a table that is opened so.
#[derive(Drop)]
pub struct Opening<K> {
    of: PhantomData<K>,
}

impl<K: Keeping> Story for Opening<K> {
    ghost use Rattle.driver.specs.Stories.{story_of};

    ghost story = { λ o. story_of K.rule K.words K.used };
}

impl<K: Keeping> Ruled for Opening<K> {
    ghost rule = { K.rule };

    ghost keeps = { λ o e r. r };

    ghost ruled = { λ o e r. r };
}

/// A lane that is to run: its number, how many words of its region are used, and the pass that it starts with.
#[derive(Drop)]
pub struct Start {
    pub lane: u8,
    pub used: u64,
    pub pass: Pass,
}

/// Opens a table over the words of memory.
pub fn open_table<K: Keeping>(
    alloc: Global,
    memory: Memory,
) -> Result<(Shared<Opening<K>>, Pass), AllocError>
    requires size { length memory.words.items + 4097 < 2 ^ 32 }
    requires words { memory.words.items ≡ K.words }
    ensures pass { IfOk result (λ r. IsWhole r.0.table.shared.table_id 0 r.1 × IsUnused (book r.1)) }
    ensures unused { IfOk result (λ r. (lane : ℕ) → lane < 16 → used_of (book r.1) lane ≡ 0) }
{
    let Memory { words, used: _ } = memory;
    let story = Snapshot::of(&Opening::<K> { of: PhantomData });
    Shared::open(alloc, words, story).map_err(|_| AllocError)
}

/// Splits off a pass for each of so many lanes of a phase.
pub fn start_lanes<K: Keeping>(
    alloc: Global,
    shared: &Shared<Opening<K>>,
    pass: &mut Pass,
    count: u8,
    used: &[u64; LANES],
) -> Result<Vec<Start>, AllocError>
    requires count { count ≤ 16 }
    requires pass { (phase : ℕ) × IsWhole shared.now.table.shared.table_id phase pass.old }
    requires room { HasRoom 0 (book pass.old) }
    requires used { AreUsed used.now (book pass.old) }
    ensures len { IfOk result (λ starts. length starts.items ≡ count) }
    ensures starts { (phase : ℕ) → IsWhole shared.now.table.shared.table_id phase pass.old
        → IfOk result (λ starts. AreStarting shared.now.table.shared.table_id (book pass.old).seen phase starts.items) }
    ensures pass { IfOk result (λ _. IsSplit shared.now.table.shared.table_id (book pass.old) count pass.new) }
{
    let mut starts = Vec::new(alloc);
    for lane in 0..count {
        let pass = pass.split(shared);
        let used = used[usize::from(lane)];
        starts.push(Start { lane, used, pass })?;
    }
    Ok(starts)
}
