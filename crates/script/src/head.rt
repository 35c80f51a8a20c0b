//! What a script says beside its phases.
ghost use Rattle.std.specs.Prelude.{◌≡◌, ◌<◌, ◌^◌, ◌&&◌, [], pos, int_le, codes, IfOk};
ghost use Rattle.jmodel.specs.declared.refusal.Refusal.TheVariants.{OverLimit};
ghost use Rattle.jmodel.specs.format.Reading.{Gives};
ghost use Rattle.script.specs.Json.{Tests, wanted, may_be};
ghost use Rattle.script.specs.Script.{as_form, as_engine, head_of as head_in, numbers_within as are_numbers_within, is_within, region_limit};
ghost use Rattle.script.specs.Seen.{seen};
ghost use Rattle.script.specs.declared.head.EngineKind.TheVariants as engines;

use crate::members::{member_of, text_of, whole_at, whole_of, whole_or};
use crate::refusals::{bad_member, over_limit};
use crate::tree::Tree;
use jmodel::Halt;
use std::alloc::{AllocError, Global};

/// The most words of a region.
const MOST_WORDS: i64 = 1_048_576;

/// The engine that a script names.
#[derive(Clone, Copy)]
pub enum EngineKind {
    /// Transactional Locking II.
    Tl2,
    /// The Lazy Snapshot Algorithm with eager validation.
    Lsa,
}

/// What a script says beside its phases: its engine, how many lanes it has, the turns and the attempts that each call may take, and the
/// words of a region.
#[derive(Clone, Copy)]
pub struct Head {
    pub engine: EngineKind,
    pub lanes: i64,
    pub budget: i64,
    pub attempts: i64,
    pub region: i64,
}

/// A script names the form 1.
fn form_of(alloc: Global, script: &Tree) -> Result<i64, Halt>
    ensures { Gives (λ n. n) result (wanted as_form [] (codes "form") (seen script.now)) }
{
    match member_of(script, "form").and_then(whole_of) {
        Some(1) => Ok(1),
        _ => Err(bad_member(alloc, b"", "form")),
    }
}

/// The engine that a script names, or TL2 where it names none.
fn engine_of(alloc: Global, script: &Tree) -> Result<EngineKind, Halt>
    ensures { Gives (λ e. e) result (may_be as_engine engines.Tl2 [] (codes "engine") (seen script.now)) }
{
    let Some(engine) = member_of(script, "engine") else {
        return Ok(EngineKind::Tl2);
    };
    match text_of(engine) {
        Some("tl2") => Ok(EngineKind::Tl2),
        Some("lsa") => Ok(EngineKind::Lsa),
        _ => Err(bad_member(alloc, b"", "engine")),
    }
}

/// What a script says beside its phases. A call may take 100,000 turns and 1,000,000 attempts, and a region has 65,536 words, where it says no
/// other.
pub fn head_of(alloc: Global, script: &Tree) -> Result<Head, Halt>
    ensures { Gives (λ h. h) result (head_in (seen script.now)) }
{
    form_of(alloc, script)?;
    let engine = engine_of(alloc, script)?;
    let lanes = whole_at(alloc, b"", "lanes", script)?;
    let budget = whole_or(alloc, b"", "budget", script, 100_000)?;
    let attempts = whole_or(alloc, b"", "attempts", script, 1_000_000)?;
    let region = whole_or(alloc, b"", "region", script, 65_536)?;
    Ok(Head {
        engine,
        lanes,
        budget,
        attempts,
        region,
    })
}

/// A number is to lie within its limits.
fn within(alloc: Global, name: &str, low: i64, high: i64, number: i64) -> Result<(), Halt>
    ensures { Tests result (int_le low number && int_le number high) (OverLimit name.now number) }
{
    if low <= number && number <= high {
        Ok(())
    } else {
        Err(over_limit(alloc, name, number))
    }
}

/// The numbers of lanes, turns and attempts are to lie within their limits: 1 to 16, and 1 to 1,000,000.
fn numbers_within(alloc: Global, head: Head) -> Result<(), Halt>
    ensures { Gives (λ _. head) result (are_numbers_within head) }
{
    within(alloc, "lanes", 1, 16, head.lanes)?;
    within(alloc, "budget", 1, 1_000_000, head.budget)?;
    within(alloc, "attempts", 1, 1_000_000, head.attempts)
}

/// A region has from the fixed words that a run begins with to 1,048,576.
fn region_within(alloc: Global, fixed: u64, head: Head) -> Result<(), Halt>
    ensures { Tests result (int_le (pos fixed) head.region && int_le head.region (pos region_limit)) (OverLimit (codes "region") head.region) }
{
    let fixed = i64::try_from(fixed).map_err(|_| AllocError)?;
    within(alloc, "region", fixed, MOST_WORDS, head.region)
}

/// There are at most 10,000 phases.
fn phases_within(alloc: Global, phases: usize) -> Result<(), Halt>
    requires { phases < 2 ^ 63 }
    ensures { Tests result (int_le (pos 0) (pos phases) && int_le (pos phases) (pos 10000)) (OverLimit (codes "phases") (pos phases)) }
{
    within(alloc, "phases", 0, 10_000, phases as i64)
}

/// The numbers of a script are to lie within their limits, where a run begins with so many fixed words.
pub fn limits_of(alloc: Global, fixed: u64, head: Head, phases: usize) -> Result<(), Halt>
    requires { phases < 2 ^ 63 }
    ensures { Gives (λ _. head) result (is_within fixed head phases) }
{
    numbers_within(alloc, head)?;
    region_within(alloc, fixed, head)?;
    phases_within(alloc, phases)
}
