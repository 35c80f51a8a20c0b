//! Scripts.
ghost use Rattle.std.specs.Prelude.{◌≡◌, Err, IfOk, IfSome, length, map, pos, sum_by};
ghost use Rattle.jmodel.specs.declared.refusal.Halt.TheVariants as halts;
ghost use Rattle.jmodel.specs.declared.refusal.Refusal.{Refusal as Why};
ghost use Rattle.jmodel.specs.format.Reading.{Gives};
ghost use Rattle.objects.specs.linking.Layout.{fixed_words};
ghost use Rattle.script.specs.Script.{Script as Form, calls_of as calls_in, script_in, script_of as script_made_of, script_with as script_made_with, IsScript, IsFault};
ghost use Rattle.script.specs.Seen.{seen, lists as seen_lists};

use crate::calls::{LaneCalls, Methods};
use crate::head::{EngineKind, Head, head_of, limits_of};
use crate::lists::{PhaseLists, lists_of};
use crate::members::object_at;
use crate::phases::{Calls, PhaseCalls};
use crate::refusals::over_limit;
use crate::texts::tree_of;
use crate::tree::Tree;
use const_pool::ClassFile;
use hierarchy::Program;
use jmodel::Halt;
use std::alloc::Global;
use std::marker::Model;

/// The most bytes of a script.
const MOST_BYTES: usize = 16_777_216;

/// The most calls that a script may have.
const MOST_CALLS: i64 = 100_000;

/// The keys that a script may have.
const KEYS: [&str; 7] = [
    "form", "engine", "lanes", "budget", "attempts", "region", "phases",
];

/// A script: the engine of its calls, the turns and the attempts that each call may take, how many lanes there are, how many words each region has, and what each phase calls.
pub struct Script {
    pub engine: EngineKind,
    pub budget: u64,
    pub attempts: u64,
    pub lanes: u64,
    pub region: u64,
    pub phases: Vec<PhaseCalls>,
}

impl Drop for Script {
    fn drop(self) {
        let Self {
            engine: _,
            budget: _,
            attempts: _,
            lanes: _,
            region: _,
            phases: _,
        } = self;
    }
}

impl Model for Script {
    ghost use Rattle.script.specs.Script.{Script as Form};

    ghost Value = { Form };

    ghost view = { λ s. record { engine = s.engine; budget = s.budget; attempts = s.attempts; lanes = s.lanes; region = s.region; phases = s.phases.items } };
}

/// How many calls lanes have, or None where a number doesn't hold as many.
fn calls_in_lanes(lanes: &[LaneCalls]) -> Option<i64>
    ensures { IfSome result (λ n. n ≡ pos (sum_by length lanes.now)) }
{
    let mut count = 0;
    for lane in lanes {
        let calls = i64::try_from(lane.calls.len()).ok()?;
        count = i64::checked_add(count, calls)?;
    }
    Some(count)
}

/// How many calls a phase has, or None where a number doesn't hold as many.
fn calls_in_phase(phase: &PhaseCalls) -> Option<i64>
    ensures { IfSome result (λ n. n ≡ pos (calls_in phase.now)) }
{
    match &phase.calls {
        Calls::Lanes(lanes) => calls_in_lanes(lanes),
        Calls::Bag { lanes: _, calls } => i64::try_from(calls.calls.len()).ok(),
    }
}

/// How many calls there are in all, or None where a number doesn't hold as many.
fn count_of(phases: &[PhaseCalls]) -> Option<i64>
    ensures { IfSome result (λ n. n ≡ pos (sum_by calls_in phases.now)) }
{
    let mut count = 0;
    for phase in phases {
        count = i64::checked_add(count, calls_in_phase(phase)?)?;
    }
    Some(count)
}

/// The script of a head and of phases, which has at most 100,000 calls.
fn script_with(alloc: Global, head: Head, phases: Vec<PhaseCalls>) -> Result<Script, Halt>
    ensures { Gives (λ s. s) result (script_made_with head phases.items) }
{
    let Some(count) = count_of(phases.as_slice()) else {
        return Err(Halt::NoMemory);
    };
    if count > MOST_CALLS {
        return Err(over_limit(alloc, "calls", count));
    }
    Ok(Script {
        engine: head.engine,
        budget: head.budget.unsigned_abs(),
        attempts: head.attempts.unsigned_abs(),
        lanes: head.lanes.unsigned_abs(),
        region: head.region.unsigned_abs(),
        phases,
    })
}

/// The script of a head and of the lists of its calls, for classes and their program.
fn script_of(
    alloc: Global,
    classes: &[&ClassFile],
    program: &Program,
    fixed: u64,
    head: Head,
    lists: &[PhaseLists<'_>],
) -> Result<Script, Halt>
    requires { fixed ≡ fixed_words (map (λ c. c.now) classes.now) }
    ensures { Gives (λ s. s) result (script_made_of (map (λ c. c.now) classes.now) program.now head (map seen_lists lists.now)) }
{
    limits_of(alloc, fixed, head, lists.len())?;
    let methods = Methods::new(alloc, classes, program)?;
    let phases = methods.phases_of(alloc, head.lanes.unsigned_abs(), lists)?;
    script_with(alloc, head, phases)
}

/// The script that a value is for classes and their program.
fn script_from(
    alloc: Global,
    classes: &[&ClassFile],
    program: &Program,
    fixed: u64,
    value: &Tree,
) -> Result<Script, Halt>
    requires { fixed ≡ fixed_words (map (λ c. c.now) classes.now) }
    ensures { Gives (λ s. s) result (script_in (map (λ c. c.now) classes.now) program.now (seen value.now)) }
{
    object_at(alloc, b"", value, &KEYS)?;
    let head = head_of(alloc, value)?;
    let lists = lists_of(alloc, head, value)?;
    script_of(alloc, classes, program, fixed, head, lists.as_slice())
}

/// The script that bytes are for classes and their program, whose memory has so many fixed words. Refusals, the first in this order: `OverLimit` with `script` for more than
/// 16,777,216 bytes; `NotJson`; `BadShape` with the path of what isn't as a script has it; `OverLimit` with what passes its limit; then, call by
/// call, `BadShape`, `UnknownMethod`, `NotAtomic` for a method that isn't marked and static, and `BadArgs`; and `OverLimit` with `calls`.
pub fn read_script(
    alloc: Global,
    classes: &[&ClassFile],
    program: &Program,
    fixed: u64,
    bytes: &[u8],
) -> Result<Script, Halt>
    requires { fixed ≡ fixed_words (map (λ c. c.now) classes.now) }
    ensures script { IfOk result (IsScript (map (λ c. c.now) classes.now) program.now bytes.now) }
    ensures fault { (r : Why) → result ≡ Err (halts.Refused r) → IsFault (map (λ c. c.now) classes.now) program.now bytes.now r }
    ensures refused { (r : Why) (s : Form) → result ≡ Err (halts.Refused r) → IsScript (map (λ c. c.now) classes.now) program.now bytes.now s → ⊥ }
{
    if bytes.len() > MOST_BYTES {
        return Err(over_limit(alloc, "script", bytes.len() as i64));
    }
    let value = tree_of(alloc, bytes)?;
    script_from(alloc, classes, program, fixed, &value)
}
