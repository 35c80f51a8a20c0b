//! Two sessions on two threads over one table, of which one is held in the middle of an attempt.
ghost use Rattle.std.specs.Prelude.{◌≡◌, ◌≤◌, ◌<◌, ◌+◌, ◌*◌, ◌^◌, suc, length};
ghost use Rattle.jmodel.specs.history.History.{Entry};
ghost use Rattle.objects.specs.semantics.State.{State};
ghost use Rattle.tx_table.specs.Passes.{book};
ghost use Rattle.machine.specs.Sound.{IsOverStates};
ghost use Rattle.session.specs.Rule.{IsRuled, IsReady, IsCallOf};
ghost use Rattle.session.specs.Adds.{call_of, IsEmpty};
ghost use Rattle.driver.specs.Memory.{Holds, AreOfStates};
ghost use Rattle.driver.specs.Passing.{used_of, first_of, IsOfOne};
ghost use Rattle.run_tests.specs.Heard.{IsFresh};

use super::heard::{Expecting, Heard};
use super::hold::{HoldGate, Signals};
use driver::{Keeping, LANES, Memory, Opening, Runner, Start, open_table, start_lanes};
use jmodel::{Answer, Value};
use machine::Event;
use script::Known;
use session::{Making, Named, Place, Record, Session, engine_of};
use std::alloc::{AllocError, Global};
use std::marker::Brand;
use std::thread::{Threads, join};
use tx_core::{Conflict, Engine};
use tx_table::Shared;

/// A conflict as a text: its address, its word or that this is odd, and up to which version the attempt could read.
fn conflict_text(alloc: Global, conflict: Conflict) -> Result<String, AllocError> {
    let Conflict {
        address,
        word,
        upto,
    } = conflict;
    if word % 2 == 1 {
        format!(in alloc; ": {address} odd {upto}")
    } else {
        format!(in alloc; ": {address} {word} {upto}")
    }
}

/// The last conflict as a text, which is empty where there is none.
fn last_text(alloc: Global, last: Option<Conflict>) -> Result<String, AllocError> {
    match last {
        Some(conflict) => conflict_text(alloc, conflict),
        None => Ok(String::new(alloc)),
    }
}

fn answer_text(alloc: Global, answer: &Answer) -> Result<String, AllocError> {
    match answer {
        Answer::Returned(Some(Value::Int(number))) => format!(in alloc; "{number}"),
        Answer::Budget => String::from_str(alloc, "refused budget"),
        _ => String::from_str(alloc, "another answer"),
    }
}

/// The answer and the stamp of a call, or that it was spent.
fn record_text(alloc: Global, kept: Option<&Record>) -> Result<String, AllocError> {
    let Some(record) = kept else {
        return String::from_str(alloc, "spent");
    };
    let answer = answer_text(alloc, &record.answer)?;
    let kind = if record.stamp.update {
        "update"
    } else {
        "none"
    };
    let at = record.stamp.at;
    format!(in alloc; "{answer}, {kind} at {at}")
}

/// What a line tells of a session's last call.
#[derive(Clone, Copy)]
struct Line<'a> {
    /// Whether a wait before the call was in vain.
    was_late: bool,
    /// Whether the gate's wait was in vain.
    is_late: bool,
    /// The call, if it wasn't spent.
    kept: Option<&'a Record>,
    /// The used words of the region.
    used: u64,
    /// The attempts of the session until then.
    attempts: u64,
    /// The conflicts of the session until then, and the last of them.
    conflicts: u64,
    last: Option<Conflict>,
}

/// A line: the answer and the stamp, or that the call was spent, and then what is counted.
fn line_text(alloc: Global, line: &Line<'_>) -> Result<String, AllocError> {
    let was_late = if line.was_late { "late: " } else { "" };
    let is_late = if line.is_late { "late: " } else { "" };
    let record = record_text(alloc, line.kept)?;
    let last = last_text(alloc, line.last)?;
    let used = line.used;
    let attempts = line.attempts;
    let conflicts = line.conflicts;
    format!(in alloc;
        "{was_late}{is_late}{record}, used {used}, attempts {attempts}, conflicts {conflicts}{last}\n"
    )
}

/// The line of the last call of a session, before which a wait was in vain or not.
fn line_of<E: Engine, X: Expecting>(
    alloc: Global,
    session: &Session<'_, Heard<E, X>, HoldGate<'_>>,
    was_late: bool,
) -> Result<String, AllocError> {
    let gate = session.gate();
    let lane = session.journal();
    let line = Line {
        was_late,
        is_late: gate.is_late,
        kept: lane.placed.as_slice().last(),
        used: lane.used,
        attempts: gate.attempts,
        conflicts: session.engine.conflicts,
        last: session.engine.last,
    };
    line_text(alloc, &line)
}

/// The lines of a lane's call, which is made in its turn: that of lane 0, whose first attempt is held, or that of lane 1, once it is. A call that was spent
/// is made once more, when the other lane's has ended, which adds another line.
fn lines_of<E: Engine + Drop, X: Expecting>(
    alloc: Global,
    session: Session<'_, Heard<E, X>, HoldGate<'_>>,
    signals: &Signals,
    at: Place,
    call: &Known,
) -> Result<String, AllocError>
    requires ready { IsReady session.making.original.now session.making.rewritten.now }
    requires call { IsCallOf session.making.original.now call.now }
    requires region { session.making.limits.room.region ≡ suc at.lane }
    requires fits { session.making.limits.room.region * session.making.limits.room.size + session.making.limits.room.size < 2 ^ 64 }
    requires rule { (e : Entry) → IsRuled session.making.original.now session.making.rewritten.now session.making.limits.room.size session.making.limits.budget session.making.limits.attempts e → E.allows e }
    requires attempts { (1 ≤ session.making.limits.attempts) × (session.making.limits.attempts ≤ 1000000) }
    requires empty { IsEmpty session.lane session.making.limits.room.used }
    requires clock { E.clock session.engine.engine ≡ 0 }
    requires shared { E.is_shared }
    requires states { IsOverStates session.making.original.now session.making.limits E.begins E.allows }
    requires expects { (X.call ≡ call_of session.making.limits.room at call.now) × (X.used ≡ session.making.limits.room.used) }
    requires fresh { IsFresh X.call X.used (E.stands session.engine.engine) (E.awaits session.engine.engine) }
{
    let mut session = session;
    let is_late = !signals.turn_comes(at.lane);
    let is_made = session.call(at, call)?;
    signals.tell_end(at.lane);
    let mut lines = line_of(alloc, &session, is_late)?;
    if !is_made {
        let is_late = !signals.other_ends(at.lane);
        session.call(at, call)?;
        lines.push_str(line_of(alloc, &session, is_late)?.as_str())?;
    }
    Ok(lines)
}

/// The lines of a lane's call over its pass.
fn run_over<K: Keeping, X: Expecting>(
    runner: Runner<'_>,
    shared: &Shared<Opening<K>>,
    signals: &Signals,
    start: Start,
    call: &Known,
) -> Result<String, AllocError>
    requires ready { IsReady runner.original.now runner.rewritten.now }
    requires call { IsCallOf runner.original.now call.now }
    requires attempts { (1 ≤ runner.limits.attempts) × (runner.limits.attempts ≤ 1000000) }
    requires room_size { runner.limits.size ≤ 1048576 }
    requires rule { (e : Entry) → IsRuled runner.original.now runner.rewritten.now runner.limits.size runner.limits.budget runner.limits.attempts e → K.rule e }
    requires states { AreOfStates runner.original.now runner.limits.size runner.limits.budget K.words K.used K.rule }
    requires lane { start.lane < 16 }
    requires used { start.used ≡ used_of (book start.pass) start.lane }
    requires pass { IsOfOne shared.now.table.shared.table_id (book start.pass).seen (first_of 0 start.lane) start.pass }
    requires expects { (X.call ≡ call_of (record { region = suc start.lane; size = runner.limits.size; used = start.used }) (first_of 0 start.lane) call.now) × (X.used ≡ start.used) }
{
    let Start { lane, used, pass } = start;
    let at = Place {
        phase: 0,
        lane,
        first: 0,
    };
    let making = Making {
        alloc: runner.alloc,
        original: runner.original,
        rewritten: runner.rewritten,
        limits: runner.limits.in_region(u64::from(lane) + 1, used),
    };
    let named = Named::<Brand>::of(making.limits.room, at, call);
    let engine = engine_of(runner.engine, runner.alloc, shared, pass, named);
    let gate = HoldGate::new(signals, lane == 0);
    let session = Session::open(making, Heard::<_, X>::new(engine), gate);
    lines_of(runner.alloc, session, signals, at, call)
}

/// The same: the engine expects this call.
fn run_lane<K: Keeping>(
    runner: Runner<'_>,
    shared: &Shared<Opening<K>>,
    signals: &Signals,
    start: Start,
    call: &Known,
) -> Result<String, AllocError>
    requires ready { IsReady runner.original.now runner.rewritten.now }
    requires call { IsCallOf runner.original.now call.now }
    requires attempts { (1 ≤ runner.limits.attempts) × (runner.limits.attempts ≤ 1000000) }
    requires room_size { runner.limits.size ≤ 1048576 }
    requires rule { (e : Entry) → IsRuled runner.original.now runner.rewritten.now runner.limits.size runner.limits.budget runner.limits.attempts e → K.rule e }
    requires states { AreOfStates runner.original.now runner.limits.size runner.limits.budget K.words K.used K.rule }
    requires lane { start.lane < 16 }
    requires used { start.used ≡ used_of (book start.pass) start.lane }
    requires pass { IsOfOne shared.now.table.shared.table_id (book start.pass).seen (first_of 0 start.lane) start.pass }
{
    run_over::<K, Brand>(runner, shared, signals, start, call)
}

/// The lines of both lanes' calls, on a thread each.
fn both<R: Threads + Sync, K: Keeping + Sync>(
    rt: &R,
    runner: Runner<'_>,
    shared: &Shared<Opening<K>>,
    signals: &Signals,
    starts: (Start, Start),
    calls: (&Known, &Known),
) -> (Result<String, AllocError>, Result<String, AllocError>)
    requires ready { IsReady runner.original.now runner.rewritten.now }
    requires calls { IsCallOf runner.original.now calls.0.now × IsCallOf runner.original.now calls.1.now }
    requires attempts { (1 ≤ runner.limits.attempts) × (runner.limits.attempts ≤ 1000000) }
    requires room_size { runner.limits.size ≤ 1048576 }
    requires rule { (e : Entry) → IsRuled runner.original.now runner.rewritten.now runner.limits.size runner.limits.budget runner.limits.attempts e → K.rule e }
    requires states { AreOfStates runner.original.now runner.limits.size runner.limits.budget K.words K.used K.rule }
    requires lanes { (starts.0.lane < 16) × (starts.1.lane < 16) }
    requires used { (starts.0.used ≡ used_of (book starts.0.pass) starts.0.lane) × (starts.1.used ≡ used_of (book starts.1.pass) starts.1.lane) }
    requires one { IsOfOne shared.now.table.shared.table_id (book starts.0.pass).seen (first_of 0 starts.0.lane) starts.0.pass }
    requires two { IsOfOne shared.now.table.shared.table_id (book starts.1.pass).seen (first_of 0 starts.1.lane) starts.1.pass }
{
    let (one, two) = starts;
    let (held, other) = calls;
    join(
        rt,
        || run_lane(runner, shared, signals, one, held),
        || run_lane(runner, shared, signals, two, other),
    )
}

/// The same: the table's entries keep to the rule of the runner's calls.
fn play_over<R: Threads + Sync, K: Keeping + Sync>(
    rt: &R,
    runner: Runner<'_>,
    memory: Memory,
    calls: (&Known, &Known),
    at: Event,
) -> Result<String, AllocError>
    requires ready { IsReady runner.original.now runner.rewritten.now }
    requires stands { (σ : State) × Holds runner.original.now runner.limits.size memory σ }
    requires calls { IsCallOf runner.original.now calls.0.now × IsCallOf runner.original.now calls.1.now }
    requires attempts { (1 ≤ runner.limits.attempts) × (runner.limits.attempts ≤ 1000000) }
    requires room_size { runner.limits.size ≤ 1048576 }
    requires size { length memory.words.items + 4097 < 2 ^ 32 }
    requires rule { (e : Entry) → IsRuled runner.original.now runner.rewritten.now runner.limits.size runner.limits.budget runner.limits.attempts e → K.rule e }
    requires ruled { (e : Entry) → K.rule e → IsRuled runner.original.now runner.rewritten.now runner.limits.size runner.limits.budget runner.limits.attempts e }
    requires words { memory.words.items ≡ K.words }
    requires used { memory.used ≡ K.used }
{
    let (shared, mut pass) = open_table::<K>(runner.alloc, memory)?;
    let mut starts = start_lanes(runner.alloc, &shared, &mut pass, 2, &[0; LANES])?;
    let two = starts.remove(1);
    let one = starts.remove(0);
    let signals = Signals::new(at);
    let (first, second) = both(rt, runner, &shared, &signals, (one, two), calls);
    let mut lines = first?;
    lines.push_str(second?.as_str())?;
    Ok(lines)
}

/// The lines of two lanes' calls over a table of their own, lane 0's first. Lane 0's first attempt is held at an event until lane 1's call has ended.
pub fn play<R: Threads + Sync>(
    rt: &R,
    runner: Runner<'_>,
    memory: Memory,
    calls: (&Known, &Known),
    at: Event,
) -> Result<String, AllocError>
    requires ready { IsReady runner.original.now runner.rewritten.now }
    requires stands { (σ : State) × Holds runner.original.now runner.limits.size memory σ }
    requires calls { IsCallOf runner.original.now calls.0.now × IsCallOf runner.original.now calls.1.now }
    requires attempts { (1 ≤ runner.limits.attempts) × (runner.limits.attempts ≤ 1000000) }
    requires room_size { runner.limits.size ≤ 1048576 }
    requires size { length memory.words.items + 4097 < 2 ^ 32 }
{
    play_over::<R, Brand>(rt, runner, memory, calls, at)
}
