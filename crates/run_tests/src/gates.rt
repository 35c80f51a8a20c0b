//! What gates are told of a run, that two lanes run at once, and what a lane that is held in the middle of an attempt does then.
ghost use Rattle.std.specs.Prelude.{◌≡◌, length, IfOk};

use crate::fixture::{COUNTER, LANES, RUN, THREE_CALLS, folder_of, texts};
use deuce::top::deuce;
use deuce::{Event, Gate, LogGate};
use deuce_io::{IoEnd, MemSink};
use jmodel::Bytes;
use std::alloc::{AllocError, Global};
use std::sync::Arc;
use std::sync::atomic::{AtomicU64, Ordering};
use std::test::Fail;
use std::thread::{Threads, yield_now};

/// How many turns an attempt is held at most.
const TURNS: u64 = 10_000_000;

/// Two calls of `inc`, each on a lane of its own.
const TWO_LANES: &[u8] =
    b"{\"form\":1,\"lanes\":2,\"phases\":[{\"lanes\":[[{\"call\":\"Counter.inc()I\",\"args\":[]}],[{\"call\":\"Counter.inc()I\",\"args\":[]}]]}]}";

/// The same over LSA.
const TWO_LAZY_LANES: &[u8] =
    b"{\"form\":1,\"engine\":\"lsa\",\"lanes\":2,\"phases\":[{\"lanes\":[[{\"call\":\"Counter.inc()I\",\"args\":[]}],[{\"call\":\"Counter.inc()I\",\"args\":[]}]]}]}";

/// The same in a bag.
const BAG_OF_TWO: &[u8] =
    b"{\"form\":1,\"lanes\":2,\"phases\":[{\"bag\":[{\"call\":\"Counter.inc()I\",\"args\":[]},{\"call\":\"Counter.inc()I\",\"args\":[]}]}]}";

/// What a run of `TWO_LANES` prints where lane 1's call came first.
const LANE_1_FIRST: &str =
    "history 2\n0 1 0 Counter.inc()I 1\n0 0 0 Counter.inc()I 2\nunplaced 0\n";

/// The status of a run of the example's class with a script, whose lanes have these gates, and what is written.
fn run_gated<R: Threads + Sync, G: Gate + Send + Drop>(
    rt: &R,
    alloc: Global,
    script: &[u8],
    gates: &mut Vec<G>,
) -> Result<(u8, Bytes), IoEnd>
    requires { length gates.old.items ≡ 16 }
{
    let words = texts(alloc, RUN)?;
    let mut folder = folder_of(alloc, COUNTER.as_slice(), script)?;
    let mut out = MemSink::new(alloc, 64);
    let status = deuce(rt, alloc, words.as_slice(), &mut folder, &mut out, gates);
    Ok((status, out.written))
}

/// Gates that keep a hundred events each.
fn log_gates(alloc: Global) -> Result<Vec<LogGate>, AllocError>
    ensures { IfOk result (λ gates. length gates.items ≡ 16) }
{
    let mut gates = Vec::new(alloc);
    for _lane in 0..LANES {
        gates.push(LogGate::new(alloc, 100).map_err(|_| AllocError)?)?;
    }
    Ok(gates)
}

/// Whether events are those of so many calls of `inc`, each made in one attempt.
fn are_of_calls(events: &[Event], calls: usize) -> bool {
    events.len() == calls.wrapping_mul(6)
        && events.chunks(6).all(|call| {
            matches!(
                call,
                [
                    Event::Began,
                    Event::Looked(3),
                    Event::Loaded(3),
                    Event::Checked(3),
                    Event::Wrote(3),
                    Event::Ended,
                ]
            )
        })
}

#[test]
fn gates_are_told_each_event(rt: HostRuntime) -> Result<(), Fail> {
    let alloc = rt.alloc();
    let mut gates = log_gates(alloc)?;
    let (status, _) = run_gated(&rt, alloc, THREE_CALLS, &mut gates)?;
    assert!(rt; status == 0 && gates.len() == LANES);
    for (lane, gate) in gates.iter().enumerate() {
        assert!(rt; are_of_calls(gate.events(), if lane == 0 { 3 } else { 0 }));
    }
    Ok(())
}

/// What the gates of lanes share.
#[derive(Drop)]
struct Held {
    /// The event at which an attempt is held.
    at: Event,
    /// Which lane's attempt is held, counted from 1: 0 where it is still open, and whichever comes first.
    lane: AtomicU64,
    /// Which lanes' attempts became entries: 1 for lane 0 and 2 for lane 1, added.
    ended: AtomicU64,
    /// How many attempts lane 0 began.
    begun: AtomicU64,
    /// Whether a wait was in vain.
    late: AtomicU64,
}

/// Holds the first attempt that comes to an event, on one lane or on whatever lane, until an attempt of another lane has ended.
#[derive(Drop)]
struct HoldingGate {
    lane: u64,
    /// Whether an attempt of this lane may be held.
    may_hold: bool,
    /// Whether this lane waits with its first attempt until another is held.
    follows: bool,
    held: Arc<Held, Global>,
}

/// Whether two events are of one kind, and of one address.
fn is_at(wanted: Event, event: Event) -> bool {
    match (wanted, event) {
        (Event::Began, Event::Began) => true,
        (Event::Looked(a), Event::Looked(b)) => a == b,
        (Event::Loaded(a), Event::Loaded(b)) => a == b,
        (Event::Checked(a), Event::Checked(b)) => a == b,
        (Event::Wrote(a), Event::Wrote(b)) => a == b,
        _ => false,
    }
}

impl HoldingGate {
    /// Waits until a shared number isn't 0.
    fn wait(&self, number: &AtomicU64) {
        for _ in 0..TURNS {
            if number.load(Ordering::SeqCst) != 0 {
                return;
            }
            yield_now();
        }
        self.held.late.store(1, Ordering::SeqCst);
    }

    fn hold(&self) {
        let mine = self.lane.wrapping_add(1);
        if self
            .held
            .lane
            .compare_exchange(0, mine, Ordering::SeqCst, Ordering::SeqCst)
            .is_ok()
        {
            self.wait(&self.held.ended);
        }
    }
}

impl Gate for HoldingGate {
    ghost use Rattle.std.specs.Prelude.{None};

    ghost told = { λ _. None };

    fn at(&mut self, event: Event) {
        if matches!(event, Event::Began) && self.lane == 0 {
            self.held.begun.fetch_add(1, Ordering::SeqCst);
        }
        if matches!(event, Event::Began) && self.follows {
            self.wait(&self.held.lane);
        }
        if self.may_hold && is_at(self.held.at, event) {
            self.hold();
        }
        if matches!(event, Event::Ended) {
            self.held
                .ended
                .fetch_add(self.lane.wrapping_add(1), Ordering::SeqCst);
        }
    }
}

/// What an attempt is held at.
fn held_at(alloc: Global, at: Event) -> Result<Arc<Held, Global>, AllocError> {
    Ok(Arc::new(
        alloc,
        Held {
            at,
            lane: AtomicU64::new(0),
            ended: AtomicU64::new(0),
            begun: AtomicU64::new(0),
            late: AtomicU64::new(0),
        },
    )?)
}

/// Gates that hold the first attempt that comes to the event, of lane 0 alone or of whatever lane.
fn holding_gates(
    alloc: Global,
    held: &Arc<Held, Global>,
    lane_0_alone: bool,
) -> Result<Vec<HoldingGate>, AllocError>
    ensures { IfOk result (λ gates. length gates.items ≡ 16) }
{
    let mut gates = Vec::new(alloc);
    for lane in 0..LANES {
        gates.push(HoldingGate {
            lane: lane as u64,
            may_hold: lane == 0 || !lane_0_alone,
            follows: lane == 1 && lane_0_alone,
            held: Arc::try_clone(held)?,
        })?;
    }
    Ok(gates)
}

/// Whether a run of two calls ends, of which the first that loads its word is held until the other lane's call has ended.
fn runs_at_once<R: Threads + Sync>(rt: &R, alloc: Global, script: &[u8]) -> Result<bool, IoEnd> {
    let held = held_at(alloc, Event::Loaded(3))?;
    let mut gates = holding_gates(alloc, &held, false)?;
    let (status, _) = run_gated(rt, alloc, script, &mut gates)?;
    let is_late = held.late.load(Ordering::SeqCst) != 0;
    Ok(status == 0 && !is_late && held.ended.load(Ordering::SeqCst) == 3)
}

#[test]
fn two_lanes_run_at_once(rt: HostRuntime) -> Result<(), Fail> {
    assert!(rt; runs_at_once(&rt, rt.alloc(), TWO_LANES)?);
    Ok(())
}

#[test]
fn two_workers_run_at_once(rt: HostRuntime) -> Result<(), Fail> {
    assert!(rt; runs_at_once(&rt, rt.alloc(), BAG_OF_TWO)?);
    Ok(())
}

/// Whether lane 0, whose first attempt is held at an event until lane 1's call has ended, answers 2 behind lane 1's 1, after so many attempts.
fn answers_behind<R: Threads + Sync>(
    rt: &R,
    alloc: Global,
    script: &[u8],
    at: Event,
    attempts: u64,
) -> Result<bool, IoEnd> {
    let held = held_at(alloc, at)?;
    let mut gates = holding_gates(alloc, &held, true)?;
    let (status, written) = run_gated(rt, alloc, script, &mut gates)?;
    let is_late = held.late.load(Ordering::SeqCst) != 0;
    let begun = held.begun.load(Ordering::SeqCst);
    Ok(
        status == 0
            && !is_late
            && begun == attempts
            && written.as_slice() == LANE_1_FIRST.as_bytes(),
    )
}

#[test]
fn a_held_lane_tries_again(rt: HostRuntime) -> Result<(), Fail> {
    let alloc = rt.alloc();
    for at in [
        Event::Began,
        Event::Looked(3),
        Event::Loaded(3),
        Event::Checked(3),
        Event::Wrote(3),
    ] {
        assert!(rt; answers_behind(&rt, alloc, TWO_LANES, at, 2)?);
    }
    Ok(())
}

#[test]
fn a_held_lazy_lane_reads_what_came_before_its_first_read(rt: HostRuntime) -> Result<(), Fail> {
    let alloc = rt.alloc();
    assert!(rt; answers_behind(&rt, alloc, TWO_LAZY_LANES, Event::Began, 1)?);
    for at in [Event::Looked(3), Event::Loaded(3), Event::Checked(3)] {
        assert!(rt; answers_behind(&rt, alloc, TWO_LAZY_LANES, at, 2)?);
    }
    Ok(())
}
