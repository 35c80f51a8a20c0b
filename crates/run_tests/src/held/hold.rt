//! A gate that holds an attempt at an event.
use machine::{Event, Gate};
use std::sync::atomic::{AtomicBool, Ordering};
use std::thread::yield_now;

/// What the threads of lanes 0 and 1 tell one another.
#[derive(Drop)]
pub struct Signals {
    /// The event at which an attempt of lane 0 is held.
    at: Event,
    /// It has come to its event.
    arrived: AtomicBool,
    /// Lane 0's call has ended.
    zero_ended: AtomicBool,
    /// Lane 1's call has ended, so lane 0 may go on.
    one_ended: AtomicBool,
}

impl Signals {
    pub fn new(at: Event) -> Self {
        Signals {
            at,
            arrived: AtomicBool::new(false),
            zero_ended: AtomicBool::new(false),
            one_ended: AtomicBool::new(false),
        }
    }

    /// Waits for a lane's turn, which is lane 1's once lane 0 is held. Gives whether it came.
    pub fn turn_comes(&self, lane: u8) -> bool {
        lane == 0 || comes(&self.arrived)
    }

    /// Tells that a lane's call has ended.
    pub fn tell_end(&self, lane: u8) {
        if lane == 0 {
            self.zero_ended.store(true, Ordering::SeqCst);
        } else {
            self.one_ended.store(true, Ordering::SeqCst);
        }
    }

    /// Waits until the other lane's call has ended. Gives whether it did.
    pub fn other_ends(&self, lane: u8) -> bool {
        if lane == 0 {
            comes(&self.one_ended)
        } else {
            comes(&self.zero_ended)
        }
    }
}

/// Waits for a signal. Gives whether it came.
fn comes(signal: &AtomicBool) -> bool {
    for _ in 0..10_000_000u32 {
        if signal.load(Ordering::SeqCst) {
            return true;
        }
        yield_now();
    }
    false
}

/// A gate that counts attempts, and holds the first that comes to an event until lane 1's call has ended.
#[derive(Drop)]
pub struct HoldGate<'a> {
    signals: &'a Signals,
    /// Whether an attempt is still to be held.
    holds: bool,
    /// How many attempts were begun.
    pub attempts: u64,
    /// Whether the wait was in vain.
    pub is_late: bool,
}

impl<'a> HoldGate<'a> {
    /// A gate that holds an attempt or not.
    pub fn new(signals: &'a Signals, holds: bool) -> Self {
        HoldGate {
            signals,
            holds,
            attempts: 0,
            is_late: false,
        }
    }

    /// Holds the attempt.
    fn hold(&mut self) {
        self.holds = false;
        self.signals.arrived.store(true, Ordering::SeqCst);
        self.is_late = !comes(&self.signals.one_ended);
    }
}

/// Whether an event is that which is waited for.
fn is_at(wanted: Event, event: Event) -> bool {
    match (wanted, event) {
        (Event::Began, Event::Began) | (Event::Ended, Event::Ended) => true,
        (Event::Looked(a), Event::Looked(b)) => a == b,
        (Event::Loaded(a), Event::Loaded(b)) => a == b,
        (Event::Checked(a), Event::Checked(b)) => a == b,
        (Event::Wrote(a), Event::Wrote(b)) => a == b,
        _ => false,
    }
}

impl<'a> Gate for HoldGate<'a> {
    ghost use Rattle.std.specs.Prelude.{None};

    ghost told = { λ _. None };

    fn at(&mut self, event: Event) {
        if matches!(event, Event::Began) {
            self.attempts = self.attempts.wrapping_add(1);
        }
        if self.holds && is_at(self.signals.at, event) {
            self.hold();
        }
    }
}
