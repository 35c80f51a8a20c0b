//! Gates, which are called at each event of an attempt.
ghost use Rattle.std.specs.Prelude.{◌≡◌, ◌+◌, ◌<◌, ◌≤◌, [], ◌∷◌, ◌++◌, List, Option, Some, None, IfOk, length, take, true, false};
ghost use Rattle.objects.specs.declared.event.Event.{Event as JEvent};
ghost use Rattle.objects.specs.rewriting.Events.{Grows};
ghost use Rattle.machine.specs.Gates.{told_of};

use jmodel::NoMemory;
use objects::event::Event;
use std::alloc::Global;
use std::marker::Model;

/// What is called at each event of an attempt, once it is over.
pub trait Gate {
    ghost use Rattle.std.specs.Prelude.{[], ◌∷◌, List, Option};
    ghost use Rattle.objects.specs.declared.event.Event.{Event as JEvent};
    ghost use Rattle.objects.specs.rewriting.Events.{Grows};

    /// The events, the oldest first, where the gate tells them.
    ghost told: { Self → Option (List JEvent) };

    /// Is called after an event. Where the gate tells its events then, it told those before, and this one is new.
    fn at(&mut self, event: Event)
        ensures { Grows (told self.old) (told self.new) (event ∷ []) };
}

/// The gate that does nothing and tells nothing.
#[derive(Clone, Copy)]
pub struct Open;

impl Gate for Open {
    ghost told = { λ _. None };

    fn at(&mut self, _event: Event) {}
}

/// A gate that keeps so many events, and tells them. Once one more has come it tells nothing.
#[derive(Drop)]
pub struct LogGate {
    /// The events that came, and behind them places for others.
    events: Vec<Event>,
    /// How many came.
    stored: usize,
    /// Whether one more came than there are places.
    lost: bool,
}

impl Model for LogGate {
    ghost use Rattle.std.specs.Prelude.{◌≤◌, length, take};
    ghost use Rattle.machine.specs.Gates.{Logged};

    ghost Value = { Logged };

    ghost view = { λ g. record { events = take g.stored g.events.items; room = length g.events.items; lost = g.lost } };

    ghost invariant = { λ g. g.stored ≤ length g.events.items };
}

impl LogGate {
    /// A gate that keeps up to `room` events, and none so far.
    pub fn new(alloc: Global, room: usize) -> Result<Self, NoMemory>
        ensures { IfOk result (λ g. g ≡ record { events = []; room = room; lost = false }) }
    {
        let events = vec![in alloc; Event::Ended; room]?;
        Ok(LogGate {
            events,
            stored: 0,
            lost: false,
        })
    }

    /// The events that are kept, the oldest first. No memory.
    pub fn events(&self) -> &[Event]
        ensures { result.now ≡ self.now.events }
    {
        &self.events[..self.stored]
    }
}

impl Gate for LogGate {
    ghost told = { λ g. told_of g.lost g.events };

    // Takes no memory.
    fn at(&mut self, event: Event)
        ensures grows { Grows (told_of self.old.lost self.old.events) (told_of self.new.lost self.new.events) (event ∷ []) }
        ensures kept { length self.old.events < self.old.room → self.new ≡ record self.old { events = self.old.events ++ event ∷ [] } }
        ensures full { self.old.room ≤ length self.old.events → self.new ≡ record self.old { lost = true } }
    {
        if self.stored < self.events.len() {
            self.events[self.stored] = event;
            self.stored += 1;
        } else {
            self.lost = true;
        }
    }
}
