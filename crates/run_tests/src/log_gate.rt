//! A gate that keeps events.
use machine::{Event, Gate, LogGate};

#[test]
fn a_gate_keeps_the_events_that_it_has_room_for(rt: HostRuntime) {
    let mut gate = LogGate::new(rt.alloc(), 2).expect(&rt, "memory");
    assert!(rt; gate.events().is_empty());
    gate.at(Event::Began);
    gate.at(Event::Looked(3));
    assert!(rt; matches!(gate.events(), [Event::Began, Event::Looked(3)]));
    gate.at(Event::Loaded(3));
    assert!(rt; matches!(gate.events(), [Event::Began, Event::Looked(3)]));
}
