//! Transactional Locking II.
use super::program::{CAUGHT, INC, ONE};
use super::scene::{Scene, shows};
use jmodel::NoMemory;
use machine::Event;
use script::EngineKind;

/// Lane 0's call, held at an event, beside a call of `inc`.
fn beside_inc(at: Event, held: usize) -> Scene {
    Scene {
        engine: EngineKind::Tl2,
        at,
        held,
        other: INC,
    }
}

/// A conflict, and then 2.
const AGAIN: &str = "2, update at 2, used 0, attempts 2, conflicts 1: 3 2 0
1, update at 1, used 0, attempts 1, conflicts 0
";

/// A conflict that uses up the one attempt; the value stays 1, and the next call meets no other.
const SPENT: &str = "spent, used 0, attempts 1, conflicts 1: 3 2 0
2, update at 2, used 0, attempts 2, conflicts 1: 3 2 0
1, update at 1, used 0, attempts 1, conflicts 0
";

#[test]
fn a_call_that_is_held_meets_a_conflict_and_is_tried_again(
    rt: HostRuntime,
) -> Result<(), NoMemory> {
    for at in [
        Event::Began,
        Event::Looked(3),
        Event::Loaded(3),
        Event::Checked(3),
        Event::Wrote(3),
    ] {
        let is_so = shows(&rt, rt.alloc(), beside_inc(at, INC), AGAIN)?;
        assert!(rt; is_so, "{at:?}");
    }
    Ok(())
}

#[test]
fn a_call_of_one_attempt_is_spent_and_leaves_nothing(rt: HostRuntime) -> Result<(), NoMemory> {
    let is_so = shows(&rt, rt.alloc(), beside_inc(Event::Loaded(3), ONE), SPENT)?;
    assert!(rt; is_so);
    Ok(())
}

#[test]
fn a_handler_of_all_does_not_catch_a_conflict(rt: HostRuntime) -> Result<(), NoMemory> {
    let is_so = shows(&rt, rt.alloc(), beside_inc(Event::Loaded(3), CAUGHT), AGAIN)?;
    assert!(rt; is_so);
    Ok(())
}
