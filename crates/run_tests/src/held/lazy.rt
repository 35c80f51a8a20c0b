//! The lazy snapshot algorithm.
use super::program::{CAUGHT, ENDLESS, INC, ONE};
use super::scene::{Scene, shows};
use jmodel::NoMemory;
use machine::Event;
use script::EngineKind;

/// Lane 0's call, held at an event, beside another.
fn beside(at: Event, held: usize, other: usize) -> Scene {
    Scene {
        engine: EngineKind::Lsa,
        at,
        held,
        other,
    }
}

/// No conflict: the attempt reads what was committed after it began.
const ONWARD: &str = "2, update at 2, used 0, attempts 1, conflicts 0
1, update at 1, used 0, attempts 1, conflicts 0
";

/// A conflict, and then 2.
const AGAIN: &str = "2, update at 2, used 0, attempts 2, conflicts 1: 3 2 0
1, update at 1, used 0, attempts 1, conflicts 0
";

/// The other call, of one attempt, meets the stripe that is held, and is made again.
const OTHER_SPENT: &str = "1, update at 1, used 0, attempts 1, conflicts 0
spent, used 0, attempts 1, conflicts 1: 3 odd 0
2, update at 2, used 0, attempts 2, conflicts 1: 3 odd 0
";

/// A refusal, which leaves neither its write nor its stripe.
const REFUSED: &str = "refused budget, none at 0, used 0, attempts 1, conflicts 0
1, update at 1, used 0, attempts 1, conflicts 0
";

#[test]
fn a_call_that_is_held_before_it_reads_goes_on(rt: HostRuntime) -> Result<(), NoMemory> {
    let is_so = shows(&rt, rt.alloc(), beside(Event::Began, INC, INC), ONWARD)?;
    assert!(rt; is_so);
    Ok(())
}

#[test]
fn a_call_that_is_held_as_it_reads_is_tried_again(rt: HostRuntime) -> Result<(), NoMemory> {
    for at in [Event::Looked(3), Event::Loaded(3), Event::Checked(3)] {
        let is_so = shows(&rt, rt.alloc(), beside(at, INC, INC), AGAIN)?;
        assert!(rt; is_so, "{at:?}");
    }
    Ok(())
}

#[test]
fn a_call_that_is_held_behind_its_write_holds_the_stripe(rt: HostRuntime) -> Result<(), NoMemory> {
    let is_so = shows(
        &rt,
        rt.alloc(),
        beside(Event::Wrote(3), INC, ONE),
        OTHER_SPENT,
    )?;
    assert!(rt; is_so);
    Ok(())
}

#[test]
fn a_refused_call_gives_its_stripe_back(rt: HostRuntime) -> Result<(), NoMemory> {
    let is_so = shows(&rt, rt.alloc(), beside(Event::Ended, ENDLESS, INC), REFUSED)?;
    assert!(rt; is_so);
    Ok(())
}

#[test]
fn a_handler_of_all_does_not_catch_a_conflict(rt: HostRuntime) -> Result<(), NoMemory> {
    let is_so = shows(
        &rt,
        rt.alloc(),
        beside(Event::Loaded(3), CAUGHT, INC),
        AGAIN,
    )?;
    assert!(rt; is_so);
    Ok(())
}
