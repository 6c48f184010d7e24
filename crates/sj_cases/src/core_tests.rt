//! Core worlds: where there is illegal, and lines of parties that the file doesn't have.
use crate::files::FIRST;
use crate::worlds::accepted;
use sj_check::Accepted;
use sj_core::{ReplayRefusal, StepRefusal, World};
use sj_end::{Entry, Event, Line, Misfit};
use std::alloc::Global;
use std::test::Fail;

const A: u16 = 0;

const B: u16 = 1;

const NONE: Result<Entry, StepRefusal> = Err(StepRefusal::NoStep);

// The world of the first session before any event.
fn begun(alloc: Global) -> Result<World, Fail> {
    Ok(World::start(alloc, &accepted(alloc, FIRST.as_bytes())?)?)
}

#[test]
fn no_step_comes_before_anything_is_sent(rt: HostRuntime) -> Result<(), Fail> {
    let mut world = begun(rt.alloc())?;
    if world.parties() != 2 {
        return Err(Fail::from("two parties"));
    }
    assert!(rt; world.step(B, Event::Deliver(A)) == NONE, "no frame");
    assert!(rt; world.step(B, Event::Act) == NONE, "b waits");
    assert!(rt; !world.quiet(), "a can act");
    assert!(rt; world.step(A, Event::Act).is_ok(), "a sends");
    assert!(rt; !world.quiet(), "a frame is in a lane");
    Ok(())
}

#[test]
fn no_step_comes_where_all_is_drained(rt: HostRuntime) -> Result<(), Fail> {
    let mut world = begun(rt.alloc())?;
    if world.parties() != 2 {
        return Err(Fail::from("two parties"));
    }
    world.drain()?;
    assert!(rt; world.quiet(), "nothing is left to do");
    assert!(rt; world.step(A, Event::Act) == NONE, "a has ended");
    assert!(rt; world.step(B, Event::Deliver(A)) == NONE, "all came");
    world.drain()?;
    assert_eq!(rt; world.history().len(), 7);
    Ok(())
}

// The history of a drain of the file.
fn drained(alloc: Global, accepted: &Accepted) -> Result<Vec<Line>, Fail> {
    let mut world = World::start(alloc, accepted)?;
    world.drain()?;
    Ok(Vec::from_slice(alloc, world.history())?)
}

// The number of the line that is illegal, if any, where none is due in its place.
fn refused_at(alloc: Global, accepted: &Accepted, lines: &[Line]) -> Result<Option<u64>, Fail> {
    let mut world = World::start(alloc, accepted)?;
    match world.replay(lines) {
        Ok(()) => Ok(None),
        Err(
            ReplayRefusal::Misfit(
                Misfit {
                    number,
                    due: None,
                    ..
                },
            ),
        ) => Ok(Some(number)),
        Err(_) => Err(Fail::from("another refusal")),
    }
}

#[test]
fn a_history_is_replayed_up_to_a_party_that_is_not_there(rt: HostRuntime) -> Result<(), Fail> {
    let accepted = accepted(rt.alloc(), FIRST.as_bytes())?;
    let mut lines = drained(rt.alloc(), &accepted)?;
    assert_eq!(rt; refused_at(rt.alloc(), &accepted, &lines)?, None);
    if let Some(line) = lines.get_mut(2) {
        line.entry.event = Event::Deliver(16);
    }
    assert_eq!(rt; refused_at(rt.alloc(), &accepted, &lines)?, Some(3));
    if let Some(line) = lines.get_mut(1) {
        line.party = 16;
    }
    assert_eq!(rt; refused_at(rt.alloc(), &accepted, &lines)?, Some(2));
    Ok(())
}
