//! Files whose ends are handed on, and that open sessions, as texts: which turns are steps, and how
//! many frames a drain delivers.

use sj_check::{Accepted, check};
use sj_forward::{ForwardWorld, Turn, TurnRefusal};
use sj_party::parse_file;
use sj_proto::Tokens;
use std::alloc::Global;
use std::test::Fail;

// An end is delegated between messages.
const HANDED_ON: &[u8] = b"protocol p { begin.!<int>.!<int>.!<int> }
protocol q { begin.?(int).?(int).?(int) }
protocol r { begin.?(int).?(int) }
protocol g { begin.!<?(int).?(int)> }
protocol h { begin.?(?(int).?(int)) }
party a { send x 1; send x 2; send x 3; close x; }
party b { recv y n int; delegate z y; close z; }
party c { recv u y session r; recv y n int; recv y n int; close y; close u; }
connect a x p to b y q;
connect b z g to c u h;
";

// Both ends of a session are delegated at once.
const CROSSING: &[u8] = b"protocol p { begin.!<int>.!<int> }
protocol q { begin.?(int).?(int) }
protocol p1 { begin.!<int> }
protocol gp { begin.!<!<int>> }
protocol hp { begin.?(!<int>) }
protocol gq { begin.!<?(int).?(int)> }
protocol hq { begin.?(?(int).?(int)) }
party a { send x 1; delegate z x; close z; }
party b { delegate z y; close z; }
party c { recv u x session p1; send x 2; close x; close u; }
party d { recv u y session q; recv y n int; recv y n int; close y; close u; }
connect a x p to b y q;
connect a z gp to c u hp;
connect b z gq to d u hq;
";

// A session that is opened at run time.
const OPENED: &[u8] = b"protocol p { begin.!<int> }
protocol q { begin.?(int) }
party a { request x p to b; send x 5; close x; }
party b { accept y q from a; recv y n int; close y; }
";

// One whose first end is delegated before it is used.
const OPENED_AND_MOVED: &[u8] = b"protocol p { begin.!<int> }
protocol q { begin.?(int) }
protocol g { begin.!<!<int>> }
protocol h { begin.?(!<int>) }
party a { request x p to b; delegate z x; close z; }
party b { accept y q from a; recv y n int; close y; }
party c { recv u x session p; send x 5; close x; close u; }
connect a z g to c u h;
";

const NONE: Result<(), TurnRefusal> = Err(TurnRefusal::NoStep);

fn accepted(alloc: Global, text: &[u8]) -> Result<Accepted, Fail> {
    if text.len() > Tokens::MOST_BYTES {
        return Err(Fail::from("too long"));
    }
    let file = parse_file(alloc, text)?;
    match check(alloc, file) {
        Ok(accepted) => Ok(accepted),
        Err(_) => Err(Fail::from("refused")),
    }
}

fn started(alloc: Global, text: &[u8]) -> Result<ForwardWorld, Fail> {
    Ok(ForwardWorld::start(alloc, &accepted(alloc, text)?)?)
}

#[test]
fn a_turn_needs_a_frame_or_a_ready_party(rt: HostRuntime) -> Result<(), Fail> {
    let mut world = started(rt.alloc(), HANDED_ON)?;
    if world.plain().parties() != 3 {
        return Err(Fail::from("three parties"));
    }
    assert!(rt; world.step(0, Turn::Deliver(1)) == NONE, "no frame");
    assert!(rt; world.step(0, Turn::Act) == Ok(()), "a sends");
    assert!(rt; world.step(1, Turn::Act) == NONE, "b waits");
    assert!(rt;
        world.step(1, Turn::Deliver(0)) == Ok(()),
        "the message comes"
    );
    assert!(rt; world.step(1, Turn::Act) == Ok(()), "b takes it");
    assert_eq!(rt; world.passed(), 1);
    Ok(())
}

#[test]
fn a_session_is_accepted_where_its_frame_has_come(rt: HostRuntime) -> Result<(), Fail> {
    let mut world = started(rt.alloc(), OPENED)?;
    if world.plain().parties() != 2 {
        return Err(Fail::from("two parties"));
    }
    assert!(rt; world.step(0, Turn::Act) == Ok(()), "a requests");
    assert!(rt; world.step(1, Turn::Act) == NONE, "nothing is offered");
    assert!(rt;
        world.step(1, Turn::Deliver(0)) == Ok(()),
        "the session comes"
    );
    assert!(rt; world.step(1, Turn::Act) == Ok(()), "b accepts");
    assert!(rt; world.step(1, Turn::Act) == NONE, "b waits");
    Ok(())
}

// How many frames a drain of the file delivers.
fn passed_by(alloc: Global, text: &[u8]) -> Result<u64, Fail> {
    let world = ForwardWorld::drained(alloc, &accepted(alloc, text)?)?;
    Ok(world.passed())
}

#[test]
fn a_drain_delivers_so_many_frames(rt: HostRuntime) -> Result<(), Fail> {
    let alloc = rt.alloc();
    assert_eq!(rt; passed_by(alloc, HANDED_ON)?, 7);
    assert_eq!(rt; passed_by(alloc, CROSSING)?, 9);
    assert_eq!(rt; passed_by(alloc, OPENED)?, 2);
    assert_eq!(rt; passed_by(alloc, OPENED_AND_MOVED)?, 5);
    Ok(())
}

// Where memory ends once, a second drain goes on.
#[test]
fn a_drain_goes_on_where_it_broke_off(rt: HostRuntime) -> Result<(), Fail> {
    let mut world = started(rt.alloc(), CROSSING)?;
    if world.drain().is_err() {
        world.drain()?;
    }
    assert_eq!(rt; world.passed(), 9);
    Ok(())
}
