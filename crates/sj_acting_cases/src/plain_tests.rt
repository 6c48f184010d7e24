//! A plain world of two parties, in which a turns so often and b follows, and what refuses an act. Whole
//! files and their transcripts are cases of the program.
use sj_base::{EndId, Msg, NoMemory};
use sj_plain::{Halt, Plain};
use sj_semantics::{Awaits, Limit, Passed, State, Verdict, Want};
use std::alloc::Global;
use std::test::Fail;

mod files;
mod openings;

use files::accept_file;

const A: u16 = 0;

const B: u16 = 1;

const FIRST: EndId = EndId { sess: 0, side: 0 };

const SECOND: EndId = EndId { sess: 0, side: 1 };

// How many steps the party has done, and how it stands.
fn party_at(plain: &Plain, party: u16) -> Option<(u32, State)> {
    if (party as usize) < plain.parties() {
        Some((plain.steps(party), plain.state(party)))
    } else {
        None
    }
}

fn wants(plain: &Plain, party: u16) -> Option<Want> {
    if (party as usize) < plain.parties() {
        Some(plain.wants(party))
    } else {
        None
    }
}

fn acts(plain: &mut Plain, party: u16) -> Result<(), Halt> {
    if (party as usize) < plain.parties() {
        plain.act(party)
    } else {
        Err(Halt::NoMemory)
    }
}

// How many items are ahead of the end, what it sent, and who took that.
fn end_at(
    alloc: Global,
    plain: &Plain,
    end: EndId,
) -> Result<Option<(usize, &[Passed], &[u16])>, NoMemory> {
    if (end.sess as usize) < plain.sessions() {
        let ahead = plain.place(alloc, end)?.items.len();
        Ok(Some((ahead, plain.sent(end), plain.takers(end))))
    } else {
        Ok(None)
    }
}

#[test]
fn a_stop_is_sent_and_taken(rt: HostRuntime) -> Result<(), Fail> {
    let alloc = rt.alloc();
    let mut plain = Plain::start(alloc, &accept_file(alloc, 0)?)?;
    let stop = Msg::More(false);
    let sent = [Passed { msg: stop, by: A }];
    let takes = Want::Take {
        end: SECOND,
        awaits: Awaits::MoreOrStop,
    };
    assert_eq!(rt; (plain.parties(), plain.sessions()), (2, 1));
    assert_eq!(rt; party_at(&plain, B), Some((0, State::Waits(SECOND))));
    assert_eq!(rt; wants(&plain, B), Some(takes));
    assert_eq!(rt; acts(&mut plain, B), Err(Halt::Waits));
    assert_eq!(rt; acts(&mut plain, A), Ok(()));
    assert_eq!(rt;
        end_at(alloc, &plain, FIRST)?,
        Some((0, sent.as_slice(), [].as_slice()))
    );
    plain.finish()?;
    assert!(rt; plain.verdict() == Verdict::Done, "verdict");
    assert_eq!(rt;
        end_at(alloc, &plain, FIRST)?,
        Some((0, sent.as_slice(), [B].as_slice()))
    );
    assert_eq!(rt; party_at(&plain, A), Some((2, State::Ended)));
    assert_eq!(rt; acts(&mut plain, A), Err(Halt::Ended));
    Ok(())
}

#[test]
fn nobody_acts_after_ten_thousand_steps(rt: HostRuntime) -> Result<(), Fail> {
    let alloc = rt.alloc();
    let mut plain = Plain::start(alloc, &accept_file(alloc, 10)?)?;
    plain.finish()?;
    assert!(rt; plain.verdict() == Verdict::Long, "verdict");
    assert_eq!(rt;
        party_at(&plain, A),
        Some((10_000, State::AtLimit(Limit::Steps)))
    );
    assert_eq!(rt; acts(&mut plain, A), Err(Halt::AtLimit));
    Ok(())
}
