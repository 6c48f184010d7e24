//! A file from its text to its transcript, two protocols, and runs.
use crate::{
    DequeLinks, Ran, TalkRefusal, TextRefusal, accepted_in, act_on, can_talk, carry, ending_of,
    run_file, transcript_in,
};
use porcharnica::{Accepted, CheckRule, Fault, Halt, RingLinks, Rule, Verdict, first_nodes};
use std::alloc::Global;
use std::test::Fail;

const FIRST: &[u8] = b"protocol p { begin.!<int> } protocol q { begin.?(int) }
party a { send x 5; close x; }
party b { recv y n int; close y; }
connect a x p to b y q;";

/// The desk gives Ann's session to the store, which takes what she had sent.
const DESK: &[u8] =
    b"protocol asks { begin.!<String>.?(int) } protocol says { begin.?(String).!<int> }
protocol gives { begin.!<?(String).!<int>> } protocol gets { begin.?(?(String).!<int>) }
party ann { send x \"an umbrella\"; recv x price int; close x; }
party desk { delegate z y; close z; }
party store { recv u s session says; close u; recv s what String; send s 12; close s; }
connect ann x asks to desk y says;
connect desk z gives to store u gets;";

fn accepted(alloc: Global, text: &[u8]) -> Result<Accepted, Fail> {
    if text.len() > 65_536 {
        return Err(Fail::from("too long"));
    }
    let Ok(accepted) = accepted_in(alloc, text) else {
        return Err(Fail::from("not accepted"));
    };
    Ok(accepted)
}

#[test]
fn a_text_has_its_transcript(rt: HostRuntime) -> Result<(), Fail> {
    let text = transcript_in(rt.alloc(), FIRST)
        .ok()
        .ok_or("no transcript")?;
    let wanted = b"session 0 a x b y\n0.0 0 a b int 5\nparty a ended 2\nparty b ended 2\ndone\n";
    assert_eq!(rt; text.as_slice(), wanted.as_slice());
    let breaks = b"protocol p { begin } party a { close x; }";
    let refusal = TextRefusal::Breaks {
        rule: CheckRule::NotThere,
        line: 1,
    };
    assert_eq!(rt; transcript_in(rt.alloc(), breaks).err(), Some(refusal));
    let fault = Fault {
        rule: Rule::P1,
        line: 1,
        column: 10,
    };
    assert_eq!(rt;
        transcript_in(rt.alloc(), b"protocol {").err(),
        Some(TextRefusal::At(fault))
    );
    Ok(())
}

#[test]
fn protocols_meet_or_not(rt: HostRuntime) -> Result<(), Fail> {
    let dual = b"protocol own { begin.!<int>.?(String) } protocol peers { begin.?(int).!<String> }";
    let other =
        b"protocol own { begin.!<int>.?(String) } protocol peers { begin.!<int>.?(String) }";
    let wider = b"protocol own { begin.!{YES:} } protocol peers { begin.?{YES:, NO:} }";
    let one = b"protocol own { begin.!<int> }";
    assert_eq!(rt; can_talk(rt.alloc(), dual), Ok(true));
    assert_eq!(rt; can_talk(rt.alloc(), other), Ok(false));
    assert_eq!(rt; can_talk(rt.alloc(), wider), Ok(true));
    assert_eq!(rt; can_talk(rt.alloc(), one), Err(TalkRefusal::Protocols(1)));
    let fault = Fault {
        rule: Rule::P1,
        line: 1,
        column: 10,
    };
    assert_eq!(rt;
        can_talk(rt.alloc(), b"protocol {"),
        Err(TalkRefusal::At(fault))
    );
    Ok(())
}

// Seven events in all, of which the two of the party that takes nothing need no frame.
fn did_seven(ran: &Ran) -> bool {
    let all = ran.by_links.saturating_add(ran.by_drain);
    all == 7 && ran.world.history().len() == 7 && ran.by_links >= 2
}

#[test]
fn a_file_is_run_over_rings_and_deques(rt: HostRuntime) -> Result<(), Fail> {
    let accepted = accepted(rt.alloc(), FIRST)?;
    let over_rings = run_file(&rt, rt.alloc(), &accepted, &mut RingLinks::new())?;
    let over_deques = run_file(&rt, rt.alloc(), &accepted, &mut DequeLinks)?;
    assert!(rt; did_seven(&over_rings));
    assert!(rt; did_seven(&over_deques));
    let ending = ending_of(rt.alloc(), &accepted)?;
    assert_eq!(rt; ending.verdict, Verdict::Done);
    Ok(())
}

#[test]
fn a_session_is_handed_over_by_hand(rt: HostRuntime) -> Result<(), Fail> {
    let accepted = accepted(rt.alloc(), DESK)?;
    let Ok(mut nodes) = first_nodes(rt.alloc(), &accepted) else {
        return Err(Fail::from("no nodes"));
    };
    let (Some(mut store), Some(mut desk), Some(mut ann)) = (nodes.pop(), nodes.pop(), nodes.pop())
    else {
        return Err(Fail::from("not three"));
    };
    // Ann sends to the desk, which has given her session away when it comes.
    let acted = act_on(&mut ann);
    assert_eq!(rt; acted.acts, 1);
    assert_eq!(rt; acted.halt, Some(Halt::Waits));
    let acted = act_on(&mut desk);
    assert_eq!(rt; acted.acts, 2);
    assert_eq!(rt; acted.halt, Some(Halt::Ended));
    assert!(rt; carry(&mut ann, &mut desk).is_ok());
    for _ in 0..10u8 {
        assert!(rt; carry(&mut desk, &mut store).is_ok());
        act_on(&mut store);
        assert!(rt; carry(&mut store, &mut desk).is_ok());
        assert!(rt; carry(&mut desk, &mut ann).is_ok());
        act_on(&mut ann);
        assert!(rt; carry(&mut ann, &mut store).is_ok());
        assert!(rt; carry(&mut store, &mut ann).is_ok());
        assert!(rt; carry(&mut ann, &mut desk).is_ok());
    }
    assert!(rt; ann.finished());
    assert!(rt; desk.finished());
    assert!(rt; store.finished());
    Ok(())
}
