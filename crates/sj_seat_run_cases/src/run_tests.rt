//! Small files with parties that are played by code, beside parties that go by the file, over rings.

use crate::script::{Line, Script};
use sj_base::{EndId, Msg};
use sj_check::{Accepted, check};
use sj_lane::RingLinks;
use sj_party::parse_file;
use sj_proto::Tokens;
use sj_seat::{OpenWish, SeatRefusal, Wish};
use sj_seat_run::{SeatedRun, run_seated, text_count};
use sj_work::NoGate;
use std::alloc::Global;
use std::test::Fail;
use std::thread::Threads;

// A buyer, who asks for a number of things, and a seller, who has five.
const SHOP: &[u8] = b"protocol buys { begin.!<int>.?{YES: ?(String), NO:} }
protocol sells { begin.?(int).!{YES: !<String>, NO:} }
party buyer {
  send x 9;
  inbranch x { YES: { recv x t String; close x; } NO: { close x; } }
}
party seller {
  recv y n int;
  if n <= 5 { outbranch y YES; send y \"here\"; close y; } else { outbranch y NO; close y; }
}
connect buyer x buys to seller y sells;
";

/// The end of the session that its connection names first.
const X: EndId = EndId { sess: 0, side: 0 };

/// The other one.
const Y: EndId = EndId { sess: 0, side: 1 };

fn accepted(alloc: Global, text: &[u8]) -> Result<Accepted, Fail> {
    if text.len() > Tokens::MOST_BYTES {
        return Err(Fail::from("too long"));
    }
    let file = parse_file(alloc, text)?;
    match check(alloc, file) {
        Ok(accepted) => Ok(accepted),
        Err(_) => Err(Fail::from("refused")),
    }
}

fn script(alloc: Global, wishes: &[Wish]) -> Result<Option<Script>, Fail> {
    let mut lines = Vec::new(alloc);
    for wish in wishes {
        lines.push(Line::Step(*wish))?;
    }
    Ok(Some(script_of(alloc, lines)))
}

fn script_of(alloc: Global, lines: Vec<Line>) -> Script {
    Script {
        alloc,
        lines,
        took: Vec::new(alloc),
        opened: Vec::new(alloc),
        looked: Vec::new(alloc),
        refused: Vec::new(alloc),
        done: 0,
        patience: 10_000,
    }
}

/// A run of the shop, with these codes, to where nobody can go on.
fn shop<R: Threads + Sync>(
    rt: &R,
    alloc: Global,
    buyer: Option<Script>,
    seller: Option<Script>,
) -> Result<SeatedRun<Script>, Fail> {
    let mut codes = Vec::new(alloc);
    codes.push(buyer)?;
    codes.push(seller)?;
    run_of(rt, alloc, SHOP, codes)
}

/// A run of the file, with these codes, to where nobody can go on.
fn run_of<R: Threads + Sync>(
    rt: &R,
    alloc: Global,
    text: &[u8],
    codes: Vec<Option<Script>>,
) -> Result<SeatedRun<Script>, Fail> {
    let accepted = accepted(alloc, text)?;
    let mut links = RingLinks::new();
    let texts = text_count(accepted.file());
    let Ok(mut run) = run_seated(rt, alloc, &accepted, codes, texts, 100, &mut links, &NoGate)
    else {
        return Err(Fail::from("no run"));
    };
    run.world.drain()?;
    Ok(run)
}

/// What the party's code took.
fn took(run: &SeatedRun<Script>, party: usize) -> &[Msg] {
    match run.codes.get(party) {
        Some(Some(code)) => &code.took,
        _ => &[],
    }
}

#[test]
fn code_buys_beside_a_seller_of_the_file(rt: HostRuntime) -> Result<(), Fail> {
    let alloc = rt.alloc();
    let buyer = script(
        alloc,
        &[
            Wish::Send {
                end: X,
                msg: Msg::Int(4),
            },
            Wish::Take { end: X },
            Wish::Take { end: X },
            Wish::Close { end: X },
        ],
    )?;
    let run = shop(&rt, alloc, buyer, None)?;
    let took = took(&run, 0);
    assert_eq!(rt; took.len(), 2);
    assert_eq!(rt; took.get(1).copied(), Some(Msg::Text(0)));
    assert_eq!(rt; run.world.history().is_empty(), false);
    Ok(())
}

#[test]
fn two_codes_deal_with_each_other(rt: HostRuntime) -> Result<(), Fail> {
    let alloc = rt.alloc();
    let buyer = script(
        alloc,
        &[
            Wish::Send {
                end: X,
                msg: Msg::Int(7),
            },
            Wish::Take { end: X },
        ],
    )?;
    let seller = script(alloc, &[Wish::Take { end: Y }])?;
    let run = shop(&rt, alloc, buyer, seller)?;
    assert_eq!(rt; took(&run, 1).first().copied(), Some(Msg::Int(7)));
    assert_eq!(rt; took(&run, 0).len(), 0);
    Ok(())
}

#[test]
fn code_leaves_with_an_end_open(rt: HostRuntime) -> Result<(), Fail> {
    let alloc = rt.alloc();
    let buyer = script(
        alloc,
        &[Wish::Send {
            end: X,
            msg: Msg::Int(4),
        }],
    )?;
    let run = shop(&rt, alloc, buyer, None)?;
    assert_eq!(rt; run.world.parties(), 2);
    let Some(ends) = run.world.ends(0) else {
        return Err(Fail::from("no code"));
    };
    assert_eq!(rt; ends.len(), 1);
    assert_eq!(rt; run.world.ends(1).is_none(), true);
    Ok(())
}

// A party that asks another one for a number, by a session that it opens. They are connected, too.
const CALLS: &[u8] = b"protocol asks { begin.?(int) }
protocol tells { begin.!<int> }
party client { request x asks to server; recv x n int; close x; send d 1; close d; }
party server { accept y tells from client; send y 7; close y; recv e m int; close e; }
connect client d tells to server e asks;
";

/// The client's end of the session that it opens first, and the server's.
const OWN: EndId = EndId { sess: 64, side: 0 };

const OTHER: EndId = EndId { sess: 64, side: 1 };

/// A client that is played by code.
fn client(alloc: Global) -> Result<Option<Script>, Fail> {
    let mut lines = Vec::new(alloc);
    lines.extend_from_slice(&[
        Line::Open(OpenWish::Accept {
            party: 1,
            protocol: 0,
        }),
        Line::Open(OpenWish::Request {
            party: 1,
            protocol: 0,
        }),
        Line::Step(Wish::Take { end: OWN }),
        Line::Step(Wish::Close { end: OWN }),
    ])?;
    Ok(Some(script_of(alloc, lines)))
}

/// A server that is played by code.
fn server(alloc: Global) -> Result<Option<Script>, Fail> {
    let mut lines = Vec::new(alloc);
    lines.extend_from_slice(&[
        Line::Open(OpenWish::Accept {
            party: 0,
            protocol: 1,
        }),
        Line::Step(Wish::Send {
            end: OTHER,
            msg: Msg::Int(9),
        }),
        Line::Step(Wish::Close { end: OTHER }),
    ])?;
    Ok(Some(script_of(alloc, lines)))
}

#[test]
fn code_requests_a_session_of_a_party_of_the_file(rt: HostRuntime) -> Result<(), Fail> {
    let alloc = rt.alloc();
    let mut codes = Vec::new(alloc);
    codes.push(client(alloc)?)?;
    let run = run_of(&rt, alloc, CALLS, codes)?;
    let Some(Some(client)) = run.codes.get(0) else {
        return Err(Fail::from("no code"));
    };
    assert_eq!(rt; client.opened.get(0).copied(), Some(OWN));
    assert_eq!(rt;
        client.refused.get(0).copied(),
        Some(SeatRefusal::NotOpened)
    );
    assert_eq!(rt; client.took.get(0).copied(), Some(Msg::Int(7)));
    Ok(())
}

#[test]
fn code_accepts_a_session_of_a_party_of_the_file(rt: HostRuntime) -> Result<(), Fail> {
    let alloc = rt.alloc();
    let mut codes = Vec::new(alloc);
    codes.push(None)?;
    codes.push(server(alloc)?)?;
    let run = run_of(&rt, alloc, CALLS, codes)?;
    let Some(Some(server)) = run.codes.get(1) else {
        return Err(Fail::from("no code"));
    };
    assert_eq!(rt; server.opened.get(0).copied(), Some(OTHER));
    assert_eq!(rt; server.done, 3);
    Ok(())
}

#[test]
fn one_code_requests_and_the_other_accepts(rt: HostRuntime) -> Result<(), Fail> {
    let alloc = rt.alloc();
    let mut codes = Vec::new(alloc);
    codes.push(client(alloc)?)?;
    codes.push(server(alloc)?)?;
    let run = run_of(&rt, alloc, CALLS, codes)?;
    assert_eq!(rt; took(&run, 0).get(0).copied(), Some(Msg::Int(9)));
    assert_eq!(rt; run.world.parties(), 2);
    let Some(ends) = run.world.ends(0) else {
        return Err(Fail::from("no code"));
    };
    assert_eq!(rt; ends.len(), 1);
    Ok(())
}

// A party that is sent a number by each of two others.
const TWO: &[u8] = b"protocol gives { begin.!<int> }
protocol gets { begin.?(int) }
party one { send x 3; close x; }
party other { send y 4; close y; }
party seat { recv u n int; recv z m int; close u; close z; }
connect one x gives to seat u gets;
connect other y gives to seat z gets;
";

#[test]
fn code_takes_from_whichever_end_is_first(rt: HostRuntime) -> Result<(), Fail> {
    let alloc = rt.alloc();
    let later = EndId { sess: 1, side: 1 };
    let mut lines = Vec::new(alloc);
    lines.extend_from_slice(&[Line::Either(later, Y), Line::Step(Wish::Close { end: Y })])?;
    let mut codes = Vec::new(alloc);
    codes.push(None)?;
    codes.push(None)?;
    codes.push(Some(script_of(alloc, lines)))?;
    let run = run_of(&rt, alloc, TWO, codes)?;
    let Some(Some(code)) = run.codes.get(2) else {
        return Err(Fail::from("no code"));
    };
    assert_eq!(rt; code.took.len(), 1);
    assert_eq!(rt; code.done, 2);
    Ok(())
}

#[test]
fn code_looks_for_a_message_before_it_takes(rt: HostRuntime) -> Result<(), Fail> {
    let alloc = rt.alloc();
    let mut lines = Vec::new(alloc);
    lines.extend_from_slice(&[
        Line::Ready(X),
        Line::Step(Wish::Send {
            end: X,
            msg: Msg::Int(4),
        }),
        Line::Step(Wish::Take { end: X }),
        Line::Step(Wish::Take { end: X }),
        Line::Ready(X),
        Line::Ready(Y),
    ])?;
    let run = shop(&rt, alloc, Some(script_of(alloc, lines)), None)?;
    let Some(Some(code)) = run.codes.get(0) else {
        return Err(Fail::from("no code"));
    };
    assert_eq!(rt; code.looked.as_slice(), [false, false].as_slice());
    assert_eq!(rt; code.refused.get(0).copied(), Some(SeatRefusal::NotHeld));
    Ok(())
}
