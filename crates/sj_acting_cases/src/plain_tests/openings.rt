//! Sessions that parties open to each other and to themselves, up to the limit.
use crate::plain_tests::files::{P, Q, X, Y, check_file, def, file, nothing, one, party};
use crate::plain_tests::{A, B, acts, party_at};
use sj_check::Accepted;
use sj_lang::{Deed, Expr, File, Item, Names, Party, Stmt};
use sj_plain::{Halt, Plain};
use sj_semantics::{Limit, Opened, State, Verdict};
use std::alloc::{AllocError, Global};
use std::test::Fail;

// A protocol without a message.
const R: u16 = 12;

const Z: u16 = 22;

fn request(end: u16, party: u16) -> Deed {
    Deed::Request {
        end,
        protocol: R,
        party,
    }
}

fn accept(end: u16, party: u16) -> Deed {
    Deed::Accept {
        end,
        protocol: R,
        party,
    }
}

// protocol r { begin. } and two parties that do this, and no connection.
fn opening(alloc: Global, a: Vec<Deed>, b: Vec<Deed>) -> Result<Accepted, Fail> {
    let protocols = Vec::from_array(alloc, [def(R, nothing(alloc))])?;
    let a = does(alloc, A, a)?;
    let b = does(alloc, B, b)?;
    let file = File {
        names: Names::new(alloc),
        protocols,
        parties: Vec::from_array(alloc, [a, b])?,
        connects: Vec::new(alloc),
    };
    check_file(alloc, file)
}

fn does(alloc: Global, name: u16, deeds: Vec<Deed>) -> Result<Party, AllocError> {
    let mut body = Vec::new(alloc);
    for deed in deeds {
        body.push(Stmt { line: 3, deed })?;
    }
    Ok(Party {
        line: 3,
        name,
        body,
    })
}

fn opened(sess: u32, first: u16, to: u16, second: Option<u16>) -> Opened {
    Opened {
        sess,
        from: A,
        first,
        to,
        second,
    }
}

#[test]
fn sessions_are_accepted_in_order(rt: HostRuntime) -> Result<(), Fail> {
    let alloc = rt.alloc();
    // Of three sessions one is to oneself, and of the others the first is accepted.
    let a = Vec::from_array(
        alloc,
        [
            request(X, B),
            Deed::Close { end: X },
            request(X, A),
            request(Z, B),
            accept(Y, A),
            Deed::Close { end: X },
            Deed::Close { end: Y },
            Deed::Close { end: Z },
        ],
    )?;
    let b = Vec::from_array(alloc, [accept(Y, A), Deed::Close { end: Y }])?;
    let mut plain = Plain::start(alloc, &opening(alloc, a, b)?)?;
    assert_eq!(rt; party_at(&plain, B), Some((0, State::WaitsOpen(A))));
    assert_eq!(rt; acts(&mut plain, B), Err(Halt::Waits));
    assert_eq!(rt; acts(&mut plain, A), Ok(()));
    assert_eq!(rt; plain.opened(), [opened(64, X, B, None)].as_slice());
    plain.finish()?;
    let all = [
        opened(64, X, B, Some(Y)),
        opened(65, X, A, Some(Y)),
        opened(66, Z, B, None),
    ];
    assert_eq!(rt; plain.opened(), all.as_slice());
    assert_eq!(rt; party_at(&plain, A), Some((8, State::Ended)));
    assert_eq!(rt; party_at(&plain, B), Some((2, State::Ended)));
    assert!(rt; plain.verdict() == Verdict::Blocked, "one wasn't accepted");
    Ok(())
}

#[test]
fn nobody_opens_a_hundred_and_one(rt: HostRuntime) -> Result<(), Fail> {
    let alloc = rt.alloc();
    // a outwhile 101 { request } and b inwhile { accept }, over the inner loops' protocols
    let turn = does(
        alloc,
        A,
        Vec::from_array(alloc, [request(Z, B), Deed::Close { end: Z }])?,
    )?;
    let answer = does(
        alloc,
        B,
        Vec::from_array(alloc, [accept(Z, A), Deed::Close { end: Z }])?,
    )?;
    let mut file = file(alloc, 101)?;
    file.protocols = Vec::from_array(
        alloc,
        [
            def(P, one(alloc, Item::OutLoop(nothing(alloc)))?),
            def(Q, one(alloc, Item::InLoop(nothing(alloc)))?),
            def(R, nothing(alloc)),
        ],
    )?;
    let a = Deed::OutWhile {
        end: X,
        count: Expr::Int(101),
        body: turn.body,
    };
    let b = Deed::InWhile {
        end: Y,
        body: answer.body,
    };
    file.parties = Vec::from_array(alloc, [party(alloc, A, X, a)?, party(alloc, B, Y, b)?])?;
    let mut plain = Plain::start(alloc, &check_file(alloc, file)?)?;
    plain.finish()?;
    assert!(rt; plain.verdict() == Verdict::Long, "verdict");
    assert_eq!(rt;
        party_at(&plain, A),
        Some((301, State::AtLimit(Limit::Requests)))
    );
    assert_eq!(rt; party_at(&plain, B), Some((301, State::WaitsOpen(A))));
    assert_eq!(rt; acts(&mut plain, A), Err(Halt::AtLimit));
    assert_eq!(rt; plain.opened().len(), 100);
    Ok(())
}
