//! A party step by step, and what it can't take. Parties of whole files are cases of the program.
use crate::machine::Machine;
use sj_base::{EndId, Msg};
use sj_lang::{Deed, Expr, Scalar, Stmt};
use sj_semantics::{Awaits, Want};
use std::test::Fail;

const X: u16 = 0;

const Y: u16 = 1;

const N: u16 = 2;

const M: u16 = 3;

const FIRST: EndId = EndId { sess: 0, side: 0 };

const OPENED: EndId = EndId { sess: 64, side: 0 };

const ACCEPTED: EndId = EndId { sess: 164, side: 1 };

fn stmt(deed: Deed) -> Stmt {
    Stmt { line: 1, deed }
}

fn take(end: u16) -> Deed {
    Deed::Take {
        end,
        into: N,
        kind: Scalar::Int,
    }
}

// Does the next step, where it is none that takes or can take the message.
fn steps(party: &mut Machine, msg: Msg) {
    if party.steps() >= 10_000 {
        return;
    }
    match party.wants() {
        Want::Local => party.local(),
        Want::Send { .. } => party.sent(),
        Want::Delegate { .. } => party.sent(),
        Want::Close { .. } => party.closed(),
        Want::Request { .. } => party.opened(OPENED),
        Want::Accept { .. } => party.opened(ACCEPTED),
        Want::Ended => {}
        Want::Take { .. } => {
            if party.fits(&msg) {
                party.took(msg);
            }
        }
    }
}

#[test]
fn a_party_does_its_statements_in_order(rt: HostRuntime) -> Result<(), Fail> {
    let alloc = rt.alloc();
    let body = [
        stmt(Deed::Let {
            name: N,
            value: Expr::Int(7),
        }),
        stmt(Deed::Send {
            end: X,
            value: Expr::Var(N),
        }),
        stmt(take(X)),
        stmt(Deed::Close { end: X }),
    ];
    let mut party = Machine::over(alloc, &body, &[(X, FIRST)], Vec::new(alloc))?;
    for want in [
        Want::Local,
        Want::Send {
            end: FIRST,
            msg: Msg::Int(7),
        },
        Want::Take {
            end: FIRST,
            awaits: Awaits::Value(Scalar::Int),
        },
        Want::Close { end: FIRST },
        Want::Ended,
    ] {
        assert_eq!(rt; party.wants(), want);
        steps(&mut party, Msg::Int(1));
    }
    assert_eq!(rt; party.steps(), 4);
    assert!(rt; !party.fits(&Msg::Int(1)), "it has ended");
    Ok(())
}

#[test]
fn opened_and_accepted_ends_are_bound_under_their_names(rt: HostRuntime) -> Result<(), Fail> {
    let alloc = rt.alloc();
    let body = [
        stmt(Deed::Request {
            end: X,
            protocol: M,
            party: 9,
        }),
        stmt(Deed::Accept {
            end: Y,
            protocol: N,
            party: 8,
        }),
        stmt(Deed::Close { end: X }),
        stmt(Deed::Close { end: Y }),
    ];
    let peers = Vec::from_array(alloc, [8, 9])?;
    let mut party = Machine::over(alloc, &body, &[], peers)?;
    for want in [
        Want::Request { protocol: M, to: 1 },
        Want::Accept {
            protocol: N,
            from: 0,
        },
        Want::Close { end: OPENED },
        Want::Close { end: ACCEPTED },
        Want::Ended,
    ] {
        assert_eq!(rt; party.wants(), want);
        assert!(rt; !party.fits(&Msg::Int(5)), "no step of it takes");
        steps(&mut party, Msg::Int(1));
    }
    Ok(())
}

#[test]
fn a_message_of_another_kind_does_not_fit(rt: HostRuntime) -> Result<(), Fail> {
    let alloc = rt.alloc();
    let body = [stmt(take(X))];
    let party = Machine::over(alloc, &body, &[(X, FIRST)], Vec::new(alloc))?;
    for (msg, want) in [
        (Msg::Int(1), true),
        (Msg::Bool(true), false),
        (Msg::Label(6), false),
    ] {
        assert_eq!(rt; party.fits(&msg), want, "{msg:?}");
    }
    Ok(())
}

#[test]
fn a_party_that_names_what_is_not_there_has_ended(rt: HostRuntime) -> Result<(), Fail> {
    let alloc = rt.alloc();
    let value = Expr::Var(M);
    for deed in [Deed::Send { end: X, value }, take(Y)] {
        let body = [stmt(deed)];
        let party = Machine::over(alloc, &body, &[(X, FIRST)], Vec::new(alloc))?;
        assert_eq!(rt; party.wants(), Want::Ended);
        assert!(rt; !party.fits(&Msg::Int(1)), "nothing is taken");
    }
    Ok(())
}
