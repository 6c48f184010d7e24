//! The files of the tests: a delegates its end x to b, which has the other end y, and a opens a
//! session to b.
//!
//! Their protocols are p, `!<int>`, and g, `!<!<int>>`, with their duals q and h.
use crate::node_tests::{A, B};
use sj_check::{Accepted, check, is_within_limits};
use sj_lang::{
    Connect, Deed, EndDecl, Expr, File, Item, Kind, Names, Party, Proto, ProtocolDef, Scalar, Stmt,
};
use std::alloc::{AllocError, Global};
use std::test::Fail;

const P: u16 = 10;

const Q: u16 = 11;

const G: u16 = 12;

const H: u16 = 13;

const X: u16 = 20;

const Y: u16 = 21;

const Z: u16 = 22;

const U: u16 = 23;

const N: u16 = 24;

fn one(alloc: Global, item: Item) -> Result<Proto, AllocError> {
    Ok(Proto {
        items: Vec::from_array(alloc, [item])?,
    })
}

fn number(alloc: Global) -> Result<Kind, AllocError> {
    Ok(Kind::Session(one(alloc, Item::Send(Kind::Int))?))
}

fn def(name: u16, body: Proto) -> ProtocolDef {
    ProtocolDef {
        line: 1,
        name,
        body,
    }
}

fn protocols(alloc: Global) -> Result<Vec<ProtocolDef>, AllocError> {
    let p = one(alloc, Item::Send(Kind::Int))?;
    let q = one(alloc, Item::Recv(Kind::Int))?;
    let g = one(alloc, Item::Send(number(alloc)?))?;
    let h = one(alloc, Item::Recv(number(alloc)?))?;
    Ok(Vec::from_array(alloc, [def(P, p), def(Q, q), def(G, g), def(H, h)])?)
}

fn stmt(deed: Deed) -> Stmt {
    Stmt { line: 1, deed }
}

fn party(name: u16, body: Vec<Stmt>) -> Party {
    Party {
        line: 1,
        name,
        body,
    }
}

// party a { delegate z x; close z; }
fn first(alloc: Global) -> Result<Party, AllocError> {
    let body = Vec::from_array(
        alloc,
        [
            stmt(Deed::Delegate { end: Z, sent: X }),
            stmt(Deed::Close { end: Z }),
        ],
    )?;
    Ok(party(A, body))
}

// party b { recv u x session p; send x 4; recv y n int; close x; close y; close u; }
fn second(alloc: Global) -> Result<Party, AllocError> {
    let takes_end = Deed::TakeEnd {
        end: U,
        into: X,
        protocol: P,
    };
    let value = Expr::Int(4);
    let takes = Deed::Take {
        end: Y,
        into: N,
        kind: Scalar::Int,
    };
    let body = Vec::from_array(
        alloc,
        [
            stmt(takes_end),
            stmt(Deed::Send { end: X, value }),
            stmt(takes),
            stmt(Deed::Close { end: X }),
            stmt(Deed::Close { end: Y }),
            stmt(Deed::Close { end: U }),
        ],
    )?;
    Ok(party(B, body))
}

fn connect(first: (u16, u16), second: (u16, u16)) -> Connect {
    Connect {
        line: 1,
        first: EndDecl {
            party: A,
            name: first.0,
            protocol: first.1,
        },
        second: EndDecl {
            party: B,
            name: second.0,
            protocol: second.1,
        },
    }
}

fn file(alloc: Global) -> Result<File, AllocError> {
    let connects = [connect((X, P), (Y, Q)), connect((Z, G), (U, H))];
    let protocols = protocols(alloc)?;
    let a = first(alloc)?;
    let b = second(alloc)?;
    Ok(File {
        names: Names::new(alloc),
        protocols,
        parties: Vec::from_array(alloc, [a, b])?,
        connects: Vec::from_array(alloc, connects)?,
    })
}

/// The file in which an end is delegated, accepted.
pub fn to_the_peer(alloc: Global) -> Result<Accepted, Fail> {
    accepted(alloc, file(alloc)?)
}

// party a { request x p to b; send x 5; close x; }
fn requester(alloc: Global) -> Result<Party, AllocError> {
    let value = Expr::Int(5);
    let opens = Deed::Request {
        end: X,
        protocol: P,
        party: B,
    };
    let body = Vec::from_array(
        alloc,
        [
            stmt(opens),
            stmt(Deed::Send { end: X, value }),
            stmt(Deed::Close { end: X }),
        ],
    )?;
    Ok(party(A, body))
}

// party b { accept y q from a; recv y n int; close y; }
fn accepter(alloc: Global) -> Result<Party, AllocError> {
    let accepts = Deed::Accept {
        end: Y,
        protocol: Q,
        party: A,
    };
    let takes = Deed::Take {
        end: Y,
        into: N,
        kind: Scalar::Int,
    };
    let body = Vec::from_array(
        alloc,
        [stmt(accepts), stmt(takes), stmt(Deed::Close { end: Y })],
    )?;
    Ok(party(B, body))
}

/// The file in which a session is opened, accepted.
pub fn by_request(alloc: Global) -> Result<Accepted, Fail> {
    let protocols = protocols(alloc)?;
    let a = requester(alloc)?;
    let b = accepter(alloc)?;
    let file = File {
        names: Names::new(alloc),
        protocols,
        parties: Vec::from_array(alloc, [a, b])?,
        connects: Vec::new(alloc),
    };
    accepted(alloc, file)
}

fn accepted(alloc: Global, file: File) -> Result<Accepted, Fail> {
    if !is_within_limits(&file) {
        return Err(Fail::from("too large"));
    }
    match check(alloc, file) {
        Ok(accepted) => Ok(accepted),
        Err(_) => Err(Fail::from("refused")),
    }
}
