//! The file of the greeting: a sends 5 on x, and b takes it from y. The two ends are connected, or
//! a requests the session and b accepts it.
use crate::work_tests::{A, B};
use sj_check::{Accepted, check, is_within_limits};
use sj_lang::{
    Connect, Deed, EndDecl, Expr, File, Item, Kind, Names, Party, Proto, ProtocolDef, Scalar, Stmt,
};
use std::alloc::{AllocError, Global};
use std::test::Fail;

const P: u16 = 10;

const Q: u16 = 11;

const X: u16 = 20;

const Y: u16 = 21;

const N: u16 = 30;

fn stmt(deed: Deed) -> Stmt {
    Stmt { line: 1, deed }
}

fn protocol(name: u16, items: Vec<Item>) -> ProtocolDef {
    ProtocolDef {
        line: 1,
        name,
        body: Proto { items },
    }
}

fn party(name: u16, body: Vec<Stmt>) -> Party {
    Party {
        line: 1,
        name,
        body,
    }
}

fn declared(party: u16, name: u16, protocol: u16) -> EndDecl {
    EndDecl {
        party,
        name,
        protocol,
    }
}

fn protocols(alloc: Global) -> Result<Vec<ProtocolDef>, AllocError> {
    let sends = Vec::from_array(alloc, [Item::Send(Kind::Int)])?;
    let takes = Vec::from_array(alloc, [Item::Recv(Kind::Int)])?;
    Ok(Vec::from_array(alloc, [protocol(P, sends), protocol(Q, takes)])?)
}

fn send() -> Stmt {
    stmt(Deed::Send {
        end: X,
        value: Expr::Int(5),
    })
}

fn take() -> Stmt {
    stmt(Deed::Take {
        end: Y,
        into: N,
        kind: Scalar::Int,
    })
}

fn close(end: u16) -> Stmt {
    stmt(Deed::Close { end })
}

fn file(
    alloc: Global,
    says: Vec<Stmt>,
    hears: Vec<Stmt>,
    connects: Vec<Connect>,
) -> Result<File, AllocError> {
    let protocols = protocols(alloc)?;
    let parties = Vec::from_array(alloc, [party(A, says), party(B, hears)])?;
    Ok(File {
        names: Names::new(alloc),
        protocols,
        parties,
        connects,
    })
}

fn accepted(alloc: Global, file: File) -> Result<Accepted, Fail> {
    if !is_within_limits(&file) {
        return Err(Fail::from("too large"));
    }
    match check(alloc, file) {
        Ok(accepted) => Ok(accepted),
        Err(_) => Err(Fail::from("refused")),
    }
}

pub fn greeting(alloc: Global) -> Result<Accepted, Fail> {
    let says = Vec::from_array(alloc, [send(), close(X)])?;
    let hears = Vec::from_array(alloc, [take(), close(Y)])?;
    let connect = Connect {
        line: 1,
        first: declared(A, X, P),
        second: declared(B, Y, Q),
    };
    let connects = Vec::from_array(alloc, [connect])?;
    accepted(alloc, file(alloc, says, hears, connects)?)
}

/// Without a connection: a requests the session, and b accepts it.
pub fn opened(alloc: Global) -> Result<Accepted, Fail> {
    let request = stmt(Deed::Request {
        end: X,
        protocol: P,
        party: B,
    });
    let accept = stmt(Deed::Accept {
        end: Y,
        protocol: Q,
        party: A,
    });
    let says = Vec::from_array(alloc, [request, send(), close(X)])?;
    let hears = Vec::from_array(alloc, [accept, take(), close(Y)])?;
    accepted(alloc, file(alloc, says, hears, Vec::new(alloc))?)
}
