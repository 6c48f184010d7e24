//! The file of the tests: a has the end x of p and turns so often, and b has the other end y, of q.
use crate::plain_tests::{A, B};
use sj_check::{Accepted, check, is_within_limits};
use sj_lang::{Connect, Deed, EndDecl, Expr, File, Item, Names, Party, Proto, ProtocolDef, Stmt};
use std::alloc::{AllocError, Global};
use std::test::Fail;

pub const P: u16 = 10;

pub const Q: u16 = 11;

pub const X: u16 = 20;

pub const Y: u16 = 21;

pub fn one(alloc: Global, item: Item) -> Result<Proto, AllocError> {
    Ok(Proto {
        items: Vec::from_array(alloc, [item])?,
    })
}

pub fn nothing(alloc: Global) -> Proto {
    Proto {
        items: Vec::new(alloc),
    }
}

pub fn def(name: u16, body: Proto) -> ProtocolDef {
    ProtocolDef {
        line: 1,
        name,
        body,
    }
}

// protocol p { begin.![![]*]* } protocol q { begin.?[?[]*]* }
fn protocols(alloc: Global) -> Result<Vec<ProtocolDef>, AllocError> {
    let inner = one(alloc, Item::OutLoop(nothing(alloc)))?;
    let p = one(alloc, Item::OutLoop(inner))?;
    let inner = one(alloc, Item::InLoop(nothing(alloc)))?;
    let q = one(alloc, Item::InLoop(inner))?;
    Ok(Vec::from_array(alloc, [def(P, p), def(Q, q)])?)
}

fn block(alloc: Global, deed: Deed) -> Result<Vec<Stmt>, AllocError> {
    Ok(Vec::from_array(alloc, [Stmt { line: 3, deed }])?)
}

// The party does this, and closes its end.
pub fn party(alloc: Global, name: u16, end: u16, deed: Deed) -> Result<Party, AllocError> {
    let mut body = block(alloc, deed)?;
    let deed = Deed::Close { end };
    body.push(Stmt { line: 3, deed })?;
    Ok(Party {
        line: 3,
        name,
        body,
    })
}

// party a { outwhile x TURNS { outwhile x 1000 { } } close x; }
fn first(alloc: Global, turns: i64) -> Result<Party, AllocError> {
    let turn = Deed::OutWhile {
        end: X,
        count: Expr::Int(1000),
        body: Vec::new(alloc),
    };
    let deed = Deed::OutWhile {
        end: X,
        count: Expr::Int(turns),
        body: block(alloc, turn)?,
    };
    party(alloc, A, X, deed)
}

// party b { inwhile y { inwhile y { } } close y; }
fn second(alloc: Global) -> Result<Party, AllocError> {
    let turn = Deed::InWhile {
        end: Y,
        body: Vec::new(alloc),
    };
    let deed = Deed::InWhile {
        end: Y,
        body: block(alloc, turn)?,
    };
    party(alloc, B, Y, deed)
}

fn decl(party: u16, name: u16, protocol: u16) -> EndDecl {
    EndDecl {
        party,
        name,
        protocol,
    }
}

pub fn file(alloc: Global, turns: i64) -> Result<File, AllocError> {
    let connect = Connect {
        line: 5,
        first: decl(A, X, P),
        second: decl(B, Y, Q),
    };
    let protocols = protocols(alloc)?;
    let a = first(alloc, turns)?;
    let b = second(alloc)?;
    Ok(File {
        names: Names::new(alloc),
        protocols,
        parties: Vec::from_array(alloc, [a, b])?,
        connects: Vec::from_array(alloc, [connect])?,
    })
}

pub fn accept_file(alloc: Global, turns: i64) -> Result<Accepted, Fail> {
    check_file(alloc, file(alloc, turns)?)
}

pub fn check_file(alloc: Global, file: File) -> Result<Accepted, Fail> {
    if !is_within_limits(&file) {
        return Err(Fail::from("too large"));
    }
    match check(alloc, file) {
        Ok(accepted) => Ok(accepted),
        Err(_) => Err(Fail::from("refused")),
    }
}
