//! The public calls on a file of one party, and what no text of a file can have. First faults of
//! files are cases of the program.
use sj_check::{CheckRefusal, CheckRule, check, is_within_limits};
use sj_lang::{
    Arms, Connect, Deed, EndDecl, Expr, File, Item, Kind, Names, Party, Proto, ProtocolDef, Stmt,
};
use std::alloc::Global;
use std::test::Fail;

const P: u16 = 0;

const Q: u16 = 1;

const A: u16 = 2;

const X: u16 = 3;

const Y: u16 = 4;

const N: u16 = 5;

// A file of one party, which does one statement, on line 2.
fn lone(alloc: Global, deed: Deed) -> Result<File, Fail> {
    let body = Vec::from_array(alloc, [Stmt { line: 2, deed }])?;
    let party = Party {
        line: 1,
        name: A,
        body,
    };
    Ok(File {
        names: Names::new(alloc),
        protocols: Vec::new(alloc),
        parties: Vec::from_array(alloc, [party])?,
        connects: Vec::new(alloc),
    })
}

// The protocol of that name and of one item, on line 3.
fn protocol(alloc: Global, name: u16, item: Item) -> Result<ProtocolDef, Fail> {
    let items = Vec::from_array(alloc, [item])?;
    Ok(ProtocolDef {
        line: 3,
        name,
        body: Proto { items },
    })
}

fn own(name: u16, protocol: u16) -> EndDecl {
    EndDecl {
        party: A,
        name,
        protocol,
    }
}

// How many parties the accepted file has, or its first fault.
fn parties_of(alloc: Global, file: File) -> Result<usize, CheckRefusal> {
    if !is_within_limits(&file) {
        return Ok(99);
    }
    match check(alloc, file) {
        Ok(accepted) => Ok(accepted.file().parties.len()),
        Err((_, refusal)) => Err(refusal),
    }
}

#[test]
fn a_file_is_accepted_or_has_a_first_fault(rt: HostRuntime) -> Result<(), Fail> {
    let alloc = rt.alloc();
    let unknown = CheckRefusal::At {
        rule: CheckRule::NotThere,
        line: 2,
    };
    for (value, want) in [(Expr::Int(1), Ok(1)), (Expr::Var(N), Err(unknown))] {
        let file = lone(alloc, Deed::Let { name: N, value })?;
        assert_eq!(rt; parties_of(alloc, file), want);
    }
    Ok(())
}

#[test]
fn an_inbranch_has_an_arm(rt: HostRuntime) -> Result<(), Fail> {
    let alloc = rt.alloc();
    let arms = Vec::new(alloc);
    let mut file = lone(alloc, Deed::Branch { end: X, arms })?;
    let branch = Item::Branch(Arms {
        arms: Vec::new(alloc),
    });
    let select = Item::Select(Arms {
        arms: Vec::new(alloc),
    });
    file.protocols.push(protocol(alloc, P, branch)?)?;
    file.protocols.push(protocol(alloc, Q, select)?)?;
    file.connects.push(Connect {
        line: 4,
        first: own(X, P),
        second: own(Y, Q),
    })?;
    let none = CheckRefusal::At {
        rule: CheckRule::OtherArms,
        line: 2,
    };
    assert_eq!(rt; parties_of(alloc, file), Err(none));
    Ok(())
}

#[test]
fn protocols_of_1_024_items_are_within_the_limits(rt: HostRuntime) -> Result<(), Fail> {
    let alloc = rt.alloc();
    for (count, want) in [(1023, true), (1024, false)] {
        let mut items = Vec::new(alloc);
        for _ in 0..count {
            items.push(Item::Send(Kind::Int))?;
        }
        let mut file = lone(alloc, Deed::Close { end: X })?;
        let looped = Item::OutLoop(Proto { items });
        file.protocols.push(protocol(alloc, P, looped)?)?;
        assert_eq!(rt; is_within_limits(&file), want, "a loop of {count} items");
    }
    Ok(())
}
