//! Each call on an end once. Whole histories of ends are cases of the program.
ghost use Rattle.std.specs.Prelude.{◌≤◌};
ghost use Rattle.sj_lang.specs.View.{place_of};
ghost use Rattle.sj_table.specs.Nodes.{node_count};

use sj_base::{EndId, Msg, NoMemory};
use sj_end::{Body, Expected, Held, Note, Room, note_of};
use sj_lang::{Item, Kind, Proto, ProtocolDef, Way};
use sj_table::{Spot, Table};
use std::alloc::Global;
use std::process::Abort;
use std::test::Fail;

const FIRST: EndId = EndId { sess: 0, side: 0 };

const SECOND: EndId = EndId { sess: 0, side: 1 };

// The table of the one protocol of these items.
fn table_of(alloc: Global, items: Vec<Item>) -> Result<Table, NoMemory>
    requires { node_count (place_of items.items) ≤ 3 }
{
    let def = ProtocolDef {
        line: 1,
        name: 0,
        body: Proto { items },
    };
    let defs = Vec::from_array(alloc, [def])?;
    Table::compile(alloc, &defs)
}

// Puts the message after the untaken ones.
fn arrives(rt: &impl Abort, held: &mut Held, taken: u32, msg: Msg) -> Result<(), NoMemory> {
    assert!(rt; taken <= held.end.sent);
    assert!(rt; held.end.taken as usize + held.untaken.len() <= 1_000_000);
    held.arrived(taken, msg)
}

#[test]
fn what_is_sent_is_cached_until_the_peer_has_taken_it(rt: HostRuntime) -> Result<(), Fail> {
    let alloc = rt.alloc();
    let items = [Item::Send(Kind::Int), Item::Recv(Kind::Int)];
    let table = table_of(alloc, Vec::from_array(alloc, items)?)?;
    let mut held = Held::first(alloc, FIRST, 1, table.start(0));
    let msg = Msg::Int(1);
    let next = table.after(held.end.place, Way::Out, &msg);
    let next = next.ok_or("its place lets it go")?;
    assert!(rt; held.end.sent < 1_000_000);
    let body = held.send(msg, next)?;
    assert_eq!(rt; held.end.place, next);
    let carry = Note::Carry {
        to: SECOND,
        conn: 0,
        number: 0,
        taken: 0,
        msg,
    };
    assert_eq!(rt; note_of(&body), carry);
    assert_eq!(rt; (held.end.base, held.end.cache.len()), (0, 1));
    arrives(&rt, &mut held, 1, Msg::Int(2))?;
    assert_eq!(rt; (held.end.base, held.end.cache.len()), (1, 0));
    let (closed, fin) = held.close();
    let wanted = Note::Fin {
        to: SECOND,
        conn: 0,
        number: 1,
    };
    assert_eq!(rt; note_of(&fin), wanted);
    closed.ok_or("it waits for the peer's Fin")?.fin_came();
    Ok(())
}

#[test]
fn parking_drops_what_is_not_taken(rt: HostRuntime) -> Result<(), Fail> {
    let alloc = rt.alloc();
    let takes = [Item::Recv(Kind::Int), Item::Recv(Kind::Int)];
    let table = table_of(alloc, Vec::from_array(alloc, takes)?)?;
    let mut held = Held::first(alloc, SECOND, 0, table.start(0));
    arrives(&rt, &mut held, 0, Msg::Int(1))?;
    arrives(&rt, &mut held, 0, Msg::Int(2))?;
    held.fin_came();
    let head = held.head().ok_or("two came")?;
    let next = table.after(held.end.place, Way::Into, &head);
    let next = next.ok_or("its place lets it come")?;
    assert_eq!(rt; held.take(next), Msg::Int(1));
    assert_eq!(rt; held.head(), Some(Msg::Int(2)));
    let parked = held.park(Room::new(alloc)?);
    assert_eq!(rt; (parked.end.sent, parked.end.taken), (0, 1));
    Ok(())
}

#[test]
fn an_offered_end_is_accepted_at_a_place(rt: HostRuntime) -> Result<(), Fail> {
    let alloc = rt.alloc();
    let takes = Vec::from_array(alloc, [Item::Recv(Kind::Int)])?;
    let table = table_of(alloc, takes)?;
    let opening = Body::Open { sess: 64 };
    assert_eq!(rt; note_of(&opening), Note::Open { sess: 64 });
    let offered = EndId { sess: 64, side: 1 };
    let mut held = Held::first(alloc, offered, 0, Spot { node: 0 });
    arrives(&rt, &mut held, 0, Msg::Int(5))?;
    assert!(rt; held.end.place.node == 0);
    held.accept(table.start(0));
    let head = held.head().ok_or("one came before")?;
    let next = table.after(held.end.place, Way::Into, &head);
    let next = next.ok_or("its place lets it come")?;
    assert_eq!(rt; held.take(next), Msg::Int(5));
    assert_eq!(rt; held.end.place, table.done());
    Ok(())
}

#[test]
fn a_closed_end_whose_peer_is_done_is_gone(rt: HostRuntime) -> Result<(), Fail> {
    let mut held = Held::first(rt.alloc(), FIRST, 1, Spot { node: 0 });
    held.fin_came();
    let (closed, _) = held.close();
    assert!(rt; closed.is_none());
    Ok(())
}

#[test]
fn what_comes_for_an_expected_end_is_deferred(rt: HostRuntime) -> Result<(), Fail> {
    let mut expected = Expected {
        id: SECOND,
        keeper: 1,
        place: Spot { node: 0 },
        deferred: Vec::new(rt.alloc()),
    };
    let fin = Body::Fin {
        to: SECOND,
        conn: 1,
        number: 2,
    };
    let note = note_of(&fin);
    expected.defer(0, fin).map_err(|refused| refused.1)?;
    let last = expected.deferred.last().ok_or("it came")?;
    assert_eq!(rt; (last.from, note_of(&last.body)), (0, note));
    Ok(())
}
