//! A table of one choice, and its copy.
ghost use Rattle.std.specs.Prelude.{◌≡◌, IfOk};
ghost use Rattle.sj_table.specs.Nodes.{node_count};

use sj_base::{Msg, NoMemory};
use sj_lang::{Arm, Arms, Item, Kind, Proto, ProtocolDef, Way, same};
use sj_table::{Spot, Table};
use std::alloc::Global;
use std::test::Fail;

const W: u16 = 0;

fn number(alloc: Global, label: u16) -> Result<Arm, NoMemory>
    ensures { IfOk result (λ a. node_count a.rest ≡ 1) }
{
    let items = Vec::from_array(alloc, [Item::Send(Kind::Int)])?;
    Ok(Arm {
        label,
        rest: Proto { items },
    })
}

// ?{7: !<int>, 8: !<int>}.?(boolean)
fn choice(alloc: Global) -> Result<Proto, NoMemory>
    ensures { IfOk result (λ p. node_count p ≡ 4) }
{
    let first = number(alloc, 7)?;
    let second = number(alloc, 8)?;
    let arms = Vec::from_array(alloc, [first, second])?;
    let items = [Item::Branch(Arms { arms }), Item::Recv(Kind::Boolean)];
    Ok(Proto {
        items: Vec::from_array(alloc, items)?,
    })
}

fn compiled(alloc: Global) -> Result<Table, NoMemory> {
    let def = ProtocolDef {
        line: 1,
        name: W,
        body: choice(alloc)?,
    };
    let defs = Vec::from_array(alloc, [def])?;
    Table::compile(alloc, &defs)
}

fn after(table: &Table, spot: Spot, msg: Msg) -> Result<Spot, Fail> {
    let next = table.after(spot, Way::Into, &msg).ok_or("a message")?;
    Ok(next)
}

#[test]
fn arms_of_equal_places_lead_to_one_spot(rt: HostRuntime) -> Result<(), Fail> {
    let table = compiled(rt.alloc())?;
    let start = table.start(W);
    let first = after(&table, start, Msg::Label(7))?;
    let second = after(&table, start, Msg::Label(8))?;
    assert!(rt; first != second, "two spots");
    assert!(rt; table.is_same(first, second), "of equal places");
    assert!(rt; !table.is_same(first, start), "another item");
    let (_, behind) = table.split(first).ok_or("an item")?;
    let end = after(&table, behind, Msg::Bool(true))?;
    assert_eq!(rt; end, table.done());
    assert!(rt; table.is_done(end) && table.split(end).is_none());
    let none = table.after(start, Way::Into, &Msg::Label(9));
    assert_eq!(rt; none, None, "no label of it");
    Ok(())
}

#[test]
fn a_copy_has_a_spot_for_each_item_and_the_empty_place(rt: HostRuntime) -> Result<(), Fail> {
    let alloc = rt.alloc();
    let table = compiled(alloc)?;
    let copy = table.copied()?;
    let place = choice(alloc)?;
    let start = copy.start(W);
    assert_eq!(rt; start, table.start(W));
    assert!(rt; copy.is_at(start, &place), "the choice");
    assert!(rt; copy.stands_for(start, &place), "it stands for itself");
    assert!(rt; same(&copy.place(alloc, start)?, &place), "its place");
    assert_eq!(rt; copy.start(W + 1), copy.done(), "no such name");
    for node in 0..7 {
        assert_eq!(rt; copy.has(Spot { node }), node < 5, "node {node}");
    }
    Ok(())
}
