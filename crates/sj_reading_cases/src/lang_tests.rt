//! What the calls do on a small protocol, a block and a table.
use sj_base::Msg;
use sj_lang::{
    Arm, Arms, Deed, Item, Kind, PlaceRefusal, Proto, Stmt, Way, Words, after, copied_block, dual,
    meets, same, stands_for,
};
use std::alloc::Global;
use std::test::Fail;

// ![!<int>]*.?{4: !<String>}
fn sample(alloc: Global) -> Result<Proto, Fail> {
    let turn = vec![in alloc; Item::Send(Kind::Int)]?;
    let rest = vec![in alloc; Item::Send(Kind::Text)]?;
    let arm = Arm {
        label: 4,
        rest: Proto { items: rest },
    };
    let arms = vec![in alloc; arm]?;
    let items = vec![in alloc;
        Item::OutLoop(Proto { items: turn }),
        Item::Branch(Arms { arms }),
    ]?;
    Ok(Proto { items })
}

#[test]
fn a_loop_goes_round_and_a_label_picks_its_arm(rt: HostRuntime) -> Result<(), Fail> {
    let mut place = sample(rt.alloc())?;
    for (way, msg) in [
        (Way::Out, Msg::More(true)),
        (Way::Out, Msg::Int(5)),
        (Way::Out, Msg::More(false)),
        (Way::Into, Msg::Label(4)),
        (Way::Out, Msg::Text(0)),
    ] {
        place = after(rt.alloc(), &place, way, &msg)?;
    }
    assert_eq!(rt; place.items.len(), 0);
    Ok(())
}

#[test]
fn what_is_not_next_is_refused(rt: HostRuntime) -> Result<(), Fail> {
    let start = sample(rt.alloc())?;
    for (way, msg, what) in [
        (Way::Into, Msg::More(true), "a message the other way"),
        (Way::Out, Msg::Int(1), "a number at a loop"),
    ] {
        let refusal = after(rt.alloc(), &start, way, &msg).err();
        assert!(rt; refusal == Some(PlaceRefusal::NotNext), "{what}");
    }
    Ok(())
}

#[test]
fn a_dual_is_another_protocol(rt: HostRuntime) -> Result<(), Fail> {
    let start = sample(rt.alloc())?;
    let other = dual(rt.alloc(), &start)?;
    assert!(rt; !same(&other, &start) && same(&start, &start));
    Ok(())
}

// A selection of these labels, each with nothing after it.
fn selection(alloc: Global, labels: &[u16]) -> Result<Proto, Fail> {
    let mut arms = Vec::new(alloc);
    for label in labels {
        let label = *label;
        let rest = Proto {
            items: Vec::new(alloc),
        };
        arms.push(Arm { label, rest })?;
    }
    let items = vec![in alloc; Item::Select(Arms { arms })]?;
    Ok(Proto { items })
}

#[test]
fn a_branching_may_offer_more_than_is_selected(rt: HostRuntime) -> Result<(), Fail> {
    let alloc = rt.alloc();
    let narrow = selection(alloc, &[3])?;
    let wide = selection(alloc, &[4, 3])?;
    let offered = dual(alloc, &wide)?;
    assert!(rt; meets(&narrow, &offered), "one of two labels is selected");
    assert!(rt; meets(&offered, &narrow), "in the other order");
    let lacking = dual(alloc, &narrow)?;
    assert!(rt; !meets(&wide, &lacking), "a label that isn't offered");
    assert!(rt; !meets(&narrow, &wide), "two selections");
    assert!(rt; stands_for(&wide, &narrow), "more to choose from");
    assert!(rt; !stands_for(&narrow, &wide), "less to choose from");
    Ok(())
}

#[test]
fn a_copied_block_has_as_many_statements(rt: HostRuntime) -> Result<(), Fail> {
    let deed = Deed::Close { end: 7 };
    let block = vec![in rt.alloc(); Stmt { line: 2, deed }]?;
    assert_eq!(rt; copied_block(rt.alloc(), &block)?.len(), 1);
    Ok(())
}

#[test]
fn a_word_has_its_first_number(rt: HostRuntime) -> Result<(), Fail> {
    let mut words = Words::new(rt.alloc());
    let rows: [(&[u8], usize); 4] = [(b"int", 0), (b"to", 1), (b"int", 0), (b"", 2)];
    for (word, number) in rows {
        assert_eq!(rt; words.add(word)?, number);
    }
    assert_eq!(rt; words.find(b"to"), Some(1));
    assert!(rt; words.get(1) == Some(b"to".as_slice()));
    Ok(())
}
