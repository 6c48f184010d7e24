//! Protocols as text.
#![tactic(auto, using(sj_lang::proofs::WithinLemmas::within, sj_text::proofs::CutLemmas::cuts, crate::proofs::PrintingLemmas::dot_apart))]

ghost use Rattle.std.specs.Prelude.{◌≡◌, ◌++◌, ◌<◌, [], nat_lt, if◌then◌else◌, codes, OnOk, OnErr};
ghost use Rattle.sj_text.specs.Cut.{IsCutShort};
ghost use Rattle.sj_lang.specs.Place.{done};
ghost use Rattle.sj_lang.specs.View.{carried_of, followed, place_of};
ghost use Rattle.sj_grammar.specs.Tables.{entry_of};
ghost use Rattle.sj_grammar.specs.Canonical.{body_text, seq_text, kind_text, arm_text, arms_text, gap_before};

use sj_base::NoMemory;
use sj_lang::{Arm, Arms, Item, Kind, Names, Proto};
use sj_text::put;

/// Appends the canonical text of a protocol, from its `begin` on. Where the grammar can give the
/// protocol with these names, the text stands for it; a label that `names` lacks is left out.
pub fn print_protocol(text: &mut Vec<u8>, names: &Names, p: &Proto) -> Result<(), NoMemory>
    ensures ok { OnOk result (text.new.items
        ≡ text.old.items ++ body_text (entry_of names.now.words) p.now) }
    ensures err { OnErr result (IsCutShort text.old.items
        (body_text (entry_of names.now.words) p.now) text.new.items) }
{
    put(text, b"begin")?;
    put_behind(text, names, b".", p)
}

/// Appends the word of that number, and nothing where there is none.
pub fn put_word(text: &mut Vec<u8>, names: &Names, n: u16) -> Result<(), NoMemory>
    ensures ok { OnOk result (text.new.items ≡ text.old.items ++ entry_of names.now.words n) }
    ensures err { OnErr result (text.new.items ≡ text.old.items) }
{
    match names.words.get(n as usize) {
        Some(word) => put(text, word),
        None => Ok(()),
    }
}

// Appends what stands between two of a list, where there are some before.
fn put_between(text: &mut Vec<u8>, before: usize, bytes: &[u8]) -> Result<(), NoMemory>
    ensures ok { OnOk result (text.new.items
        ≡ text.old.items ++ (if nat_lt 0 before then bytes.now else [])) }
    ensures err { OnErr result (text.new.items ≡ text.old.items) }
{
    if before > 0 {
        return put(text, bytes);
    }
    Ok(())
}

// Items after a gap, and nothing where there are no items.
#[cycle(printing)]
fn put_behind(text: &mut Vec<u8>, names: &Names, gap: &[u8], p: &Proto) -> Result<(), NoMemory>
    ensures ok { OnOk result (text.new.items ≡ text.old.items
        ++ (gap_before gap.now p.now ++ seq_text (entry_of names.now.words) p.now)) }
    ensures err { OnErr result (IsCutShort text.old.items
        (gap_before gap.now p.now ++ seq_text (entry_of names.now.words) p.now) text.new.items) }
{
    if p.items.is_empty() {
        return Ok(());
    }
    put(text, gap)?;
    put_items(text, names, &p.items)
}

// Items with dots between them.
#[cycle(printing)]
fn put_items(text: &mut Vec<u8>, names: &Names, items: &[Item]) -> Result<(), NoMemory>
    ensures ok { OnOk result (text.new.items
        ≡ text.old.items ++ seq_text (entry_of names.now.words) (place_of items.now)) }
    ensures err { OnErr result (IsCutShort text.old.items
        (seq_text (entry_of names.now.words) (place_of items.now)) text.new.items) }
{
    for (i, item) in items.iter().enumerate() {
        put_between(text, i, b".")?;
        put_item(text, names, item)?;
    }
    Ok(())
}

#[cycle(printing)]
fn put_item(text: &mut Vec<u8>, names: &Names, item: &Item) -> Result<(), NoMemory>
    ensures ok { OnOk result (text.new.items
        ≡ text.old.items ++ seq_text (entry_of names.now.words) (followed item.now done)) }
    ensures err { OnErr result (IsCutShort text.old.items
        (seq_text (entry_of names.now.words) (followed item.now done)) text.new.items) }
{
    match item {
        Item::Send(kind) => put_message(text, names, b"!<", kind, b">"),
        Item::Recv(kind) => put_message(text, names, b"?(", kind, b")"),
        Item::Select(arms) => put_choice(text, names, b"!{", arms),
        Item::Branch(arms) => put_choice(text, names, b"?{", arms),
        Item::OutLoop(body) => put_loop(text, names, b"![", body),
        Item::InLoop(body) => put_loop(text, names, b"?[", body),
    }
}

#[cycle(printing)]
fn put_message(
    text: &mut Vec<u8>,
    names: &Names,
    opening: &[u8],
    kind: &Kind,
    closing: &[u8],
) -> Result<(), NoMemory>
    ensures ok { OnOk result (text.new.items ≡ text.old.items ++ (opening.now
        ++ (kind_text (entry_of names.now.words) (carried_of kind.now) ++ closing.now))) }
    ensures err { OnErr result (IsCutShort text.old.items
        (opening.now ++ (kind_text (entry_of names.now.words) (carried_of kind.now) ++ closing.now))
        text.new.items) }
{
    put(text, opening)?;
    put_kind(text, names, kind)?;
    put(text, closing)
}

#[cycle(printing)]
fn put_kind(text: &mut Vec<u8>, names: &Names, kind: &Kind) -> Result<(), NoMemory>
    ensures ok { OnOk result (text.new.items ≡ text.old.items
        ++ kind_text (entry_of names.now.words) (carried_of kind.now)) }
    ensures err { OnErr result (IsCutShort text.old.items
        (kind_text (entry_of names.now.words) (carried_of kind.now)) text.new.items) }
{
    match kind {
        Kind::Int => put(text, b"int"),
        Kind::Boolean => put(text, b"boolean"),
        Kind::Text => put(text, b"String"),
        Kind::Session(p) => put_items(text, names, &p.items),
    }
}

#[cycle(printing)]
fn put_choice(
    text: &mut Vec<u8>,
    names: &Names,
    opening: &[u8],
    choice: &Arms,
) -> Result<(), NoMemory>
    ensures ok { OnOk result (text.new.items ≡ text.old.items
        ++ (opening.now ++ (arms_text (entry_of names.now.words) choice.now ++ codes "}"))) }
    ensures err { OnErr result (IsCutShort text.old.items
        (opening.now ++ (arms_text (entry_of names.now.words) choice.now ++ codes "}"))
        text.new.items) }
{
    put(text, opening)?;
    for (i, arm) in choice.arms.iter().enumerate() {
        put_between(text, i, b", ")?;
        put_arm(text, names, arm)?;
    }
    put(text, b"}")
}

#[cycle(printing)]
fn put_arm(text: &mut Vec<u8>, names: &Names, arm: &Arm) -> Result<(), NoMemory>
    ensures ok { OnOk result (text.new.items
        ≡ text.old.items ++ arm_text (entry_of names.now.words) arm.now.label arm.now.rest) }
    ensures err { OnErr result (IsCutShort text.old.items
        (arm_text (entry_of names.now.words) arm.now.label arm.now.rest) text.new.items) }
{
    put_word(text, names, arm.label)?;
    put(text, b":")?;
    put_behind(text, names, b" ", &arm.rest)
}

#[cycle(printing)]
fn put_loop(text: &mut Vec<u8>, names: &Names, opening: &[u8], body: &Proto) -> Result<(), NoMemory>
    ensures ok { OnOk result (text.new.items ≡ text.old.items
        ++ (opening.now ++ (seq_text (entry_of names.now.words) body.now ++ codes "]*"))) }
    ensures err { OnErr result (IsCutShort text.old.items
        (opening.now ++ (seq_text (entry_of names.now.words) body.now ++ codes "]*"))
        text.new.items) }
{
    put(text, opening)?;
    put_items(text, names, &body.items)?;
    put(text, b"]*")
}
