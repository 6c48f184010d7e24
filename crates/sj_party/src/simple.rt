//! Statements with no block, after their first words.
ghost use Rattle.std.specs.Prelude.{◌≡◌, ℕ, ◌<◌, ◌∷◌, codes, IfOk, IfErr};
ghost use Rattle.sj_lang.specs.CodeView.{deed_of};
ghost use Rattle.sj_grammar.specs.ExpressionDues.{whole};
ghost use Rattle.sj_grammar.specs.FileDues.{name, fixed, expr, awaited, semicolon};
ghost use Rattle.sj_proto.specs.Parsed.{standing, Stops};
ghost use Rattle.sj_expr.specs.Leaves.{LeavesTables};
ghost use Rattle.sj_party.specs.Rooms.{HasRoomFor, Uses};
ghost use Rattle.sj_party.specs.Parts.{ReadsDeed};
ghost use Rattle.sj_party.specs.Awaits.{take_deed};
ghost use Rattle.sj_party.specs.Words.{simple_word, simple_dues};

use crate::first_words::Word;
use crate::parts::{
    Awaited, binding, name_and_value, names_around, one_name, take_awaited, two_names,
};
use sj_lang::{Deed, Names};
use sj_proto::{ParseRefusal, Tokens};
use std::alloc::Global;

fn send(alloc: Global, tokens: &mut Tokens, names: &mut Names) -> Result<Deed, ParseRefusal>
    requires room { HasRoomFor 2 names.old tokens.old }
    ensures reads { IfOk result (λ d. (o : ℕ) → ReadsDeed (codes "send") o
        (standing tokens.old names.old) (standing tokens.new names.new) (deed_of d)) }
    ensures leaves { LeavesTables (Uses 1 0) result names.old tokens.old names.new tokens.new }
    ensures fault { IfErr result (λ e. (n : ℕ) → Stops (λ ds. name ∷ expr whole ∷ semicolon ∷ ds) n
        (standing tokens.old names.old) e) }
{
    let (end, value) = name_and_value(alloc, tokens, names)?;
    tokens.expect(b";")?;
    Ok(Deed::Send { end, value })
}

fn delegate(tokens: &mut Tokens, names: &mut Names) -> Result<Deed, ParseRefusal>
    requires room { HasRoomFor 2 names.old tokens.old }
    ensures reads { IfOk result (λ d. (o : ℕ) → ReadsDeed (codes "delegate") o
        (standing tokens.old names.old) (standing tokens.new names.new) (deed_of d)) }
    ensures leaves { LeavesTables (Uses 1 0) result names.old tokens.old names.new tokens.new }
    ensures fault { IfErr result (λ e. (n : ℕ) → Stops (λ ds. name ∷ name ∷ semicolon ∷ ds) n
        (standing tokens.old names.old) e) }
{
    let (end, sent) = two_names(tokens, names)?;
    tokens.expect(b";")?;
    Ok(Deed::Delegate { end, sent })
}

// What a `recv` does with what it awaits.
fn taking(end: u16, into: u16, what: Awaited) -> Deed
    ensures { deed_of result ≡ take_deed end into what }
{
    match what {
        Awaited::Value(kind) => Deed::Take { end, into, kind },
        Awaited::End(protocol) => Deed::TakeEnd {
            end,
            into,
            protocol,
        },
    }
}

fn receive(tokens: &mut Tokens, names: &mut Names) -> Result<Deed, ParseRefusal>
    requires room { HasRoomFor 2 names.old tokens.old }
    ensures reads { IfOk result (λ d. (o : ℕ) → ReadsDeed (codes "recv") o
        (standing tokens.old names.old) (standing tokens.new names.new) (deed_of d)) }
    ensures leaves { LeavesTables (Uses 1 0) result names.old tokens.old names.new tokens.new }
    ensures fault { IfErr result (λ e. (n : ℕ) → Stops (λ ds. name ∷ name ∷ awaited ∷ semicolon
        ∷ ds) n (standing tokens.old names.old) e) }
{
    let (end, into) = two_names(tokens, names)?;
    let what = take_awaited(tokens, names)?;
    tokens.expect(b";")?;
    Ok(taking(end, into, what))
}

fn select(tokens: &mut Tokens, names: &mut Names) -> Result<Deed, ParseRefusal>
    requires room { HasRoomFor 2 names.old tokens.old }
    ensures reads { IfOk result (λ d. (o : ℕ) → ReadsDeed (codes "outbranch") o
        (standing tokens.old names.old) (standing tokens.new names.new) (deed_of d)) }
    ensures leaves { LeavesTables (Uses 1 0) result names.old tokens.old names.new tokens.new }
    ensures fault { IfErr result (λ e. (n : ℕ) → Stops (λ ds. name ∷ name ∷ semicolon ∷ ds) n
        (standing tokens.old names.old) e) }
{
    let (end, label) = two_names(tokens, names)?;
    tokens.expect(b";")?;
    Ok(Deed::Select { end, label })
}

fn bind(alloc: Global, tokens: &mut Tokens, names: &mut Names) -> Result<Deed, ParseRefusal>
    requires room { HasRoomFor 2 names.old tokens.old }
    ensures reads { IfOk result (λ d. (o : ℕ) → ReadsDeed (codes "let") o
        (standing tokens.old names.old) (standing tokens.new names.new) (deed_of d)) }
    ensures leaves { LeavesTables (Uses 1 0) result names.old tokens.old names.new tokens.new }
    ensures fault { IfErr result (λ e. (n : ℕ) → Stops (λ ds. name ∷ fixed (codes "=")
        ∷ expr whole ∷ semicolon ∷ ds) n (standing tokens.old names.old) e) }
{
    let (name, value) = binding(alloc, tokens, names)?;
    tokens.expect(b";")?;
    Ok(Deed::Let { name, value })
}

fn close(tokens: &mut Tokens, names: &mut Names) -> Result<Deed, ParseRefusal>
    requires room { HasRoomFor 2 names.old tokens.old }
    ensures reads { IfOk result (λ d. (o : ℕ) → ReadsDeed (codes "close") o
        (standing tokens.old names.old) (standing tokens.new names.new) (deed_of d)) }
    ensures leaves { LeavesTables (Uses 1 0) result names.old tokens.old names.new tokens.new }
    ensures fault { IfErr result (λ e. (n : ℕ) → Stops (λ ds. name ∷ semicolon ∷ ds) n
        (standing tokens.old names.old) e) }
{
    let end = one_name(tokens, names)?;
    tokens.expect(b";")?;
    Ok(Deed::Close { end })
}

fn request(tokens: &mut Tokens, names: &mut Names) -> Result<Deed, ParseRefusal>
    requires room { HasRoomFor 2 names.old tokens.old }
    ensures reads { IfOk result (λ d. (o : ℕ) → ReadsDeed (codes "request") o
        (standing tokens.old names.old) (standing tokens.new names.new) (deed_of d)) }
    ensures leaves { LeavesTables (Uses 1 0) result names.old tokens.old names.new tokens.new }
    ensures fault { IfErr result (λ e. (n : ℕ) → Stops (λ ds. name ∷ name ∷ fixed (codes "to")
        ∷ name ∷ semicolon ∷ ds) n (standing tokens.old names.old) e) }
{
    let (end, protocol, party) = names_around(tokens, names, b"to")?;
    tokens.expect(b";")?;
    Ok(Deed::Request {
        end,
        protocol,
        party,
    })
}

fn accept(tokens: &mut Tokens, names: &mut Names) -> Result<Deed, ParseRefusal>
    requires room { HasRoomFor 2 names.old tokens.old }
    ensures reads { IfOk result (λ d. (o : ℕ) → ReadsDeed (codes "accept") o
        (standing tokens.old names.old) (standing tokens.new names.new) (deed_of d)) }
    ensures leaves { LeavesTables (Uses 1 0) result names.old tokens.old names.new tokens.new }
    ensures fault { IfErr result (λ e. (n : ℕ) → Stops (λ ds. name ∷ name ∷ fixed (codes "from")
        ∷ name ∷ semicolon ∷ ds) n (standing tokens.old names.old) e) }
{
    let (end, protocol, party) = names_around(tokens, names, b"from")?;
    tokens.expect(b";")?;
    Ok(Deed::Accept {
        end,
        protocol,
        party,
    })
}

/// A statement with no block, after that word.
pub fn simple(
    alloc: Global,
    tokens: &mut Tokens,
    names: &mut Names,
    word: Word,
) -> Result<Deed, ParseRefusal>
    requires room { HasRoomFor 2 names.old tokens.old }
    ensures reads { IfOk result (λ d. (o : ℕ) → ReadsDeed (simple_word word) o
        (standing tokens.old names.old) (standing tokens.new names.new) (deed_of d)) }
    ensures leaves { LeavesTables (Uses 1 0) result names.old tokens.old names.new tokens.new }
    ensures fault { IfErr result (λ e. (n : ℕ) → Stops (λ ds. simple_dues word ds) n
        (standing tokens.old names.old) e) }
{
    match word {
        Word::Send => send(alloc, tokens, names),
        Word::Delegate => delegate(tokens, names),
        Word::Recv => receive(tokens, names),
        Word::Outbranch => select(tokens, names),
        Word::Let => bind(alloc, tokens, names),
        Word::Close => close(tokens, names),
        Word::Request => request(tokens, names),
        Word::Accept => accept(tokens, names),
    }
}
