//! What may stand at a token of a protocol.
ghost use Rattle.std.specs.Prelude.{◌≡◌, ◌<◌, false, length, IfOk, IfErr, OnOk};
ghost use Rattle.sj_grammar.specs.Asked.{TakesText, Refuses};
ghost use Rattle.sj_grammar.specs.Protocols.{way_piece, open_piece, close_piece};
ghost use Rattle.sj_proto.specs.Onward.{Advances};
ghost use Rattle.sj_proto.specs.Choices.{but_way, but_open, but_first, bracket_piece};

use crate::tokens::Tokens;
use sj_grammar::{Fault, Rule};
use sj_lang::Way;

/// What opens a bracket, after the way of an item.
#[derive(Clone, Copy)]
pub enum Bracket {
    Kind,
    Arms,
    Turns,
}

/// The way of an item, which passes a limit where there is no room for one more.
pub fn take_way(tokens: &mut Tokens, full: bool) -> Result<Way, Fault>
    ensures ok { IfOk result (λ w. TakesText tokens.old (way_piece w) tokens.new) }
    ensures room { IfOk result (λ _. full ≡ false) }
    ensures fault { IfErr result (Refuses (but_way full) tokens.old) }
    ensures shorter { IfOk result (λ _. length tokens.new.ahead < length tokens.old.ahead) }
    ensures onward { Advances tokens.old tokens.new }
{
    if !tokens.sees(b"!") && !tokens.sees(b"?") {
        return Err(tokens.fault(Rule::P1));
    }
    if full {
        return Err(tokens.fault(Rule::P4));
    }
    if tokens.accept(b"!") {
        return Ok(Way::Out);
    }
    tokens.expect(b"?")?;
    Ok(Way::Into)
}

fn open_bytes(way: Way) -> &'static [u8]
    ensures { result.now ≡ open_piece way }
{
    match way {
        Way::Out => b"<",
        Way::Into => b"(",
    }
}

/// What opens a bracket after the way, which passes a limit where it is too deep.
pub fn take_bracket(tokens: &mut Tokens, way: Way, deep: bool) -> Result<Bracket, Fault>
    ensures ok { IfOk result (λ o. TakesText tokens.old (bracket_piece way o) tokens.new) }
    ensures room { IfOk result (λ _. deep ≡ false) }
    ensures fault { IfErr result (Refuses (but_open way deep) tokens.old) }
    ensures shorter { IfOk result (λ _. length tokens.new.ahead < length tokens.old.ahead) }
    ensures onward { Advances tokens.old tokens.new }
{
    let kind = open_bytes(way);
    if !tokens.sees(kind) && !tokens.sees(b"{") && !tokens.sees(b"[") {
        return Err(tokens.fault(Rule::P1));
    }
    if deep {
        return Err(tokens.fault(Rule::P4));
    }
    if tokens.accept(kind) {
        return Ok(Bracket::Kind);
    }
    if tokens.accept(b"{") {
        return Ok(Bracket::Arms);
    }
    tokens.expect(b"[")?;
    Ok(Bracket::Turns)
}

/// The bracket that closes what the way opened.
pub fn close_bytes(way: Way) -> &'static [u8]
    ensures { result.now ≡ close_piece way }
{
    match way {
        Way::Out => b">",
        Way::Into => b")",
    }
}

/// Takes the piece with which something begins, which passes a limit where there is no room for one
/// more.
pub fn take_first(tokens: &mut Tokens, spelled: &[u8], full: bool) -> Result<(), Fault>
    ensures ok { OnOk result (TakesText tokens.old spelled.now tokens.new) }
    ensures room { OnOk result (full ≡ false) }
    ensures fault { IfErr result (Refuses (but_first spelled.now full) tokens.old) }
    ensures shorter { OnOk result (length tokens.new.ahead < length tokens.old.ahead) }
    ensures err { IfErr result (λ _. tokens.new ≡ tokens.old) }
    ensures onward { Advances tokens.old tokens.new }
{
    if full && tokens.sees(spelled) {
        return Err(tokens.fault(Rule::P4));
    }
    tokens.expect(spelled)
}
