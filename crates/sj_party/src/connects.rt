//! Connections from tokens.
ghost use Rattle.std.specs.Prelude.{◌≡◌, ℕ, true, ◌+◌, ◌<◌, ◌≤◌, IfOk, IfErr, All, List, ◌∷◌, length, map, codes};
ghost use Rattle.sj_lang.specs.FileView.{decl_of, connect_of};
ghost use Rattle.sj_lang.specs.Limits.{limits};
ghost use Rattle.sj_grammar.specs.Lexis.{next_of};
ghost use Rattle.sj_grammar.specs.Files.{end_pieces, connect_pieces, connects_pieces, IsEnd, IsConnect};
ghost use Rattle.sj_grammar.specs.FileDues.{Due, name as name_due, connects, file_layer};
ghost use Rattle.sj_grammar.specs.Faults.{Stuck};
ghost use Rattle.sj_grammar.specs.Refusals.{OnFault};
ghost use Rattle.sj_grammar.specs.Asked.{is_next, Passes};
ghost use Rattle.sj_proto.specs.Leaves.{Leaves};
ghost use Rattle.sj_proto.specs.Parsed.{standing, GivesOnLines, HasRoom, need, room_for_names};

use sj_lang::{Connect, EndDecl, Names};
use sj_proto::{ParseRefusal, Tokens, take_first, take_name};
use std::alloc::Global;

const MOST_CONNECTS: usize = 64;

// One end of a connection: its party, its own name and its protocol.
fn end_decl(tokens: &mut Tokens, names: &mut Names) -> Result<EndDecl, ParseRefusal>
    requires room { need names.old.words tokens.old + 2 ≤ room_for_names }
    ensures reads { IfOk result (λ d.
        GivesOnLines (standing tokens.old names.old) (standing tokens.new names.new)
        (λ names. end_pieces names.word (decl_of d)) (λ names. IsEnd limits names (decl_of d))) }
    ensures shorter { IfOk result (λ _. length tokens.new.ahead < length tokens.old.ahead) }
    ensures leaves { Leaves 3 result names.old tokens.old names.new tokens.new }
    ensures fault { IfErr result (OnFault (λ f. (n : ℕ) (ds : List Due) → Stuck file_layer limits n
        (standing tokens.old names.old) (name_due ∷ name_due ∷ name_due ∷ ds) f)) }
{
    let party = take_name(tokens, names, false)?;
    let name = take_name(tokens, names, false)?;
    let protocol = take_name(tokens, names, false)?;
    Ok(EndDecl {
        party,
        name,
        protocol,
    })
}

// One connection, from its first word on; so many stand before it.
fn connect(tokens: &mut Tokens, names: &mut Names, before: usize) -> Result<Connect, ParseRefusal>
    requires room { HasRoom names.old tokens.old }
    requires first { is_next (codes "connect") (next_of tokens.old.ahead) ≡ true }
    ensures reads { IfOk result (λ c.
        GivesOnLines (standing tokens.old names.old) (standing tokens.new names.new)
        (λ names. connect_pieces names.word (connect_of c))
        (λ names. IsConnect limits names (connect_of c))) }
    ensures few { IfOk result (λ _. before < limits.connects) }
    ensures shorter { IfOk result (λ _. length tokens.new.ahead < length tokens.old.ahead) }
    ensures leaves { Leaves 0 result names.old tokens.old names.new tokens.new }
    ensures fault { IfErr result (OnFault (λ f. (n : ℕ) (ds : List Due) → Stuck file_layer limits n
        (standing tokens.old names.old) (connects before ∷ ds) f)) }
{
    let line = tokens.line();
    take_first(tokens, b"connect", before >= MOST_CONNECTS)?;
    let first = end_decl(tokens, names)?;
    tokens.expect(b"to")?;
    let second = end_decl(tokens, names)?;
    tokens.expect(b";")?;
    Ok(Connect {
        line,
        first,
        second,
    })
}

/// The connections that come next, up to the first token that isn't `connect`. Their names are
/// words of `names`, which grows by the new ones.
pub fn parse_connects(
    alloc: Global,
    tokens: &mut Tokens,
    names: &mut Names,
) -> Result<Vec<Connect>, ParseRefusal>
    requires room { HasRoom names.old tokens.old }
    ensures reads { IfOk result (λ v.
        GivesOnLines (standing tokens.old names.old) (standing tokens.new names.new)
        (λ names. connects_pieces names.word (map connect_of v.items))
        (λ names. All (IsConnect limits names) (map connect_of v.items))) }
    ensures few { IfOk result (λ v. length v.items ≤ limits.connects) }
    ensures ends { IfOk result (λ v.
        Passes file_layer (connects (length v.items)) (next_of tokens.new.ahead)) }
    ensures leaves { Leaves 0 result names.old tokens.old names.new tokens.new }
    ensures fault { IfErr result (OnFault (λ f. (n : ℕ) (ds : List Due) → Stuck file_layer limits n
        (standing tokens.old names.old) (connects 0 ∷ ds) f)) }
{
    let mut list = Vec::new(alloc);
    while tokens.sees(b"connect") {
        let before = list.len();
        list.push(connect(tokens, names, before)?)?;
    }
    Ok(list)
}
