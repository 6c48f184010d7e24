//! Parties from tokens.
ghost use Rattle.std.specs.Prelude.{◌≡◌, ℕ, true, ◌<◌, ◌≤◌, IfOk, IfErr, List, [], ◌∷◌, length, map, codes};
ghost use Rattle.sj_lang.specs.FileView.{party_of};
ghost use Rattle.sj_lang.specs.Limits.{limits};
ghost use Rattle.sj_grammar.specs.Lexis.{next_of};
ghost use Rattle.sj_grammar.specs.Files.{AreParties};
ghost use Rattle.sj_grammar.specs.FileDues.{Due, parties, file_layer};
ghost use Rattle.sj_grammar.specs.Faults.{Stuck};
ghost use Rattle.sj_grammar.specs.Refusals.{OnFault};
ghost use Rattle.sj_grammar.specs.Asked.{is_next, Passes};
ghost use Rattle.sj_proto.specs.Onward.{Advances};
ghost use Rattle.sj_proto.specs.Parsed.{standing};
ghost use Rattle.sj_expr.specs.Read.{HasRooms};
ghost use Rattle.sj_party.specs.Read.{ReadsOnLines, KeepsRoom};

use crate::statements::statements;
use sj_lang::{Names, Party};
use sj_proto::{ParseRefusal, Tokens, take_first, take_name};
use std::alloc::Global;

const MOST_PARTIES: usize = 16;

// One party, from its first word on; so many stand before it.
fn party(
    alloc: Global,
    tokens: &mut Tokens,
    names: &mut Names,
    before: usize,
) -> Result<Party, ParseRefusal>
    requires room { HasRooms names.old tokens.old }
    requires first { is_next (codes "party") (next_of tokens.old.ahead) ≡ true }
    ensures reads { IfOk result (λ q.
        ReadsOnLines (standing tokens.old names.old) (standing tokens.new names.new)
        (λ names ps. AreParties limits names (party_of q ∷ []) ps)) }
    ensures few { IfOk result (λ _. before < limits.parties) }
    ensures room { IfOk result (λ _. KeepsRoom names.old tokens.old names.new tokens.new) }
    ensures shorter { IfOk result (λ _. length tokens.new.ahead < length tokens.old.ahead) }
    ensures onward { Advances tokens.old tokens.new }
    ensures fault { IfErr result (OnFault (λ f. (n : ℕ) (ds : List Due) → Stuck file_layer limits n
        (standing tokens.old names.old) (parties before ∷ ds) f)) }
{
    let line = tokens.line();
    take_first(tokens, b"party", before >= MOST_PARTIES)?;
    let name = take_name(tokens, names, false)?;
    tokens.expect(b"{")?;
    let body = statements(alloc, tokens, names, 0)?;
    tokens.expect(b"}")?;
    Ok(Party { line, name, body })
}

/// The parties that come next, up to the first token that isn't `party`. Their names and texts are
/// those of `names`, which grows by the new ones.
pub fn parse_parties(
    alloc: Global,
    tokens: &mut Tokens,
    names: &mut Names,
) -> Result<Vec<Party>, ParseRefusal>
    requires room { HasRooms names.old tokens.old }
    ensures reads { IfOk result (λ v.
        ReadsOnLines (standing tokens.old names.old) (standing tokens.new names.new)
        (λ names ps. AreParties limits names (map party_of v.items) ps)) }
    ensures few { IfOk result (λ v. length v.items ≤ limits.parties) }
    ensures ends { IfOk result (λ v.
        Passes file_layer (parties (length v.items)) (next_of tokens.new.ahead)) }
    ensures room { IfOk result (λ _. KeepsRoom names.old tokens.old names.new tokens.new) }
    ensures onward { Advances tokens.old tokens.new }
    ensures fault { IfErr result (OnFault (λ f. (n : ℕ) (ds : List Due) → Stuck file_layer limits n
        (standing tokens.old names.old) (parties 0 ∷ ds) f)) }
{
    let mut list = Vec::new(alloc);
    while tokens.sees(b"party") {
        let before = list.len();
        list.push(party(alloc, tokens, names, before)?)?;
    }
    Ok(list)
}
