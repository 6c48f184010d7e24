//! The text of one protocol, and the protocols at the start of a file.
ghost use Rattle.std.specs.Prelude.{◌≡◌, ℕ, true, ◌<◌, ◌≤◌, IfOk, IfErr, List, ◌∷◌, length, map, codes};
ghost use Rattle.sj_lang.specs.FileAt.{ProtocolAt};
ghost use Rattle.sj_lang.specs.FileView.{protocol_of};
ghost use Rattle.sj_lang.specs.Place.{Place};
ghost use Rattle.sj_lang.specs.declared.file.Names.{Names};
ghost use Rattle.sj_lang.specs.Limits.{limits, file_limit};
ghost use Rattle.sj_grammar.specs.Lexis.{next_of};
ghost use Rattle.sj_grammar.specs.Positions.{At};
ghost use Rattle.sj_grammar.specs.Files.{protocol_pieces, IsProtocolDef};
ghost use Rattle.sj_grammar.specs.FileDues.{Due, protocols, file_layer};
ghost use Rattle.sj_grammar.specs.Faults.{Stuck};
ghost use Rattle.sj_grammar.specs.Refusals.{OnFault};
ghost use Rattle.sj_grammar.specs.Asked.{is_next};
ghost use Rattle.sj_proto.specs.Leaves.{Leaves};
ghost use Rattle.sj_proto.specs.Parsed.{standing, GivesOnLines, Extends, HasRoom, names_before};
ghost use Rattle.sj_proto.specs.Protocols.{IsProtocol, AreProtocols, IsFirstFault, IsFaultInProtocols, IsOnly};

use crate::bodies::body;
use crate::choices::take_first;
use crate::naming::take_name;
use crate::tokens::Tokens;
use sj_grammar::ParseRefusal;
use sj_lang::{Names, Proto, ProtocolDef};
use std::alloc::Global;

const MOST_PROTOCOLS: usize = 256;

/// The protocol that the bytes spell: one `body` of the grammar. Its labels are words of `names`,
/// which grows by the new ones, also where the text is refused.
pub fn parse_protocol(alloc: Global, bytes: &[u8], names: &mut Names) -> Result<Proto, ParseRefusal>
    requires short { length bytes.now ≤ file_limit }
    requires words { length names.old.words ≤ names_before }
    requires texts { length names.old.texts ≤ names_before }
    // the value exactly where the text is a protocol, and that value alone
    ensures found { IfOk result (IsProtocol bytes.now names.old names.new) }
    ensures only { (p : Place) (new : Names) → IsProtocol bytes.now names.old new p
        → IsOnly (λ q. q) result p }
    // and else exactly the first fault
    ensures fault { IfErr result (OnFault (IsFirstFault bytes.now names.old)) }
    ensures kept { Extends names.old.words names.new.words }
    ensures texts { names.new.texts ≡ names.old.texts }
{
    let mut tokens = Tokens::over(bytes);
    let p = body(alloc, &mut tokens, names)?;
    tokens.finish()?;
    Ok(p)
}

/// One protocol, from its first word on; so many stand before it.
pub fn protocol_def(
    alloc: Global,
    tokens: &mut Tokens,
    names: &mut Names,
    before: usize,
) -> Result<ProtocolDef, ParseRefusal>
    requires room { HasRoom names.old tokens.old }
    requires first { is_next (codes "protocol") (next_of tokens.old.ahead) ≡ true }
    ensures reads { IfOk result (λ p.
        GivesOnLines (standing tokens.old names.old) (standing tokens.new names.new)
        (λ names. protocol_pieces names.word (protocol_of p))
        (λ names. IsProtocolDef limits names (protocol_of p))) }
    ensures few { IfOk result (λ _. before < limits.protocols) }
    ensures shorter { IfOk result (λ _. length tokens.new.ahead < length tokens.old.ahead) }
    ensures leaves { Leaves 0 result names.old tokens.old names.new tokens.new }
    ensures fault { IfErr result (OnFault (λ f. (n : ℕ) (ds : List Due)
        → Stuck file_layer limits n (standing tokens.old names.old) (protocols before ∷ ds) f)) }
{
    let line = tokens.line();
    take_first(tokens, b"protocol", before >= MOST_PROTOCOLS)?;
    let name = take_name(tokens, names, false)?;
    tokens.expect(b"{")?;
    let body = body(alloc, tokens, names)?;
    tokens.expect(b"}")?;
    Ok(ProtocolDef { line, name, body })
}

/// The protocols at the start of a text, up to the first token that isn't `protocol`, where the
/// reader then stands. Their names and labels are words of `names`, which grows by the new ones,
/// also where the text is refused.
pub fn parse_protocols(
    alloc: Global,
    tokens: &mut Tokens,
    names: &mut Names,
) -> Result<Vec<ProtocolDef>, ParseRefusal>
    requires words { length names.old.words ≤ names_before }
    requires texts { length names.old.texts ≤ names_before }
    // the value exactly where protocols stand at the start, and that value alone
    ensures found { IfOk result (λ v.
        AreProtocols (standing tokens.old names.old) (map protocol_of v.items)
        (standing tokens.new names.new)) }
    ensures only { (ps : List ProtocolAt) (b : At) →
        AreProtocols (standing tokens.old names.old) ps b
        → IsOnly (λ v. map protocol_of v.items) result ps }
    // and else exactly the first fault
    ensures fault { IfErr result (OnFault (IsFaultInProtocols (standing tokens.old names.old))) }
    ensures leaves { Leaves 0 result names.old tokens.old names.new tokens.new }
{
    tokens.stays_short();
    let mut list = Vec::new(alloc);
    while tokens.sees(b"protocol") {
        let before = list.len();
        list.push(protocol_def(alloc, tokens, names, before)?)?;
    }
    tokens.readable()?;
    Ok(list)
}
