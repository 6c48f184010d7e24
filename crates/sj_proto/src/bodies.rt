//! Protocols from their `begin` on.
ghost use Rattle.std.specs.Prelude.{ℕ, List, ◌∷◌, IfOk, IfErr};
ghost use Rattle.sj_lang.specs.Limits.{limits};
ghost use Rattle.sj_grammar.specs.Lexis.{next_of};
ghost use Rattle.sj_grammar.specs.Protocols.{body_pieces, IsBody};
ghost use Rattle.sj_grammar.specs.ProtocolDues.{more, body as body_due};
ghost use Rattle.sj_grammar.specs.FileDues.{Due, proto, file_layer};
ghost use Rattle.sj_grammar.specs.Faults.{Stuck};
ghost use Rattle.sj_grammar.specs.Refusals.{OnFault};
ghost use Rattle.sj_grammar.specs.Asked.{Passes};
ghost use Rattle.sj_proto.specs.Leaves.{Leaves};
ghost use Rattle.sj_proto.specs.Parsed.{standing, Gives, HasRoom};

use crate::parse::seq;
use crate::tokens::Tokens;
use sj_grammar::ParseRefusal;
use sj_lang::{Names, Proto};
use std::alloc::Global;

/// A protocol from its `begin` on, up to the first token that can't be more of it. Its labels are
/// words of `names`. Whatever stands after a protocol is due after it, so a file's reader calls
/// this for each of its protocols.
pub fn body(alloc: Global, tokens: &mut Tokens, names: &mut Names) -> Result<Proto, ParseRefusal>
    requires { HasRoom names.old tokens.old }
    ensures reads { IfOk result (λ p.
        Gives (standing tokens.old names.old) (standing tokens.new names.new)
        (λ word. body_pieces word p) (λ word. IsBody limits word p)) }
    ensures ends { IfOk result (λ _.
        Passes file_layer (proto (more 0)) (next_of tokens.new.ahead)) }
    ensures leaves { Leaves 0 result names.old tokens.old names.new tokens.new }
    ensures fault { IfErr result (OnFault (λ f. (n : ℕ) (ds : List Due)
        → Stuck file_layer limits n (standing tokens.old names.old) (proto body_due ∷ ds) f)) }
{
    tokens.expect(b"begin")?;
    if tokens.accept(b".") {
        let mut items = 0;
        let p = seq(alloc, tokens, names, &mut items, 0)?;
        return Ok(p);
    }
    Ok(Proto {
        items: Vec::new(alloc),
    })
}
