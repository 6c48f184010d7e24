//! Kinds of values as tokens.
ghost use Rattle.std.specs.Prelude.{◌≡◌, ◌<◌, false, length, codes, IfSome, IfNone};
ghost use Rattle.sj_grammar.specs.Lexis.{next_of};
ghost use Rattle.sj_grammar.specs.Asked.{TakesText, is_next};
ghost use Rattle.sj_grammar.specs.Statements.{scalar_piece};
ghost use Rattle.sj_proto.specs.Onward.{Advances};

use sj_lang::Scalar;
use sj_proto::Tokens;

/// Takes the kind of a value where it comes next.
pub fn take_scalar(tokens: &mut Tokens) -> Option<Scalar>
    ensures taken { IfSome result (λ k. TakesText tokens.old (scalar_piece k) tokens.new) }
    ensures shorter { IfSome result (λ _. length tokens.new.ahead < length tokens.old.ahead) }
    ensures kept { IfNone result (tokens.new ≡ tokens.old) }
    ensures onward { Advances tokens.old tokens.new }
    ensures int { IfNone result (is_next (codes "int") (next_of tokens.old.ahead) ≡ false) }
    ensures boolean { IfNone result (is_next (codes "boolean") (next_of tokens.old.ahead) ≡ false) }
    ensures text { IfNone result (is_next (codes "String") (next_of tokens.old.ahead) ≡ false) }
{
    if tokens.accept(b"int") {
        return Some(Scalar::Int);
    }
    if tokens.accept(b"boolean") {
        return Some(Scalar::Boolean);
    }
    if tokens.accept(b"String") {
        return Some(Scalar::Text);
    }
    None
}
