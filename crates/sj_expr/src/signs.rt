//! Operators between operands.
ghost use Rattle.std.specs.Prelude.{◌≡◌, ℕ, ◌<◌, length, IfOk, IfSome, IfNone};
ghost use Rattle.sj_lang.specs.Term.{not, two};
ghost use Rattle.sj_lang.specs.CodeView.{term_of};
ghost use Rattle.sj_grammar.specs.Lexis.{next_of};
ghost use Rattle.sj_grammar.specs.ExpressionDues.{plus, compare, expression_layer};
ghost use Rattle.sj_grammar.specs.Asked.{TakesText, Passes};
ghost use Rattle.sj_proto.specs.Onward.{Advances};
ghost use Rattle.sj_expr.specs.Signs.{op_piece, IsSign, IsComparison};

use sj_base::NoMemory;
use sj_lang::{Expr, Op};
use sj_proto::Tokens;
use std::alloc::Global;

/// Takes a `+` or a `-` where it comes next.
pub fn take_sign(tokens: &mut Tokens) -> Option<Op>
    ensures sign { IfSome result IsSign }
    ensures taken { IfSome result (λ op. TakesText tokens.old (op_piece op) tokens.new) }
    ensures shorter { IfSome result (λ _. length tokens.new.ahead < length tokens.old.ahead) }
    ensures kept { IfNone result (tokens.new ≡ tokens.old) }
    ensures onward { Advances tokens.old tokens.new }
    ensures none { IfNone result ((o : ℕ) → Passes expression_layer (plus o) (next_of tokens.old.ahead)) }
{
    if tokens.accept(b"+") {
        return Some(Op::Add);
    }
    if tokens.accept(b"-") {
        return Some(Op::Sub);
    }
    None
}

/// Takes a `<`, a `<=` or a `==` where it comes next.
pub fn take_comparison(tokens: &mut Tokens) -> Option<Op>
    ensures comparison { IfSome result IsComparison }
    ensures taken { IfSome result (λ op. TakesText tokens.old (op_piece op) tokens.new) }
    ensures shorter { IfSome result (λ _. length tokens.new.ahead < length tokens.old.ahead) }
    ensures kept { IfNone result (tokens.new ≡ tokens.old) }
    ensures onward { Advances tokens.old tokens.new }
    ensures none { IfNone result ((o : ℕ) → Passes expression_layer (compare o) (next_of tokens.old.ahead)) }
{
    if tokens.accept(b"<") {
        return Some(Op::Less);
    }
    if tokens.accept(b"<=") {
        return Some(Op::LessEq);
    }
    if tokens.accept(b"==") {
        return Some(Op::Equal);
    }
    None
}

/// Two expressions with an operator between.
pub fn joined(alloc: Global, op: Op, left: Expr, right: Expr) -> Result<Expr, NoMemory>
    ensures { IfOk result (λ e. term_of e ≡ two op (term_of left) (term_of right)) }
{
    Ok(Expr::Two(op, Box::new(alloc, left)?, Box::new(alloc, right)?))
}

pub fn negated(alloc: Global, inner: Expr) -> Result<Expr, NoMemory>
    ensures { IfOk result (λ e. term_of e ≡ not (term_of inner)) }
{
    Ok(Expr::Not(Box::new(alloc, inner)?))
}
