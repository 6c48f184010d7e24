//! What a token is as an operand of an expression.
ghost use Rattle.std.specs.Prelude.{◌≡◌, ◌≤◌, IsTrue, length, ◌&&◌, if◌then◌else◌, Some, None, IfSome, IfNone, false, true};
ghost use Rattle.std.specs.Str.{bytes_eq};
ghost use Rattle.std.specs.Str.Parse.{digits_value};
ghost use Rattle.sj_grammar.specs.Literals.{is_number, is_text, inner, quoted};
ghost use Rattle.sj_grammar.specs.ExpressionDues.{is_operand};
ghost use Rattle.sj_expr.specs.Operands.{IsOperandOf, is_plain};

use sj_grammar::{are_digits, are_printable, is_largest_number};
use sj_proto::{digits_number, is_name_text};

/// What an operand is.
#[derive(Clone, Copy, Debug, PartialEq, Eq)]
pub enum Operand {
    /// Below 2^63.
    Number(u64),
    Text,
    Name,
    True,
    False,
}

// Digits, of which none is a leading zero.
fn is_plain_digits(piece: &[u8]) -> bool
    ensures { result ≡ is_plain piece.now }
{
    if piece.is_empty() {
        return false;
    }
    if piece[0] == b'0' {
        return piece.len() == 1;
    }
    are_digits(piece)
}

/// The number that the piece writes, up to 2^63.
pub fn number_in(piece: &[u8]) -> Option<u64>
    ensures { result ≡ (if is_number piece.now then Some (digits_value 10 piece.now) else None) }
{
    if !is_plain_digits(piece) {
        return None;
    }
    digits_number(piece)
}

// Whether the piece begins and ends with a quote.
fn is_quoted(piece: &[u8]) -> bool
    ensures quotes { result ≡ bytes_eq piece.now (quoted (inner piece.now)) }
    ensures long { IsTrue result → 2 ≤ length piece.now }
{
    let n = piece.len();
    if n < 2 {
        return false;
    }
    if piece[0] != b'"' {
        return false;
    }
    piece[n - 1] == b'"'
}

/// The bytes of a text between its quotes.
pub fn inner_of(piece: &[u8]) -> &[u8]
    requires { 2 ≤ length piece.now }
    ensures { result.now ≡ inner piece.now }
{
    &piece[1..piece.len() - 1]
}

// Whether the piece is a text with its quotes.
fn is_text_piece(piece: &[u8]) -> bool
    ensures { result ≡ is_text piece.now }
{
    if !is_quoted(piece) {
        return false;
    }
    are_printable(inner_of(piece))
}

/// What the piece is as an operand.
pub fn operand_in(piece: &[u8]) -> Option<Operand>
    ensures some { IfSome result (λ o. IsOperandOf o piece.now) }
    ensures none { IfNone result (is_operand piece.now ≡ false) }
{
    if let Some(value) = number_in(piece) {
        if is_largest_number(piece) {
            return None;
        }
        return Some(Operand::Number(value));
    }
    if is_text_piece(piece) {
        return Some(Operand::Text);
    }
    if is_name_text(piece) {
        return Some(Operand::Name);
    }
    if piece == b"true".as_slice() {
        return Some(Operand::True);
    }
    if piece == b"false".as_slice() {
        return Some(Operand::False);
    }
    None
}
