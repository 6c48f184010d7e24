//! What comes next in a text, by positions.
ghost use Rattle.std.specs.Prelude.{◌≡◌, ℕ, ◌+◌, ◌<◌, ◌≤◌, length, drop, slice_index, All, IsTrue, ◌==◌, ◌||◌, ◌&&◌};
ghost use Rattle.std.specs.List.{prefix_len, take_while};
ghost use Rattle.sj_grammar.specs.Bytes.{begins_with, is_digit, quote_byte, is_double};
ghost use Rattle.sj_grammar.specs.Lexis.{next_of, token_of, number_of, text_of, has_leading_zero};
ghost use Rattle.sj_grammar.specs.Refusals.{first_rule};
ghost use Rattle.sj_grammar.specs.declared.bytes.Class.TheVariants as classes;
ghost use Rattle.sj_grammar.specs.Classes.{in_class};
ghost use Rattle.sj_proto.specs.Found.{IsPosition, found_of, IsAhead, spot_of, value_of};

use crate::bytes::{is_blank_byte, is_symbol_byte, run_end};
use sj_grammar::{Class, Rule, What, is_in, is_largest_number, is_letter_byte};

/// The line and the column of a position, from those of an earlier one.
pub fn position(bytes: &[u8], at: usize, to: usize, line: u32, column: u32) -> (u32, u32)
    requires at { IsPosition bytes.now at line column }
    requires later { at ≤ to }
    requires within { to ≤ length bytes.now }
    ensures { IsPosition bytes.now to result.0 result.1 }
{
    let mut line = line;
    let mut column = column;
    for i in at..to {
        if bytes[i] == b'\n' {
            line += 1;
            column = 1;
        } else {
            column += 1;
        }
    }
    (line, column)
}

/// What comes next, by positions in the whole text.
#[derive(Clone, Copy)]
pub enum Found {
    Nothing,
    Bad(Rule, usize),
    Piece(What, usize, usize),
}

// Whether that byte stands there.
fn is_there(bytes: &[u8], at: usize, b: u8) -> bool
    ensures { result ≡ begins_with b (drop at bytes.now) }
{
    at < bytes.len() && bytes[at] == b
}

// Whether that byte and the one after it are one symbol.
fn begins_double(bytes: &[u8], at: usize, b: u8) -> bool
    requires { at < length bytes.now }
    ensures { result ≡ is_double b (drop (at + 1) bytes.now) }
{
    (b == b'<' || b == b'=') && is_there(bytes, at + 1, b'=')
}

// The largest number.
const MOST: u128 = 1 << 63;

/// Whether digits begin with a zero that isn't the last.
pub fn goes_on_after_zero(digits: &[u8]) -> bool
    ensures { result ≡ has_leading_zero digits.now }
{
    digits.len() > 1 && is_there(digits, 0, b'0')
}

/// The number that digits write, up to 2^63.
#[tactic(auto, using(crate::proofs::DigitLemmas::digits))]
pub fn digits_number(digits: &[u8]) -> Option<u64>
    requires { All (λ b. IsTrue (is_digit b)) digits.now }
    ensures { result ≡ value_of digits.now }
{
    let mut value = 0u128;
    for b in digits {
        value = value * 10 + u128::from(*b - b'0');
        if value > MOST {
            return None;
        }
    }
    Some(value as u64)
}

#[tactic(auto, using(crate::proofs::DigitLemmas::runs))]
fn number_at(bytes: &[u8], from: usize) -> Found
    requires within { from < length bytes.now }
    requires digit { IsTrue (in_class classes.Digit (slice_index bytes.now from)) }
    ensures found { found_of bytes.now result
        ≡ number_of (take_while (in_class classes.Digit) (drop from bytes.now))
        (drop from bytes.now) }
    ensures ahead { IsAhead from bytes.now result }
{
    let to = run_end(bytes, from, Class::Digit);
    let digits = &bytes[from..to];
    if goes_on_after_zero(digits) {
        return Found::Bad(Rule::P3, from);
    }
    match digits_number(digits) {
        Some(n) => Found::Piece(What::Number(n), from, to),
        None => Found::Bad(Rule::P3, from),
    }
}

fn text_at(bytes: &[u8], quote: usize) -> Found
    requires within { quote < length bytes.now }
    requires quote { slice_index bytes.now quote ≡ quote_byte }
    ensures found { found_of bytes.now result
        ≡ text_of (prefix_len (in_class classes.Inside) (drop (quote + 1) bytes.now))
        (drop (quote + 1) bytes.now) }
    ensures ahead { IsAhead quote bytes.now result }
{
    let to = run_end(bytes, quote + 1, Class::Inside);
    if !is_there(bytes, to, b'"') {
        return Found::Bad(Rule::P5, quote);
    }
    let good = run_end(bytes, quote + 1, Class::Printable);
    if good < to {
        return Found::Bad(Rule::P2, good);
    }
    Found::Piece(What::Text, quote, to + 1)
}

fn token_here(bytes: &[u8], from: usize) -> Found
    requires { from < length bytes.now }
    ensures found { found_of bytes.now result ≡ token_of (drop from bytes.now) }
    ensures ahead { IsAhead from bytes.now result }
{
    let b = bytes[from];
    if is_letter_byte(b) {
        return Found::Piece(What::Word, from, run_end(bytes, from, Class::WordByte));
    }
    if is_in(Class::Digit, b) {
        return number_at(bytes, from);
    }
    if b == b'"' {
        return text_at(bytes, from);
    }
    if begins_double(bytes, from, b) {
        return Found::Piece(What::Symbol, from, from + 2);
    }
    if is_symbol_byte(b) {
        return Found::Piece(What::Symbol, from, from + 1);
    }
    Found::Bad(Rule::P2, from)
}

/// What comes next after a position. A comment may end the text.
pub fn find(bytes: &[u8], at: usize) -> Found
    requires { at ≤ length bytes.now }
    ensures found { found_of bytes.now result ≡ next_of (drop at bytes.now) }
    ensures ahead { IsAhead at bytes.now result }
{
    let mut i = at;
    let mut in_comment = false;
    while i < bytes.len() {
        let b = bytes[i];
        if in_comment {
            if b != b'\n' && !is_in(Class::Comment, b) {
                return Found::Bad(Rule::P2, i);
            }
            in_comment = b != b'\n';
            i += 1;
        } else if is_blank_byte(b) {
            i += 1;
        } else if b != b'/' {
            return token_here(bytes, i);
        } else if is_there(bytes, i + 1, b'/') {
            in_comment = true;
            i += 2;
        } else {
            return Found::Bad(Rule::P2, i);
        }
    }
    Found::Nothing
}

/// The rule that what comes next breaks where it may not stand, and where it begins.
pub fn fault_in(bytes: &[u8], found: Found, rule: Rule) -> (Rule, usize)
    requires { (at : ℕ) × IsAhead at bytes.now found }
    ensures rule { result.0 ≡ first_rule rule (found_of bytes.now found) }
    ensures spot { result.1 ≡ spot_of bytes.now found }
{
    match found {
        Found::Nothing => (rule, bytes.len()),
        Found::Bad(lexical, at) => (lexical, at),
        Found::Piece(_, from, to) => {
            if is_largest_number(&bytes[from..to]) {
                (Rule::P3, from)
            } else {
                (rule, from)
            }
        }
    }
}
