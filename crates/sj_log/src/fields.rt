//! Numbers and ends, each from a word of a line.
ghost use Rattle.std.specs.Prelude.{◌≡◌, ◌-◌, ◌≤◌, negsuc, IfOk, ◌+◌};
ghost use Rattle.sj_grammar.specs.Lexis.{most as largest};
ghost use Rattle.sj_log.specs.Fields.{made, number_read, count_read, clock_read, int_read, end_read, resend_read, bool_read, last_int};

use crate::refusal::LogRule;
use crate::reported::together;
use sj_base::EndId;
use sj_fields::first_at;
use sj_grammar::{are_digits, is};
use sj_proto::{digits_number, goes_on_after_zero};

/// A number within the bounds.
#[tactic(auto, unfolding(crate::specs::Fields::number_read))]
pub(crate) fn number(least: u64, most: u64, word: &[u8]) -> Result<u64, LogRule>
    requires { most ≤ largest }
    ensures read { result ≡ number_read least most word.now }
    ensures within { IfOk result (λ n. (least ≤ n) × (n ≤ most)) }
{
    if word.len() == 0 || !are_digits(word) {
        return Err(LogRule::L1);
    }
    if goes_on_after_zero(word) {
        return Err(LogRule::L3);
    }
    match digits_number(word) {
        Some(n) if least <= n && n <= most => Ok(n),
        _ => Err(LogRule::L3),
    }
}

/// A count, or the number of a message, a session or a connection.
#[tactic(auto, unfolding(crate::specs::Fields::count_read))]
pub(crate) fn count(word: &[u8]) -> Result<u32, LogRule>
    ensures { result ≡ count_read word.now }
{
    match number(0, 4_294_967_295, word) {
        Ok(n) => Ok(n as u32),
        Err(rule) => Err(rule),
    }
}

/// When it happened.
#[tactic(auto, unfolding(crate::specs::Fields::clock_read))]
pub(crate) fn clock(word: &[u8]) -> Result<u64, LogRule>
    ensures { result ≡ clock_read word.now }
{
    number(1, 4_611_686_018_427_387_904, word)
}

// A number below zero, by the digits after its minus.
fn below_zero(digits: &[u8]) -> Result<i64, LogRule>
    ensures { result ≡ made (λ n. negsuc (n - 1)) (number_read 1 (last_int + 1) digits.now) }
{
    match number(1, 9_223_372_036_854_775_808, digits) {
        Ok(n) => Ok(-1 - ((n - 1) as i64)),
        Err(rule) => Err(rule),
    }
}

/// 64 bits, with a minus before a negative number.
#[tactic(auto, unfolding(crate::specs::Fields::int_read))]
pub(crate) fn int(word: &[u8]) -> Result<i64, LogRule>
    ensures { result ≡ int_read word.now }
{
    if word.len() > 0 && word[0] == b'-' {
        return below_zero(&word[1..]);
    }
    match number(0, 9_223_372_036_854_775_807, word) {
        Ok(n) => Ok(n as i64),
        Err(rule) => Err(rule),
    }
}

// The side of an end.
fn side(word: &[u8]) -> Result<u8, LogRule>
    ensures { result ≡ number_read 0 1 word.now }
{
    match number(0, 1, word) {
        Ok(n) => Ok(n as u8),
        Err(rule) => Err(rule),
    }
}

/// Session, dot and side.
#[tactic(auto, unfolding(crate::specs::Fields::end_read))]
pub(crate) fn end(word: &[u8]) -> Result<EndId, LogRule>
    ensures { result ≡ end_read word.now }
{
    let dot = first_at(b'.', word);
    let behind: &[u8] = if dot < word.len() {
        &word[dot + 1..]
    } else {
        &[]
    };
    match together(count(&word[..dot]), side(behind)) {
        Ok((sess, side)) => Ok(EndId { sess, side }),
        Err(rule) => Err(rule),
    }
}

/// From which message on is resent, or `-` where nothing is.
#[tactic(auto, unfolding(crate::specs::Fields::resend_read))]
pub(crate) fn resend(word: &[u8]) -> Result<Option<u32>, LogRule>
    ensures { result ≡ resend_read word.now }
{
    if is(word, b"-") {
        return Ok(None);
    }
    match count(word) {
        Ok(n) => Ok(Some(n)),
        Err(rule) => Err(rule),
    }
}

/// `true` or `false`.
#[tactic(auto, unfolding(crate::specs::Fields::bool_read))]
pub(crate) fn boolean(word: &[u8]) -> Result<bool, LogRule>
    ensures { result ≡ bool_read word.now }
{
    if is(word, b"true") {
        Ok(true)
    } else if is(word, b"false") {
        Ok(false)
    } else {
        Err(LogRule::L1)
    }
}
