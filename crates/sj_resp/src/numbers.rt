//! Numbers in canonical decimals.
ghost use Rattle.std.specs.Prelude.{◌≡◌, ◌≤◌, ◌-◌, ◌+◌, IfSome, negsuc, option_map};
ghost use Rattle.sj_grammar.specs.Lexis.{most as largest};
ghost use Rattle.sj_resp.specs.Limits.{last_int};
ghost use Rattle.sj_resp.specs.Numbers.{int_in, number_in};

use sj_grammar::are_digits;
use sj_proto::{digits_number, goes_on_after_zero};

/// The greatest integer of 64 bits with a sign.
const LAST_INT: u64 = 9_223_372_036_854_775_807;

/// The number that the digits write, where it is within the bounds.
#[tactic(auto, unfolding(crate::specs::Numbers::number_in))]
pub(crate) fn number(least: u64, most: u64, word: &[u8]) -> Option<u64>
    requires { most ≤ largest }
    ensures read { result ≡ number_in least most word.now }
    ensures within { IfSome result (λ n. (least ≤ n) × (n ≤ most)) }
{
    if word.len() == 0 || !are_digits(word) {
        return None;
    }
    if goes_on_after_zero(word) {
        return None;
    }
    match digits_number(word) {
        Some(n) if least <= n && n <= most => Some(n),
        _ => None,
    }
}

/// The negative number whose digits, after the minus, are these.
fn below_zero(digits: &[u8]) -> Option<i64>
    ensures { result ≡ option_map (λ n. negsuc (n - 1)) (number_in 1 (last_int + 1) digits.now) }
{
    match number(1, LAST_INT + 1, digits) {
        Some(n) => Some(-1 - ((n - 1) as i64)),
        None => None,
    }
}

/// The integer of 64 bits that the word writes.
#[tactic(auto, unfolding(crate::specs::Numbers::int_in))]
pub(crate) fn int(word: &[u8]) -> Option<i64>
    ensures { result ≡ int_in word.now }
{
    if word.len() > 0 && word[0] == b'-' {
        return below_zero(&word[1..]);
    }
    match number(0, LAST_INT, word) {
        Some(n) => Some(n as i64),
        None => None,
    }
}
