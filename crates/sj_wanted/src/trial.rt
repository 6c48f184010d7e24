//! Tokens, tried one by one at the end of a text.
#![tactic(auto, using(crate::proofs::TrialLemmas::short, crate::proofs::TrialLemmas::whole, crate::proofs::TrialLemmas::elsewhere, crate::proofs::TrialLemmas::there))]

ghost use Rattle.std.specs.Prelude.{◌≡◌, ◌≤◌, ◌+◌, length, map, IfOk, IsTrue, false};
ghost use Rattle.sj_grammar.specs.Reading.{line_number};
ghost use Rattle.sj_wanted.specs.Trial.{MayStand, HasFaultThere, Tells, GoesOn, Halts, front_limit, token_limit, AreShort, with_token, begins_line};

use sj_base::NoMemory;
use sj_party::{Fault, ParseRefusal, parse_file};
use sj_text::put;
use std::alloc::Global;

/// The most bytes of a text at whose end tokens are tried.
pub const MOST_FRONT: usize = 65_000;

/// The most bytes of a token that is tried.
pub const MOST_TOKEN: usize = 64;

/// Whether the token may stand after the text: put there on a line of its own, it isn't at the
/// first fault.
pub fn may_stand(alloc: Global, front: &[u8], token: &[u8]) -> Result<bool, NoMemory>
    requires front { length front.now ≤ front_limit }
    requires token { length token.now ≤ token_limit }
    ensures yes { IfOk result (λ b. IsTrue b → MayStand front.now token.now) }
    ensures no { IfOk result (λ b. b ≡ false → HasFaultThere front.now token.now) }
{
    let line = last_line(front) + 1;
    let text = with_token(alloc, front, token)?;
    match parse_file(alloc, &text) {
        Ok(_) => Ok(true),
        Err(ParseRefusal::At(fault)) => Ok(!begins(fault, line)),
        Err(ParseRefusal::NoMemory) => Err(NoMemory),
    }
}

fn with_token(alloc: Global, front: &[u8], token: &[u8]) -> Result<Vec<u8>, NoMemory>
    ensures { IfOk result (λ t. t.items ≡ with_token front.now token.now) }
{
    let mut text = Vec::new(alloc);
    put(&mut text, front)?;
    put(&mut text, b"\n")?;
    put(&mut text, token)?;
    Ok(text)
}

// Whether the fault is where that line begins.
fn begins(fault: Fault, line: u32) -> bool
    ensures { result ≡ begins_line fault line }
{
    fault.line == line && fault.column == 1
}

// The line at the end of the text.
fn last_line(front: &[u8]) -> u32
    requires { length front.now ≤ front_limit }
    ensures is { result ≡ line_number front.now }
    ensures few { result ≤ front_limit + 1 }
{
    let mut line = 1u32;
    for i in 0..front.len() {
        if front[i] == b'\n' {
            line += 1;
        }
    }
    line
}

/// For each of the tokens, in order, whether it may stand after the text.
pub fn trials(alloc: Global, front: &[u8], tokens: &[&[u8]]) -> Result<Vec<bool>, NoMemory>
    requires front { length front.now ≤ front_limit }
    requires tokens { AreShort (map (λ t. t.now) tokens.now) }
    ensures each { IfOk result (λ r. Tells front.now (map (λ t. t.now) tokens.now) r.items) }
{
    match tokens.split_first() {
        Some((token, rest)) => {
            let stands = may_stand(alloc, front, token)?;
            let mut marks = trials(alloc, front, rest)?;
            marks.insert(0, stands)?;
            Ok(marks)
        }
        None => Ok(Vec::new(alloc)),
    }
}

/// Whether the text goes on with these tokens, each on a line of its own after those before it.
///
/// One without bytes is the end of the file, and those after it aren't looked at. With a text or a
/// token that is too long to be tried it doesn't.
pub fn goes_on(alloc: Global, front: &[u8], tokens: &[&[u8]]) -> Result<bool, NoMemory>
    ensures yes { IfOk result (λ b. IsTrue b → GoesOn front.now (map (λ t. t.now) tokens.now)) }
    ensures no { IfOk result (λ b. b ≡ false → Halts front.now (map (λ t. t.now) tokens.now)) }
{
    let Some((token, rest)) = tokens.split_first() else {
        return Ok(true);
    };
    if front.len() > MOST_FRONT || token.len() > MOST_TOKEN {
        return Ok(false);
    }
    if !may_stand(alloc, front, token)? {
        return Ok(false);
    }
    if token.is_empty() {
        return Ok(true);
    }
    let longer = with_token(alloc, front, token)?;
    goes_on(alloc, &longer, rest)
}
