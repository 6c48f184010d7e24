//! The token at the start of bytes.
ghost use Rattle.std.specs.Prelude.{◌≡◌, ◌==◌, ◌+◌, ◌≤◌, length, drop, take, IfOk, IfErr, IfSome, IfNone};
ghost use Rattle.std.specs.List.{position_or_len};
ghost use Rattle.sj_resp.specs.Front.{Cut, bytes_of, front_of, is_kind as kinds, is_null as null_line, line_end, line_then, of_number, token_of as token_in};
ghost use Rattle.sj_resp.specs.Limits.{most_bytes};
ghost use Rattle.sj_resp.specs.Numbers.{int_in, number_in};
ghost use Rattle.sj_resp.specs.Reads.{MeetsFront};
ghost use Rattle.sj_resp.specs.Token as tokens;

use crate::numbers::{int, number};
use crate::{RespRefusal, Token};
use sj_grammar::is;
use std::alloc::Global;

/// The most bytes of a line.
const LONGEST_LINE: usize = 65_536;
/// The greatest length of a bulk, in bytes.
const MOST_BYTES: u64 = 67_108_864;
/// The most parts of an array.
const MOST_PARTS: u64 = 16_777_216;

/// The place of the first carriage return, or the length.
fn end_of_line(bytes: &[u8]) -> usize
    ensures first { result ≡ line_end bytes.now }
    ensures within { result ≤ length bytes.now }
{
    let mut i = 0;
    while i < bytes.len() && bytes[i] != b'\r' {
        i += 1;
    }
    i
}

/// The bulk of that size at the front, with the end of line after it.
#[tactic(auto, unfolding(crate::specs::Front::bytes_of))]
fn sized(alloc: Global, size: usize, bytes: &[u8]) -> Result<Option<(Token, usize)>, RespRefusal>
    requires { size ≤ most_bytes }
    ensures { MeetsFront result (bytes_of size bytes.now) bytes.now }
{
    if bytes.len() < size + 2 {
        return Ok(None);
    }
    if bytes[size] != b'\r' || bytes[size + 1] != b'\n' {
        return Err(RespRefusal::End);
    }
    let inside = Vec::from_slice(alloc, &bytes[..size])?;
    Ok(Some((Token::Bulk(inside), size + 2)))
}

/// Whether a length or a count stands for null.
fn is_null(line: &[u8]) -> bool
    ensures { result ≡ null_line line.now }
{
    is(line, b"-1")
}

/// The token of that first byte and line, and how many of the bytes after the line it takes.
#[tactic(auto, unfolding(crate::specs::Front::token_of))]
fn token_of(
    alloc: Global,
    kind: u8,
    line: &[u8],
    rest: &[u8],
) -> Result<Option<(Token, usize)>, RespRefusal>
    ensures { MeetsFront result (token_in kind line.now rest.now) rest.now }
{
    if kind == b'+' {
        return Ok(Some((Token::Simple(Vec::from_slice(alloc, line)?), 0)));
    }
    if kind == b'-' {
        return Ok(Some((Token::Failed(Vec::from_slice(alloc, line)?), 0)));
    }
    if kind == b':' {
        return match int(line) {
            Some(n) => Ok(Some((Token::Int(n), 0))),
            None => Err(RespRefusal::Number),
        };
    }
    if is_null(line) {
        return Ok(Some((Token::Null, 0)));
    }
    if kind == b'$' {
        return match number(0, MOST_BYTES, line) {
            Some(size) => sized(alloc, size as usize, rest),
            None => Err(RespRefusal::Number),
        };
    }
    match number(0, MOST_PARTS, line) {
        Some(parts) => Ok(Some((Token::Array(parts as u32), 0))),
        None => Err(RespRefusal::Number),
    }
}

/// Whether a token begins with the byte.
fn is_kind(byte: u8) -> bool
    ensures { result ≡ kinds byte }
{
    byte == b'+' || byte == b'-' || byte == b':' || byte == b'$' || byte == b'*'
}

/// The token of that first byte, read from the line at the start of the bytes
/// and from those after it.
#[tactic(auto, unfolding(crate::specs::Front::line_then))]
fn lined(alloc: Global, kind: u8, bytes: &[u8]) -> Result<Option<(Token, usize)>, RespRefusal>
    ensures { MeetsFront result (line_then (token_in kind) bytes.now) bytes.now }
{
    let at = end_of_line(bytes);
    if LONGEST_LINE < at {
        return Err(RespRefusal::Long);
    }
    if bytes.len() < at + 2 {
        return Ok(None);
    }
    if bytes[at + 1] != b'\n' {
        return Err(RespRefusal::Line);
    }
    match token_of(alloc, kind, &bytes[..at], &bytes[at + 2..]) {
        Ok(Some((token, more))) => Ok(Some((token, at + 2 + more))),
        Ok(None) => Ok(None),
        Err(e) => Err(e),
    }
}

/// The token at the start of the bytes, and how many bytes it takes. `None`:
/// they are less than a token.
#[tactic(auto, unfolding(crate::specs::Front::front_of))]
pub(crate) fn front(alloc: Global, bytes: &[u8]) -> Result<Option<(Token, usize)>, RespRefusal>
    ensures { MeetsFront result (front_of bytes.now) bytes.now }
{
    if bytes.is_empty() {
        return Ok(None);
    }
    if !is_kind(bytes[0]) {
        return Err(RespRefusal::Kind);
    }
    match lined(alloc, bytes[0], &bytes[1..]) {
        Ok(Some((token, more))) => Ok(Some((token, 1 + more))),
        Ok(None) => Ok(None),
        Err(e) => Err(e),
    }
}
