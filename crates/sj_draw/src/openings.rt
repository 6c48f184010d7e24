//! Words of sessions that are opened at run time.
ghost use Rattle.std.specs.Prelude.{◌≡◌};
ghost use Rattle.std.specs.Option.{option_map};
ghost use Rattle.sj_draw.specs.Lines.{is_first, is_opened, is_steps_from, is_steps_request, opening, opening_line, session_told};
ghost use Rattle.sj_draw.specs.Views.{drawn_line_at, session_at};

use crate::lines::{Line, Mark, Passed, Session};
use crate::words::{Field, cut, is_just};

/// Whether it is an end of side 0.
pub(crate) fn is_first(end: &[u8]) -> bool
    ensures { result ≡ is_first end.now }
{
    let (_, side) = cut(end, b'.');
    side == b"0".as_slice()
}

/// What a party did that opens or accepts a session.
pub(crate) fn opening_line<'a>(party: &'a [u8], deed: &'a [u8]) -> Option<Line<'a>>
    ensures { option_map drawn_line_at result ≡ opening_line party.entry.now deed.entry.now }
{
    let (verb, _) = cut(deed, b' ');
    if verb == b"request".as_slice() {
        opening(Mark::Request, true, party, deed)
    } else if verb == b"accept".as_slice() {
        opening(Mark::Accept, false, party, deed)
    } else {
        None
    }
}

// After the verb stand a session and the other party.
fn opening<'a>(mark: Mark, first: bool, from: &'a [u8], text: &'a [u8]) -> Option<Line<'a>>
    ensures { option_map drawn_line_at result ≡ opening mark first from.entry.now text.entry.now }
{
    let (_, rest) = cut(text, b' ');
    if !is_just(&[Field::Number, Field::Name], rest) {
        return None;
    }
    let (end, rest) = cut(rest, b' ');
    let (to, _) = cut(rest, b' ');
    Some(Line::Message(Passed {
        mark,
        from,
        to: Some(to),
        end,
        first,
        text,
    }))
}

/// Whether after the steps stands the party from which one would accept.
pub(crate) fn is_steps_from(rest: &[u8]) -> bool
    ensures { result ≡ is_steps_from rest.now }
{
    let (_, behind) = cut(rest, b' ');
    let (word, _) = cut(behind, b' ');
    is_just(&[Field::Number, Field::Name, Field::Name], rest) && word == b"from".as_slice()
}

/// Whether after the steps stands that a request would be one too many.
pub(crate) fn is_steps_request(rest: &[u8]) -> bool
    ensures { result ≡ is_steps_request rest.now }
{
    let (_, behind) = cut(rest, b' ');
    is_just(&[Field::Number, Field::Name], rest) && behind == b"request".as_slice()
}

/// A session of a connection, or one that was opened, by its number.
pub(crate) fn session_told<'a>(session: Session<'a>) -> Line<'a>
    ensures { drawn_line_at result ≡ session_told (session_at session.entry) }
{
    if is_opened(session.number) {
        Line::Opened(session)
    } else {
        Line::Session(session)
    }
}

// Sessions that are opened have numbers from 64 on.
fn is_opened(number: &[u8]) -> bool
    ensures { result ≡ is_opened number.now }
{
    match number {
        [tens, ones] => *tens > b'6' || (*tens == b'6' && *ones >= b'4'),
        _ => number.len() > 2,
    }
}
