//! Lines of transcripts and logs, as far as a picture shows them.
ghost use Rattle.std.specs.Prelude.{◌≡◌};
ghost use Rattle.std.specs.Option.{option_map};
ghost use Rattle.sj_draw.specs.Lines.{frame_line, is_act, event_line, message_line, is_state, party_line, session_line, is_printing};
ghost use Rattle.sj_draw.specs.Lines.{ends_in_space, is_plain, is_verdict, plain_line, split_line, worded_line, read};
ghost use Rattle.sj_draw.specs.Views.{drawn_line_at};

use crate::marks::{frame_mark, mark_behind};
use crate::openings::{is_first, is_steps_from, is_steps_request, opening_line, session_told};
use crate::words::{Field, cut, is_end, is_just, is_number};

/// How a message or a frame is drawn.
#[derive(Clone, Copy)]
pub(crate) enum Mark {
    /// A message that isn't an end, or the frame that carries it.
    Message,
    Fin,
    /// A session message: it names an end that moves.
    Session,
    Claim,
    Signal,
    Ack,
    Give,
    /// A session is opened.
    Request,
    /// That session comes to whom it was opened to.
    Open,
    Accept,
}

/// A session: its number, and its two parties with their ends.
#[derive(Clone, Copy)]
pub(crate) struct Session<'a> {
    pub number: &'a [u8],
    pub first_party: &'a [u8],
    pub first_end: &'a [u8],
    pub second_party: &'a [u8],
    pub second_end: &'a [u8],
}

/// A message or a frame that was passed on, or a session that is opened or accepted.
#[derive(Clone, Copy)]
pub(crate) struct Passed<'a> {
    pub mark: Mark,
    pub from: &'a [u8],
    /// None where nobody took it.
    pub to: Option<&'a [u8]>,
    /// The end from which a message was sent, or that a frame names, as `0.1`; or an
    /// opened session's number.
    pub end: &'a [u8],
    /// Whether the session's first end is meant.
    pub first: bool,
    pub text: &'a [u8],
}

/// What a line says.
#[derive(Clone, Copy)]
pub(crate) enum Line<'a> {
    Session(Session<'a>),
    /// A session that was opened at run time.
    Opened(Session<'a>),
    /// It names a party, and draws nothing.
    Party(&'a [u8]),
    /// A message of a transcript, or an act of a log that opens or accepts a session.
    Message(Passed<'a>),
    /// A frame that came, of a log.
    Delivery(Passed<'a>),
    /// The line between a transcript and a log.
    Log,
    Verdict,
}

/// What a line says, where it is one of a transcript or a log.
pub(crate) fn read_line<'a>(line: &'a [u8]) -> Option<Line<'a>>
    ensures { option_map drawn_line_at result ≡ read line.entry.now }
{
    if !is_plain(line) {
        return None;
    }
    plain_line(line)
}

fn plain_line<'a>(line: &'a [u8]) -> Option<Line<'a>>
    ensures { option_map drawn_line_at result ≡ plain_line line.entry.now }
{
    if line == b"%%log".as_slice() || line == b"%%log2".as_slice() {
        return Some(Line::Log);
    }
    if is_verdict(line) {
        return Some(Line::Verdict);
    }
    split_line(line)
}

fn split_line<'a>(line: &'a [u8]) -> Option<Line<'a>>
    ensures { option_map drawn_line_at result ≡ split_line line.entry.now }
{
    let (first, rest) = cut(line, b' ');
    worded_line(first, rest)
}

fn is_verdict(line: &[u8]) -> bool
    ensures { result ≡ is_verdict line.now }
{
    line == b"done".as_slice() || line == b"blocked".as_slice() || line == b"long".as_slice()
}

// Printing bytes alone, and no space at the end.
fn is_plain(line: &[u8]) -> bool
    ensures { result ≡ is_plain line.now }
{
    is_printing(line) && !ends_in_space(line)
}

fn is_printing(line: &[u8]) -> bool
    ensures { result ≡ is_printing line.now }
{
    line.iter().all(|b| 32 <= *b && *b <= 126)
}

fn ends_in_space(line: &[u8]) -> bool
    ensures { result ≡ ends_in_space line.now }
{
    match line.last() {
        Some(b) => *b == b' ',
        None => false,
    }
}

// A line by its first word, and what stands after that.
fn worded_line<'a>(first: &'a [u8], rest: &'a [u8]) -> Option<Line<'a>>
    ensures { option_map drawn_line_at result ≡ worded_line first.entry.now rest.entry.now }
{
    if first == b"session".as_slice() {
        session_line(rest)
    } else if first == b"party".as_slice() {
        party_line(rest)
    } else if is_end(first) {
        message_line(first, rest)
    } else if is_number(first) {
        event_line(rest)
    } else {
        None
    }
}

fn session_line<'a>(rest: &'a [u8]) -> Option<Line<'a>>
    ensures { option_map drawn_line_at result ≡ session_line rest.entry.now }
{
    let fields = [
        Field::Number,
        Field::Name,
        Field::Name,
        Field::Name,
        Field::Name,
    ];
    if !is_just(&fields, rest) {
        return None;
    }
    let (number, rest) = cut(rest, b' ');
    let (first_party, rest) = cut(rest, b' ');
    let (first_end, rest) = cut(rest, b' ');
    let (second_party, rest) = cut(rest, b' ');
    let (second_end, _) = cut(rest, b' ');
    Some(session_told(Session {
        number,
        first_party,
        first_end,
        second_party,
        second_end,
    }))
}

fn party_line<'a>(rest: &'a [u8]) -> Option<Line<'a>>
    ensures { option_map drawn_line_at result ≡ party_line rest.entry.now }
{
    let (party, state) = cut(rest, b' ');
    let (how, rest) = cut(state, b' ');
    if party.is_empty() || !is_state(how, rest) {
        return None;
    }
    Some(Line::Party(party))
}

// Whether that is how a party stands.
fn is_state(how: &[u8], rest: &[u8]) -> bool
    ensures { result ≡ is_state how.now rest.now }
{
    if how == b"ended".as_slice() {
        is_just(&[Field::Number], rest)
    } else if how == b"waits".as_slice() {
        is_just(&[Field::Number, Field::End], rest) || is_steps_from(rest)
    } else if how == b"limit".as_slice() {
        is_just(&[Field::Number], rest)
            || is_just(&[Field::Number, Field::End], rest)
            || is_steps_request(rest)
    } else {
        false
    }
}

// A message that was sent from that end.
fn message_line<'a>(end: &'a [u8], rest: &'a [u8]) -> Option<Line<'a>>
    ensures { option_map drawn_line_at result ≡ message_line end.entry.now rest.entry.now }
{
    let Some(mark) = mark_behind(&[Field::Number, Field::Name, Field::Name], rest) else {
        return None;
    };
    let (_, rest) = cut(rest, b' ');
    let (from, rest) = cut(rest, b' ');
    let (taker, text) = cut(rest, b' ');
    let to = if taker == b"-".as_slice() {
        None
    } else {
        Some(taker)
    };
    Some(Line::Message(Passed {
        mark,
        from,
        to,
        end,
        first: is_first(end),
        text,
    }))
}

// An event at a party: a frame that came, or what the party did.
fn event_line<'a>(rest: &'a [u8]) -> Option<Line<'a>>
    ensures { option_map drawn_line_at result ≡ event_line rest.entry.now }
{
    let (party, deed) = cut(rest, b' ');
    if party.is_empty() {
        return None;
    }
    if deed == b"local".as_slice() {
        return Some(Line::Party(party));
    }
    let (verb, rest) = cut(deed, b' ');
    if verb == b"from".as_slice() {
        return frame_line(party, rest);
    }
    if is_act(verb, rest) {
        Some(Line::Party(party))
    } else {
        opening_line(party, deed)
    }
}

// Whether that is what a party did.
fn is_act(verb: &[u8], rest: &[u8]) -> bool
    ensures { result ≡ is_act verb.now rest.now }
{
    if verb == b"close".as_slice() {
        is_just(&[Field::End], rest)
    } else if verb == b"send".as_slice() || verb == b"take".as_slice() {
        mark_behind(&[Field::End], rest).is_some()
    } else {
        false
    }
}

// A frame that came to the party: from whom, and what it says.
fn frame_line<'a>(to: &'a [u8], rest: &'a [u8]) -> Option<Line<'a>>
    ensures { option_map drawn_line_at result ≡ frame_line to.entry.now rest.entry.now }
{
    let (from, text) = cut(rest, b' ');
    if from.is_empty() {
        return None;
    }
    let (kind, rest) = cut(text, b' ');
    let (end, _) = cut(rest, b' ');
    let Some(mark) = frame_mark(kind, rest) else {
        return None;
    };
    Some(Line::Delivery(Passed {
        mark,
        from,
        to: Some(to),
        end,
        first: is_first(end),
        text,
    }))
}
