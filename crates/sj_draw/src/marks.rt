//! How frames and messages are drawn, by their words.
ghost use Rattle.std.specs.Prelude.{◌≡◌};
ghost use Rattle.sj_draw.specs.Lines.{mark_if, valued_mark, message_mark, mark_behind, frame_mark};

use crate::lines::Mark;
use crate::words::{Field, behind_fields, cut, is_just};

/// How a frame is drawn, by its kind and what stands after that.
pub(crate) fn frame_mark(kind: &[u8], rest: &[u8]) -> Option<Mark>
    ensures { result ≡ frame_mark kind.now rest.now }
{
    use Field::{End, Name, Number, Resend};
    if kind == b"carry".as_slice() {
        return mark_behind(&[End, Number, Number, Number], rest);
    }
    if kind == b"fin".as_slice() {
        return mark_if(is_just(&[End, Number, Number], rest), Mark::Fin);
    }
    if kind == b"claim".as_slice() {
        return mark_if(is_just(&[End], rest), Mark::Claim);
    }
    if kind == b"signal".as_slice() {
        return mark_if(is_just(&[End, Number, Name, Number], rest), Mark::Signal);
    }
    if kind == b"ack".as_slice() {
        return mark_if(is_just(&[End, Number], rest), Mark::Ack);
    }
    if kind == b"give".as_slice() {
        let fields = [End, Number, Name, Number, Number, Number, Resend];
        return mark_if(is_just(&fields, rest), Mark::Give);
    }
    if kind == b"open".as_slice() {
        return mark_if(is_just(&[Number], rest), Mark::Open);
    }
    None
}

fn mark_if(fits: bool, mark: Mark) -> Option<Mark>
    ensures { result ≡ mark_if fits mark }
{
    if fits { Some(mark) } else { None }
}

/// How a message is drawn that stands after these words.
pub(crate) fn mark_behind(fields: &[Field], text: &[u8]) -> Option<Mark>
    ensures { result ≡ mark_behind fields.now text.now }
{
    match behind_fields(fields, text) {
        Some(message) => message_mark(message),
        None => None,
    }
}

fn message_mark(text: &[u8]) -> Option<Mark>
    ensures { result ≡ message_mark text.now }
{
    if text == b"more".as_slice() || text == b"stop".as_slice() {
        return Some(Mark::Message);
    }
    let (kind, value) = cut(text, b' ');
    valued_mark(kind, value)
}

// A message by its kind and its value.
fn valued_mark(kind: &[u8], value: &[u8]) -> Option<Mark>
    ensures { result ≡ valued_mark kind.now value.now }
{
    if kind == b"String".as_slice() {
        return mark_if(!value.is_empty(), Mark::Message);
    }
    if kind == b"session".as_slice() {
        return mark_if(is_just(&[Field::End, Field::Name], value), Mark::Session);
    }
    if kind == b"int".as_slice() || kind == b"boolean".as_slice() || kind == b"label".as_slice() {
        return mark_if(is_just(&[Field::Name], value), Mark::Message);
    }
    None
}
