//! What is answered to a line.
//!
//! Out of memory, it leaves a prefix of what was to be put after the text.
#![tactic(auto, using(sj_text::proofs::CutLemmas::cuts))]

ghost use Rattle.std.specs.Prelude.{◌≡◌, ◌∷◌, ◌++◌, [], OnErr, OnOk, codes, decimal};
ghost use Rattle.sj_lang.specs.FileView.{file_of};
ghost use Rattle.sj_print.specs.Pieces.{message_text};
ghost use Rattle.sj_seat_lines.specs.Replies.{reply_at, reply_line, rule_words, why};
ghost use Rattle.sj_seat_lines.specs.Settled.{refusal_reply};
ghost use Rattle.sj_semantics.specs.Lines.{line_of, message_words, quoted_at};
ghost use Rattle.sj_talk.specs.Names.{with_texts};
ghost use Rattle.sj_text.specs.Cut.{IsCutShort};

use sj_base::{Msg, NoMemory};
use sj_lang::File;
use sj_print::print_message;
use sj_seat::SeatRefusal;
use sj_seat_texts::Texts;
use sj_text::{put, put_number};
use sj_work::Stop;

/// What is answered to a line; ends by their names.
#[derive(Clone, Copy, Drop)]
pub enum Reply<'a> {
    /// It is done.
    Fine,
    /// It is done, and took this message from that end.
    Took(&'a [u8], Msg),
    /// It is done, and took an end, by this message, which has the last name.
    TookEnd(&'a [u8], Msg, &'a [u8]),
    /// It is done, and opened a session: the party's own end has that name.
    Opened(&'a [u8]),
    /// Whether a message is there.
    Ready(bool),
    /// It isn't done, by the rule of that number, from 1 on.
    Refused(u8),
    /// It isn't done yet: nothing came that it needs.
    Waiting,
    /// Nothing is done any more.
    Stopped(Stop),
    NoMemory,
}

/// What a line is answered whose call was refused so.
pub(crate) fn refused(refusal: SeatRefusal) -> Reply<'static>
    ensures { reply_at result ≡ refusal_reply refusal }
{
    match refusal {
        SeatRefusal::NotHeld => Reply::Refused(2),
        SeatRefusal::BeginsOtherwise => Reply::Refused(3),
        SeatRefusal::WrongEnd => Reply::Refused(4),
        SeatRefusal::WrongKind => Reply::Refused(5),
        SeatRefusal::NotOpened => Reply::Refused(8),
        SeatRefusal::AtLimit => Reply::Refused(6),
        SeatRefusal::Waiting => Reply::Waiting,
        SeatRefusal::Stopped(stop) => Reply::Stopped(stop),
        SeatRefusal::NoMemory => Reply::NoMemory,
    }
}

/// Puts the answer to the line of that number after the text, with its newline.
pub fn put_reply(
    text: &mut Vec<u8>,
    file: &File,
    texts: &Texts,
    number: u64,
    reply: Reply<'_>,
) -> Result<(), NoMemory>
    ensures ok { OnOk result (text.new.items ≡ text.old.items
        ++ reply_line (file_of file.now) texts.now number (reply_at reply.entry)) }
    ensures err { OnErr result (IsCutShort text.old.items
        (reply_line (file_of file.now) texts.now number (reply_at reply.entry)) text.new.items) }
{
    match reply {
        Reply::Fine => put(text, b"fine\n"),
        Reply::Took(end, msg) => put_took(text, file, texts, end, msg),
        Reply::TookEnd(end, msg, name) => put_took_end(text, file, texts, end, msg, name),
        Reply::Opened(name) => put_opened(text, name),
        Reply::Ready(true) => put(text, b"ready\n"),
        Reply::Ready(false) => put(text, b"not ready\n"),
        Reply::Refused(rule) => put_refused(text, number, rule),
        Reply::Waiting => put(text, b"waiting\n"),
        Reply::Stopped(stop) => put_stopped(text, stop),
        Reply::NoMemory => put(text, b"stopped out of memory\n"),
    }
}

fn put_took(
    text: &mut Vec<u8>,
    file: &File,
    texts: &Texts,
    end: &[u8],
    msg: Msg,
) -> Result<(), NoMemory>
    ensures ok { OnOk result (text.new.items ≡ text.old.items ++ line_of (codes "took" ∷ end.now
        ∷ message_words (with_texts (file_of file.now) texts.now) msg)) }
    ensures err { OnErr result (IsCutShort text.old.items (line_of (codes "took" ∷ end.now
        ∷ message_words (with_texts (file_of file.now) texts.now) msg)) text.new.items) }
{
    put(text, b"took ")?;
    put(text, end)?;
    put(text, b" ")?;
    put_message(text, file, texts, msg)?;
    put(text, b"\n")
}

fn put_took_end(
    text: &mut Vec<u8>,
    file: &File,
    texts: &Texts,
    end: &[u8],
    msg: Msg,
    name: &[u8],
) -> Result<(), NoMemory>
    ensures ok { OnOk result (text.new.items ≡ text.old.items ++ line_of (codes "took" ∷ end.now
        ∷ (message_words (with_texts (file_of file.now) texts.now) msg ++ name.now ∷ []))) }
    ensures err { OnErr result (IsCutShort text.old.items (line_of (codes "took" ∷ end.now
        ∷ (message_words (with_texts (file_of file.now) texts.now) msg ++ name.now ∷ [])))
        text.new.items) }
{
    put(text, b"took ")?;
    put(text, end)?;
    put(text, b" ")?;
    put_message(text, file, texts, msg)?;
    put(text, b" ")?;
    put(text, name)?;
    put(text, b"\n")
}

// A message, also of a text that the file hasn't.
fn put_message(text: &mut Vec<u8>, file: &File, texts: &Texts, msg: Msg) -> Result<(), NoMemory>
    ensures ok { OnOk result (text.new.items ≡ text.old.items
        ++ message_text (with_texts (file_of file.now) texts.now) msg) }
    ensures err { OnErr result (IsCutShort text.old.items
        (message_text (with_texts (file_of file.now) texts.now) msg) text.new.items) }
{
    match msg {
        Msg::Text(number) => put_text(text, texts, number),
        _ => print_message(text, file, &msg),
    }
}

// A text in its quotes, and the number of one that isn't there.
fn put_text(text: &mut Vec<u8>, texts: &Texts, number: u32) -> Result<(), NoMemory>
    ensures ok { OnOk result (text.new.items
        ≡ text.old.items ++ (codes "String " ++ quoted_at texts.now number)) }
    ensures err { OnErr result (IsCutShort text.old.items
        (codes "String " ++ quoted_at texts.now number) text.new.items) }
{
    put(text, b"String ")?;
    match texts.get(number) {
        Some(bytes) => {
            put(text, b"\"")?;
            put(text, bytes)?;
            put(text, b"\"")
        }
        None => {
            put(text, b"#")?;
            put_number(text, u64::from(number))
        }
    }
}

fn put_opened(text: &mut Vec<u8>, name: &[u8]) -> Result<(), NoMemory>
    ensures ok { OnOk result (text.new.items
        ≡ text.old.items ++ line_of (codes "opened" ∷ name.now ∷ [])) }
    ensures err { OnErr result (IsCutShort text.old.items
        (line_of (codes "opened" ∷ name.now ∷ [])) text.new.items) }
{
    put(text, b"opened ")?;
    put(text, name)?;
    put(text, b"\n")
}

fn put_refused(text: &mut Vec<u8>, number: u64, rule: u8) -> Result<(), NoMemory>
    ensures ok { OnOk result (text.new.items ≡ text.old.items ++ line_of (codes "refused"
        ∷ decimal number ∷ (71 ∷ decimal rule) ∷ rule_words rule ∷ [])) }
    ensures err { OnErr result (IsCutShort text.old.items (line_of (codes "refused"
        ∷ decimal number ∷ (71 ∷ decimal rule) ∷ rule_words rule ∷ [])) text.new.items) }
{
    put(text, b"refused ")?;
    put_number(text, number)?;
    put(text, b" G")?;
    put_number(text, u64::from(rule))?;
    put(text, b" ")?;
    put(text, rule_words(rule))?;
    put(text, b"\n")
}

/// The rule in words.
fn rule_words(rule: u8) -> &'static [u8]
    ensures { result.now ≡ rule_words rule }
{
    match rule {
        1 => b"it has none of the forms of a line",
        2 => b"an end isn't held",
        3 => b"the place of the end begins otherwise",
        4 => b"the end can't be sent there, or the name is in use",
        5 => b"what is sent is of another kind",
        6 => b"at a limit",
        _ => b"no such session may be opened",
    }
}

fn put_stopped(text: &mut Vec<u8>, stop: Stop) -> Result<(), NoMemory>
    ensures ok { OnOk result (text.new.items
        ≡ text.old.items ++ line_of (codes "stopped" ∷ why stop ∷ [])) }
    ensures err { OnErr result (IsCutShort text.old.items
        (line_of (codes "stopped" ∷ why stop ∷ [])) text.new.items) }
{
    put(text, b"stopped ")?;
    put(text, why(stop))?;
    put(text, b"\n")
}

/// Why nothing is done any more.
fn why(stop: Stop) -> &'static [u8]
    ensures { result.now ≡ why stop }
{
    match stop {
        Stop::Finished => b"it has ended",
        Stop::Idle => b"nothing comes",
        Stop::AtLimit => b"at a limit",
        Stop::ClockEnd => b"the clock is at its end",
        Stop::NoMemory => b"out of memory",
        Stop::Fault => b"a link has a fault",
        Stop::Unfit => b"a link brought what doesn't fit",
    }
}
