//! A log, line after line.
ghost use Rattle.std.specs.Prelude.{◌≡◌, ◌≤◌, length, map, IfOk, IfErr};
ghost use Rattle.sj_lang.specs.FileView.{file_of};
ghost use Rattle.sj_lang.specs.Limits.{source_limit};
ghost use Rattle.sj_end.specs.Lines.{line_at, note_seen, event_at};
ghost use Rattle.sj_end.specs.declared.note.Event.TheVariants as events;
ghost use Rattle.sj_log.specs.Fields.{made};
ghost use Rattle.sj_log.specs.Parts.{IsVersion};
ghost use Rattle.sj_log.specs.Values.{line_from};
ghost use Rattle.sj_log.specs.LogText.{event_read, line_read, SpellsLog, IsFault};

use crate::fields::clock;
use crate::frames::frame;
use crate::names::party;
use crate::notes::act;
use crate::refusal::{LogRefusal, LogRule, number_of};
use crate::reported::together;
use sj_end::{Entry, Event, Line, Note};
use sj_fields::{Fields, first_at};
use sj_grammar::is;
use sj_lang::File;
use std::alloc::Global;

// A frame and the party from which it came.
fn delivery(read: Result<(u16, Note), LogRule>) -> Result<(Event, Note), LogRule>
    ensures { result ≡ made (λ x. (events.Deliver x.0, x.1)) read }
{
    match read {
        Ok((from, note)) => Ok((Event::Deliver(from), note)),
        Err(rule) => Err(rule),
    }
}

// An act of the party, or a frame and the party from which it came.
#[tactic(auto, unfolding(crate::specs::LogText::event_read))]
fn event(version: u8, file: &File, fields: &mut Fields) -> Result<(Event, Note), LogRule>
    ensures { made (λ x. (event_at x.0, note_seen x.1)) result
        ≡ event_read version (file_of file.now) fields.old }
{
    let word = fields.next();
    if is(word, b"from") {
        let from = party(file, fields.next());
        let said = frame(version, file, fields);
        delivery(together(from, said))
    } else {
        let note = act(version, file, word, fields)?;
        Ok((Event::Act, note))
    }
}

fn with_clock(read: Result<(u64, (u16, (Event, Note))), LogRule>) -> Result<Line, LogRule>
    ensures { result ≡ made line_from read }
{
    match read {
        Ok((clock, (party, (event, note)))) => Ok(Line {
            party,
            entry: Entry { clock, event, note },
        }),
        Err(rule) => Err(rule),
    }
}

// A line without its newline.
fn line(version: u8, file: &File, bytes: &[u8]) -> Result<Line, LogRule>
    ensures { made line_at result ≡ line_read version (file_of file.now) bytes.now }
{
    let mut fields = Fields::of(bytes);
    let clock = clock(fields.next());
    let party = party(file, fields.next());
    let event = event(version, file, &mut fields);
    with_clock(together(clock, together(party, event)))
}

/// The lines of a log of that version and of at most 16,777,216 bytes, for the names of a file. In version 1
/// a line of a session that is opened at run time has no form. Where the bytes are no log, the
/// first line that isn't in the grammar is refused. Of its broken rules L4 is reported before L1,
/// L1 before L3, and L3 before L2. Takes time linear in the bytes, but for the look-up of names,
/// which takes time logarithmic in the number of the file's words.
pub fn read_log(
    alloc: Global,
    bytes: &[u8],
    file: &File,
    version: u8,
) -> Result<Vec<Line>, LogRefusal>
    requires known { IsVersion version }
    requires few { length bytes.now ≤ source_limit }
    ensures ok { IfOk result (λ lines. SpellsLog version (file_of file.now) bytes.now
        (map line_at lines.items)) }
    ensures fault { IfErr result (IsFault version (file_of file.now) bytes.now) }
{
    let mut lines = Vec::new(alloc);
    let mut left = bytes;
    let mut number = 1u32;
    while left.len() > 0 {
        let end = first_at(b'\n', left);
        if end == left.len() {
            return Err(LogRefusal::At {
                rule: number_of(LogRule::L4),
                line: number,
            });
        }
        match line(version, file, &left[..end]) {
            Ok(line) => lines.push(line)?,
            Err(rule) => {
                return Err(LogRefusal::At {
                    rule: number_of(rule),
                    line: number,
                });
            }
        }
        left = &left[end + 1..];
        number += 1;
    }
    Ok(lines)
}
