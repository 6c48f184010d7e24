//! A run as the source of a replay: the text of its file, and its joined log.
ghost use Rattle.std.specs.Prelude.{◌≡◌, ◌≤◌, ◌++◌, IfErr, IfOk, OnErr, OnOk, length, map};
ghost use Rattle.sj_end.specs.Lines.{line_at};
ghost use Rattle.sj_lang.specs.FileView.{file_of};
ghost use Rattle.sj_lang.specs.Limits.{limits};
ghost use Rattle.sj_print.specs.LogLine.{log_text};
ghost use Rattle.sj_join.specs.Finding.{IsFound, IsFoundWithin, IsNotFound, IsNotRead, IsReadRun};
ghost use Rattle.sj_join.specs.Sources.{log_part, source_text};
ghost use Rattle.sj_text.specs.Cut.{IsCutShort};

use crate::JoinRefusal;
use crate::joins::join_texts;
use crate::talk::{read_run, share_of};
use crate::texts::texts_of;
use sj_base::{NoMemory, Sink, Source};
use sj_end::Line;
use sj_lang::File;
use sj_party::{ParseRefusal, parse_file};
use sj_print::{print_line, print_mark};
use sj_remote::Conn;
use sj_text::put;
use std::alloc::Global;

/// The most bytes of a file.
const FILE_BYTES: usize = 65_536;

/// A run as it was found at one moment: the text of its file, and its joined log. A text that isn't
/// one of a file has none.
#[derive(Drop)]
pub struct Found {
    pub text: Vec<u8>,
    pub run: Option<(File, Vec<Line>)>,
}

fn put_lines(text: &mut Vec<u8>, file: &File, lines: &[Line]) -> Result<(), NoMemory>
    ensures all { OnOk result (text.new.items
        ≡ text.old.items ++ log_text (file_of file.now) (map line_at lines.now)) }
    ensures part { OnErr result (IsCutShort text.old.items
        (log_text (file_of file.now) (map line_at lines.now)) text.new.items) }
{
    for line in lines {
        print_line(text, file, line)?;
    }
    Ok(())
}

/// Puts the line before a log and the log after the text of the file. Out of memory, it leaves a
/// prefix of them.
#[tactic(auto, using(sj_text::proofs::CutLemmas::cuts))]
pub fn put_source(text: &mut Vec<u8>, file: &File, lines: &[Line]) -> Result<(), NoMemory>
    ensures all { OnOk result (text.new.items
        ≡ source_text text.old.items (file_of file.now) (map line_at lines.now)) }
    ensures part { OnErr result (IsCutShort text.old.items
        (log_part (file_of file.now) (map line_at lines.now)) text.new.items) }
{
    print_mark(text, lines)?;
    put_lines(text, file, lines)
}

// How many parties the file has.
fn party_count(file: &File) -> u16
    requires { length (file_of file.now).parties ≤ limits.parties }
    ensures { result ≡ length (file_of file.now).parties }
{
    file.parties.len() as u16
}

// The joined log of the file's run: the streams of so many parties, read at one moment.
fn lines_in<S: Source, K: Sink>(
    alloc: Global,
    conn: &mut Conn<S, K>,
    run: &[u8],
    file: &File,
    parties: u16,
) -> Result<Vec<Line>, JoinRefusal>
    requires few { parties ≤ limits.parties }
    ensures read { IfOk result (λ lines.
        IsReadRun S.left conn.old conn.new run.now (file_of file.now) parties lines.items) }
    ensures refused { IfErr result (IsNotRead S.left S.faults S.has_ended K.faults
        conn.old conn.new run.now (file_of file.now) parties) }
{
    let came = match read_run(alloc, conn, run, parties) {
        Ok(came) => came,
        Err(e) => return Err(e),
    };
    let texts = match texts_of(alloc, parties, &came) {
        Ok(texts) => texts,
        Err(e) => return Err(e),
    };
    match join_texts(alloc, file, &texts) {
        Ok(lines) => Ok(lines),
        Err(e) => Err(e),
    }
}

/// Reads the run: its file, and then the streams of all its parties at one moment.
pub fn find<S: Source, K: Sink>(
    alloc: Global,
    conn: &mut Conn<S, K>,
    run: &[u8],
) -> Result<Found, JoinRefusal>
    ensures found { IfOk result (IsFound S.left conn.old conn.new run.now) }
    ensures within { IfOk result IsFoundWithin }
    ensures refused { IfErr result
        (IsNotFound S.left S.faults S.has_ended K.faults conn.old conn.new run.now) }
{
    let text = match share_of(alloc, conn, run) {
        Ok(text) => text,
        Err(e) => return Err(e),
    };
    if text.len() > FILE_BYTES {
        return Err(JoinRefusal::TooLarge);
    }
    let file = match parse_file(alloc, &text) {
        Ok(file) => file,
        Err(ParseRefusal::At(_)) => return Ok(Found { text, run: None }),
        Err(ParseRefusal::NoMemory) => return Err(JoinRefusal::NoMemory),
    };
    let parties = party_count(&file);
    let lines = match lines_in(alloc, conn, run, &file, parties) {
        Ok(lines) => lines,
        Err(e) => return Err(e),
    };
    Ok(Found {
        text,
        run: Some((file, lines)),
    })
}
