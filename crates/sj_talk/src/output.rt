//! A whole talk, and what it prints.
#![tactic(auto, using(sj_text::proofs::CutLemmas::cuts))]

ghost use Rattle.std.specs.Prelude.{◌≡◌, ◌==◌, ◌<◌, ◌∷◌, ◌++◌, [], IfOk, OnErr, OnOk, codes, decimal, length, take};
ghost use Rattle.std.specs.List.{position_or_len};
ghost use Rattle.sj_lang.specs.FileView.{file_of};
ghost use Rattle.sj_semantics.specs.Lines.{line_of, message_words};
ghost use Rattle.sj_talk.specs.Moves.{GoesOn};
ghost use Rattle.sj_talk.specs.Output.{BreaksOff, played_from, said_words, talk_end, talk_text};
ghost use Rattle.sj_talk.specs.Talk.{talk_of};
ghost use Rattle.sj_talk.specs.Words.{lines_in};
ghost use Rattle.sj_text.specs.Cut.{IsCutShort};

use crate::{Said, Talk};
use sj_base::{Msg, NoMemory};
use sj_fields::first_at;
use sj_lang::File;
use sj_print::{print_message, print_verdict};
use sj_semantics::Verdict;
use sj_text::{put, put_number};

/// Plays the lines of the text, and appends to the other text what is printed. For each line that
/// is `ok`, `took` and the message, or `refused`, the line's number and the rule. The verdict is
/// last. A last line may stand without its newline. Out of memory some lines are done and printed.
/// Of the next one nothing is printed, or it is done and printed in part.
pub fn talk_lines(talk: &mut Talk, lines: &[u8], text: &mut Vec<u8>) -> Result<Verdict, NoMemory>
    ensures verdict { IfOk result (λ v. v ≡ talk_end (talk_of talk.old) lines.now) }
    ensures ok { OnOk result (talk_of talk.new
        ≡ played_from (talk_of talk.old) (lines_in lines.now)) }
    ensures text { OnOk result (text.new.items
        ≡ text.old.items ++ talk_text (talk_of talk.old) lines.now) }
    ensures err { OnErr result (BreaksOff (talk_of talk.old) lines.now (talk_of talk.new)
        text.old.items text.new.items) }
    ensures on { GoesOn (talk_of talk.old) (talk_of talk.new) }
{
    let mut left = lines;
    let mut number = 0;
    while !left.is_empty() {
        let end = first_at(b'\n', left);
        let rest = behind(left, end);
        number += 1;
        let said = talk.line(&left[..end])?;
        put_said(text, talk.file(), number, &said)?;
        left = rest;
    }
    let verdict = talk.finish()?;
    print_verdict(text, verdict)?;
    Ok(verdict)
}

// What stands after the first newline, which is at that place, or nothing after a last line.
fn behind(left: &[u8], end: usize) -> &[u8]
    requires first { end ≡ position_or_len (λ b. b == 10) left.now }
    requires some { 0 < length left.now }
    ensures lines { lines_in left.now ≡ take end left.now ∷ lines_in result.now }
    ensures shorter { length result.now < length left.now }
{
    if end < left.len() {
        &left[end + 1..]
    } else {
        &[]
    }
}

// The line for the line of that number.
fn put_said(text: &mut Vec<u8>, file: &File, number: u64, said: &Said) -> Result<(), NoMemory>
    ensures ok { OnOk result (text.new.items
        ≡ text.old.items ++ line_of (said_words (file_of file.now) number said.now)) }
    ensures err { OnErr result (IsCutShort text.old.items
        (line_of (said_words (file_of file.now) number said.now)) text.new.items) }
{
    match said {
        Said::Fine => put(text, b"ok\n"),
        Said::Took(msg) => put_took(text, file, msg),
        Said::Refused(rule) => put_refused(text, number, u64::from(*rule)),
    }
}

fn put_took(text: &mut Vec<u8>, file: &File, msg: &Msg) -> Result<(), NoMemory>
    ensures ok { OnOk result (text.new.items ≡ text.old.items
        ++ line_of (codes "took" ∷ message_words (file_of file.now) msg.now)) }
    ensures err { OnErr result (IsCutShort text.old.items
        (line_of (codes "took" ∷ message_words (file_of file.now) msg.now)) text.new.items) }
{
    put(text, b"took ")?;
    print_message(text, file, msg)?;
    put(text, b"\n")
}

fn put_refused(text: &mut Vec<u8>, number: u64, rule: u64) -> Result<(), NoMemory>
    ensures ok { OnOk result (text.new.items ≡ text.old.items
        ++ line_of (codes "refused" ∷ decimal number ∷ (71 ∷ decimal rule) ∷ [])) }
    ensures err { OnErr result (IsCutShort text.old.items
        (line_of (codes "refused" ∷ decimal number ∷ (71 ∷ decimal rule) ∷ [])) text.new.items) }
{
    put(text, b"refused ")?;
    put_number(text, number)?;
    put(text, b" G")?;
    put_number(text, rule)?;
    put(text, b"\n")
}
