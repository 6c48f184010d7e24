//! The whole transcript.
#![tactic(auto, using(sj_text::proofs::CutLemmas::cuts))]

ghost use Rattle.std.specs.Prelude.{◌≡◌, ◌++◌, ◌≤◌, length, OnOk, OnErr};
ghost use Rattle.sj_text.specs.Cut.{IsCutShort};
ghost use Rattle.sj_lang.specs.FileView.{file_of, connect_of};
ghost use Rattle.sj_lang.specs.Limits.{limits};
ghost use Rattle.sj_plain.specs.SharedFile.{without_words};
ghost use Rattle.sj_plain.specs.Plain.{acts_of, kept_file, party_count, session_count, world_at};
ghost use Rattle.sj_semantics.specs.Run.{IsRun};
ghost use Rattle.sj_semantics.specs.Transcript.{opened_lines, party_lines, session_lines, transcript_of};
ghost use Rattle.sj_print.specs.Parts.{opened_part, session_part};

use crate::lines::{print_verdict, put_opened, put_party, put_sent, put_session};
use sj_base::{EndId, NoMemory};
use sj_lang::{Connect, File};
use sj_plain::Plain;
use sj_semantics::Opened;

/// Puts the transcript after the text: sessions and what was sent on them, those of connections and
/// then those that were opened, parties, verdict. The
/// file is the one that the plain world is of. Out of memory, it leaves a prefix of the transcript.
pub fn print_transcript(text: &mut Vec<u8>, file: &File, plain: &Plain) -> Result<(), NoMemory>
    requires parties { length (file_of file.now).parties ≤ limits.parties }
    requires connects { length (file_of file.now).connects ≤ limits.connects }
    requires kept { kept_file plain.now ≡ without_words (file_of file.now) }
    requires run { IsRun (kept_file plain.now) (acts_of plain.now) (world_at plain.now) }
    ensures ok { OnOk result (text.new.items
        ≡ text.old.items ++ transcript_of (file_of file.now) (world_at plain.now)) }
    ensures err { OnErr result (IsCutShort text.old.items
        (transcript_of (file_of file.now) (world_at plain.now)) text.new.items) }
{
    put_sessions(text, file, plain)?;
    put_all_opened(text, file, plain, plain.opened())?;
    put_parties(text, file, plain)?;
    print_verdict(text, plain.verdict())
}

fn put_sessions(text: &mut Vec<u8>, file: &File, plain: &Plain) -> Result<(), NoMemory>
    requires few { length (file_of file.now).connects ≤ limits.connects }
    requires all { length (file_of file.now).connects ≤ session_count plain.now }
    ensures ok { OnOk result (text.new.items ≡ text.old.items
        ++ session_lines (file_of file.now) 0 (file_of file.now).connects
        (world_at plain.now).sessions) }
    ensures err { OnErr result (IsCutShort text.old.items
        (session_lines (file_of file.now) 0 (file_of file.now).connects
        (world_at plain.now).sessions)
        text.new.items) }
{
    for i in 0..file.connects.len() {
        put_session_part(text, file, plain, i as u32, &file.connects[i])?;
    }
    Ok(())
}

// The line of a session, and those of the messages that its two ends sent.
fn put_session_part(
    text: &mut Vec<u8>,
    file: &File,
    plain: &Plain,
    sess: u32,
    connect: &Connect,
) -> Result<(), NoMemory>
    ensures ok { OnOk result (text.new.items ≡ text.old.items
        ++ session_part (file_of file.now) (world_at plain.now).sessions sess
        (connect_of connect.now)) }
    ensures err { OnErr result (IsCutShort text.old.items
        (session_part (file_of file.now) (world_at plain.now).sessions sess
        (connect_of connect.now))
        text.new.items) }
{
    let first = EndId { sess, side: 0 };
    let second = EndId { sess, side: 1 };
    put_session(text, file, sess, connect)?;
    put_sent(text, file, first, plain.sent(first), plain.takers(first))?;
    put_sent(text, file, second, plain.sent(second), plain.takers(second))
}

// The sessions that were opened.
fn put_all_opened(
    text: &mut Vec<u8>,
    file: &File,
    plain: &Plain,
    all: &[Opened],
) -> Result<(), NoMemory>
    ensures ok { OnOk result (text.new.items ≡ text.old.items
        ++ opened_lines (file_of file.now) (world_at plain.now).sessions all.now) }
    ensures err { OnErr result (IsCutShort text.old.items
        (opened_lines (file_of file.now) (world_at plain.now).sessions all.now)
        text.new.items) }
{
    for opened in all {
        put_opened_part(text, file, plain, opened)?;
    }
    Ok(())
}

// The line of a session that was opened, and those of the messages that its two ends sent.
fn put_opened_part(
    text: &mut Vec<u8>,
    file: &File,
    plain: &Plain,
    opened: &Opened,
) -> Result<(), NoMemory>
    ensures ok { OnOk result (text.new.items ≡ text.old.items
        ++ opened_part (file_of file.now) (world_at plain.now).sessions opened.now) }
    ensures err { OnErr result (IsCutShort text.old.items
        (opened_part (file_of file.now) (world_at plain.now).sessions opened.now)
        text.new.items) }
{
    let sess = opened.sess;
    let first = EndId { sess, side: 0 };
    let second = EndId { sess, side: 1 };
    put_opened(text, file, opened)?;
    put_sent(text, file, first, plain.sent(first), plain.takers(first))?;
    put_sent(text, file, second, plain.sent(second), plain.takers(second))
}

fn put_parties(text: &mut Vec<u8>, file: &File, plain: &Plain) -> Result<(), NoMemory>
    requires few { length (file_of file.now).parties ≤ limits.parties }
    requires all { party_count plain.now ≡ length (file_of file.now).parties }
    ensures ok { OnOk result (text.new.items ≡ text.old.items
        ++ party_lines (file_of file.now) (world_at plain.now) 0
        (file_of file.now).parties (world_at plain.now).parties) }
    ensures err { OnErr result (IsCutShort text.old.items
        (party_lines (file_of file.now) (world_at plain.now) 0
        (file_of file.now).parties (world_at plain.now).parties)
        text.new.items) }
{
    for i in 0..file.parties.len() {
        let party = i as u16;
        put_party(
            text,
            file,
            file.parties[i].name,
            plain.steps(party),
            plain.state(party),
        )?;
    }
    Ok(())
}
