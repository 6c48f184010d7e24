//! The transcript as it is reported, of a world in which no session was opened.
ghost use Rattle.std.specs.Prelude.{◌≡◌, ◌++◌, ◌*◌, ◌≤◌, [], OnErr, OnOk, length};
ghost use Rattle.sj_lang.specs.FileView.{connect_of, file_of};
ghost use Rattle.sj_lang.specs.Limits.{limits};
ghost use Rattle.sj_print.specs.Parts.{IsPutAfter, stand_lines, standing_text, told_part};
ghost use Rattle.sj_semantics.specs.State.{opened_in};
ghost use Rattle.sj_semantics.specs.Transcript.{session_lines, transcript_of};
ghost use Rattle.sj_semantics.specs.World.{World};
ghost use Rattle.sj_text.specs.Cut.{IsCutShort};
ghost use Rattle.sj_told.specs.Told.{AreEnds, AreStands};

use crate::lines::{print_verdict, put_party, put_sent, put_session};
use sj_base::{EndId, NoMemory};
use sj_lang::{Connect, File};
use sj_told::{Stand, ToldEnd, verdict_by};

/// Puts the transcript after the text where no session was opened: from what the ends of the file's
/// connections sent and who took it, and from how the parties stand. Out of memory, it leaves a
/// prefix of the transcript. Whatever the lists are, the text before stays.
pub fn print_told(
    text: &mut Vec<u8>,
    file: &File,
    ends: &[ToldEnd],
    stands: &[Stand],
) -> Result<(), NoMemory>
    requires few { length (file_of file.now).connects ≤ limits.connects }
    requires ends { length ends.now ≡ 2 * length (file_of file.now).connects }
    requires stands { length stands.now ≡ length (file_of file.now).parties }
    ensures ok { OnOk result ((w : World) → opened_in w ≡ [] →
        length (file_of file.now).connects ≤ length w.sessions →
        AreEnds (file_of file.now) w ends.now → AreStands w stands.now →
        text.new.items ≡ text.old.items ++ transcript_of (file_of file.now) w) }
    ensures err { OnErr result ((w : World) → opened_in w ≡ [] →
        length (file_of file.now).connects ≤ length w.sessions →
        AreEnds (file_of file.now) w ends.now → AreStands w stands.now →
        IsCutShort text.old.items (transcript_of (file_of file.now) w) text.new.items) }
    ensures kept { IsPutAfter text.old.items text.new.items }
{
    print_standing(text, file, ends, stands)?;
    Ok(())
}

/// The same, whoever plays the parties: it puts the sessions of a world that has these ends, and the
/// lines and the verdict by how the parties stand. Out of memory, it leaves a prefix of it. Whatever
/// the lists are, the text before stays.
pub fn print_standing(
    text: &mut Vec<u8>,
    file: &File,
    ends: &[ToldEnd],
    stands: &[Stand],
) -> Result<(), NoMemory>
    requires few { length (file_of file.now).connects ≤ limits.connects }
    requires ends { length ends.now ≡ 2 * length (file_of file.now).connects }
    requires stands { length stands.now ≡ length (file_of file.now).parties }
    ensures ok { OnOk result ((w : World) →
        length (file_of file.now).connects ≤ length w.sessions →
        AreEnds (file_of file.now) w ends.now →
        text.new.items ≡ text.old.items ++ standing_text (file_of file.now) w stands.now) }
    ensures err { OnErr result ((w : World) →
        length (file_of file.now).connects ≤ length w.sessions →
        AreEnds (file_of file.now) w ends.now →
        IsCutShort text.old.items (standing_text (file_of file.now) w stands.now)
        text.new.items) }
    ensures kept { IsPutAfter text.old.items text.new.items }
{
    put_ends(text, file, ends)?;
    put_stands(text, file, stands)?;
    print_verdict(text, verdict_by(stands))?;
    Ok(())
}

/// Puts the line of each connection's session, and those of the messages that its two ends sent,
/// after the text. Out of memory, it leaves a prefix of these lines.
pub fn put_ends(text: &mut Vec<u8>, file: &File, ends: &[ToldEnd]) -> Result<(), NoMemory>
    requires few { length (file_of file.now).connects ≤ limits.connects }
    requires all { length ends.now ≡ 2 * length (file_of file.now).connects }
    ensures ok { OnOk result ((w : World) →
        length (file_of file.now).connects ≤ length w.sessions →
        AreEnds (file_of file.now) w ends.now →
        text.new.items ≡ text.old.items
        ++ session_lines (file_of file.now) 0 (file_of file.now).connects w.sessions) }
    ensures err { OnErr result ((w : World) →
        length (file_of file.now).connects ≤ length w.sessions →
        AreEnds (file_of file.now) w ends.now →
        IsCutShort text.old.items
        (session_lines (file_of file.now) 0 (file_of file.now).connects w.sessions)
        text.new.items) }
    ensures kept { IsPutAfter text.old.items text.new.items }
{
    for i in 0..file.connects.len() {
        put_two_ends(
            text,
            file,
            i as u32,
            &file.connects[i],
            &ends[2 * i],
            &ends[2 * i + 1],
        )?;
    }
    Ok(())
}

// The line of a session, and those of the messages that its two ends sent.
fn put_two_ends(
    text: &mut Vec<u8>,
    file: &File,
    sess: u32,
    connect: &Connect,
    first: &ToldEnd,
    second: &ToldEnd,
) -> Result<(), NoMemory>
    ensures ok { OnOk result (text.new.items ≡ text.old.items
        ++ told_part (file_of file.now) sess (connect_of connect.now) first.now second.now) }
    ensures err { OnErr result (IsCutShort text.old.items
        (told_part (file_of file.now) sess (connect_of connect.now) first.now second.now)
        text.new.items) }
{
    put_session(text, file, sess, connect)?;
    put_sent(
        text,
        file,
        EndId { sess, side: 0 },
        &first.sent,
        &first.takers,
    )?;
    put_sent(
        text,
        file,
        EndId { sess, side: 1 },
        &second.sent,
        &second.takers,
    )
}

/// Puts the line of each party after the text. Out of memory, it leaves a prefix of these lines.
pub fn put_stands(text: &mut Vec<u8>, file: &File, stands: &[Stand]) -> Result<(), NoMemory>
    requires { length stands.now ≡ length (file_of file.now).parties }
    ensures ok { OnOk result (text.new.items
        ≡ text.old.items ++ stand_lines (file_of file.now) stands.now) }
    ensures err { OnErr result (IsCutShort text.old.items
        (stand_lines (file_of file.now) stands.now) text.new.items) }
{
    for i in 0..file.parties.len() {
        put_party(
            text,
            file,
            file.parties[i].name,
            stands[i].steps,
            stands[i].state,
        )?;
    }
    Ok(())
}
