//! What frames said, each from the words that are left of a line.
ghost use Rattle.std.specs.Prelude.{◌≡◌};
ghost use Rattle.sj_lang.specs.FileView.{file_of};
ghost use Rattle.sj_end.specs.Lines.{note_seen};
ghost use Rattle.sj_log.specs.Fields.{made};
ghost use Rattle.sj_log.specs.Notes.{carry_read, fin_read, signal_read, counts_read, give_read, open_read, frame_read};

use crate::fields::{count, end, resend};
use crate::names::party;
use crate::notes::{knows_openings, message};
use crate::refusal::LogRule;
use crate::reported::{ended, together};
use sj_end::Note;
use sj_fields::Fields;
use sj_grammar::is;
use sj_lang::File;

#[tactic(auto, unfolding(crate::specs::Notes::carry_read))]
fn carry(file: &File, fields: &mut Fields) -> Result<Note, LogRule>
    ensures { made note_seen result ≡ carry_read (file_of file.now) fields.old }
{
    let to = end(fields.next());
    let conn = count(fields.next());
    let number = count(fields.next());
    let taken = count(fields.next());
    let said = together(taken, message(file, fields));
    let (to, (conn, (number, (taken, msg)))) = together(
        to,
        together(conn, together(number, said)),
    )?;
    Ok(Note::Carry {
        to,
        conn,
        number,
        taken,
        msg,
    })
}

#[tactic(auto, unfolding(crate::specs::Notes::fin_read))]
fn fin(fields: &mut Fields) -> Result<Note, LogRule>
    ensures { made note_seen result ≡ fin_read fields.old }
{
    let to = end(fields.next());
    let conn = count(fields.next());
    let number = count(fields.next());
    let (to, (conn, (number, ()))) = together(to, together(conn, together(number, ended(fields))))?;
    Ok(Note::Fin { to, conn, number })
}

#[tactic(auto, unfolding(crate::specs::Notes::signal_read))]
fn signal(file: &File, fields: &mut Fields) -> Result<Note, LogRule>
    ensures { made note_seen result ≡ signal_read (file_of file.now) fields.old }
{
    let to = end(fields.next());
    let conn = count(fields.next());
    let party = party(file, fields.next());
    let taken = count(fields.next());
    let said = together(taken, ended(fields));
    let (to, (conn, (party, (taken, ())))) = together(to, together(conn, together(party, said)))?;
    Ok(Note::Signal {
        to,
        conn,
        party,
        taken,
    })
}

type Counts = (u32, (u32, (u32, (Option<u32>, ()))));

// The counts of an end that moves, and from which message on is resent.
#[tactic(auto, unfolding(crate::specs::Notes::counts_read))]
fn counts(fields: &mut Fields) -> Result<Counts, LogRule>
    ensures { result ≡ counts_read fields.old }
{
    let sent = count(fields.next());
    let taken = count(fields.next());
    let base = count(fields.next());
    let resend = resend(fields.next());
    let last = together(base, together(resend, ended(fields)));
    together(sent, together(taken, last))
}

#[tactic(auto, unfolding(crate::specs::Notes::give_read))]
fn give(file: &File, fields: &mut Fields) -> Result<Note, LogRule>
    ensures { made note_seen result ≡ give_read (file_of file.now) fields.old }
{
    let of = end(fields.next());
    let conn = count(fields.next());
    let peer = party(file, fields.next());
    let said = together(peer, counts(fields));
    let (of, (conn, (peer, (sent, (taken, (base, (resend, ()))))))) = together(
        of,
        together(conn, said),
    )?;
    Ok(Note::Give {
        of,
        conn,
        peer,
        sent,
        taken,
        base,
        resend,
    })
}

// A session that was opened comes.
#[tactic(auto, unfolding(crate::specs::Notes::open_read))]
fn opened(version: u8, word: &[u8], fields: &mut Fields) -> Result<Note, LogRule>
    ensures { made note_seen result ≡ open_read version word.now fields.old }
{
    if !knows_openings(version) {
        return Err(LogRule::L1);
    }
    if is(word, b"open") {
        let sess = count(fields.next());
        let (sess, ()) = together(sess, ended(fields))?;
        Ok(Note::Open { sess })
    } else {
        Err(LogRule::L1)
    }
}

/// What a frame said, in a log of that version.
#[tactic(auto, unfolding(crate::specs::Notes::frame_read))]
pub(crate) fn frame(version: u8, file: &File, fields: &mut Fields) -> Result<Note, LogRule>
    ensures { made note_seen result ≡ frame_read version (file_of file.now) fields.old }
{
    let word = fields.next();
    if is(word, b"carry") {
        carry(file, fields)
    } else if is(word, b"fin") {
        fin(fields)
    } else if is(word, b"claim") {
        let of = end(fields.next());
        let (of, ()) = together(of, ended(fields))?;
        Ok(Note::Claim { of })
    } else if is(word, b"signal") {
        signal(file, fields)
    } else if is(word, b"ack") {
        let of = end(fields.next());
        let conn = count(fields.next());
        let (of, (conn, ())) = together(of, together(conn, ended(fields)))?;
        Ok(Note::Ack { of, conn })
    } else if is(word, b"give") {
        give(file, fields)
    } else {
        opened(version, word, fields)
    }
}
