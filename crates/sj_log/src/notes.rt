//! Messages and acts, each from the words that are left of a line.
ghost use Rattle.std.specs.Prelude.{◌≡◌};
ghost use Rattle.sj_lang.specs.FileView.{file_of};
ghost use Rattle.sj_end.specs.Lines.{note_seen};
ghost use Rattle.sj_log.specs.Fields.{made};
ghost use Rattle.sj_print.specs.Version.{knows_openings};
ghost use Rattle.sj_log.specs.Notes.{sess_read, message_read, offer_read, opening_read, act_read};

use crate::fields::{boolean, count, end, int};
use crate::names::{label, party, text};
use crate::refusal::LogRule;
use crate::reported::{ended, together};
use sj_base::Msg;
use sj_end::Note;
use sj_fields::Fields;
use sj_grammar::is;
use sj_lang::File;

// An end, and its keeper.
#[tactic(auto, unfolding(crate::specs::Notes::sess_read))]
fn sess(file: &File, fields: &mut Fields) -> Result<Msg, LogRule>
    ensures { result ≡ sess_read (file_of file.now) fields.old }
{
    let end = end(fields.next());
    let keeper = party(file, fields.next());
    let (end, (keeper, ())) = together(end, together(keeper, ended(fields)))?;
    Ok(Msg::Sess {
        sess: end.sess,
        side: end.side,
        keeper,
    })
}

/// A message to the end of the line.
#[tactic(auto, unfolding(crate::specs::Notes::message_read))]
pub(crate) fn message(file: &File, fields: &mut Fields) -> Result<Msg, LogRule>
    ensures { result ≡ message_read (file_of file.now) fields.old }
{
    let word = fields.next();
    if is(word, b"int") {
        let n = int(fields.next());
        let (n, ()) = together(n, ended(fields))?;
        Ok(Msg::Int(n))
    } else if is(word, b"boolean") {
        let b = boolean(fields.next());
        let (b, ()) = together(b, ended(fields))?;
        Ok(Msg::Bool(b))
    } else if is(word, b"String") {
        let n = text(file, fields.all())?;
        Ok(Msg::Text(n))
    } else if is(word, b"label") {
        let n = label(file, fields.next());
        let (n, ()) = together(n, ended(fields))?;
        Ok(Msg::Label(n))
    } else if is(word, b"more") {
        ended(fields)?;
        Ok(Msg::More(true))
    } else if is(word, b"stop") {
        ended(fields)?;
        Ok(Msg::More(false))
    } else if is(word, b"session") {
        sess(file, fields)
    } else {
        Err(LogRule::L1)
    }
}

// A session, and a party.
#[tactic(auto, unfolding(crate::specs::Notes::offer_read))]
fn offer(file: &File, fields: &mut Fields) -> Result<(u32, (u16, ())), LogRule>
    ensures { result ≡ offer_read (file_of file.now) fields.old }
{
    let sess = count(fields.next());
    let party = party(file, fields.next());
    together(sess, together(party, ended(fields)))
}

/// Whether a log of that version speaks of sessions that are opened at run time.
pub(crate) fn knows_openings(version: u8) -> bool
    ensures { result ≡ knows_openings version }
{
    version > 1
}

// A session is opened or accepted.
#[tactic(auto, unfolding(crate::specs::Notes::opening_read))]
fn opening(version: u8, file: &File, word: &[u8], fields: &mut Fields) -> Result<Note, LogRule>
    ensures { made note_seen result ≡ opening_read version (file_of file.now) word.now fields.old }
{
    if !knows_openings(version) {
        return Err(LogRule::L1);
    }
    if is(word, b"request") {
        let (sess, (to, ())) = offer(file, fields)?;
        Ok(Note::Request { sess, to })
    } else if is(word, b"accept") {
        let (sess, (from, ())) = offer(file, fields)?;
        Ok(Note::Accept { sess, from })
    } else {
        Err(LogRule::L1)
    }
}

/// What a party did, by that word and those after it, in a log of that version.
#[tactic(auto, unfolding(crate::specs::Notes::act_read))]
pub(crate) fn act(
    version: u8,
    file: &File,
    word: &[u8],
    fields: &mut Fields,
) -> Result<Note, LogRule>
    ensures { made note_seen result ≡ act_read version (file_of file.now) word.now fields.old }
{
    if is(word, b"local") {
        ended(fields)?;
        Ok(Note::Local)
    } else if is(word, b"send") {
        let end = end(fields.next());
        let (end, msg) = together(end, message(file, fields))?;
        Ok(Note::Sent { end, msg })
    } else if is(word, b"take") {
        let end = end(fields.next());
        let (end, msg) = together(end, message(file, fields))?;
        Ok(Note::Took { end, msg })
    } else if is(word, b"close") {
        let end = end(fields.next());
        let (end, ()) = together(end, ended(fields))?;
        Ok(Note::Shut { end })
    } else {
        opening(version, file, word, fields)
    }
}
