//! A talk as it runs: the other parties of a file, and the ends that the played party holds.
ghost use Rattle.std.specs.Prelude.{◌≡◌, IfOk, OnErr, OnOk};
ghost use Rattle.sj_talk.specs.Names.{label_number};
ghost use Rattle.sj_talk.specs.Doing.{IsUnsaid, after_line, said_of};
ghost use Rattle.sj_talk.specs.Front.{seen_in};
ghost use Rattle.sj_talk.specs.Play.{IsPlayed, talk_at};
ghost use Rattle.sj_talk.specs.Rules.{end_under, front_of, head_under, is_free, is_full, is_worn};
ghost use Rattle.sj_talk.specs.Rules.{place_under};
ghost use Rattle.sj_talk.specs.TalkWorld.{OnlyOthers, OnlyTexts, others_acted, talk_verdict};

use crate::Said;
use crate::form::form_in;
use crate::front::{Front, front_at};
use crate::names::{Bound, end_named, label_number};
use crate::places::place;
use crate::refusals::NO_FORM;
use sj_base::{EndId, Msg, NoMemory};
use sj_lang::{File, Proto};
use sj_machine::MAX_HOPS;
use sj_plain::{Course, hops, next_message};
use sj_semantics::Verdict;

/// The most lines that are accepted.
pub const MAX_LINES: u32 = 10_000;

/// The file with the texts that lines added, the played party, and the course of all parties, in
/// which that one has nothing to do. The ends that it holds, and how many lines were accepted.
#[derive(Drop)]
pub struct Play {
    pub file: File,
    pub party: u16,
    pub course: Course,
    pub ends: Vec<Bound>,
    pub lines: u32,
}

impl Play {
    /// Whether no end is under the name.
    pub fn is_free(&self, name: &[u8]) -> bool
        ensures { result ≡ is_free (talk_at self.now) name.now }
    {
        end_named(&self.ends, name).is_none()
    }

    /// The end under the name, where there is one.
    pub fn end(&self, name: &[u8]) -> EndId
        ensures { result ≡ end_under (talk_at self.now) name.now }
    {
        match end_named(&self.ends, name) {
            Some(end) => end,
            None => EndId { sess: 0, side: 0 },
        }
    }

    /// What stands first at the end under the name, lent.
    pub fn front(&self, name: &[u8]) -> Result<Front<'_>, NoMemory>
        ensures { IfOk result (λ f. front_of (seen_in f)
            ≡ front_of (place_under (talk_at self.now) name.now)) }
    {
        let end = self.end(name);
        front_at(
            self.course.alloc,
            &self.course.table,
            &self.course.sessions,
            end,
        )
    }

    /// A copy of the whole place of the end under the name, for what looks after its first item.
    pub fn place(&self, name: &[u8]) -> Result<Proto, NoMemory>
        ensures { IfOk result (λ p. p ≡ place_under (talk_at self.now) name.now) }
    {
        let end = self.end(name);
        place(
            self.course.alloc,
            &self.course.table,
            &self.course.sessions,
            end,
        )
    }

    /// The number of a label; none where no word of the file is spelled so.
    pub fn label(&self, label: &[u8]) -> Option<u16>
        ensures { result ≡ label_number (talk_at self.now).file label.now }
    {
        label_number(&self.file.names.words, label)
    }

    /// The message that the end under the name can take next.
    pub fn head(&self, name: &[u8]) -> Option<Msg>
        ensures { result ≡ head_under (talk_at self.now) name.now }
    {
        match next_message(&self.course.sessions, self.end(name)) {
            Some(passed) => Some(passed.msg),
            None => None,
        }
    }

    /// Whether no further line is accepted.
    pub fn is_full(&self) -> bool
        ensures { result ≡ is_full (talk_at self.now) }
    {
        self.lines >= MAX_LINES
    }

    /// Whether the end under the name was delegated as often as it may be.
    pub fn is_worn(&self, name: &[u8]) -> bool
        ensures { result ≡ is_worn (talk_at self.now) name.now }
    {
        hops(&self.course.sessions, self.end(name)) >= MAX_HOPS
    }

    /// Lets the other parties act until none can.
    pub fn others(&mut self) -> Result<(), NoMemory>
        requires played { IsPlayed self.old }
        ensures ok { OnOk result (talk_at self.new ≡ others_acted (talk_at self.old)) }
        ensures err { OnErr result (OnlyOthers (talk_at self.old) (talk_at self.new)) }
        ensures played { IsPlayed self.new }
    {
        self.course.finish()
    }

    /// Lets the others act, and does the line.
    pub fn line(&mut self, line: &[u8]) -> Result<Said, NoMemory>
        requires played { IsPlayed self.old }
        ensures said { IfOk result (λ s. s ≡ said_of (others_acted (talk_at self.old)) line.now) }
        ensures ok { OnOk result (talk_at self.new
            ≡ after_line (others_acted (talk_at self.old)) line.now) }
        ensures err { OnErr result (IsUnsaid (talk_at self.old) line.now (talk_at self.new)) }
        ensures played { IsPlayed self.new }
    {
        self.others()?; // They may send what the line takes.
        self.say(line)
    }

    // Does the line, where no rule refuses it.
    fn say(&mut self, line: &[u8]) -> Result<Said, NoMemory>
        requires played { IsPlayed self.old }
        ensures said { IfOk result (λ s. s ≡ said_of (talk_at self.old) line.now) }
        ensures ok { OnOk result (talk_at self.new ≡ after_line (talk_at self.old) line.now) }
        ensures err { OnErr result (OnlyTexts (talk_at self.old)
            (after_line (talk_at self.old) line.now).file.texts (talk_at self.new)) }
        ensures played { IsPlayed self.new }
    {
        match form_in(line) {
            None => Ok(Said::Refused(NO_FORM)),
            Some(form) => match self.refusal(&form) {
                Err(NoMemory) => Err(NoMemory),
                Ok(Some(rule)) => Ok(Said::Refused(rule)),
                Ok(None) => self.act(&form),
            },
        }
    }

    /// Lets the others act, and answers how all of it ends.
    pub fn finish(&mut self) -> Result<Verdict, NoMemory>
        requires played { IsPlayed self.old }
        ensures verdict { IfOk result (λ v. v ≡ talk_verdict (talk_at self.new)) }
        ensures ok { OnOk result (talk_at self.new ≡ others_acted (talk_at self.old)) }
        ensures err { OnErr result (OnlyOthers (talk_at self.old) (talk_at self.new)) }
        ensures played { IsPlayed self.new }
    {
        self.others()?;
        Ok(self.verdict())
    }

    // How all of it ends, where nobody can act. Long, where a party is at a limit. Else blocked,
    // where one hasn't ended, the played one holds an end, or an opened session wasn't accepted.
    // Else done.
    fn verdict(&self) -> Verdict
        requires played { IsPlayed self.now }
        ensures { result ≡ talk_verdict (talk_at self.now) }
    {
        match self.course.verdict() {
            Verdict::Done if !self.ends.is_empty() => Verdict::Blocked,
            verdict => verdict,
        }
    }
}
