//! A party played line by line.
ghost use Rattle.std.specs.Prelude.{◌≡◌, ◌<◌, IfOk, OnErr, OnOk, length};
ghost use Rattle.sj_check.specs.Held.{file_in as held};
ghost use Rattle.sj_lang.specs.FileView.{file_of};
ghost use Rattle.sj_talk.specs.Doing.{IsUnsaid, after_line, said_of};
ghost use Rattle.sj_talk.specs.Moves.{GoesOn};
ghost use Rattle.sj_talk.specs.TalkWorld.{OnlyOthers, others_acted, talk_start, talk_verdict};

use crate::Said;
use crate::play::Play;
use crate::start::start;
use sj_base::NoMemory;
use sj_check::Accepted;
use sj_lang::File;
use sj_semantics::Verdict;
use std::alloc::Global;
use std::marker::Model;

/// An accepted file of which one party is played by lines, and the others run.
#[derive(Drop)]
pub struct Talk {
    play: Play,
}

impl Model for Talk {
    ghost use Rattle.sj_talk.specs.declared.play.Play.{Play};
    ghost use Rattle.sj_talk.specs.contracts.play.Play as p;
    ghost use Rattle.sj_talk.specs.Play.{IsPlayed};

    ghost Value = { Play };

    ghost coded = { p.the_row.coded };

    ghost view = { λ t. t.play };

    ghost invariant = { λ t. IsPlayed t.play };
}

impl Talk {
    ghost use Rattle.sj_talk.specs.Talk.{talk_of};

    /// The start of the file, where the party is played. Out of memory the file is given up.
    pub fn start(alloc: Global, accepted: Accepted, party: u16) -> Result<Talk, NoMemory>
        requires { party < length (file_of (held accepted)).parties }
        ensures { IfOk result (λ t. talk_of t ≡ talk_start (file_of (held accepted)) party) }
    {
        let play = start(alloc, &accepted, party)?;
        Ok(Talk { play })
    }

    /// Lets the other parties act until none can, and does the line, or reports the first rule that
    /// refuses it. Out of memory some acts of the others are done, and the line isn't. Where it is a
    /// line that no rule refuses, its text may stand in the table.
    pub fn line(&mut self, line: &[u8]) -> Result<Said, NoMemory>
        ensures said { IfOk result (λ s. s ≡ said_of (others_acted (talk_of self.old)) line.now) }
        ensures ok { OnOk result (talk_of self.new
            ≡ after_line (others_acted (talk_of self.old)) line.now) }
        ensures err { OnErr result (IsUnsaid (talk_of self.old) line.now (talk_of self.new)) }
        ensures on { GoesOn (talk_of self.old) (talk_of self.new) }
    {
        self.play.line(line)
    }

    /// Lets the other parties act until none can, and answers how the talk ends. Long, where one is
    /// at a limit. Else blocked, where one hasn't ended, an end is still bound at the played party,
    /// or an opened session wasn't accepted. Else done. Out of memory some acts of the others are
    /// done, and nothing else.
    pub fn finish(&mut self) -> Result<Verdict, NoMemory>
        ensures verdict { IfOk result (λ v. v ≡ talk_verdict (talk_of self.new)) }
        ensures ok { OnOk result (talk_of self.new ≡ others_acted (talk_of self.old)) }
        ensures err { OnErr result (OnlyOthers (talk_of self.old) (talk_of self.new)) }
        ensures on { GoesOn (talk_of self.old) (talk_of self.new) }
    {
        self.play.finish()
    }

    /// The file, with the texts that lines added.
    pub fn file(&self) -> &File
        ensures { file_of result.now ≡ (talk_of self.now).file }
    {
        &self.play.file
    }
}
