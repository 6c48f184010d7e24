//! How a talk begins.
ghost use Rattle.std.specs.Prelude.{◌≡◌, ◌<◌, IfOk, length, map};
ghost use Rattle.sj_acceptance.specs.Accepted.{IsAccepted};
ghost use Rattle.sj_check.specs.Held.{file_in as held};
ghost use Rattle.sj_lang.specs.FileView.{file_of, party_of};
ghost use Rattle.sj_machine.specs.Sound.{program_at};
ghost use Rattle.sj_talk.specs.Names.{shown_file, spelled, word_at};
ghost use Rattle.sj_talk.specs.Play.{IsPlayed, ends_at, idle_parties, talk_at};
ghost use Rattle.sj_talk.specs.TalkWorld.{no_program, talk_start};

use crate::copies::{copied_parties, copied_protocols};
use crate::names::{Bound, once};
use crate::play::Play;
use sj_base::{EndId, NoMemory};
use sj_check::Accepted;
use sj_lang::{File, Names, Party, Words};
use sj_machine::{Machine, connected_ends};
use sj_plain::Course;
use std::alloc::Global;

/// The start of the file, where the party is played.
pub fn start(alloc: Global, accepted: &Accepted, party: u16) -> Result<Play, NoMemory>
    requires { party < length (file_of (held accepted.now)).parties }
    ensures start { IfOk result (λ p. talk_at p ≡ talk_start (file_of (held accepted.now)) party) }
    ensures played { IfOk result IsPlayed }
{
    let file = accepted.file();
    let mut course = Course::start(alloc, accepted)?;
    let machine = no_program(alloc, file, party)?;
    course.machines[party as usize] = machine;
    let numbered = connected_ends(alloc, file, party)?;
    let ends = spelled(alloc, &file.names.words, &numbered)?;
    let shown = shown_file(alloc, file)?;
    Ok(Play {
        file: shown,
        party,
        course,
        ends,
        lines: 0,
    })
}

// The party with nothing to do: that of a file whose parties have nothing to do.
fn no_program(alloc: Global, file: &File, party: u16) -> Result<Machine, NoMemory>
    requires accepted { IsAccepted (file_of file.now) }
    requires party { party < length (file_of file.now).parties }
    ensures { IfOk result (λ m. program_at m ≡ no_program (file_of file.now)) }
{
    let idle = File {
        names: Names::new(alloc),
        protocols: Vec::new(alloc),
        parties: idle_parties(alloc, &file.parties)?,
        connects: Vec::new(alloc),
    };
    Machine::start(alloc, &idle, party)
}

// The parties with nothing to do.
fn idle_parties(alloc: Global, parties: &[Party]) -> Result<Vec<Party>, NoMemory>
    ensures { IfOk result (λ out. map party_of out.items ≡ idle_parties (map party_of parties.now)) }
{
    let mut out = Vec::new(alloc);
    for party in parties {
        let line = party.line;
        let name = party.name;
        let body = Vec::new(alloc);
        out.push(Party { line, name, body })?;
    }
    Ok(out)
}

// The file with each word and each text once.
fn shown_file(alloc: Global, file: &File) -> Result<File, NoMemory>
    ensures { IfOk result (λ f. file_of f ≡ shown_file (file_of file.now)) }
{
    let words = once(alloc, &file.names.words)?;
    let texts = once(alloc, &file.names.texts)?;
    let protocols = copied_protocols(alloc, &file.protocols)?;
    let parties = copied_parties(alloc, &file.parties)?;
    let connects = Vec::from_slice(alloc, &file.connects)?;
    Ok(File {
        names: Names { words, texts },
        protocols,
        parties,
        connects,
    })
}

// The ends, each under its word.
fn spelled(alloc: Global, words: &Words, ends: &[(u16, EndId)]) -> Result<Vec<Bound>, NoMemory>
    ensures { IfOk result (λ out. ends_at out.items ≡ spelled words.now ends.now) }
{
    let mut out = Vec::new(alloc);
    for entry in ends {
        out.push(spelled_end(alloc, words, *entry)?)?;
    }
    Ok(out)
}

fn spelled_end(alloc: Global, words: &Words, entry: (u16, EndId)) -> Result<Bound, NoMemory>
    ensures name { IfOk result (λ b. b.name.items ≡ word_at words.now entry.0) }
    ensures end { IfOk result (λ b. b.end ≡ entry.1) }
{
    let word = match words.get(entry.0 as usize) {
        Some(word) => word,
        None => &[],
    };
    let name = Vec::from_slice(alloc, word)?;
    Ok(Bound { name, end: entry.1 })
}
