//! What a run did so far, and where its parties are.
ghost use Rattle.std.specs.Prelude.{◌≡◌, ◌≤◌, ◌++◌, IfOk, IfSome, List, OnOk, None, false, length, map, true, ℕ};
ghost use Rattle.std.specs.List.{list_any};
ghost use Rattle.sj_check.specs.Held.{file_in as held};
ghost use Rattle.sj_core.specs.Views.{event_at, line_at};
ghost use Rattle.sj_join.specs.Now.{IsNowIf, actors, ending_line, ending_of, is_ready, now_text, place_lines};
ghost use Rattle.sj_lang.specs.FileView.{file_of};
ghost use Rattle.sj_lang.specs.Limits.{limits};
ghost use Rattle.sj_plain.specs.SharedFile.{without_words};
ghost use Rattle.sj_plain.specs.Plain.{acts_of, kept_file, party_count, world_at};
ghost use Rattle.sj_rules.specs.Events.{acts_by};
ghost use Rattle.sj_semantics.specs.Run.{IsRun, after_acts};
ghost use Rattle.sj_semantics.specs.State.{opened_in, states_of, verdict_of};
ghost use Rattle.sj_semantics.specs.Transcript.{line_of, opened_lines, party_lines, session_lines, verdict_word};
ghost use Rattle.sj_semantics.specs.World.{World as PlainWorld};

use crate::places::{is_ready, put_party, put_told};
use sj_base::NoMemory;
use sj_check::Accepted;
use sj_core::{ReplayRefusal, World};
use sj_end::{Event, Line};
use sj_lang::File;
use sj_plain::{Halt, Plain};
use sj_print::{print_transcript, print_verdict};
use sj_semantics::Verdict;
use sj_text::put;
use std::alloc::Global;

/// A run so far: how it ended, where nobody can go on, and what is printed of it.
#[derive(Drop)]
pub struct Now {
    pub verdict: Option<Verdict>,
    pub text: Vec<u8>,
}

// Does the act of a line, where it is one. Answers whether it could be done.
fn act_again(plain: &mut Plain, line: &Line) -> Result<bool, NoMemory>
    requires run { IsRun (kept_file plain.old) (acts_of plain.old) (world_at plain.old) }
    ensures kept { kept_file plain.new ≡ kept_file plain.old }
    ensures run { IsRun (kept_file plain.new) (acts_of plain.new) (world_at plain.new) }
    ensures acts { IfOk result (λ done. done ≡ true → acts_of plain.new
        ≡ acts_of plain.old ++ acts_by (event_at line.now.entry.event) line.now.party) }
    ensures none { IfOk result (λ done. done ≡ false → after_acts (world_at plain.old)
        (acts_by (event_at line.now.entry.event) line.now.party) ≡ None) }
{
    match line.entry.event {
        Event::Act => {
            if usize::from(line.party) >= plain.parties() {
                return Ok(false);
            }
            match plain.act(line.party) {
                Ok(()) => Ok(true),
                Err(Halt::NoMemory) => Err(NoMemory),
                Err(Halt::Waits) => Ok(false),
                Err(Halt::Ended) => Ok(false),
                Err(Halt::AtLimit) => Ok(false),
            }
        }
        Event::Deliver(_) => Ok(true),
    }
}

// The plain world to which the acts of the lines lead. None only where they are no run, as those of
// a history are.
fn acted(alloc: Global, accepted: &Accepted, lines: &[Line]) -> Result<Option<Plain>, NoMemory>
    ensures kept { IfOk result (λ o. IfSome o (λ p. kept_file p ≡ without_words (file_of (held accepted.now)))) }
    ensures run { IfOk result (λ o. IfSome o (λ p. IsRun (kept_file p) (acts_of p) (world_at p))) }
    ensures acts { IfOk result (λ o. IfSome o (λ p. acts_of p ≡ actors (map line_at lines.now))) }
    ensures none { IfOk result (λ o. o ≡ None → (w : PlainWorld)
        → IsRun (without_words (file_of (held accepted.now))) (actors (map line_at lines.now)) w → ⊥) }
{
    let mut plain = Plain::start(alloc, accepted)?;
    for line in lines {
        if !act_again(&mut plain, line)? {
            return Ok(None);
        }
    }
    Ok(Some(plain))
}

// The lines of the parties as a transcript has them.
fn put_old(text: &mut Vec<u8>, file: &File, plain: &Plain) -> Result<(), NoMemory>
    requires few { length (file_of file.now).parties ≤ limits.parties }
    requires all { party_count plain.now ≡ length (file_of file.now).parties }
    ensures { OnOk result (text.new.items ≡ text.old.items
        ++ party_lines (file_of file.now) (world_at plain.now) 0
        (file_of file.now).parties (world_at plain.now).parties) }
{
    for i in 0..file.parties.len() {
        let party = i as u16;
        put_told(text, file, party, plain.steps(party), plain.state(party))?;
    }
    Ok(())
}

// The line of each party, where it is.
fn put_places(text: &mut Vec<u8>, file: &File, plain: &Plain) -> Result<(), NoMemory>
    requires few { length (file_of file.now).parties ≤ limits.parties }
    requires all { party_count plain.now ≡ length (file_of file.now).parties }
    ensures { OnOk result (text.new.items ≡ text.old.items
        ++ place_lines (file_of file.now) (world_at plain.now) 0
        (file_of file.now).parties (world_at plain.now).parties) }
{
    for i in 0..file.parties.len() {
        let party = i as u16;
        put_party(text, file, party, plain.steps(party), plain.state(party))?;
    }
    Ok(())
}

// Whether a party can act.
fn goes_on(plain: &Plain) -> bool
    requires few { party_count plain.now ≤ limits.parties }
    ensures { result ≡ list_any is_ready (states_of (world_at plain.now)) }
{
    for i in 0..plain.parties() {
        let party = i as u16;
        if is_ready(plain.state(party)) {
            return true;
        }
    }
    false
}

// The text without the last bytes, of which there are as many as in the other one.
fn cut_off(text: &mut Vec<u8>, last: &[u8])
    ensures { (front : List ℕ) → text.old.items ≡ front ++ last.now → text.new.items ≡ front }
{
    text.truncate(text.len().saturating_sub(last.len()));
}

// The sessions and what was sent on them, as in a transcript.
fn put_sessions(
    alloc: Global,
    text: &mut Vec<u8>,
    file: &File,
    plain: &Plain,
) -> Result<(), NoMemory>
    requires parties { length (file_of file.now).parties ≤ limits.parties }
    requires connects { length (file_of file.now).connects ≤ limits.connects }
    requires all { party_count plain.now ≡ length (file_of file.now).parties }
    requires kept { kept_file plain.now ≡ without_words (file_of file.now) }
    requires run { IsRun (kept_file plain.now) (acts_of plain.now) (world_at plain.now) }
    ensures { OnOk result (text.new.items ≡ text.old.items
        ++ (session_lines (file_of file.now) 0 (file_of file.now).connects (world_at plain.now).sessions
        ++ opened_lines (file_of file.now) (world_at plain.now).sessions (opened_in (world_at plain.now)))) }
{
    // A transcript ends with the lines of the parties and of the verdict.
    let mut last = Vec::new(alloc);
    put_old(&mut last, file, plain)?;
    print_verdict(&mut last, plain.verdict())?;
    print_transcript(text, file, plain)?;
    cut_off(text, &last);
    Ok(())
}

// How the run ended, where nobody can act.
fn ending(plain: &Plain) -> Option<Verdict>
    requires few { party_count plain.now ≤ limits.parties }
    ensures { result ≡ ending_of (world_at plain.now) }
{
    if goes_on(plain) {
        None
    } else {
        Some(plain.verdict())
    }
}

fn put_ending(text: &mut Vec<u8>, ending: Option<Verdict>) -> Result<(), NoMemory>
    ensures { OnOk result (text.new.items ≡ text.old.items ++ ending_line ending) }
{
    match ending {
        None => put(text, b"running\n"),
        Some(verdict) => print_verdict(text, verdict),
    }
}

// What was sent on the sessions, and then where the parties are.
fn place_all(alloc: Global, file: &File, plain: &Plain) -> Result<Now, NoMemory>
    requires parties { length (file_of file.now).parties ≤ limits.parties }
    requires connects { length (file_of file.now).connects ≤ limits.connects }
    requires all { party_count plain.now ≡ length (file_of file.now).parties }
    requires kept { kept_file plain.now ≡ without_words (file_of file.now) }
    requires run { IsRun (kept_file plain.now) (acts_of plain.now) (world_at plain.now) }
    ensures text { IfOk result (λ now. now.text.items ≡ now_text (file_of file.now) (world_at plain.now)) }
    ensures verdict { IfOk result (λ now. now.verdict ≡ ending_of (world_at plain.now)) }
{
    let mut text = Vec::new(alloc);
    put_sessions(alloc, &mut text, file, plain)?;
    put_places(&mut text, file, plain)?;
    let verdict = ending(plain);
    put_ending(&mut text, verdict)?;
    Ok(Now { verdict, text })
}

/// What the run with this joined log did so far, and where its parties are. None where the log is no
/// history of the file.
pub fn now_in(alloc: Global, accepted: &Accepted, lines: Vec<Line>) -> Result<Option<Now>, NoMemory>
    ensures { IfOk result (IsNowIf (file_of (held accepted.now)) (map line_at lines.items)) }
{
    let file = accepted.file();
    let world = match World::replayed(alloc, accepted, lines) {
        Ok(world) => world,
        Err(ReplayRefusal::NoMemory) => return Err(NoMemory),
        Err(ReplayRefusal::Misfit(_)) => return Ok(None),
    };
    match acted(alloc, accepted, world.history())? {
        Some(plain) => Ok(Some(place_all(alloc, file, &plain)?)),
        None => Ok(None),
    }
}
