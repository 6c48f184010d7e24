//! From a text to its accepted file, and to how that file ends.
ghost use Rattle.std.specs.Prelude.{◌≡◌, ◌≤◌, IfErr, IfOk, length};
ghost use Rattle.sj_acceptance.specs.Accepted.{IsAccepted};
ghost use Rattle.sj_check.specs.Held.{file_in};
ghost use Rattle.sj_grammar.specs.Files.{IsFile};
ghost use Rattle.sj_lang.specs.FileView.{file_of};
ghost use Rattle.sj_lang.specs.Limits.{file_limit};
ghost use Rattle.sj_semantics.specs.Run.{end_of};
ghost use Rattle.sj_semantics.specs.State.{verdict_of};
ghost use Rattle.sj_semantics.specs.Transcript.{transcript_of};
ghost use Rattle.uses.specs.Refusals.{IsRefusalOf};
ghost use Rattle.uses.specs.Transcripts.{IsTranscriptIn};

use crate::refusal::TextRefusal;
use porcharnica::{Accepted, NoMemory, Plain, Verdict, check, parse_file, print_transcript};
use std::alloc::Global;

/// How a file ends, whatever the schedule.
#[derive(Drop)]
pub struct Ending {
    pub verdict: Verdict,
    pub transcript: Vec<u8>,
}

/// The file that the text stands for, where it keeps the static rules.
pub fn accepted_in(alloc: Global, text: &[u8]) -> Result<Accepted, TextRefusal>
    requires { length text.now ≤ file_limit }
    ensures ok { IfOk result (λ a. IsFile text.now (file_of (file_in a))) }
    ensures accepted { IfOk result (λ a. IsAccepted (file_of (file_in a))) }
    ensures err { IfErr result (IsRefusalOf text.now) }
{
    let file = parse_file(alloc, text)?;
    let accepted = check(alloc, file)?;
    Ok(accepted)
}

/// How an accepted file ends. All parties are played in one shared state, until none can go on.
pub fn ending_of(alloc: Global, accepted: &Accepted) -> Result<Ending, NoMemory>
    ensures verdict { IfOk result (λ e. e.verdict ≡ verdict_of (end_of (file_of (file_in accepted.now)))) }
    ensures transcript { IfOk result (λ e. e.transcript.items
        ≡ transcript_of (file_of (file_in accepted.now)) (end_of (file_of (file_in accepted.now)))) }
{
    let mut plain = Plain::start(alloc, accepted)?;
    plain.finish()?;
    let mut transcript = Vec::new(alloc);
    print_transcript(&mut transcript, accepted.file(), &plain)?;
    let verdict = plain.verdict();
    Ok(Ending {
        verdict,
        transcript,
    })
}

/// The transcript of the end of the accepted file that the text stands for.
pub fn transcript_in(alloc: Global, text: &[u8]) -> Result<Vec<u8>, TextRefusal>
    requires { length text.now ≤ file_limit }
    ensures ok { IfOk result (λ t. IsTranscriptIn text.now t.items) }
    ensures err { IfErr result (IsRefusalOf text.now) }
{
    let accepted = accepted_in(alloc, text)?;
    let ending = ending_of(alloc, &accepted)?;
    Ok(ending.transcript)
}
