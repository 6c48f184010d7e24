//! From the text of a file to what is said of it.
#![tactic(auto, using(crate::proofs::AnswerLemmas::faulty, crate::proofs::AnswerLemmas::right, crate::proofs::AnswerLemmas::tells))]

ghost use Rattle.std.specs.Prelude.{◌≡◌, ◌≤◌, IfOk, codes, length};
ghost use Rattle.sj_check.specs.Held.{file_in as held};
ghost use Rattle.sj_grammar.specs.Files.{IsFile};
ghost use Rattle.sj_lang.specs.FileView.{file_of};
ghost use Rattle.sj_lang.specs.Limits.{file_limit};
ghost use Rattle.sj_explain.specs.Answers.{IsAnswer, TellsIt, answer_line, lead_of};

use crate::answers::{CheckAnswer, Looks, answer_text};
use crate::connections::put_connections;
use crate::faults::find_fault;
use crate::marks::{Scanned, Stretch};
use crate::picture::put_picture;
use crate::quotation::put_quoted;
use crate::rules::{Lesson, check_lesson, syntax_lesson};
use crate::syntax::put_syntax;
use crate::waits::put_ending;
use crate::warnings::put_warnings;
use sj_base::NoMemory;
use sj_check::{Accepted, CheckRefusal, CheckRule, check};
use sj_lang::File;
use sj_party::parse_file;
use sj_plain::Plain;
use sj_proto::{Fault, ParseRefusal};
use sj_text::put;
use std::alloc::Global;

/// What is said of the text of a file.
#[derive(Drop)]
pub struct Told {
    /// What reading and checking come to.
    pub answer: CheckAnswer,
    /// The line that `sj check` prints, and after it the reasons. It is a picture instead where one
    /// is asked for.
    pub text: Vec<u8>,
}

/// Reads and checks the text of a file, and says what comes of that and why.
pub fn why(alloc: Global, looks: Looks, source: &[u8]) -> Result<Told, NoMemory>
    requires { length source.now ≤ file_limit }
    // The rule and the line, or the counts, are those that `sj check` answers.
    ensures answer { IfOk result (λ t. IsAnswer source.now t.answer) }
    // The text begins with that.
    ensures text { IfOk result (λ t. TellsIt t.answer looks.drawn t.text.items) }
{
    let file = match parse_file(alloc, source) {
        Ok(file) => file,
        Err(ParseRefusal::At(fault)) => {
            let more = syntax_reasons(alloc, looks, source, fault)?;
            return tell_with_reasons(alloc, looks, source, CheckAnswer::Syntax(fault), &more);
        }
        Err(ParseRefusal::NoMemory) => return Err(NoMemory),
    };
    match check(alloc, file) {
        Ok(accepted) => tell_accepted(alloc, looks, source, &accepted),
        Err((file, refusal)) => match refusal {
            CheckRefusal::At { rule, line } => {
                let more = check_reasons(alloc, looks, source, &file, rule, line)?;
                tell_with_reasons(
                    alloc,
                    looks,
                    source,
                    CheckAnswer::Check { rule, line },
                    &more,
                )
            }
            CheckRefusal::NoMemory => Err(NoMemory),
        },
    }
}

// What an accepted file comes to.
fn tell_accepted(
    alloc: Global,
    looks: Looks,
    source: &[u8],
    accepted: &Accepted,
) -> Result<Told, NoMemory>
    requires { IsFile source.now (file_of (held accepted.now)) }
    ensures answer { IfOk result (λ t. IsAnswer source.now t.answer) }
    ensures text { IfOk result (λ t. TellsIt t.answer looks.drawn t.text.items) }
{
    let file = accepted.file();
    let mut plain = Plain::start(alloc, accepted)?;
    plain.finish()?;
    let mut more = Vec::new(alloc);
    if looks.drawn {
        put_picture(alloc, &mut more, file, &plain)?;
        return tell_with_picture(alloc, looks, source, counts(file), &more);
    }
    put_connections(alloc, &mut more, file)?;
    put_ending(alloc, &mut more, file, &plain)?;
    put_warnings(alloc, &mut more, file)?;
    tell_with_reasons(alloc, looks, source, counts(file), &more)
}

fn counts(file: &File) -> CheckAnswer
    ensures { result
        ≡ CheckAnswer.Accepted (length (file_of file.now).parties) (length (file_of file.now).connects) }
{
    CheckAnswer::Accepted {
        parties: file.parties.len(),
        sessions: file.connects.len(),
    }
}

// The line of an answer to the source, and more after it.
fn tell_with_reasons(
    alloc: Global,
    looks: Looks,
    source: &[u8],
    answer: CheckAnswer,
    more: &[u8],
) -> Result<Told, NoMemory>
    requires is { IsAnswer source.now answer }
    requires line { lead_of answer looks.drawn ≡ answer_line answer }
    ensures answer { IfOk result (λ t. IsAnswer source.now t.answer) }
    ensures text { IfOk result (λ t. TellsIt t.answer looks.drawn t.text.items) }
{
    let mut text = answer_text(alloc, answer)?;
    put(&mut text, more)?;
    Ok(Told { answer, text })
}

// A picture that answers the source, with more after its first word.
fn tell_with_picture(
    alloc: Global,
    looks: Looks,
    source: &[u8],
    answer: CheckAnswer,
    more: &[u8],
) -> Result<Told, NoMemory>
    requires is { IsAnswer source.now answer }
    requires picture { lead_of answer looks.drawn ≡ codes "<svg " }
    ensures answer { IfOk result (λ t. IsAnswer source.now t.answer) }
    ensures text { IfOk result (λ t. TellsIt t.answer looks.drawn t.text.items) }
{
    let mut text = Vec::new(alloc);
    put(&mut text, b"<svg ")?;
    put(&mut text, more)?;
    Ok(Told { answer, text })
}

// A rule in words, the place where it is broken, lines on what was known there, and how that is
// mended.
fn put_reasons(
    alloc: Global,
    text: &mut Vec<u8>,
    looks: Looks,
    source: &[u8],
    lesson: Lesson,
    marked: Option<(Stretch, Option<Stretch>)>,
    knew: &[u8],
) -> Result<(), NoMemory> {
    put(text, lesson.name)?;
    put(text, b": ")?;
    put(text, lesson.says)?;
    put(text, b"\n")?;
    if let Some((first, other)) = marked {
        put_quoted(alloc, text, source, looks.coloured, first, other)?;
    }
    put(text, b"\n")?;
    put(text, knew)?;
    put(text, b"mend: ")?;
    put(text, lesson.mends)?;
    put(text, b"\n")
}

// The line of what was known, where something was.
fn put_there(text: &mut Vec<u8>, knew: &[u8]) -> Result<(), NoMemory> {
    if knew.is_empty() {
        return Ok(());
    }
    put(text, b"there: ")?;
    put(text, knew)?;
    put(text, b"\n")
}

fn syntax_reasons(
    alloc: Global,
    looks: Looks,
    source: &[u8],
    fault: Fault,
) -> Result<Vec<u8>, NoMemory>
    requires { length source.now ≤ file_limit }
{
    let scanned = Scanned::of(alloc, source)?;
    let stretch = scanned.at(fault.line, fault.column);
    let lesson = syntax_lesson(fault.rule);
    let mut text = Vec::new(alloc);
    let mut knew = Vec::new(alloc);
    put_syntax(alloc, &mut knew, &scanned, fault)?;
    put_reasons(
        alloc,
        &mut text,
        looks,
        source,
        lesson,
        Some((stretch, None)),
        &knew,
    )?;
    Ok(text)
}

// The details are those of this crate's own walk. They are left out where it comes to another fault
// than the checker.
fn check_reasons(
    alloc: Global,
    looks: Looks,
    source: &[u8],
    file: &File,
    rule: CheckRule,
    line: u32,
) -> Result<Vec<u8>, NoMemory>
    requires { length source.now ≤ file_limit }
{
    let lesson = check_lesson(rule);
    let mut text = Vec::new(alloc);
    match find_fault(alloc, file, line)? {
        Some(finding) if finding.rule == rule && finding.site.line == line => {
            let scanned = Scanned::of(alloc, source)?;
            let first = scanned.stretch(&file.names, finding.site, finding.mark);
            let other = match finding.other {
                Some(mark) => scanned.stretch(&file.names, finding.site, mark),
                None => None,
            };
            let marked = match first {
                Some(first) => Some((first, other)),
                None => None,
            };
            let mut knew = Vec::new(alloc);
            put_there(&mut knew, &finding.knew)?;
            put_reasons(alloc, &mut text, looks, source, lesson, marked, &knew)?;
        }
        _ => put_reasons(alloc, &mut text, looks, source, lesson, None, b"")?,
    }
    Ok(text)
}
