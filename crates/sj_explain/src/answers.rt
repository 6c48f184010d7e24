//! What is answered to the text of a file.
ghost use Rattle.std.specs.Prelude.{◌≡◌, IfOk};
ghost use Rattle.sj_explain.specs.Answers.{answer_line, status_of};

use sj_base::NoMemory;
use sj_check::CheckRule;
use sj_proto::Fault;
use sj_text::{put, put_number};
use std::alloc::Global;

/// What `sj check` answers, too.
#[derive(Clone, Copy)]
pub enum CheckAnswer {
    /// It is no file of the grammar.
    Syntax(Fault),
    /// The file breaks that rule on that line.
    Check { rule: CheckRule, line: u32 },
    /// It is accepted, with so many parties and connections.
    Accepted { parties: usize, sessions: usize },
}

/// How an answer is shown.
#[derive(Clone, Copy)]
pub struct Looks {
    /// Who waits for whom is drawn, and nothing else is shown of an accepted file.
    pub drawn: bool,
    /// The word in question has a colour.
    pub coloured: bool,
}

impl CheckAnswer {
    /// The status with which `sj check` ends.
    pub fn status(&self) -> u8
        ensures { result ≡ status_of self.now }
    {
        match self {
            CheckAnswer::Syntax(_) => 4,
            CheckAnswer::Check { .. } => 5,
            CheckAnswer::Accepted { .. } => 0,
        }
    }
}

/// The line that `sj check` prints.
pub(crate) fn answer_text(alloc: Global, answer: CheckAnswer) -> Result<Vec<u8>, NoMemory>
    ensures { IfOk result (λ text. text.items ≡ answer_line answer) }
{
    match answer {
        CheckAnswer::Syntax(fault) => syntax_text(alloc, fault),
        CheckAnswer::Check { rule, line } => check_text(alloc, rule, line),
        CheckAnswer::Accepted { parties, sessions } => counts_text(alloc, parties, sessions),
    }
}

fn syntax_text(alloc: Global, fault: Fault) -> Result<Vec<u8>, NoMemory>
    ensures { IfOk result (λ text. text.items ≡ answer_line (CheckAnswer.Syntax fault)) }
{
    let mut text = Vec::new(alloc);
    put(&mut text, b"syntax P")?;
    put_number(&mut text, u64::from(fault.rule.number()))?;
    put(&mut text, b" at ")?;
    put_number(&mut text, u64::from(fault.line))?;
    put(&mut text, b":")?;
    put_number(&mut text, u64::from(fault.column))?;
    put(&mut text, b"\n")?;
    Ok(text)
}

fn check_text(alloc: Global, rule: CheckRule, line: u32) -> Result<Vec<u8>, NoMemory>
    ensures { IfOk result (λ text. text.items ≡ answer_line (CheckAnswer.Check rule line)) }
{
    let mut text = Vec::new(alloc);
    put(&mut text, b"check C")?;
    put_number(&mut text, u64::from(rule.number()))?;
    put(&mut text, b" at ")?;
    put_number(&mut text, u64::from(line))?;
    put(&mut text, b"\n")?;
    Ok(text)
}

fn counts_text(alloc: Global, parties: usize, sessions: usize) -> Result<Vec<u8>, NoMemory>
    ensures { IfOk result (λ text. text.items ≡ answer_line (CheckAnswer.Accepted parties sessions)) }
{
    let mut text = Vec::new(alloc);
    put(&mut text, b"accepted parties ")?;
    put_number(&mut text, parties as u64)?;
    put(&mut text, b" sessions ")?;
    put_number(&mut text, sessions as u64)?;
    put(&mut text, b"\n")?;
    Ok(text)
}
