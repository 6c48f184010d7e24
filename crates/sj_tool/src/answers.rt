//! What the top call answers.
ghost use Rattle.std.specs.Prelude.{◌≡◌, IfOk};
ghost use Rattle.sj_tool.specs.AnswerAt.{Check, LogFault, NoParty, Syntax, answer_at};
ghost use Rattle.sj_tool.specs.Texts.{status_of, text_of, verdict_status};

use sj_base::NoMemory;
use sj_proto::Fault;
use sj_semantics::Verdict;
use sj_text::{put, put_number};
use std::alloc::Global;

/// What is answered, in the order of refusals. Out of memory and a write fault have no text.
#[derive(Drop)]
pub enum Answer {
    /// The words are no command.
    Usage,
    /// A read of the input failed.
    ReadFault,
    /// The input has more bytes than the command takes, or the file in it than a file may have.
    TooLarge,
    /// No line of the input of a talk is `%%talk`.
    NoTalk,
    /// The input is no file of the grammar.
    Syntax(Fault),
    /// The file isn't accepted: the number of the broken rule, and a line.
    Check(u8, u32),
    /// The file has no party of the number that is to be played.
    NoParty(u16),
    /// The log isn't in its grammar: the number of the broken rule, and a line. Rule 1 at line 0
    /// says that no line of the source is `%%log` or `%%log2`.
    LogFault(u8, u32),
    /// An entry of the log is illegal: what is said of the first one.
    Misfit(Vec<u8>),
    /// The links met a fault.
    LinkFault,
    /// The joined logs are damaged: what is said of that.
    Damaged(Vec<u8>),
    /// The file was played to its end: how it ended, and what is printed of it.
    Ran(Verdict, Vec<u8>),
    /// What was asked of a file is printed.
    Printed(Vec<u8>),
    /// The generated file is printed.
    Made(Vec<u8>),
}

impl Answer {
    /// The status with which the program ends.
    pub fn status(&self) -> u8
        ensures { result ≡ status_of (answer_at self.now) }
    {
        match self {
            Answer::Usage => 1,
            Answer::ReadFault => 2,
            Answer::TooLarge => 3,
            Answer::Syntax(_) => 4,
            Answer::Check(..) => 5,
            Answer::NoTalk | Answer::LogFault(..) | Answer::Misfit(_) => 12,
            Answer::NoParty(_) => 14,
            Answer::LinkFault => 8,
            Answer::Damaged(_) => 9,
            Answer::Ran(verdict, _) => status_by(*verdict),
            Answer::Printed(_) | Answer::Made(_) => 0,
        }
    }

    /// What is written.
    pub fn into_text(self, alloc: Global) -> Result<Vec<u8>, NoMemory>
        ensures { IfOk result (λ text. text.items ≡ text_of (answer_at self)) }
    {
        match self {
            Answer::Usage => copied_text(
                alloc,
                b"usage: sj check | show | sim | run [--log] [--looks N] | replay [--log] | make N | big N\n",
            ),
            Answer::ReadFault => copied_text(alloc, b"read fault\n"),
            Answer::TooLarge => copied_text(alloc, b"too large\n"),
            Answer::Syntax(fault) => syntax_text(alloc, fault),
            Answer::Check(rule, line) => check_text(alloc, rule, line),
            Answer::NoTalk => copied_text(alloc, b"talk L1 at 0\n"),
            Answer::NoParty(number) => no_party_text(alloc, number),
            Answer::LogFault(rule, line) => log_fault_text(alloc, rule, line),
            Answer::Misfit(text) => Ok(text),
            Answer::LinkFault => copied_text(alloc, b"link fault\n"),
            Answer::Damaged(text) => Ok(text),
            Answer::Ran(_, text) => Ok(text),
            Answer::Printed(text) | Answer::Made(text) => Ok(text),
        }
    }
}

fn status_by(verdict: Verdict) -> u8
    ensures { result ≡ verdict_status verdict }
{
    match verdict {
        Verdict::Done => 0,
        Verdict::Blocked => 6,
        Verdict::Long => 7,
    }
}

fn copied_text(alloc: Global, bytes: &[u8]) -> Result<Vec<u8>, NoMemory>
    ensures { IfOk result (λ text. text.items ≡ bytes.now) }
{
    Ok(Vec::from_slice(alloc, bytes)?)
}

fn syntax_text(alloc: Global, fault: Fault) -> Result<Vec<u8>, NoMemory>
    ensures { IfOk result (λ text. text.items ≡ text_of (Syntax fault)) }
{
    let mut text = Vec::new(alloc);
    put(&mut text, b"syntax P")?;
    put_number(&mut text, u64::from(fault.rule.number()))?;
    put(&mut text, b" at ")?;
    put_number(&mut text, u64::from(fault.line))?;
    put(&mut text, b":")?;
    put_number(&mut text, u64::from(fault.column))?;
    put(&mut text, b"\n")?;
    Ok(text)
}

fn check_text(alloc: Global, rule: u8, line: u32) -> Result<Vec<u8>, NoMemory>
    ensures { IfOk result (λ text. text.items ≡ text_of (Check rule line)) }
{
    let mut text = Vec::new(alloc);
    put(&mut text, b"check C")?;
    put_number(&mut text, u64::from(rule))?;
    put(&mut text, b" at ")?;
    put_number(&mut text, u64::from(line))?;
    put(&mut text, b"\n")?;
    Ok(text)
}

fn no_party_text(alloc: Global, number: u16) -> Result<Vec<u8>, NoMemory>
    ensures { IfOk result (λ text. text.items ≡ text_of (NoParty number)) }
{
    let mut text = Vec::new(alloc);
    put(&mut text, b"no party ")?;
    put_number(&mut text, u64::from(number))?;
    put(&mut text, b"\n")?;
    Ok(text)
}

fn log_fault_text(alloc: Global, rule: u8, at: u32) -> Result<Vec<u8>, NoMemory>
    ensures { IfOk result (λ text. text.items ≡ text_of (LogFault rule at)) }
{
    let mut text = Vec::new(alloc);
    put(&mut text, b"log L")?;
    put_number(&mut text, u64::from(rule))?;
    put(&mut text, b" at ")?;
    put_number(&mut text, u64::from(at))?;
    put(&mut text, b"\n")?;
    Ok(text)
}
