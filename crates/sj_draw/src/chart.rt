//! What is gathered of lines: parties and sessions in order, and the arrows that a picture shows.
ghost use Rattle.std.specs.Prelude.{◌≡◌, ◌≤◌, OnOk, map, length};
ghost use Rattle.std.specs.Option.{option_map};
ghost use Rattle.sj_draw.specs.Chart.{empty, number_of, name_or_end, name_of, request_of, with_party};
ghost use Rattle.sj_draw.specs.Chart.{with_any, with_passed, with_line, is_within, is_hook};
ghost use Rattle.sj_draw.specs.Lines.{Log};
ghost use Rattle.sj_draw.specs.Views.{session_at, passed_at, drawn_line_at, chart_at};

use crate::lines::{Line, Mark, Passed, Session};
use crate::words::cut;
use sj_base::NoMemory;
use std::alloc::Global;

/// The most parties, sessions and arrows.
const MOST_PARTIES: usize = 16;

/// Of connections, and 100 of each party.
const MOST_SESSIONS: usize = 1_664;

const MOST_ARROWS: usize = 1_000_000;

/// The most bytes of a party's name, and of an arrow's name and text together.
const MOST_NAME: usize = 64;

const MOST_TEXT: usize = 1024;

/// An arrow between the lines of two parties, by their numbers.
#[derive(Clone, Copy)]
pub(crate) struct Arrow<'a> {
    pub mark: Mark,
    pub from: usize,
    /// None where nobody took the message.
    pub to: Option<usize>,
    /// The name of the end.
    pub name: &'a [u8],
    pub text: &'a [u8],
}

/// What is gathered of lines.
#[derive(Drop)]
pub(crate) struct Chart<'a> {
    /// In order of first mention.
    pub parties: Vec<&'a [u8]>,
    pub sessions: Vec<Session<'a>>,
    pub arrows: Vec<Arrow<'a>>,
    /// The most bytes of a party's name.
    pub names: usize,
    /// The most bytes of an arrow's name and text together.
    pub texts: usize,
    /// Whether some arrow goes to no other party.
    pub hooks: bool,
}

impl<'a> Chart<'a> {
    /// Nothing is gathered.
    pub fn new(alloc: Global) -> Chart<'a>
        ensures { chart_at result ≡ empty }
    {
        Chart {
            parties: Vec::new(alloc),
            sessions: Vec::new(alloc),
            arrows: Vec::new(alloc),
            names: 0,
            texts: 0,
            hooks: false,
        }
    }

    /// Whether the limits hold.
    pub fn is_within(&self) -> bool
        ensures { result ≡ is_within (chart_at self.now) }
    {
        self.parties.len() <= MOST_PARTIES
            && self.sessions.len() <= MOST_SESSIONS
            && self.arrows.len() <= MOST_ARROWS
            && self.names <= MOST_NAME
            && self.texts <= MOST_TEXT
    }

    /// Adds what a line says. Where a log begins, the arrows of messages that were taken go, since
    /// the log has their frames.
    pub fn take(&mut self, line: Line<'a>) -> Result<(), NoMemory>
        ensures { OnOk result (chart_at self.new ≡ with_line (chart_at self.old) (drawn_line_at line.entry)) }
    {
        match line {
            Line::Session(session) => {
                self.mention(session.first_party)?;
                self.mention(session.second_party)?;
                self.sessions.push(session)?;
                Ok(())
            }
            Line::Opened(session) => {
                self.mention(session.first_party)?;
                self.mention(session.second_party)?;
                self.sessions.push(session)?;
                self.draw(request_of(session))
            }
            Line::Party(name) => self.mention(name),
            Line::Message(passed) => {
                self.mention(passed.from)?;
                self.mention_any(passed.to)?;
                self.draw(passed)
            }
            Line::Delivery(passed) => {
                self.mention_any(passed.to)?;
                self.mention(passed.from)?;
                self.draw(passed)
            }
            Line::Log => {
                self.begin_log();
                Ok(())
            }
            Line::Verdict => Ok(()),
        }
    }

    // Only arrows of messages that nobody took stay.
    fn begin_log(&mut self)
        ensures { chart_at self.new ≡ with_line (chart_at self.old) Log }
    {
        self.arrows.retain(|a| a.to.is_none());
    }

    fn mention_any(&mut self, name: Option<&'a [u8]>) -> Result<(), NoMemory>
        ensures { OnOk result (chart_at self.new
            ≡ with_any (chart_at self.old) (option_map (λ n. n.now) name.entry)) }
    {
        match name {
            Some(name) => self.mention(name),
            None => Ok(()),
        }
    }

    fn mention(&mut self, name: &'a [u8]) -> Result<(), NoMemory>
        ensures { OnOk result (chart_at self.new ≡ with_party (chart_at self.old) name.entry.now) }
    {
        self.names = self.names.max(name.len());
        if number_of(&self.parties, name) < self.parties.len() {
            return Ok(());
        }
        self.parties.push(name)?;
        Ok(())
    }

    // Adds the arrow of a message or a frame whose parties are mentioned.
    fn draw(&mut self, passed: Passed<'a>) -> Result<(), NoMemory>
        ensures { OnOk result (chart_at self.new ≡ with_passed (chart_at self.old) (passed_at passed.entry)) }
    {
        let from = number_of(&self.parties, passed.from);
        let to = match passed.to {
            Some(name) => Some(number_of(&self.parties, name)),
            None => None,
        };
        let name = name_of(&self.sessions, passed.end, passed.first);
        self.texts = self.texts.max(name.len() + passed.text.len());
        self.hooks = self.hooks || is_hook(from, to);
        self.arrows.push(Arrow {
            mark: passed.mark,
            from,
            to,
            name,
            text: passed.text,
        })?;
        Ok(())
    }
}

/// Whether an arrow goes to no other party.
pub(crate) fn is_hook(from: usize, to: Option<usize>) -> bool
    ensures { result ≡ is_hook from to }
{
    match to {
        Some(to) => from == to,
        None => true,
    }
}

// The number of the party of that name, or of the next one.
fn number_of(parties: &[&[u8]], name: &[u8]) -> usize
    ensures number { result ≡ number_of (map (λ p. p.now) parties.now) name.now }
    ensures bound { result ≤ length parties.now }
{
    for (i, party) in parties.iter().enumerate() {
        if *party == name {
            return i;
        }
    }
    parties.len()
}

// The name of an end of a session, or the end as it is written where it has none, or no session has
// that number.
fn name_of<'a>(sessions: &[Session<'a>], end: &'a [u8], first: bool) -> &'a [u8]
    ensures { result.now ≡ name_of (map session_at sessions.now) end.entry.now first }
{
    let (number, _) = cut(end, b'.');
    for session in sessions {
        if session.number == number {
            return if first {
                name_or_end(session.first_end, end)
            } else {
                name_or_end(session.second_end, end)
            };
        }
    }
    end
}

// An end that nobody accepted has no name.
fn name_or_end<'a>(name: &'a [u8], end: &'a [u8]) -> &'a [u8]
    ensures { result.now ≡ name_or_end name.entry.now end.entry.now }
{
    if name == b"-".as_slice() { end } else { name }
}

// The request of a session that was opened: to whom accepted it, if anybody did.
fn request_of<'a>(session: Session<'a>) -> Passed<'a>
    ensures { passed_at result ≡ request_of (session_at session.entry) }
{
    let to = if session.second_end == b"-".as_slice() {
        None
    } else {
        Some(session.second_party)
    };
    Passed {
        mark: Mark::Request,
        from: session.first_party,
        to,
        end: session.number,
        first: true,
        text: b"request",
    }
}
