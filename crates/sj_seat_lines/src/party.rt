//! A party that is played by lines: what each line asks of it, and what is answered.
ghost use Rattle.std.specs.Prelude.{◌≡◌, ◌++◌, IfOk, OnOk, map, option_and_then, option_map};
ghost use Rattle.sj_lang.specs.FileView.{file_of};
ghost use Rattle.sj_seat.specs.Holding.{ends_at};
ghost use Rattle.sj_seat_laws.specs.Calls.{place_held};
ghost use Rattle.sj_seat_lines.specs.Forms as forms;
ghost use Rattle.sj_seat_lines.specs.Forms.{form_of};
ghost use Rattle.sj_seat_lines.specs.Heard.{after_spaces, ahead_line, came, heard_of, name_for, of_any_names, of_end_ahead, of_ends, of_form, of_opens, of_ready_name, of_talk, says};
ghost use Rattle.sj_seat_lines.specs.Names.{name_in, named};
ghost use Rattle.sj_seat_lines.specs.Party.{ask_at, asked_of, counted, party_at, pending_as, seat_at, starts_as, waits_for};
ghost use Rattle.sj_seat_lines.specs.Replies.{reply_at};
ghost use Rattle.sj_seat_lines.specs.declared.party.Heard.TheVariants.{Asks};
ghost use Rattle.sj_table.specs.Spots.{place_in};
ghost use Rattle.sj_talk.specs.Names.{end_named};
ghost use Rattle.sj_talk.specs.Play as plays;

use crate::form::{Form, form_in};
use crate::fronts::spot_of;
use crate::names::{Name, end_of, ends_of, name_of};
use crate::opens::{Opens, accept_of, request_of};
use crate::replies::{Reply, put_reply};
use crate::steps::{NOT_HELD, Step, step_of};
use crate::words::Words;
use sj_base::NoMemory;
use sj_lang::File;
use sj_proto::print_protocol;
use sj_seat::{Ask, Guard, HeldEnd};
use sj_seat_texts::Texts;
use sj_table::{Spot, Table};
use sj_text::put;
use std::alloc::Global;

/// The rule of a line that has none of the forms.
const NO_FORM: u8 = 1;

/// A call that was asked for, and what its line says beside it.
#[derive(Drop)]
pub(crate) struct Pending {
    pub(crate) ask: Ask,
    /// The name of an end that comes of it.
    pub(crate) name: Vec<u8>,
    /// How often it waited.
    pub(crate) tries: u32,
}

/// What comes of a line: a call that the seat is asked for, an answer that was put, or the end.
#[derive(Clone, Copy, Debug, PartialEq, Eq)]
pub enum Heard {
    Asks,
    Answered,
    Left,
}

/// A party that is played by lines: the names of its ends, the texts of the run, how many lines came,
/// and the line that waits for its call.
#[derive(Drop)]
pub struct Party<'a> {
    pub(crate) alloc: Global,
    pub(crate) file: &'a File,
    pub(crate) texts: Texts,
    pub(crate) names: Vec<Name>,
    pub(crate) patience: u32,
    pub(crate) number: u64,
    pub(crate) pending: Option<Pending>,
}

impl<'a> Party<'a> {
    /// The party before its first line, with these names for its ends. A call that waits is tried so
    /// often again.
    pub fn new(
        alloc: Global,
        file: &'a File,
        texts: Texts,
        names: Vec<Name>,
        patience: u32,
    ) -> Party<'a>
        ensures { party_at result ≡ starts_as (file_of file.now) texts (named names.items) patience }
    {
        Party {
            alloc,
            file,
            texts,
            names,
            patience,
            number: 0,
            pending: None,
        }
    }

    /// The texts of the run: those of the file, and those that lines added.
    pub fn into_texts(self) -> Texts
        ensures { result ≡ (party_at self.entry).texts }
    {
        self.texts
    }

    /// The ends that it holds, under their names.
    pub fn names(&self) -> &[Name]
        ensures { named result.now ≡ (party_at self.now).names }
    {
        &self.names
    }

    /// What comes of the next line. Its answer is put after the text, where it has one already.
    pub fn hear(
        &mut self,
        seat: Guard<'_>,
        line: &[u8],
        text: &mut Vec<u8>,
    ) -> Result<Heard, NoMemory>
        ensures { IfOk result (λ h. came h text.new.items (party_at self.new)
            ≡ heard_of (counted (party_at self.old)) (seat_at seat.entry) text.old.items (form_of line.now)) }
    {
        self.number = self.number.saturating_add(1);
        self.pending = None;
        self.hear_said(seat, form_in(line), text)
    }

    /// The call that the line asks for which waits.
    pub fn asked(&self) -> Result<Option<Ask>, NoMemory>
        ensures { IfOk result (λ a. option_map ask_at a ≡ asked_of (party_at self.now)) }
    {
        match &self.pending {
            Some(pending) => Ok(Some(copied(self.alloc, &pending.ask)?)),
            None => Ok(None),
        }
    }

    fn hear_said(
        &mut self,
        seat: Guard<'_>,
        form: Option<Form<'_>>,
        text: &mut Vec<u8>,
    ) -> Result<Heard, NoMemory>
        ensures { IfOk result (λ h. came h text.new.items (party_at self.new) ≡ heard_of
            (party_at self.old) (seat_at seat.entry) text.old.items (option_map forms.form_at form.entry)) }
    {
        match form {
            Some(form) => self.hear_form(seat, form, text),
            None => self.say(text, Reply::Refused(NO_FORM)),
        }
    }

    fn hear_form(
        &mut self,
        seat: Guard<'_>,
        form: Form<'_>,
        text: &mut Vec<u8>,
    ) -> Result<Heard, NoMemory>
        ensures { IfOk result (λ h. came h text.new.items (party_at self.new) ≡ of_form
            (party_at self.old) (seat_at seat.entry) text.old.items (forms.form_at form.entry)) }
    {
        match form {
            Form::Talk(form) => self.hear_talk(seat, form, text),
            Form::Request(name, protocol, party) => {
                let opens = request_of(self.file, &self.names, seat, name, protocol, party);
                self.hear_opens(name, opens, text)
            }
            Form::Accept(name, protocol, party) => {
                let opens = accept_of(self.file, &self.names, seat, name, protocol, party);
                self.hear_opens(name, opens, text)
            }
            Form::TakeAny(names) => self.hear_any(names, text),
            Form::Ahead(name) => self.hear_ahead(seat, name, text),
            Form::Ready(name) => self.hear_ready(name, text),
            Form::Ends => self.hear_ends(seat, text),
            Form::Leave => {
                self.say(text, Reply::Fine)?;
                Ok(Heard::Left)
            }
        }
    }

    pub(crate) fn say(&self, text: &mut Vec<u8>, reply: Reply<'_>) -> Result<Heard, NoMemory>
        ensures { IfOk result (λ h. came h text.new.items (party_at self.now)
            ≡ says (party_at self.now) text.old.items (reply_at reply.entry)) }
    {
        put_reply(text, self.file, &self.texts, self.number, reply)?;
        Ok(Heard::Answered)
    }

    // The seat is asked; an end that comes of it gets the name.
    pub(crate) fn ask(&mut self, ask: Ask, name: Vec<u8>, tries: u32) -> Heard
        ensures heard { result ≡ Asks }
        ensures party { party_at self.new ≡ waits_for (party_at self.old)
            (pending_as ask name.items tries) }
    {
        self.pending = Some(Pending { ask, name, tries });
        Heard::Asks
    }

    fn hear_talk(
        &mut self,
        seat: Guard<'_>,
        form: sj_talk::Form<'_>,
        text: &mut Vec<u8>,
    ) -> Result<Heard, NoMemory>
        ensures { IfOk result (λ h. came h text.new.items (party_at self.new) ≡ of_talk
            (party_at self.old) (seat_at seat.entry) text.old.items (plays.form_at form.entry)) }
    {
        let name = name_for(self.alloc, form)?;
        match step_of(self.file, &mut self.texts, &self.names, seat, form)? {
            Step::Call(wish) => Ok(self.ask(Ask::Step(wish), name, 0)),
            Step::Refused(rule) => self.say(text, Reply::Refused(rule)),
        }
    }

    fn hear_opens(
        &mut self,
        name: &[u8],
        opens: Opens,
        text: &mut Vec<u8>,
    ) -> Result<Heard, NoMemory>
        ensures { IfOk result (λ h. came h text.new.items (party_at self.new)
            ≡ of_opens (party_at self.old) text.old.items name.now opens) }
    {
        match opens {
            Opens::Call(wish) => {
                let name = Vec::from_slice(self.alloc, name)?;
                Ok(self.ask(Ask::Open(wish), name, 0))
            }
            Opens::Refused(rule) => self.say(text, Reply::Refused(rule)),
        }
    }

    // Names come first, as in a talk; the seat has the other rules.
    fn hear_any(&mut self, names: Words<'_>, text: &mut Vec<u8>) -> Result<Heard, NoMemory>
        ensures { IfOk result (λ h. came h text.new.items (party_at self.new)
            ≡ of_any_names (party_at self.old) text.old.items names.entry) }
    {
        match ends_of(self.alloc, &self.names, names)? {
            Some(ends) => Ok(self.ask(Ask::TakeAny(ends), Vec::new(self.alloc), 0)),
            None => self.say(text, Reply::Refused(NOT_HELD)),
        }
    }

    fn hear_ready(&mut self, name: &[u8], text: &mut Vec<u8>) -> Result<Heard, NoMemory>
        ensures { IfOk result (λ h. came h text.new.items (party_at self.new)
            ≡ of_ready_name (party_at self.old) text.old.items name.now) }
    {
        match end_of(&self.names, name) {
            Some(end) => Ok(self.ask(Ask::Ready { end }, Vec::new(self.alloc), 0)),
            None => self.say(text, Reply::Refused(NOT_HELD)),
        }
    }

    fn hear_ahead(
        &self,
        seat: Guard<'_>,
        name: &[u8],
        text: &mut Vec<u8>,
    ) -> Result<Heard, NoMemory>
        ensures { IfOk result (λ h. came h text.new.items (party_at self.now) ≡ of_end_ahead
            (party_at self.now) (seat_at seat.entry) text.old.items name.now) }
    {
        match place_of(&self.names, seat, name) {
            Some(place) => {
                put_ahead(self.alloc, text, self.file, seat.table, place)?;
                Ok(Heard::Answered)
            }
            None => self.say(text, Reply::Refused(NOT_HELD)),
        }
    }

    fn hear_ends(&self, seat: Guard<'_>, text: &mut Vec<u8>) -> Result<Heard, NoMemory>
        ensures { IfOk result (λ h. came h text.new.items (party_at self.now) ≡ of_ends
            (party_at self.now) (seat_at seat.entry) text.old.items) }
    {
        put(text, b"ends")?;
        put_ends(text, &self.names, seat.table, seat.ends)?;
        put(text, b"\n")?;
        Ok(Heard::Answered)
    }
}

// The name that an end gets which is taken; an empty one where none is.
fn name_for(alloc: Global, form: sj_talk::Form<'_>) -> Result<Vec<u8>, NoMemory>
    ensures { IfOk result (λ n. n.items ≡ name_for (plays.form_at form.entry)) }
{
    match form {
        sj_talk::Form::TakeEnd(_, name) => Ok(Vec::from_slice(alloc, name)?),
        _ => Ok(Vec::new(alloc)),
    }
}

// The same once more.
fn copied(alloc: Global, ask: &Ask) -> Result<Ask, NoMemory>
    ensures { IfOk result (λ a. ask_at a ≡ ask_at ask.now) }
{
    match ask {
        Ask::Step(wish) => Ok(Ask::Step(*wish)),
        Ask::Open(wish) => Ok(Ask::Open(*wish)),
        Ask::TakeAny(ends) => Ok(Ask::TakeAny(Vec::from_slice(alloc, ends)?)),
        Ask::Ready { end } => Ok(Ask::Ready { end: *end }),
    }
}

// The place of the end of that name, where it is held.
fn place_of(names: &[Name], seat: Guard<'_>, name: &[u8]) -> Option<Spot>
    ensures { option_map (place_in seat.entry.table.now) result
        ≡ option_and_then (place_held (seat_at seat.entry).ends) (end_named (named names.now) name.now) }
{
    match end_of(names, name) {
        Some(end) => spot_of(seat, end),
        None => None,
    }
}

// The line of what is ahead at the place.
fn put_ahead(
    alloc: Global,
    text: &mut Vec<u8>,
    file: &File,
    table: &Table,
    place: Spot,
) -> Result<(), NoMemory>
    ensures { OnOk result (text.new.items ≡ text.old.items
        ++ ahead_line (file_of file.now) (place_in table.now place)) }
{
    let place = table.place(alloc, place)?;
    put(text, b"ahead ")?;
    print_protocol(text, &file.names, &place)?;
    put(text, b"\n")
}

// The names of the ends, each after a space.
fn put_ends(
    text: &mut Vec<u8>,
    names: &[Name],
    table: &Table,
    ends: &[HeldEnd],
) -> Result<(), NoMemory>
    ensures { OnOk result (text.new.items ≡ text.old.items
        ++ after_spaces (map (λ b. name_in (named names.now) b.0) (ends_at table.now ends.now))) }
{
    let _ = table;
    for held in ends {
        put(text, b" ")?;
        put(text, name_of(names, held.end))?;
    }
    Ok(())
}
