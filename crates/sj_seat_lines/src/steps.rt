//! The call that a line of a talk asks for, or the rule that refuses the line before any call.
ghost use Rattle.std.specs.Prelude.{◌≡◌, IfOk, List, OnErr, OnOk, ℕ, if◌then◌else◌, option_and_then};
ghost use Rattle.sj_lang.specs.FileAt.{FileAt};
ghost use Rattle.sj_lang.specs.FileView.{file_of};
ghost use Rattle.sj_lang.specs.Words.{first_index};
ghost use Rattle.sj_seat.specs.Holding.{ends_of};
ghost use Rattle.sj_seat.specs.Rules.{place_at};
ghost use Rattle.sj_seat_laws.specs.Calls as calls;
ghost use Rattle.sj_seat_lines.specs.Names.{named};
ghost use Rattle.sj_seat_lines.specs.Steps.{sends_text, step_of, text_number, texts_after};
ghost use Rattle.sj_talk.specs.Forms as forms;
ghost use Rattle.sj_talk.specs.Names.{label_if, number_in, with_word};
ghost use Rattle.sj_talk.specs.Play.{form_at, value_at};

use crate::fronts::{selects, sends_text, takes_end};
use crate::names::{Name, end_of};
use sj_base::{EndId, Msg, NoMemory};
use sj_lang::{File, Words};
use sj_seat::{Guard, Wish};
use sj_seat_texts::Texts;
use sj_talk::{Form, Value};

/// The rule of an end that isn't held.
pub(crate) const NOT_HELD: u8 = 2;

/// The rule of a place that begins otherwise.
const BEGINS_OTHERWISE: u8 = 3;

/// The rule of an end that can't be sent there, and of a name that is in use.
pub(crate) const WRONG_END: u8 = 4;

/// The rule of what is of another kind.
const WRONG_KIND: u8 = 5;

/// What a line comes to before its call.
#[derive(Clone, Copy, Drop)]
pub enum Step {
    Call(Wish),
    /// It is refused by the rule of that number.
    Refused(u8),
}

/// What the line comes to. A text is added to the others where the end's place wants one.
pub fn step_of(
    file: &File,
    texts: &mut Texts,
    names: &[Name],
    seat: Guard<'_>,
    form: Form<'_>,
) -> Result<Step, NoMemory>
    ensures step { IfOk result (λ s. s ≡ step_of (file_of file.now) texts.old (named names.now)
        (ends_of seat.entry) (form_at form.entry)) }
    ensures texts { OnOk result (texts.new ≡ texts_after texts.old (named names.now)
        (ends_of seat.entry) (form_at form.entry)) }
    ensures err { OnErr result (texts.new ≡ texts.old) }
{
    match form {
        Form::Send(name, value) => send(texts, names, seat, name, value),
        Form::Select(name, label) => Ok(select(file, names, seat, name, label)),
        Form::Turn(name, more) => Ok(turn(names, name, more)),
        Form::Delegate(name, sent) => Ok(delegate(names, name, sent)),
        Form::Take(name) => Ok(take(names, name)),
        Form::TakeEnd(name, own) => Ok(take_end(names, seat, name, own)),
        Form::Close(name) => Ok(close(names, name)),
    }
}

fn send(
    texts: &mut Texts,
    names: &[Name],
    seat: Guard<'_>,
    name: &[u8],
    value: Value<'_>,
) -> Result<Step, NoMemory>
    ensures step { (file : FileAt) → IfOk result (λ s. s ≡ step_of file texts.old
        (named names.now) (ends_of seat.entry) (forms.send name.now (value_at value.entry))) }
    ensures texts { OnOk result (texts.new ≡ texts_after texts.old (named names.now)
        (ends_of seat.entry) (forms.send name.now (value_at value.entry))) }
    ensures err { OnErr result (texts.new ≡ texts.old) }
{
    let Some(end) = end_of(names, name) else {
        return Ok(Step::Refused(NOT_HELD));
    };
    let msg = match value {
        Value::Int(n) => Msg::Int(n),
        Value::Bool(b) => Msg::Bool(b),
        Value::Text(text) => Msg::Text(number_of(texts, seat, end, text)?),
    };
    Ok(Step::Call(Wish::Send { end, msg }))
}

// The number of the text. Where no text is wanted any number will do, as the call is refused.
fn number_of(texts: &mut Texts, seat: Guard<'_>, end: EndId, text: &[u8]) -> Result<u32, NoMemory>
    ensures number { IfOk result (λ n. n
        ≡ text_number texts.old (place_at (ends_of seat.entry) end) text.now) }
    ensures texts { OnOk result (texts.new ≡ (if sends_text (place_at (ends_of seat.entry) end)
        then with_word texts.old text.now else texts.old)) }
    ensures err { OnErr result (texts.new ≡ texts.old) }
{
    if sends_text(seat, end) {
        added(texts, text)
    } else {
        Ok(0)
    }
}

// The number at which the word stands.
fn index(words: &Words, word: &[u8]) -> Option<usize>
    ensures { result ≡ first_index word.now words.now }
{
    words.find(word)
}

// The number of the word; none where it isn't in the table, or comes too late to be a label.
pub(crate) fn label_number(words: &Words, word: &[u8]) -> Option<u16>
    ensures { result ≡ option_and_then label_if (first_index word.now words.now) }
{
    match index(words, word) {
        Some(n) if n <= 65_535 => Some(n as u16),
        _ => None,
    }
}

// The number of the text, which is put after the others where it isn't there.
fn added(texts: &mut Texts, text: &[u8]) -> Result<u32, NoMemory>
    ensures number { IfOk result (λ n. n ≡ number_in texts.old text.now) }
    ensures ok { OnOk result (texts.new ≡ with_word texts.old text.now) }
    ensures err { OnErr result (texts.new ≡ texts.old) }
{
    texts.number(text)
}

// A label that the file hasn't is outside each choice.
fn select(file: &File, names: &[Name], seat: Guard<'_>, name: &[u8], label: &[u8]) -> Step
    ensures { (texts : List (List ℕ)) → result ≡ step_of (file_of file.now) texts
        (named names.now) (ends_of seat.entry) (forms.select name.now label.now) }
{
    let Some(end) = end_of(names, name) else {
        return Step::Refused(NOT_HELD);
    };
    match label_number(&file.names.words, label) {
        Some(label) => {
            let msg = Msg::Label(label);
            Step::Call(Wish::Send { end, msg })
        }
        None => Step::Refused(if selects(seat, end) {
            WRONG_KIND
        } else {
            BEGINS_OTHERWISE
        }),
    }
}

fn turn(names: &[Name], name: &[u8], more: bool) -> Step
    ensures { (file : FileAt) (texts : List (List ℕ)) (bs : calls.Ends) → result
        ≡ step_of file texts (named names.now) bs (forms.turn name.now more) }
{
    let Some(end) = end_of(names, name) else {
        return Step::Refused(NOT_HELD);
    };
    let msg = Msg::More(more);
    Step::Call(Wish::Send { end, msg })
}

fn delegate(names: &[Name], name: &[u8], sent: &[u8]) -> Step
    ensures { (file : FileAt) (texts : List (List ℕ)) (bs : calls.Ends) → result
        ≡ step_of file texts (named names.now) bs (forms.delegate name.now sent.now) }
{
    match (end_of(names, name), end_of(names, sent)) {
        (Some(carrier), Some(end)) => Step::Call(Wish::Delegate { carrier, end }),
        _ => Step::Refused(NOT_HELD),
    }
}

fn take(names: &[Name], name: &[u8]) -> Step
    ensures { (file : FileAt) (texts : List (List ℕ)) (bs : calls.Ends) → result
        ≡ step_of file texts (named names.now) bs (forms.take name.now) }
{
    match end_of(names, name) {
        Some(end) => Step::Call(Wish::Take { end }),
        None => Step::Refused(NOT_HELD),
    }
}

// The end that is taken gets a name that isn't in use.
fn take_end(names: &[Name], seat: Guard<'_>, name: &[u8], own: &[u8]) -> Step
    ensures { (file : FileAt) (texts : List (List ℕ)) → result ≡ step_of file texts
        (named names.now) (ends_of seat.entry) (forms.take_end name.now own.now) }
{
    let Some(end) = end_of(names, name) else {
        return Step::Refused(NOT_HELD);
    };
    if takes_end(seat, end) && end_of(names, own).is_some() {
        return Step::Refused(WRONG_END);
    }
    Step::Call(Wish::TakeEnd { end })
}

fn close(names: &[Name], name: &[u8]) -> Step
    ensures { (file : FileAt) (texts : List (List ℕ)) (bs : calls.Ends) → result
        ≡ step_of file texts (named names.now) bs (forms.close name.now) }
{
    match end_of(names, name) {
        Some(end) => Step::Call(Wish::Close { end }),
        None => Step::Refused(NOT_HELD),
    }
}
