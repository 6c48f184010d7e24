//! What a line says: what a line of a talk says, and what a talk hasn't.
ghost use Rattle.std.specs.Prelude.{◌≡◌, ◌==◌, length, not, option_map};
ghost use Rattle.std.specs.List.{list_all};
ghost use Rattle.sj_seat_lines.specs.Forms.{accept_of, ahead_of, any_of, form_at, form_of, own_of, ready_of, request_of};
ghost use Rattle.sj_talk.specs.Forms.{is_short_name};
ghost use Rattle.sj_talk.specs.Words.{rest};

use crate::words::Words;
use sj_grammar::is;
use sj_proto::is_name_text;
use sj_talk::form_in as talk_form_in;

/// The most bytes of a name.
const MOST_NAME: usize = 64;

/// The most bytes of a line. A longer one has no form.
pub(crate) const MOST_LINE: usize = 4096;

/// What a line says; ends, protocols and parties by their names.
#[derive(Drop)]
pub enum Form<'a> {
    /// What a line of a talk says.
    Talk(sj_talk::Form<'a>),
    /// A session of the protocol is requested of that party; the party's own end gets the first name.
    Request(&'a [u8], &'a [u8], &'a [u8]),
    /// The next session that this party requested is accepted, likewise.
    Accept(&'a [u8], &'a [u8], &'a [u8]),
    /// A take from the first of these ends on which a message is there.
    TakeAny(Words<'a>),
    /// What is ahead of the end.
    Ahead(&'a [u8]),
    /// Whether a message is there for the end.
    Ready(&'a [u8]),
    /// The ends that are held.
    Ends,
    /// That no further line comes.
    Leave,
}

fn is_short_name(word: &[u8]) -> bool
    ensures { result ≡ is_short_name word.now }
{
    is_name_text(word) && word.len() <= MOST_NAME
}

// Whether all words are names.
fn are_names(words: Words<'_>) -> bool
    ensures { result ≡ list_all is_short_name words.entry }
{
    let mut left = words;
    while !left.is_empty() {
        if !is_short_name(left.next()) {
            return false;
        }
    }
    true
}

// Whether more than one word is left.
fn are_several(words: &Words<'_>) -> bool
    ensures { result ≡ not (length (rest words.now) == 0) }
{
    let mut others = words.again();
    let _ = others.next();
    !others.is_empty()
}

// `any` and the names of ends, of which there are at least two: with one it is a line of a talk, in
// which the end is named so.
#[tactic(auto, unfolding(crate::specs::Forms::any_of))]
fn any_of<'a>(words: Words<'a>) -> Option<Form<'a>>
    ensures { option_map form_at result ≡ any_of words.entry }
{
    let mut names = words;
    let first = names.next();
    if is(first, b"any") && are_several(&names) && are_names(names.again()) {
        Some(Form::TakeAny(names))
    } else {
        None
    }
}

#[tactic(auto, unfolding(crate::specs::Forms::ahead_of))]
fn ahead_of<'a>(words: Words<'a>) -> Option<Form<'a>>
    ensures { option_map form_at result ≡ ahead_of words.entry }
{
    let name = words.all();
    if is_short_name(name) {
        Some(Form::Ahead(name))
    } else {
        None
    }
}

#[tactic(auto, unfolding(crate::specs::Forms::ready_of))]
fn ready_of<'a>(words: Words<'a>) -> Option<Form<'a>>
    ensures { option_map form_at result ≡ ready_of words.entry }
{
    let name = words.all();
    if is_short_name(name) {
        Some(Form::Ready(name))
    } else {
        None
    }
}

// An end's name, a protocol, `to` and a party.
#[tactic(auto, unfolding(crate::specs::Forms::request_of))]
fn request_of<'a>(words: Words<'a>) -> Option<Form<'a>>
    ensures { option_map form_at result ≡ request_of words.entry }
{
    let mut words = words;
    let name = words.next();
    let protocol = words.next();
    let to = words.next();
    let party = words.all();
    if is(to, b"to") && is_short_name(name) && is_short_name(protocol) && is_short_name(party) {
        Some(Form::Request(name, protocol, party))
    } else {
        None
    }
}

// An end's name, a protocol, `from` and a party.
#[tactic(auto, unfolding(crate::specs::Forms::accept_of))]
fn accept_of<'a>(words: Words<'a>) -> Option<Form<'a>>
    ensures { option_map form_at result ≡ accept_of words.entry }
{
    let mut words = words;
    let name = words.next();
    let protocol = words.next();
    let from = words.next();
    let party = words.all();
    if is(from, b"from") && is_short_name(name) && is_short_name(protocol) && is_short_name(party) {
        Some(Form::Accept(name, protocol, party))
    } else {
        None
    }
}

// What a line says that no line of a talk does, by its first word and those after it.
#[tactic(auto, unfolding(crate::specs::Forms::own_of))]
fn own_of<'a>(verb: &[u8], more: Words<'a>) -> Option<Form<'a>>
    ensures { option_map form_at result ≡ own_of verb.now more.entry }
{
    if is(verb, b"ends") && more.is_empty() {
        Some(Form::Ends)
    } else if is(verb, b"leave") && more.is_empty() {
        Some(Form::Leave)
    } else if is(verb, b"ahead") {
        ahead_of(more)
    } else if is(verb, b"ready") {
        ready_of(more)
    } else if is(verb, b"take") {
        any_of(more)
    } else if is(verb, b"request") {
        request_of(more)
    } else if is(verb, b"accept") {
        accept_of(more)
    } else {
        None
    }
}

/// What the line says; none where it has none of the forms.
#[tactic(auto, unfolding(crate::specs::Forms::form_of))]
pub fn form_in(line: &[u8]) -> Option<Form<'_>>
    ensures { option_map form_at result ≡ form_of line.now }
{
    if line.len() > MOST_LINE {
        return None;
    }
    let mut words = Words::of(line);
    let verb = words.next();
    if let Some(form) = own_of(verb, words) {
        return Some(form);
    }
    match talk_form_in(line) {
        Some(form) => Some(Form::Talk(form)),
        None => None,
    }
}
