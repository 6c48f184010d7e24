//! What a line says, where it has one of the six forms.
ghost use Rattle.std.specs.Prelude.{◌≡◌, ◌≤◌, IfNone, IfSome, false, option_and_then, option_map, true};
ghost use Rattle.sj_grammar.specs.Lexis.{most};
ghost use Rattle.sj_grammar.specs.Literals.{inner};
ghost use Rattle.sj_talk.specs.Forms.{alone, form_of, int_of, is_short_name, is_short_text, minus};
ghost use Rattle.sj_talk.specs.Forms.{number_of, plus, value_of, with_name, with_words};
ghost use Rattle.sj_talk.specs.Play.{form_at, value_at};

use sj_fields::Fields;
use sj_grammar::{are_digits, are_printable, is};
use sj_proto::{digits_number, goes_on_after_zero, is_name_text};

/// The most bytes of a name.
const MOST_NAME: usize = 64;

/// The most bytes of a text, without its quotes.
const MOST_TEXT: usize = 255;

/// The number below zero that stands after a minus alone.
const LARGEST: u64 = 1 << 63;

/// A value as a line writes it.
#[derive(Clone, Copy, Drop)]
pub enum Value<'a> {
    Int(i64),
    Bool(bool),
    /// A text without its quotes.
    Text(&'a [u8]),
}

/// What a line asks the party to do; ends and labels by their names.
#[derive(Clone, Copy, Drop)]
pub enum Form<'a> {
    Send(&'a [u8], Value<'a>),
    Select(&'a [u8], &'a [u8]),
    /// `more`, or `stop`.
    Turn(&'a [u8], bool),
    Delegate(&'a [u8], &'a [u8]),
    Take(&'a [u8]),
    /// The end that is taken gets the second name.
    TakeEnd(&'a [u8], &'a [u8]),
    Close(&'a [u8]),
}

fn is_short_name(word: &[u8]) -> bool
    ensures { result ≡ is_short_name word.now }
{
    is_name_text(word) && word.len() <= MOST_NAME
}

// The number that a word writes without a sign, up to 2^63.
fn number(word: &[u8]) -> Option<u64>
    ensures number { result ≡ number_of word.now }
    ensures bound { IfSome result (λ n. n ≤ most) }
{
    if word.len() == 0 || !are_digits(word) || goes_on_after_zero(word) {
        return None;
    }
    digits_number(word)
}

// The number below zero that a word writes after its minus.
fn with_minus(digits: &[u8]) -> Option<i64>
    ensures { result ≡ option_map minus (number_of digits.now) }
{
    match number(digits) {
        Some(n) => Some(below_zero(n)),
        None => None,
    }
}

// The number that a word without a minus writes.
fn without_minus(word: &[u8]) -> Option<i64>
    ensures { result ≡ option_and_then plus (number_of word.now) }
{
    match number(word) {
        Some(n) if n < LARGEST => Some(n as i64),
        _ => None,
    }
}

// The number that a word writes with a minus before it where it is below zero.
#[tactic(auto, unfolding(crate::specs::Forms::int_of))]
fn int(word: &[u8]) -> Option<i64>
    ensures { result ≡ int_of word.now }
{
    if word.len() > 0 && word[0] == b'-' {
        return with_minus(&word[1..]);
    }
    without_minus(word)
}

fn below_zero(n: u64) -> i64
    requires { n ≤ most }
    ensures { result ≡ minus n }
{
    if n == 0 { 0 } else { -1 - ((n - 1) as i64) }
}

// What stands between two quotes, where nothing else does.
fn short_text(word: &[u8]) -> Option<&[u8]>
    ensures some { IfSome result (λ t. (is_short_text word.now ≡ true) × (t.now ≡ inner word.now)) }
    ensures none { IfNone result (is_short_text word.now ≡ false) }
{
    if word.len() < 2 || word[0] != b'"' || word[word.len() - 1] != b'"' {
        return None;
    }
    let text = &word[1..word.len() - 1];
    if are_printable(text) && text.len() <= MOST_TEXT {
        Some(text)
    } else {
        None
    }
}

// The value that the bytes write.
#[tactic(auto, unfolding(crate::specs::Forms::value_of))]
fn value_in(word: &[u8]) -> Option<Value<'_>>
    ensures { option_map value_at result ≡ value_of word.now }
{
    if is(word, b"true") {
        return Some(Value::Bool(true));
    }
    if is(word, b"false") {
        return Some(Value::Bool(false));
    }
    if let Some(text) = short_text(word) {
        return Some(Value::Text(text));
    }
    match int(word) {
        Some(n) => Some(Value::Int(n)),
        None => None,
    }
}

// A verb and an end.
#[tactic(auto, unfolding(crate::specs::Forms::alone))]
fn alone<'a>(verb: &[u8], end: &'a [u8]) -> Option<Form<'a>>
    ensures { option_map form_at result ≡ alone verb.now end.now }
{
    if is(verb, b"take") {
        Some(Form::Take(end))
    } else if is(verb, b"close") {
        Some(Form::Close(end))
    } else if is(verb, b"more") {
        Some(Form::Turn(end, true))
    } else if is(verb, b"stop") {
        Some(Form::Turn(end, false))
    } else {
        None
    }
}

// A verb, an end and a name.
#[tactic(auto, unfolding(crate::specs::Forms::with_name))]
fn with_name<'a>(verb: &[u8], end: &'a [u8], name: &'a [u8]) -> Option<Form<'a>>
    ensures { option_map form_at result ≡ with_name verb.now end.now name.now }
{
    if is(verb, b"select") {
        Some(Form::Select(end, name))
    } else if is(verb, b"delegate") {
        Some(Form::Delegate(end, name))
    } else if is(verb, b"take") {
        Some(Form::TakeEnd(end, name))
    } else {
        None
    }
}

// A verb and an end, with the words after them.
#[tactic(auto, unfolding(crate::specs::Forms::with_words))]
fn with_words<'a>(verb: &[u8], end: &'a [u8], more: Fields<'a>) -> Option<Form<'a>>
    ensures { option_map form_at result ≡ with_words verb.now end.now more.entry }
{
    let mut more = more;
    if is(verb, b"send") {
        return match value_in(more.all()) {
            Some(value) => Some(Form::Send(end, value)),
            None => None,
        };
    }
    if more.is_empty() {
        return alone(verb, end);
    }
    let name = more.next();
    if more.is_empty() && is_short_name(name) {
        with_name(verb, end, name)
    } else {
        None
    }
}

/// What the line says; none where it has none of the forms.
#[tactic(auto, unfolding(crate::specs::Forms::form_of_words))]
pub fn form_in(line: &[u8]) -> Option<Form<'_>>
    ensures { option_map form_at result ≡ form_of line.now }
{
    let mut words = Fields::of(line);
    let verb = words.next();
    let end = words.next();
    if is_short_name(end) {
        with_words(verb, end, words)
    } else {
        None
    }
}
