//! Words of a line, and what each may be.
ghost use Rattle.std.specs.Prelude.{◌≡◌, Some};
ghost use Rattle.std.specs.Option.{option_map};
ghost use Rattle.sj_draw.specs.Words.{before, behind, are_digits, is_number, is_end, is_of, behind_fields, is_just};

/// What a word has to be.
#[derive(Clone, Copy)]
pub(crate) enum Field {
    /// One digit or more.
    Number,
    /// An end, as session, dot and side.
    End,
    /// Any word.
    Name,
    /// A number, or `-`.
    Resend,
}

/// What stands before the first byte of that code, and what stands after it: all and nothing where
/// there is none.
pub(crate) fn cut(text: &[u8], at: u8) -> (&[u8], &[u8])
    ensures before { result.0.now ≡ before at text.now }
    ensures behind { result.1.now ≡ behind at text.now }
{
    for (i, b) in text.iter().enumerate() {
        if *b == at {
            return (&text[..i], &text[i + 1..]);
        }
    }
    (text, &[])
}

/// Whether the word is one digit or more.
pub(crate) fn is_number(word: &[u8]) -> bool
    ensures { result ≡ is_number word.now }
{
    !word.is_empty() && are_digits(word)
}

fn are_digits(word: &[u8]) -> bool
    ensures { result ≡ are_digits word.now }
{
    word.iter().all(|b| 48 <= *b && *b <= 57)
}

/// Whether the word is a session, a dot and a side.
pub(crate) fn is_end(word: &[u8]) -> bool
    ensures { result ≡ is_end word.now }
{
    let (session, side) = cut(word, b'.');
    is_number(session) && (side == b"0".as_slice() || side == b"1".as_slice())
}

fn is_of(field: Field, word: &[u8]) -> bool
    ensures { result ≡ is_of field word.now }
{
    match field {
        Field::Number => is_number(word),
        Field::End => is_end(word),
        Field::Name => !word.is_empty(),
        Field::Resend => is_number(word) || word == b"-".as_slice(),
    }
}

/// What stands after the words that have to be these, if they are.
pub(crate) fn behind_fields<'a>(fields: &[Field], text: &'a [u8]) -> Option<&'a [u8]>
    ensures { option_map (λ r. r.now) result ≡ behind_fields fields.now text.entry.now }
{
    let mut rest = text;
    for field in fields {
        let (word, behind) = cut(rest, b' ');
        if !is_of(*field, word) {
            return None;
        }
        rest = behind;
    }
    Some(rest)
}

/// Whether the words are these, and no others.
pub(crate) fn is_just(fields: &[Field], text: &[u8]) -> bool
    ensures { result ≡ is_just fields.now text.now }
{
    match behind_fields(fields, text) {
        Some(rest) => rest.is_empty(),
        None => false,
    }
}
