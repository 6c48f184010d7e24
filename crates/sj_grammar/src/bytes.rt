//! Kinds of bytes, and words of one kind alone.
ghost use Rattle.std.specs.Prelude.{◌≡◌};
ghost use Rattle.std.specs.List.{list_all};
ghost use Rattle.std.specs.Str.{bytes_eq};
ghost use Rattle.sj_grammar.specs.Bytes.{is_letter, is_digit, is_word_byte, is_printable};
ghost use Rattle.sj_grammar.specs.Names.{is_word};
ghost use Rattle.sj_grammar.specs.Literals.{is_largest};
ghost use Rattle.sj_grammar.specs.Classes.{in_class};

/// Runs of bytes that a token is made of.
#[derive(Clone, Copy, Debug, PartialEq, Eq)]
pub enum Class {
    WordByte,
    Digit,
    Inside,
    Printable,
    Comment,
}

/// Whether the byte is of that class.
pub fn is_in(class: Class, b: u8) -> bool
    ensures { result ≡ in_class class b }
{
    match class {
        Class::WordByte => is_letter_byte(b) || b.is_ascii_digit(),
        Class::Digit => b.is_ascii_digit(),
        Class::Inside => b != b'"' && b != b'\n',
        Class::Printable => b >= 32 && b <= 126 && b != b'"' && b != b'\\',
        Class::Comment => (b >= 32 && b <= 126) || b == b'\t' || b == b'\r',
    }
}

/// Whether a word may begin with the byte.
pub fn is_letter_byte(b: u8) -> bool
    ensures { result ≡ is_letter b }
{
    b.is_ascii_alphabetic() || b == b'_'
}

/// Whether the bytes are digits alone.
pub fn are_digits(bytes: &[u8]) -> bool
    ensures { result ≡ list_all is_digit bytes.now }
{
    bytes.iter().all(|b| is_in(Class::Digit, *b))
}

/// Whether a text of a file may have the bytes.
pub fn are_printable(bytes: &[u8]) -> bool
    ensures { result ≡ list_all is_printable bytes.now }
{
    bytes.iter().all(|b| is_in(Class::Printable, *b))
}

fn are_word_bytes(bytes: &[u8]) -> bool
    ensures { result ≡ list_all is_word_byte bytes.now }
{
    bytes.iter().all(|b| is_in(Class::WordByte, *b))
}

/// Whether the bytes are a word, reserved or not.
pub fn is_word_text(bytes: &[u8]) -> bool
    ensures { result ≡ is_word bytes.now }
{
    match bytes {
        [] => false,
        [first, behind @ ..] => is_letter_byte(*first) && are_word_bytes(behind),
    }
}

/// Whether the bytes are those.
pub fn is(bytes: &[u8], other: &[u8]) -> bool
    ensures { result ≡ bytes_eq bytes.now other.now }
{
    bytes == other
}

/// Whether the bytes are 2^63, which stands after a factor's own minus alone.
pub fn is_largest_number(bytes: &[u8]) -> bool
    ensures { result ≡ is_largest bytes.now }
{
    is(bytes, b"9223372036854775808")
}
