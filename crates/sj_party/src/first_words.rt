//! The words that statements begin with.
ghost use Rattle.std.specs.Prelude.{◌≡◌, ℕ, ◌<◌, None, length, IfSome, IfNone};
ghost use Rattle.sj_grammar.specs.Lexis.{next_of};
ghost use Rattle.sj_grammar.specs.Reading.{line_number, before_next};
ghost use Rattle.sj_grammar.specs.FileDues.{stmts, statement_follow, file_layer};
ghost use Rattle.sj_grammar.specs.Asked.{TakesText, Passes};
ghost use Rattle.sj_proto.specs.Onward.{Advances};
ghost use Rattle.sj_party.specs.Words.{simple_word, word_of, NoneOf, simple_words};

use sj_proto::Tokens;

/// The first words of statements with no block.
#[derive(Clone, Copy, Debug, PartialEq, Eq)]
pub enum Word {
    Send,
    Delegate,
    Recv,
    Outbranch,
    Let,
    Close,
    Request,
    Accept,
}

/// What a statement begins with.
#[derive(Clone, Copy, Debug, PartialEq, Eq)]
pub enum FirstWord {
    Simple(Word),
    Inbranch,
    Outwhile,
    Inwhile,
    Relay,
    If,
}

/// A statement's first word, and its line.
#[derive(Clone, Copy, Debug, PartialEq, Eq)]
pub struct Begun {
    pub line: u32,
    pub first: FirstWord,
}

// The word that the piece is, where a statement with no block begins with it.
fn word_in(piece: &[u8]) -> Option<Word>
    ensures some { IfSome result (λ w. piece.now ≡ simple_word w) }
    ensures none { IfNone result (NoneOf simple_words piece.now) }
{
    if piece == b"send".as_slice() {
        return Some(Word::Send);
    }
    if piece == b"delegate".as_slice() {
        return Some(Word::Delegate);
    }
    if piece == b"recv".as_slice() {
        return Some(Word::Recv);
    }
    if piece == b"outbranch".as_slice() {
        return Some(Word::Outbranch);
    }
    if piece == b"let".as_slice() {
        return Some(Word::Let);
    }
    if piece == b"close".as_slice() {
        return Some(Word::Close);
    }
    if piece == b"request".as_slice() {
        return Some(Word::Request);
    }
    if piece == b"accept".as_slice() {
        return Some(Word::Accept);
    }
    None
}

// What the piece is, where a statement begins with it.
fn first_word_in(piece: &[u8]) -> Option<FirstWord>
    ensures some { IfSome result (λ o. piece.now ≡ word_of o) }
    ensures none { IfNone result ((o : ℕ) → statement_follow o piece.now ≡ None) }
{
    if let Some(word) = word_in(piece) {
        return Some(FirstWord::Simple(word));
    }
    if piece == b"inbranch".as_slice() {
        return Some(FirstWord::Inbranch);
    }
    if piece == b"outwhile".as_slice() {
        return Some(FirstWord::Outwhile);
    }
    if piece == b"inwhile".as_slice() {
        return Some(FirstWord::Inwhile);
    }
    if piece == b"relay".as_slice() {
        return Some(FirstWord::Relay);
    }
    if piece == b"if".as_slice() {
        return Some(FirstWord::If);
    }
    None
}

/// Takes the first word of a statement, where one begins with the next token.
pub fn begin(tokens: &mut Tokens) -> Option<Begun>
    ensures taken { IfSome result (λ b. TakesText tokens.old (word_of b.first) tokens.new) }
    ensures line { IfSome result (λ b.
        b.line ≡ line_number (before_next tokens.old (next_of tokens.old.ahead))) }
    ensures shorter { IfSome result (λ _. length tokens.new.ahead < length tokens.old.ahead) }
    ensures kept { IfNone result (tokens.new ≡ tokens.old) }
    ensures onward { Advances tokens.old tokens.new }
    ensures none { IfNone result ((o : ℕ) →
        Passes file_layer (stmts o) (next_of tokens.old.ahead)) }
{
    let line = tokens.line();
    let word = tokens.spelling();
    let Some(first) = first_word_in(word) else {
        return None;
    };
    let _taken = tokens.accept(word);
    Some(Begun { line, first })
}
