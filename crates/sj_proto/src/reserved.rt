//! Names, and the words that are none.
ghost use Rattle.std.specs.Prelude.{◌≡◌};
ghost use Rattle.sj_grammar.specs.Names.{early_reserved, middle_reserved, late_reserved, is_among, is_reserved, is_name};

use sj_grammar::{is, is_word_text};

fn is_early(w: &[u8]) -> bool
    ensures { result ≡ is_among early_reserved w.now }
{
    is(w, b"accept")
        || is(w, b"begin")
        || is(w, b"boolean")
        || is(w, b"close")
        || is(w, b"connect")
        || is(w, b"delegate")
        || is(w, b"else")
        || is(w, b"false")
        || is(w, b"from")
}

fn is_middle(w: &[u8]) -> bool
    ensures { result ≡ is_among middle_reserved w.now }
{
    is(w, b"if")
        || is(w, b"int")
        || is(w, b"inbranch")
        || is(w, b"inwhile")
        || is(w, b"let")
        || is(w, b"not")
        || is(w, b"outbranch")
        || is(w, b"outwhile")
        || is(w, b"party")
}

fn is_late(w: &[u8]) -> bool
    ensures { result ≡ is_among late_reserved w.now }
{
    is(w, b"protocol")
        || is(w, b"recv")
        || is(w, b"relay")
        || is(w, b"request")
        || is(w, b"send")
        || is(w, b"session")
        || is(w, b"String")
        || is(w, b"to")
        || is(w, b"true")
}

#[tactic(auto, unfolding(sj_grammar::specs::Names::is_reserved))]
fn is_reserved_word(w: &[u8]) -> bool
    ensures { result ≡ is_reserved w.now }
{
    is_early(w) || is_middle(w) || is_late(w)
}

/// Whether the token is a NAME of the grammar: a word that isn't reserved.
pub fn is_name_text(w: &[u8]) -> bool
    ensures { result ≡ is_name w.now }
{
    is_word_text(w) && !is_reserved_word(w)
}
