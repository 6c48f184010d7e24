//! Names and texts, each from a word of a line or from its end.
ghost use Rattle.std.specs.Prelude.{◌≡◌, ◌≤◌, ◌-◌, ◌==◌, IfOk, IfSome, IfNone, true, false, map};
ghost use Rattle.sj_grammar.specs.Literals.{inner};
ghost use Rattle.sj_lang.specs.FileAt.{party_named};
ghost use Rattle.sj_lang.specs.FileView.{file_of, party_of};
ghost use Rattle.sj_lang.specs.Words.{first_index};
ghost use Rattle.sj_log.specs.Names.{number_known, party_of_name, label_read, party_read, text_read, is_quoted};

use crate::refusal::LogRule;
use sj_grammar::{are_printable, is_word_text};
use sj_lang::{File, Party, Words};

// The number of a word in its table.
fn number_in(words: &Words, word: &[u8]) -> Option<usize>
    ensures { result ≡ first_index word.now words.now }
{
    words.find(word)
}

// The number of the first party of that name, or how many there are.
fn first_named(parties: &[Party], name: usize) -> usize
    ensures { result ≡ party_named (map party_of parties.now) name }
{
    let mut at = 0;
    while at < parties.len() {
        if usize::from(parties[at].name) == name {
            return at;
        }
        at += 1;
    }
    at
}

// The number of a name, where it is at most so large.
fn within(most: usize, number: Option<usize>) -> Result<usize, LogRule>
    ensures known { result ≡ number_known most number }
    ensures most { IfOk result (λ n. n ≤ most) }
{
    match number {
        Some(n) if n <= most => Ok(n),
        _ => Err(LogRule::L2),
    }
}

/// A word of the file.
#[tactic(auto, unfolding(crate::specs::Names::label_read))]
pub(crate) fn label(file: &File, w: &[u8]) -> Result<u16, LogRule>
    ensures { result ≡ label_read (file_of file.now) w.now }
{
    if !is_word_text(w) {
        return Err(LogRule::L1);
    }
    match within(65_535, number_in(&file.names.words, w)) {
        Ok(n) => Ok(n as u16),
        Err(rule) => Err(rule),
    }
}

// The number of the party of that name.
fn party_number(file: &File, w: &[u8]) -> Option<usize>
    ensures { result ≡ party_of_name (file_of file.now).parties (first_index w.now (file_of file.now).words) }
{
    let name = number_in(&file.names.words, w)?;
    let parties = file.parties.as_slice();
    let party = first_named(parties, name);
    if party < parties.len() {
        Some(party)
    } else {
        None
    }
}

/// The name of a party.
#[tactic(auto, unfolding(crate::specs::Names::party_read))]
pub(crate) fn party(file: &File, w: &[u8]) -> Result<u16, LogRule>
    ensures { result ≡ party_read (file_of file.now) w.now }
{
    if !is_word_text(w) {
        return Err(LogRule::L1);
    }
    match within(65_535, party_number(file, w)) {
        Ok(n) => Ok(n as u16),
        Err(rule) => Err(rule),
    }
}

// What stands between two quotes, where nothing else does.
fn between_quotes(w: &[u8]) -> Option<&[u8]>
    ensures some { IfSome result (λ t. (is_quoted w.now ≡ true) × (t.now ≡ inner w.now)) }
    ensures none { IfNone result (is_quoted w.now ≡ false) }
{
    if w.len() < 2 || w[0] != b'"' || w[w.len() - 1] != b'"' {
        return None;
    }
    let text = &w[1..w.len() - 1];
    if are_printable(text) {
        Some(text)
    } else {
        None
    }
}

/// A text of the file, in its quotes.
#[tactic(auto, unfolding(crate::specs::Names::text_read))]
pub(crate) fn text(file: &File, w: &[u8]) -> Result<u32, LogRule>
    ensures { result ≡ text_read (file_of file.now) w.now }
{
    let Some(text) = between_quotes(w) else {
        return Err(LogRule::L1);
    };
    match within(4_294_967_295, number_in(&file.names.texts, text)) {
        Ok(n) => Ok(n as u32),
        Err(rule) => Err(rule),
    }
}
