//! What is asked of the server, and what it answers.
ghost use Rattle.std.specs.Prelude.{◌≡◌, ◌≤◌, ℕ, ◌++◌, length, map, option_map, IfErr, IfOk, None, OnOk};
ghost use Rattle.std.specs.List.{flat_map};
ghost use Rattle.sj_base.specs.Stream.{put_behind};
ghost use Rattle.sj_lang.specs.Limits.{limits};
ghost use Rattle.sj_remote.specs.Answers.{MeetsRead};
ghost use Rattle.sj_remote.specs.Conn.{Replied, heard, sink_of, source_of};
ghost use Rattle.sj_remote.specs.Passwords.{auth_words};
ghost use Rattle.sj_resp.specs.Spelling.{command_text, word_text};
ghost use Rattle.sj_streams.specs.Answers.{failure_at};
ghost use Rattle.sj_streams.specs.Commands.{get_words};
ghost use Rattle.sj_streams.specs.Gathering.{IsReply};
ghost use Rattle.sj_streams.specs.Views.{came_view};
ghost use Rattle.sj_streams.specs.Words.{tokens_at, words_at};
ghost use Rattle.sj_join.specs.Causes.{IsNoCount, IsNoEntry, IsNoRead, IsNoText, IsUnanswered, IsUnheard};
ghost use Rattle.sj_join.specs.Refusals.{refusal_of_misread};
ghost use Rattle.sj_join.specs.Talk.{Admits, Brings, Counts, Gives, IsAnswered, drop_text, keys_at, read_text, seen_none};

use crate::JoinRefusal;
use sj_base::{NoMemory, Sink, Source};
use sj_remote::{Conn, TalkRefusal, put_auth, read_streams};
use sj_resp::{Token, put_command, put_word};
use sj_streams::{
    Came, Misread, Refusal, file_key, log_key, put_get, put_read, read_number, read_text,
    read_well, refused,
};
use std::alloc::Global;
use std::collections::VecDeque;

/// The most entries of a stream: as many as a server can number.
const ALL: u64 = 9_223_372_036_854_775_807;

/// The most parties of a file.
const PARTIES: u16 = 16;

// What a reply of another shape means.
fn misread_means(misread: Misread) -> JoinRefusal
    ensures { result ≡ refusal_of_misread misread }
{
    match misread {
        Misread::NoMemory => JoinRefusal::NoMemory,
        _ => JoinRefusal::Talk(TalkRefusal::NoReply),
    }
}

// Sends the commands, and answers the reply to the first.
fn ask<S: Source, K: Sink>(
    conn: &mut Conn<S, K>,
    text: &[u8],
) -> Result<VecDeque<Token>, JoinRefusal>
    ensures sent { OnOk result (K.written (sink_of conn.new) ≡ put_behind (K.written (sink_of conn.old)) text.now) }
    ensures replied { IfOk result (λ tokens. Replied S.left conn.old conn.new (tokens_at tokens.items)) }
    ensures whole { IfOk result (λ tokens. IsReply (tokens_at tokens.items)) }
    ensures well { IfOk result (λ tokens. failure_at (tokens_at tokens.items) ≡ None) }
    ensures refused { IfErr result
        (IsUnheard S.left S.faults S.has_ended K.faults conn.old conn.new) }
{
    if let Err(e) = conn.send(text) {
        return Err(JoinRefusal::from(e));
    }
    let tokens = match conn.reply() {
        Ok(tokens) => tokens,
        Err(e) => return Err(JoinRefusal::from(e)),
    };
    if let Some(refusal) = refused(&tokens) {
        return Err(JoinRefusal::Talk(TalkRefusal::Refused(refusal)));
    }
    Ok(tokens)
}

/// Gives the password of that user, or of the usual one.
pub fn sign_in<S: Source, K: Sink>(
    alloc: Global,
    conn: &mut Conn<S, K>,
    user: Option<&[u8]>,
    password: &[u8],
) -> Result<(), JoinRefusal>
    ensures sent { OnOk result (K.written (sink_of conn.new) ≡ put_behind (K.written (sink_of conn.old))
        (command_text (auth_words (option_map (λ u. u.now) user.entry) password.now))) }
    ensures admitted { OnOk result (IsAnswered S.left conn.old conn.new Admits) }
    ensures refused { IfErr result (IsUnanswered S.left S.faults S.has_ended K.faults
        conn.old conn.new IsNoEntry) }
{
    let mut text = Vec::new(alloc);
    put_auth(&mut text, user, password)?;
    let mut tokens = match ask(conn, &text) {
        Ok(tokens) => tokens,
        Err(JoinRefusal::Talk(TalkRefusal::Refused(Refusal::Other))) => {
            return Err(JoinRefusal::Talk(TalkRefusal::Refused(Refusal::Password)));
        }
        Err(e) => return Err(e),
    };
    match read_well(&mut tokens) {
        Ok(()) => Ok(()),
        Err(e) => Err(misread_means(e)),
    }
}

/// The text of the run's file.
pub fn share_of<S: Source, K: Sink>(
    alloc: Global,
    conn: &mut Conn<S, K>,
    run: &[u8],
) -> Result<Vec<u8>, JoinRefusal>
    ensures sent { OnOk result (K.written (sink_of conn.new)
        ≡ put_behind (K.written (sink_of conn.old)) (command_text (get_words run.now))) }
    ensures text { IfOk result (λ text. IsAnswered S.left conn.old conn.new (Gives text.items)) }
    ensures refused { IfErr result (IsUnanswered S.left S.faults S.has_ended K.faults
        conn.old conn.new IsNoText) }
{
    let mut text = Vec::new(alloc);
    put_get(&mut text, run)?;
    let mut tokens = ask(conn, &text)?;
    match read_text(&mut tokens) {
        Ok(Some(text)) => Ok(text),
        Ok(None) => Err(JoinRefusal::NoRun),
        Err(e) => Err(misread_means(e)),
    }
}

// The names of the streams of so many parties.
#[tactic(auto, using(crate::proofs::RangeLemmas::text_counts))]
fn keys_of(alloc: Global, run: &[u8], parties: u16) -> Result<Vec<Vec<u8>>, NoMemory>
    ensures names { IfOk result (λ keys. map (λ k. k.items) keys.items ≡ keys_at run.now parties) }
    ensures count { IfOk result (λ keys. length keys.items ≡ parties) }
{
    let mut keys = Vec::new(alloc);
    for party in 0..parties {
        keys.push(log_key(alloc, run, party)?)?;
    }
    Ok(keys)
}

// For each of them the number of the last entry that was seen: none.
fn none_seen(alloc: Global, count: usize) -> Result<Vec<u64>, NoMemory>
    ensures { IfOk result (λ seen. seen.items ≡ seen_none count) }
{
    let seen = vec![in alloc; 0u64; count]?;
    Ok(seen)
}

/// All that stands in the streams of so many parties, read by one command, which the server does at
/// one moment.
#[tactic(auto, unfolding(crate::specs::Talk::read_text))]
pub fn read_run<S: Source, K: Sink>(
    alloc: Global,
    conn: &mut Conn<S, K>,
    run: &[u8],
    parties: u16,
) -> Result<Vec<Came>, JoinRefusal>
    requires few { parties ≤ limits.parties }
    ensures sent { OnOk result (K.written (sink_of conn.new)
        ≡ put_behind (K.written (sink_of conn.old)) (read_text run.now parties)) }
    ensures came { IfOk result (λ came. IsAnswered S.left conn.old conn.new
        (Brings run.now parties (map came_view came.items))) }
    ensures refused { IfErr result (IsUnanswered S.left S.faults S.has_ended K.faults
        conn.old conn.new (IsNoRead run.now parties)) }
{
    let keys = keys_of(alloc, run, parties)?;
    let seen = none_seen(alloc, keys.len())?;
    let mut text = Vec::new(alloc);
    put_read(&mut text, ALL, None, &keys, &seen)?;
    let tokens = ask(conn, &text)?;
    match read_streams(alloc, tokens, &keys, &seen) {
        Ok(came) => Ok(came),
        Err(e) => Err(JoinRefusal::from(e)),
    }
}

// Appends the keys as words.
fn put_keys(out: &mut Vec<u8>, keys: &[Vec<u8>]) -> Result<(), NoMemory>
    ensures { OnOk result (out.new.items ≡ out.old.items ++ flat_map word_text (words_at keys.now)) }
{
    for key in keys {
        put_word(out, key)?;
    }
    Ok(())
}

// The command that removes the run's keys.
#[tactic(auto, unfolding(sj_resp::specs::Spelling::command_text, crate::specs::Talk::drop_text))]
fn put_drop(out: &mut Vec<u8>, run: &[u8]) -> Result<(), NoMemory>
    ensures { OnOk result (out.new.items ≡ out.old.items ++ drop_text run.now) }
{
    let alloc = *out.allocator();
    let file = file_key(alloc, run)?;
    let keys = keys_of(alloc, run, PARTIES)?;
    put_command(out, u32::from(PARTIES) + 2)?;
    put_word(out, b"DEL")?;
    put_word(out, &file)?;
    put_keys(out, &keys)
}

/// Removes the run's keys: its file, and the streams of all parties that a file may have. Answers
/// how many there were.
pub fn drop_run<S: Source, K: Sink>(
    alloc: Global,
    conn: &mut Conn<S, K>,
    run: &[u8],
) -> Result<i64, JoinRefusal>
    ensures sent { OnOk result (K.written (sink_of conn.new)
        ≡ put_behind (K.written (sink_of conn.old)) (drop_text run.now)) }
    ensures count { IfOk result (λ n. IsAnswered S.left conn.old conn.new (Counts n)) }
    ensures refused { IfErr result (IsUnanswered S.left S.faults S.has_ended K.faults
        conn.old conn.new IsNoCount) }
{
    let mut text = Vec::new(alloc);
    put_drop(&mut text, run)?;
    let mut tokens = ask(conn, &text)?;
    match read_number(&mut tokens) {
        Ok(count) => Ok(count),
        Err(e) => Err(misread_means(e)),
    }
}
