//! The password, and the file of a run.
ghost use Rattle.std.specs.Prelude.{◌≡◌, ◌≤◌, ◌++◌, IfErr, IfOk, OnErr, OnOk, option_map};
ghost use Rattle.sj_base.specs.Stream.{Rose, put_behind};
ghost use Rattle.sj_lang.specs.FileView.{file_of};
ghost use Rattle.sj_party.specs.CanonicalFile.{file_text};
ghost use Rattle.sj_remote.specs.Conn.{Replied, heard, sink_of, source_of};
ghost use Rattle.sj_remote.specs.Talks.{Heard};
ghost use Rattle.sj_remote_run.specs.Asked.{IsCause, IsOfFile, Talked, sign_count};
ghost use Rattle.sj_remote_run.specs.Refused.{IsFile, IsNoEntry, IsNoFile, IsNoShare, IsNumber, IsShared, IsSilent};
ghost use Rattle.sj_remote_run.specs.Refused.{IsUnanswered};
ghost use Rattle.sj_remote_run.specs.Sent.{sign_text};
ghost use Rattle.sj_resp.specs.Spelling.{command_text};
ghost use Rattle.sj_streams.specs.Commands.{get_words, share_words};
ghost use Rattle.sj_streams.specs.Gathering.{IsReply};
ghost use Rattle.sj_streams.specs.Words.{tokens_at};

use crate::PlayRefusal;
use crate::causes::{conn_means, misread_means, password_means, refusal_means};
use sj_base::{Sink, Source};
use sj_lang::File;
use sj_party::print_file;
use sj_remote::{Conn, put_auth};
use sj_resp::Token;
use sj_streams::{put_get, put_share, read_number, read_text, read_well, refused};
use std::alloc::Global;
use std::collections::VecDeque;

/// Sends the text.
pub(crate) fn send<S: Source, K: Sink>(
    conn: &mut Conn<S, K>,
    text: &[u8],
) -> Result<(), PlayRefusal>
    ensures sent { OnOk result (K.written (sink_of conn.new)
        ≡ put_behind (K.written (sink_of conn.old)) text.now) }
    ensures lost { IfErr result (λ e. e ≡ PlayRefusal.Lost) }
    ensures rose { OnErr result (Rose (K.faults (sink_of conn.old)) (K.faults (sink_of conn.new))) }
    ensures later { K.faults (sink_of conn.old) ≤ K.faults (sink_of conn.new) }
    ensures source { source_of conn.new ≡ source_of conn.old }
    ensures heard { heard conn.new ≡ heard conn.old }
{
    match conn.send(text) {
        Ok(()) => Ok(()),
        Err(e) => Err(conn_means(e)),
    }
}

/// The next reply.
fn reply<S: Source, K: Sink>(conn: &mut Conn<S, K>) -> Result<VecDeque<Token>, PlayRefusal>
    ensures replied { IfOk result (λ tokens.
        Replied S.left conn.old conn.new (tokens_at tokens.items)) }
    ensures whole { IfOk result (λ tokens. IsReply (tokens_at tokens.items)) }
    ensures talked { OnOk result (Talked S.left S.faults K.faults 1 conn.old conn.new) }
    ensures refused { IfErr result
        (IsSilent S.left S.faults S.has_ended K.faults conn.old conn.new) }
    ensures sink { sink_of conn.new ≡ sink_of conn.old }
{
    match conn.reply() {
        Ok(tokens) => Ok(tokens),
        Err(e) => Err(conn_means(e)),
    }
}

/// Sends the commands, and answers the reply to the first.
fn ask<S: Source, K: Sink>(
    conn: &mut Conn<S, K>,
    text: &[u8],
) -> Result<VecDeque<Token>, PlayRefusal>
    ensures sent { OnOk result (K.written (sink_of conn.new)
        ≡ put_behind (K.written (sink_of conn.old)) text.now) }
    ensures replied { IfOk result (λ tokens.
        Replied S.left conn.old conn.new (tokens_at tokens.items)) }
    ensures whole { IfOk result (λ tokens. IsReply (tokens_at tokens.items)) }
    ensures talked { OnOk result (Talked S.left S.faults K.faults 1 conn.old conn.new) }
    ensures refused { IfErr result
        (IsSilent S.left S.faults S.has_ended K.faults conn.old conn.new) }
{
    if let Err(e) = conn.send(text) {
        return Err(conn_means(e));
    }
    match conn.reply() {
        Ok(tokens) => Ok(tokens),
        Err(e) => Err(conn_means(e)),
    }
}

/// Gives the password of that user, or of the usual one, where there is a password.
pub fn sign_in<S: Source, K: Sink>(
    alloc: Global,
    conn: &mut Conn<S, K>,
    user: Option<&[u8]>,
    password: Option<&[u8]>,
) -> Result<(), PlayRefusal>
    ensures sent { OnOk result (K.written (sink_of conn.new)
        ≡ put_behind (K.written (sink_of conn.old)) (sign_text
        (option_map (λ u. u.now) user.entry) (option_map (λ p. p.now) password.entry))) }
    ensures talked { OnOk result (Talked S.left S.faults K.faults (sign_count password.entry)
        conn.old conn.new) }
    ensures given { OnErr result (sign_count password.entry ≡ 1) }
    ensures refused { IfErr result (IsUnanswered S.left S.faults S.has_ended K.faults
        conn.old conn.new IsNoEntry) }
{
    let Some(password) = password else {
        return Ok(());
    };
    let mut text = Vec::new(alloc);
    put_auth(&mut text, user, password)?;
    let mut tokens = ask(conn, &text)?;
    if let Some(refusal) = refused(&tokens) {
        return Err(password_means(refusal));
    }
    match read_well(&mut tokens) {
        Ok(()) => Ok(()),
        Err(e) => Err(misread_means(e)),
    }
}

/// Sends the commands, and takes the reply to the first, which has to be a number.
fn put_in<S: Source, K: Sink>(conn: &mut Conn<S, K>, text: &[u8]) -> Result<(), PlayRefusal>
    ensures sent { OnOk result (K.written (sink_of conn.new)
        ≡ put_behind (K.written (sink_of conn.old)) text.now) }
    ensures number { OnOk result (Heard S.left conn.old conn.new IsNumber) }
    ensures talked { OnOk result (Talked S.left S.faults K.faults 1 conn.old conn.new) }
    ensures refused { IfErr result (IsUnanswered S.left S.faults S.has_ended K.faults
        conn.old conn.new IsNoShare) }
{
    let mut tokens = ask(conn, text)?;
    if let Some(refusal) = refused(&tokens) {
        return Err(refusal_means(refusal));
    }
    match read_number(&mut tokens) {
        Ok(_) => Ok(()),
        Err(e) => Err(misread_means(e)),
    }
}

/// Takes the next reply, which has to be that text.
fn take_file<S: Source, K: Sink>(conn: &mut Conn<S, K>, own: &[u8]) -> Result<(), PlayRefusal>
    ensures own { OnOk result (Heard S.left conn.old conn.new (IsFile own.now)) }
    ensures talked { OnOk result (Talked S.left S.faults K.faults 1 conn.old conn.new) }
    ensures refused { IfErr result (IsUnanswered S.left S.faults S.has_ended K.faults
        conn.old conn.new (IsNoFile own.now)) }
    ensures sink { sink_of conn.new ≡ sink_of conn.old }
{
    let mut tokens = reply(conn)?;
    if let Some(refusal) = refused(&tokens) {
        return Err(refusal_means(refusal));
    }
    match read_text(&mut tokens) {
        Ok(Some(shared)) if shared.as_slice() == own => Ok(()),
        Ok(_) => Err(PlayRefusal::OtherFile),
        Err(e) => Err(misread_means(e)),
    }
}

/// Gives the run its file, unless it has one, and refuses where it has another.
pub fn share<S: Source, K: Sink>(
    alloc: Global,
    conn: &mut Conn<S, K>,
    file: &File,
    run: &[u8],
) -> Result<(), PlayRefusal>
    ensures sent { OnOk result (K.written (sink_of conn.new)
        ≡ put_behind (K.written (sink_of conn.old))
        (command_text (share_words run.now (file_text (file_of file.now)))
        ++ command_text (get_words run.now))) }
    ensures shared { OnOk result (IsShared S.left (file_text (file_of file.now)) conn.old conn.new) }
    ensures talked { OnOk result (Talked S.left S.faults K.faults 2 conn.old conn.new) }
    ensures refused { IfErr result (IsCause S.left S.faults S.has_ended K.faults
        (IsOfFile (file_text (file_of file.now))) conn.old conn.new) }
{
    let mut own = Vec::new(alloc);
    print_file(&mut own, file)?;
    let mut text = Vec::new(alloc);
    put_share(&mut text, run, &own)?;
    put_get(&mut text, run)?;
    put_in(conn, &text)?;
    take_file(conn, &own)?;
    Ok(())
}
