//! A connection to a server.
ghost use Rattle.std.specs.Prelude.{◌≡◌, ◌≤◌, ◌<◌, ◌^◌, ◌-◌, ◌⊎◌, [], vec_len, IfErr, IfOk, IsErrOf, OnErr, OnOk};
ghost use Rattle.sj_base.specs.Stream.{Rose, WroteFrontOf, put_behind};
ghost use Rattle.sj_streams.specs.Words.{tokens_at};

use crate::ConnRefusal;
use sj_base::{NoMemory, Sink, Source, write_all_of};
use sj_resp::{RespRefusal, Token, TokenDecoder};
use sj_streams::Reply;
use std::alloc::Global;
use std::collections::VecDeque;

/// So many bytes are read at once.
const PIECE: usize = 65_536;

/// What comes from a server and what goes to it. The decoder has the bytes that came and that no
/// reply has used up.
#[derive(Drop)]
pub struct Conn<S, K> {
    pub(crate) alloc: Global,
    pub(crate) source: S,
    pub(crate) sink: K,
    pub(crate) decoder: TokenDecoder,
    pub(crate) room: Vec<u8>,
    ghost some: { 0 < vec_len room },
}

impl<S: Source + Drop, K: Sink + Drop> Conn<S, K> {
    ghost use Rattle.sj_remote.specs.Conn.{heard, sink_of, source_of};

    /// A connection on which nothing came yet.
    pub fn new(alloc: Global, source: S, sink: K) -> Result<Conn<S, K>, NoMemory>
        ensures heard { IfOk result (λ c. heard c ≡ []) }
        ensures source { IfOk result (λ c. source_of c ≡ source) }
        ensures sink { IfOk result (λ c. sink_of c ≡ sink) }
    {
        Ok(Conn {
            alloc,
            source,
            sink,
            decoder: TokenDecoder::new(alloc),
            room: vec![in alloc; 0u8; PIECE]?,
        })
    }
}

impl<S: Source, K: Sink> Conn<S, K> {
    ghost use Rattle.sj_remote.specs.Conn.{Hears, IsLost, heard, sink_of, source_of};

    /// Sends the text.
    pub fn send(&mut self, text: &[u8]) -> Result<(), ConnRefusal>
        ensures ok { OnOk result (K.written (sink_of self.new) ≡ put_behind (K.written (sink_of self.old)) text.now) }
        ensures err { OnErr result (WroteFrontOf text.now (K.written (sink_of self.old)) (K.written (sink_of self.new))) }
        ensures lost { IfErr result (λ e. e ≡ ConnRefusal.Lost) }
        ensures rose { OnErr result (Rose (K.faults (sink_of self.old)) (K.faults (sink_of self.new))) }
        ensures later { K.faults (sink_of self.old) ≤ K.faults (sink_of self.new) }
        ensures source { source_of self.new ≡ source_of self.old }
        ensures heard { heard self.new ≡ heard self.old }
    {
        match write_all_of(&mut self.sink, text) {
            Ok(()) => Ok(()),
            Err(_) => Err(ConnRefusal::Lost),
        }
    }

    /// Reads once.
    pub(crate) fn hear(&mut self) -> Result<(), ConnRefusal>
        ensures ok { OnOk result (Hears S.left self.old self.new) }
        ensures lost { IsErrOf result ConnRefusal.Lost → IsLost S.faults S.has_ended self.old self.new }
        ensures no_reply { IsErrOf result ConnRefusal.NoReply → ⊥ }
        ensures later { S.faults (source_of self.old) ≤ S.faults (source_of self.new) }
        ensures sink { sink_of self.new ≡ sink_of self.old }
    {
        match self.source.read(&mut self.room) {
            Ok(0) => Err(ConnRefusal::Lost),
            Ok(n) => match self.decoder.feed(&self.room[..n]) {
                Ok(()) => Ok(()),
                Err(_) => Err(ConnRefusal::NoMemory),
            },
            Err(_) => Err(ConnRefusal::Lost),
        }
    }
}
