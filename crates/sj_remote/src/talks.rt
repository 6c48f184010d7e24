//! Questions to a server, and their answers.
ghost use Rattle.std.specs.Prelude.{◌≡◌, ◌≤◌, List, ℕ, [], ◌∷◌, IfErr, IfOk, OnOk};
ghost use Rattle.sj_remote.specs.Conn.{Replied, sink_of, source_of};
ghost use Rattle.sj_remote.specs.Streams.{keys_of, seen_of};
ghost use Rattle.sj_remote.specs.Talks.{IsAnswer, IsNoAdd, IsNoRead, IsUnmet};
ghost use Rattle.sj_resp.specs.Token.{Bulk};
ghost use Rattle.sj_streams.specs.Words.{words_at};

use crate::{Conn, ConnRefusal, Streams, TalkRefusal, read_added, read_streams};
use sj_base::{Sink, Source};
use sj_streams::Came;

impl<S: Source, K: Sink> Conn<S, K> {
    /// Whether the entry that was sent last but for a read was added.
    pub fn added(&mut self) -> Result<(), TalkRefusal>
        ensures ok { OnOk result
            ((name : List ℕ) × Replied S.left self.old self.new (Bulk name ∷ [])) }
        ensures refused { IfErr result
            (IsUnmet S.left S.faults S.has_ended self.old self.new IsNoAdd) }
        ensures later { S.faults (source_of self.old) ≤ S.faults (source_of self.new) }
        ensures sink { sink_of self.new ≡ sink_of self.old }
    {
        match self.reply() {
            Ok(tokens) => read_added(tokens),
            Err(ConnRefusal::Lost) => Err(TalkRefusal::Lost),
            Err(ConnRefusal::NoReply) => Err(TalkRefusal::NoReply),
            Err(ConnRefusal::NoMemory) => Err(TalkRefusal::NoMemory),
        }
    }

    /// What a read of the streams brought.
    pub fn came(&mut self, streams: &Streams) -> Result<Vec<Came>, TalkRefusal>
        ensures ok { IfOk result (λ came. IsAnswer S.left self.old self.new
            (words_at (keys_of streams.now)) (seen_of streams.now) came.items) }
        ensures refused { IfErr result (IsUnmet S.left S.faults S.has_ended self.old self.new
            (IsNoRead (words_at (keys_of streams.now)) (seen_of streams.now))) }
        ensures later { S.faults (source_of self.old) ≤ S.faults (source_of self.new) }
        ensures sink { sink_of self.new ≡ sink_of self.old }
    {
        match self.reply() {
            Ok(tokens) => read_streams(self.alloc, tokens, &streams.keys, &streams.seen),
            Err(ConnRefusal::Lost) => Err(TalkRefusal::Lost),
            Err(ConnRefusal::NoReply) => Err(TalkRefusal::NoReply),
            Err(ConnRefusal::NoMemory) => Err(TalkRefusal::NoMemory),
        }
    }
}
