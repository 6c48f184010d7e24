//! Replies as they come.
ghost use Rattle.std.specs.Prelude.{◌≡◌, ◌<◌, ◌≤◌, ◌↔◌, IfOk, IsErrOf, IsTrue, OnErr};
ghost use Rattle.sj_resp.specs.Front.{Refused, front_of};
ghost use Rattle.sj_resp.specs.declared.refusal.RespRefusal.{RespRefusal as WhyNot};
ghost use Rattle.sj_remote.specs.Conn.{conn_refusal, IsLost, IsNoReply, Replied, heard, sink_of, source_of};
ghost use Rattle.sj_streams.specs.Gathering.{IsReply, Took, due_in};
ghost use Rattle.sj_streams.specs.Words.{tokens_at};

use crate::{Conn, ConnRefusal};
use sj_base::{Sink, Source};
use sj_resp::{RespRefusal, Token};
use sj_streams::Reply;
use std::collections::VecDeque;

/// What the refusal of a token means.
fn refusal_for(refusal: RespRefusal) -> ConnRefusal
    ensures { result ≡ conn_refusal refusal }
{
    match refusal {
        RespRefusal::NoMemory => ConnRefusal::NoMemory,
        _ => ConnRefusal::NoReply,
    }
}

impl<S: Source, K: Sink> Conn<S, K> {
    /// Takes what came of the reply, as far as it came. Answers whether the reply is whole.
    fn gather(&mut self, reply: &mut Reply) -> Result<bool, ConnRefusal>
        ensures took { Took reply.old reply.new (heard self.old) (heard self.new) }
        ensures whole { IfOk result (λ b. IsTrue b ↔ (due_in reply.new ≡ 0)) }
        ensures no_reply { IsErrOf result ConnRefusal.NoReply →
            (e : WhyNot) × (front_of (heard self.new) ≡ Refused e) }
        ensures lost { IsErrOf result ConnRefusal.Lost → ⊥ }
        ensures short { OnErr result (0 < due_in reply.new) }
        ensures source { source_of self.new ≡ source_of self.old }
        ensures sink { sink_of self.new ≡ sink_of self.old }
    {
        match reply.gather(&mut self.decoder) {
            Ok(whole) => Ok(whole),
            Err(e) => Err(refusal_for(e)),
        }
    }

    /// The next reply. A refusal loses what came of it, so the connection is of no use then.
    pub fn reply(&mut self) -> Result<VecDeque<Token>, ConnRefusal>
        ensures replied { IfOk result (λ tokens.
            Replied S.left self.old self.new (tokens_at tokens.items)) }
        ensures whole { IfOk result (λ tokens. IsReply (tokens_at tokens.items)) }
        ensures lost { IsErrOf result ConnRefusal.Lost →
            IsLost S.faults S.has_ended self.old self.new }
        ensures no_reply { IsErrOf result ConnRefusal.NoReply → IsNoReply S.left self.old self.new }
        ensures later { S.faults (source_of self.old) ≤ S.faults (source_of self.new) }
        ensures sink { sink_of self.new ≡ sink_of self.old }
    {
        let mut reply = Reply::new(self.alloc);
        for _ in 0..u64::MAX {
            match self.gather(&mut reply) {
                Ok(true) => return Ok(reply.into_tokens()),
                Ok(false) => {}
                Err(e) => return Err(e),
            }
            if let Err(e) = self.hear() {
                return Err(e);
            }
        }
        // No memory holds so many pieces.
        Err(ConnRefusal::NoMemory)
    }
}
