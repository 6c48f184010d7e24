//! A party, apart from its program.
ghost use Rattle.std.specs.Prelude.{◌≡◌, List};
ghost use Rattle.sj_forward.specs.Forwarder.{forwarder_at};
ghost use Rattle.sj_forward_rules.specs.Node.{held_of};
ghost use Rattle.sj_forward_rules.specs.Ready as rules;
ghost use Rattle.sj_forward_rules.specs.Ready.{is_ready, state_by};
ghost use Rattle.sj_lang.specs.FileAt.{ProtocolAt};
ghost use Rattle.sj_rules.specs.Party.{want_for};
ghost use Rattle.sj_semantics.specs.Program.{Program};

use crate::ends::held_at;
use crate::frame::ForwardFrame;
use crate::offers::is_offering;
use crate::slot::Slot;
use sj_base::EndId;
use sj_machine::{MAX_HOPS, MAX_REQUESTS};
use sj_semantics::Want;
use std::alloc::Global;
use std::collections::VecDeque;

/// What a party opened and what each party offers to it, what it keeps of ends, and what it has
/// sent to each party.
#[derive(Drop)]
pub struct Forwarder {
    pub alloc: Global,
    pub requests: u8,
    pub offers: Vec<Vec<u32>>,
    pub ends: Vec<Vec<Slot>>,
    pub outs: Vec<VecDeque<ForwardFrame>>,
}

impl Forwarder {
    /// Whether what the party holds lets it do that step.
    pub(crate) fn ready(&self, want: Want) -> bool
        ensures { (ps : List ProtocolAt) (g : Program) →
            result ≡ is_ready (state_by (forwarder_at g self.now) (want_for ps want)) }
    {
        match want {
            Want::Ended => false,
            Want::Local => true,
            Want::Send { .. } => true,
            Want::Delegate { sent, .. } => self.may_leave(sent),
            Want::Take { end, .. } => self.has_message(end),
            Want::Close { .. } => true,
            Want::Request { .. } => self.requests < MAX_REQUESTS,
            Want::Accept { from, .. } => is_offering(&self.offers, from),
        }
    }

    fn may_leave(&self, end: EndId) -> bool
        ensures { (g : Program) → result ≡ rules.may_leave (held_of (forwarder_at g self.now) end) }
    {
        match held_at(&self.ends, end) {
            Some(used) => used.hop < MAX_HOPS as usize,
            None => false,
        }
    }

    fn has_message(&self, end: EndId) -> bool
        ensures { (g : Program) → result ≡ rules.has_message (held_of (forwarder_at g self.now) end) }
    {
        match held_at(&self.ends, end) {
            Some(used) => used.first.is_some(),
            None => false,
        }
    }
}
