//! A party's acts: memory is taken first, and then the step is done.
ghost use Rattle.std.specs.Prelude.{◌≡◌, ◌<◌, ◌^◌, Some, OnOk, OnErr, IsSome, true};
ghost use Rattle.sj_forward.specs.Forwarder.{Acts, CanClaim, CanPost, CanSend, CanTake, DoesSo, HasAct, HasRoom, ForwarderStays, forwarder_at};
ghost use Rattle.sj_forward.specs.Ends.{HasPlace, held_in};
ghost use Rattle.sj_offers.specs.Offers.{offers_in};
ghost use Rattle.sj_forward.specs.Views.{sent_at};
ghost use Rattle.sj_forward_rules.specs.Acts.{accept_act, close_act, delegate_act, request_act, send_act, take_act, work_of_take};
ghost use Rattle.sj_forward_rules.specs.Node.{held_of};
ghost use Rattle.sj_forward_rules.specs.Ready.{has_message, is_filled};
ghost use Rattle.sj_lang.specs.Place.{Place};
ghost use Rattle.sj_rules.specs.Limits.{limit_of_requests};
ghost use Rattle.sj_rules.specs.Opened.{opened_number as number};
ghost use Rattle.sj_rules.specs.Party.{nobody};
ghost use Rattle.sj_rules.specs.Play.{Play};
ghost use Rattle.sj_rules.specs.Record.{requested_end};
ghost use Rattle.sj_semantics.specs.Program.{Program};

use crate::ends::{begin, close, held_at, make_place, park, take_first};
use crate::forwarder::Forwarder;
use crate::frame::{ForwardFrame, Sent, onward};
use crate::lanes::{make_room, put_frame};
use sj_base::{EndId, Msg, NoMemory};
use sj_machine::opened_number;
use sj_offers::{offered_by, withdraw};
use sj_semantics::Want;

impl Forwarder {
    // ---- memory

    /// Takes the memory that the party's next step needs.
    pub(crate) fn make_room(&mut self, party: u16, want: Want) -> Result<(), NoMemory>
        ensures same { ForwarderStays self.old self.new }
        ensures room { OnOk result (HasRoom party want self.new) }
    {
        match want {
            Want::Send { end, .. } => self.room_to_send(end),
            Want::Delegate { end, .. } => self.room_to_send(end),
            Want::Take { end, .. } => self.room_to_take(end),
            Want::Request { to, .. } => self.room_to_open(party, to),
            Want::Local => Ok(()),
            Want::Close { .. } => Ok(()),
            Want::Accept { .. } => Ok(()),
            Want::Ended => Ok(()),
        }
    }

    fn room_to_send(&mut self, end: EndId) -> Result<(), NoMemory>
        ensures same { ForwarderStays self.old self.new }
        ensures room { OnOk result (CanSend self.new end) }
    {
        match held_at(&self.ends, end) {
            Some(used) => make_room(self.alloc, &mut self.outs, used.behind, 1),
            None => Ok(()),
        }
    }

    fn room_to_take(&mut self, end: EndId) -> Result<(), NoMemory>
        ensures same { ForwarderStays self.old self.new }
        ensures room { OnOk result (CanTake self.new end) }
    {
        let Some(used) = held_at(&self.ends, end) else {
            return Ok(());
        };
        match used.first {
            Some(sent) => self.room_to_claim(sent),
            None => Ok(()),
        }
    }

    fn room_to_claim(&mut self, sent: Sent) -> Result<(), NoMemory>
        ensures same { ForwarderStays self.old self.new }
        ensures room { OnOk result (CanClaim self.new sent.msg sent.hop) }
    {
        match sent.msg {
            Msg::Sess { sess, side, keeper } => {
                make_room(self.alloc, &mut self.outs, keeper, 1)?;
                make_place(
                    self.alloc,
                    &mut self.ends,
                    EndId { sess, side },
                    sent.hop as usize + 1,
                )
            }
            Msg::Int(_) => Ok(()),
            Msg::Bool(_) => Ok(()),
            Msg::Text(_) => Ok(()),
            Msg::Label(_) => Ok(()),
            Msg::More(_) => Ok(()),
        }
    }

    fn room_to_open(&mut self, party: u16, to: u16) -> Result<(), NoMemory>
        ensures same { ForwarderStays self.old self.new }
        ensures post { OnOk result (CanPost self.new to) }
        ensures place { OnOk result (HasPlace self.new.ends.items
            (requested_end (number party self.new.requests)) 0) }
    {
        let sess = opened_number(party, self.requests);
        make_room(self.alloc, &mut self.outs, to, 1)?;
        make_place(self.alloc, &mut self.ends, EndId { sess, side: 0 }, 0)
    }

    // ---- steps

    /// The party's next step, for which the memory is there.
    pub(crate) fn act(&mut self, party: u16, want: Want)
        requires fits { HasAct party want self.old }
        requires room { HasRoom party want self.old }
        ensures { Acts party want self.old self.new }
    {
        match want {
            Want::Local => {}
            Want::Send { end, msg } => self.send(end, Sent { msg, hop: 0 }),
            Want::Delegate { end, sent } => self.delegate(party, end, sent),
            Want::Take { end, .. } => self.take(end),
            Want::Close { end } => self.close(end),
            Want::Request { to, .. } => self.request(party, to),
            Want::Accept { from, .. } => self.accept(from),
            Want::Ended => unreachable!(),
        }
    }

    fn send(&mut self, end: EndId, sent: Sent)
        requires fits { IsSome (held_in self.old.ends.items end) }
        requires room { CanSend self.old end }
        ensures { (g : Program) → DoesSo self.old (send_act (forwarder_at g self.old) end (sent_at sent)
            (held_of (forwarder_at g self.old) end)) self.new }
    {
        let Some(used) = held_at(&self.ends, end) else {
            unreachable!()
        };
        put_frame(&mut self.outs, used.behind, onward(end, used.hop, sent));
    }

    // The end goes on the carrier, which names its hop number.
    fn delegate(&mut self, party: u16, carrier: EndId, end: EndId)
        requires fits { IsSome (delegate_act party (forwarder_at nobody self.old) carrier end
            (held_of (forwarder_at nobody self.old) end)) }
        requires room { CanSend self.old carrier }
        ensures { (g : Program) → DoesSo self.old (delegate_act party (forwarder_at g self.old) carrier end
            (held_of (forwarder_at g self.old) end)) self.new }
    {
        let Some(used) = held_at(&self.ends, end) else {
            unreachable!()
        };
        park(&mut self.ends, end);
        let EndId { sess, side } = end;
        let msg = Msg::Sess {
            sess,
            side,
            keeper: party,
        };
        self.send(
            carrier,
            Sent {
                msg,
                hop: used.hop as u8,
            },
        );
    }

    fn take(&mut self, end: EndId)
        requires fits { has_message (held_in self.old.ends.items end) ≡ true }
        requires room { CanTake self.old end }
        ensures { (play : Play Place Program) (g : Program) → DoesSo self.old
            (take_act play (forwarder_at g self.old) end (held_of (forwarder_at g self.old) end)) self.new }
    {
        let sent = take_first(&mut self.ends, end);
        self.take_in(sent);
    }

    // What taking the message brings.
    fn take_in(&mut self, sent: Sent)
        requires { CanClaim self.old sent.msg sent.hop }
        ensures { (g : Program) → DoesSo self.old
            (Some (work_of_take sent.msg sent.hop (forwarder_at g self.old))) self.new }
    {
        match sent.msg {
            Msg::Sess { sess, side, keeper } => {
                let end = EndId { sess, side };
                let hop = sent.hop as usize;
                begin(self.alloc, &mut self.ends, end, hop + 1, keeper);
                put_frame(&mut self.outs, keeper, ForwardFrame::Claim { of: end, hop });
            }
            Msg::Int(_) => {}
            Msg::Bool(_) => {}
            Msg::Text(_) => {}
            Msg::Label(_) => {}
            Msg::More(_) => {}
        }
    }

    fn close(&mut self, end: EndId)
        requires { IsSome (held_in self.old.ends.items end) }
        ensures { (g : Program) → DoesSo self.old (close_act (forwarder_at g self.old) end
            (held_of (forwarder_at g self.old) end)) self.new }
    {
        close(&mut self.ends, end);
    }

    fn request(&mut self, party: u16, to: u16)
        requires few { self.old.requests < limit_of_requests }
        requires post { CanPost self.old to }
        requires place { HasPlace self.old.ends.items (requested_end (number party self.old.requests)) 0 }
        ensures { (play : Play Place Program) (g : Program) → DoesSo self.old
            (request_act play party (forwarder_at g self.old) to) self.new }
    {
        let sess = opened_number(party, self.requests);
        begin(self.alloc, &mut self.ends, EndId { sess, side: 0 }, 0, to);
        self.requests += 1;
        put_frame(&mut self.outs, to, ForwardFrame::Open { sess });
    }

    fn accept(&mut self, from: u16)
        requires { is_filled (offers_in self.old.offers.items from) ≡ true }
        ensures { (play : Play Place Program) (g : Program) → DoesSo self.old
            (accept_act play (forwarder_at g self.old) from) self.new }
    {
        let Some(sess) = offered_by(&self.offers, from) else {
            unreachable!()
        };
        withdraw(&mut self.offers, from, sess);
    }
}
