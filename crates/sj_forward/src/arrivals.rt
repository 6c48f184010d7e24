//! Frames that come to a party.
ghost use Rattle.std.specs.Prelude.{◌≡◌, OnOk, OnErr, IsSome};
ghost use Rattle.sj_forward.specs.Forwarder.{FrameComes, DoesSo, HasRow, ForwarderStays, forwarder_at};
ghost use Rattle.sj_forward.specs.Ends.{records_in};
ghost use Rattle.sj_forward.specs.Views.{frame_at, sent_at};
ghost use Rattle.sj_forward_rules.specs.Arrivals.{at_record, claim_by, in_by, open_comes, out_by};
ghost use Rattle.sj_rules.specs.Party.{nobody};
ghost use Rattle.sj_semantics.specs.Program.{Program};

use crate::ends::{begin, make_place, pass_on, seen_at, store};
use crate::forwarder::Forwarder;
use crate::frame::{ForwardFrame, Sent, onward};
use crate::lanes::{make_room, put_all, put_frame};
use crate::records::Kind;
use sj_base::{EndId, NoMemory};
use sj_offers::offer;

impl Forwarder {
    /// A frame that fits comes from that party.
    pub(crate) fn deliver(&mut self, from: u16, frame: ForwardFrame) -> Result<(), NoMemory>
        requires { HasRow from (frame_at frame) self.old }
        ensures ok { OnOk result (FrameComes from (frame_at frame) self.old self.new) }
        ensures err { OnErr result (ForwarderStays self.old self.new) }
    {
        match frame {
            ForwardFrame::In { to, hop, sent } => self.come_in(to, hop, sent),
            ForwardFrame::Out { of, hop, sent } => self.come_back(of, hop, sent),
            ForwardFrame::Claim { of, hop } => self.claimed(from, of, hop),
            ForwardFrame::Open { sess } => self.offered(from, sess),
        }
    }

    // A message for the end: after what is stored, or on to the next hop.
    fn come_in(&mut self, to: EndId, hop: usize, sent: Sent) -> Result<(), NoMemory>
        requires { IsSome (at_record (in_by (forwarder_at nobody self.old) to hop (sent_at sent))
            (records_in self.old.ends.items to hop)) }
        ensures ok { OnOk result ((g : Program) → DoesSo self.old
            (at_record (in_by (forwarder_at g self.old) to hop (sent_at sent))
            (records_in self.old.ends.items to hop)) self.new) }
        ensures err { OnErr result (ForwarderStays self.old self.new) }
    {
        let Some(seen) = seen_at(&self.ends, to, hop) else {
            unreachable!()
        };
        match seen.kind {
            Kind::Held => store(&mut self.ends, to, hop, sent),
            Kind::Parked(_) => store(&mut self.ends, to, hop, sent),
            Kind::Passing(party) => {
                make_room(self.alloc, &mut self.outs, party, 1)?;
                put_frame(
                    &mut self.outs,
                    party,
                    ForwardFrame::In {
                        to,
                        hop: hop + 1,
                        sent,
                    },
                );
                Ok(())
            }
            Kind::Closed => unreachable!(),
        }
    }

    // A message of the end, at a record that isn't in use: on to the hop before, or to the other
    // end.
    fn come_back(&mut self, of: EndId, hop: usize, sent: Sent) -> Result<(), NoMemory>
        requires { IsSome (at_record (out_by (forwarder_at nobody self.old) of hop (sent_at sent))
            (records_in self.old.ends.items of hop)) }
        ensures ok { OnOk result ((g : Program) → DoesSo self.old
            (at_record (out_by (forwarder_at g self.old) of hop (sent_at sent))
            (records_in self.old.ends.items of hop)) self.new) }
        ensures err { OnErr result (ForwarderStays self.old self.new) }
    {
        let Some(seen) = seen_at(&self.ends, of, hop) else {
            unreachable!()
        };
        make_room(self.alloc, &mut self.outs, seen.behind, 1)?;
        put_frame(&mut self.outs, seen.behind, onward(of, hop, sent));
        Ok(())
    }

    // The party asks for what waits: all of it goes there, and all that comes.
    fn claimed(&mut self, from: u16, of: EndId, hop: usize) -> Result<(), NoMemory>
        requires { IsSome (at_record (claim_by (forwarder_at nobody self.old) of hop from)
            (records_in self.old.ends.items of hop)) }
        ensures ok { OnOk result ((g : Program) → DoesSo self.old
            (at_record (claim_by (forwarder_at g self.old) of hop from)
            (records_in self.old.ends.items of hop)) self.new) }
        ensures err { OnErr result (ForwarderStays self.old self.new) }
    {
        let Some(seen) = seen_at(&self.ends, of, hop) else {
            unreachable!()
        };
        let Kind::Parked(waiting) = seen.kind else {
            unreachable!()
        };
        make_room(self.alloc, &mut self.outs, from, waiting)?;
        let messages = pass_on(&mut self.ends, of, hop, from);
        put_all(&mut self.outs, from, of, hop + 1, messages);
        Ok(())
    }

    // A session of that party: its offered end is held here, and the party offers it.
    fn offered(&mut self, from: u16, sess: u32) -> Result<(), NoMemory>
        requires { IsSome (open_comes (forwarder_at nobody self.old) from sess) }
        ensures ok { OnOk result ((g : Program) → DoesSo self.old
            (open_comes (forwarder_at g self.old) from sess) self.new) }
        ensures err { OnErr result (ForwarderStays self.old self.new) }
    {
        let end = EndId { sess, side: 1 };
        make_place(self.alloc, &mut self.ends, end, 0)?;
        offer(self.alloc, &mut self.offers, from, sess)?;
        begin(self.alloc, &mut self.ends, end, 0, from);
        Ok(())
    }
}
