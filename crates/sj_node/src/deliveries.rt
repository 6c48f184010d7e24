//! Rows of frames, with what they send.
ghost use Rattle.std.specs.Prelude.{◌≡◌, ◌<◌, OnOk, OnErr, IsErrOf, None};
ghost use Rattle.sj_end.specs.Views.{body_at};
ghost use Rattle.sj_end.specs.Bodies.{IsCounted};
ghost use Rattle.sj_node.specs.Keeping.{kept_of};
ghost use Rattle.sj_node.specs.Node.{connect_count};
ghost use Rattle.sj_node.specs.Rows.{Goes, IsRow, LacksAny, LacksRow, Rests};
ghost use Rattle.sj_node.specs.Slots.{olds_in};
ghost use Rattle.sj_rules.specs.Frames.{IsNoGive};
ghost use Rattle.sj_rules.specs.Node.{with_number};
ghost use Rattle.sj_rules.specs.Record as rules;

use crate::carries::{carry_comes, fin_comes};
use crate::outs::{make_room, put_all, put_frame};
use crate::records::{
    OldKind, acked_to, cached_old_at, claimed, crossed_to, kept_at, parked_peer, signal_to_parked,
    signalled_out,
};
use crate::signals::{cached_at, signal_to_main};
use crate::{DeliverRefusal, Node};
use sj_base::EndId;
use sj_end::{Body, Frame};
use sj_handover::{acked, crossed};

impl Node {
    /// The row of a body that comes from that party, in an event of that clock; that of a Give is
    /// `give_row`.
    pub(crate) fn row(&mut self, from: u16, clock: u64, body: &Body) -> Result<(), DeliverRefusal>
        requires counted { IsCounted (body_at body.now) }
        requires other { IsNoGive (body_at body.now) }
        ensures ok { OnOk result (Goes self.old from (body_at body.now) clock self.new) }
        ensures unfit { IsErrOf result DeliverRefusal.Unfit → LacksAny self.old from (body_at body.now) }
        ensures err { OnErr result (Rests self.old self.new) }
        ensures connects { connect_count self.new ≡ connect_count self.old }
    {
        match body {
            Body::Carry {
                to,
                conn,
                number,
                taken,
                msg,
            } => carry_comes(
                &mut self.mains,
                &self.olds,
                from,
                *to,
                *conn,
                *number,
                *taken,
                *msg,
            ),
            Body::Fin { to, conn, number } => {
                fin_comes(&mut self.mains, &self.olds, from, *to, *conn, *number)
            }
            Body::Claim { of } => self.claim_row(from, clock, *of),
            Body::Ack { of, conn } => self.ack_row(from, clock, *of, *conn),
            Body::Signal {
                to,
                conn,
                party,
                taken,
            } => self.signal_row(from, clock, *to, *conn, *party, *taken),
            Body::Open { sess } => self.open_row(from, *sess),
            Body::Give { .. } => unreachable!(),
        }
    }

    fn claim_row(&mut self, from: u16, clock: u64, of: EndId) -> Result<(), DeliverRefusal>
        ensures ok { OnOk result (IsRow self.old from (rules.Claim of) clock self.new) }
        ensures unfit { IsErrOf result DeliverRefusal.Unfit → LacksRow self.old from (rules.Claim of) }
        ensures err { OnErr result (Rests self.old self.new) }
        ensures connects { connect_count self.new ≡ connect_count self.old }
    {
        let Some(to) = parked_peer(&self.olds, of) else {
            return Err(DeliverRefusal::Unfit);
        };
        make_room(self.alloc, &mut self.outs, to, 1)?;
        let post = claimed(&mut self.olds, of, from);
        put_frame(
            &mut self.outs,
            post.to,
            Frame {
                clock,
                body: post.body,
            },
        );
        Ok(())
    }

    fn ack_row(&mut self, from: u16, clock: u64, of: EndId, conn: u32) -> Result<(), DeliverRefusal>
        ensures ok { OnOk result (IsRow self.old from (rules.Ack of conn) clock self.new) }
        ensures unfit { IsErrOf result DeliverRefusal.Unfit → LacksRow self.old from (rules.Ack of conn) }
        ensures err { OnErr result (Rests self.old self.new) }
        ensures connects { connect_count self.new ≡ connect_count self.old }
    {
        let Some(to) = acked_to(&self.olds, from, of, conn) else {
            return Err(DeliverRefusal::Unfit);
        };
        make_room(self.alloc, &mut self.outs, to, 1)?;
        let post = acked(signalled_out(&mut self.olds, of));
        put_frame(
            &mut self.outs,
            post.to,
            Frame {
                clock,
                body: post.body,
            },
        );
        Ok(())
    }

    fn signal_at_main(
        &mut self,
        from: u16,
        clock: u64,
        to: EndId,
        conn: u32,
        party: u16,
        taken: u32,
    ) -> Result<(), DeliverRefusal>
        requires { with_number conn (olds_in self.old.olds.items to) ≡ None }
        ensures ok { OnOk result (IsRow self.old from (rules.Signal to conn party taken) clock self.new) }
        ensures unfit { IsErrOf result DeliverRefusal.Unfit →
            LacksRow self.old from (rules.Signal to conn party taken) }
        ensures err { OnErr result (Rests self.old self.new) }
        ensures connects { connect_count self.new ≡ connect_count self.old }
    {
        let frames = cached_at(&self.mains, to) + 2;
        make_room(self.alloc, &mut self.outs, from, frames)?;
        make_room(self.alloc, &mut self.outs, party, frames)?;
        let sent = signal_to_main(self.alloc, &mut self.mains, from, to, conn, party, taken);
        match sent {
            Ok(posts) => {
                put_all(&mut self.outs, clock, posts);
                Ok(())
            }
            Err(refusal) => Err(refusal),
        }
    }

    fn signal_at_parked(
        &mut self,
        from: u16,
        clock: u64,
        to: EndId,
        conn: u32,
        party: u16,
        taken: u32,
    ) -> Result<(), DeliverRefusal>
        requires { kept_of (with_number conn (olds_in self.old.olds.items to)) ≡ OldKind.Parked }
        ensures ok { OnOk result (IsRow self.old from (rules.Signal to conn party taken) clock self.new) }
        ensures unfit { IsErrOf result DeliverRefusal.Unfit →
            LacksRow self.old from (rules.Signal to conn party taken) }
        ensures err { OnErr result (Rests self.old self.new) }
        ensures connects { connect_count self.new ≡ connect_count self.old }
    {
        let frames = cached_old_at(&self.olds, to) + 2;
        make_room(self.alloc, &mut self.outs, from, frames)?;
        make_room(self.alloc, &mut self.outs, party, frames)?;
        let sent = signal_to_parked(self.alloc, &mut self.olds, from, to, conn, party, taken);
        match sent {
            Ok(posts) => {
                put_all(&mut self.outs, clock, posts);
                Ok(())
            }
            Err(refusal) => Err(refusal),
        }
    }

    fn signal_at_signalled(
        &mut self,
        from: u16,
        clock: u64,
        to: EndId,
        conn: u32,
        party: u16,
        taken: u32,
    ) -> Result<(), DeliverRefusal>
        requires { kept_of (with_number conn (olds_in self.old.olds.items to)) ≡ OldKind.Signalled }
        ensures ok { OnOk result (IsRow self.old from (rules.Signal to conn party taken) clock self.new) }
        ensures unfit { IsErrOf result DeliverRefusal.Unfit →
            LacksRow self.old from (rules.Signal to conn party taken) }
        ensures err { OnErr result (Rests self.old self.new) }
        ensures connects { connect_count self.new ≡ connect_count self.old }
    {
        let Some(target) = crossed_to(&self.olds, from, to, conn, taken) else {
            return Err(DeliverRefusal::Unfit);
        };
        make_room(self.alloc, &mut self.outs, target, 1)?;
        let post = crossed(signalled_out(&mut self.olds, to), party, taken);
        put_frame(
            &mut self.outs,
            post.to,
            Frame {
                clock,
                body: post.body,
            },
        );
        Ok(())
    }

    fn signal_row(
        &mut self,
        from: u16,
        clock: u64,
        to: EndId,
        conn: u32,
        party: u16,
        taken: u32,
    ) -> Result<(), DeliverRefusal>
        ensures ok { OnOk result (IsRow self.old from (rules.Signal to conn party taken) clock self.new) }
        ensures unfit { IsErrOf result DeliverRefusal.Unfit →
            LacksRow self.old from (rules.Signal to conn party taken) }
        ensures err { OnErr result (Rests self.old self.new) }
        ensures connects { connect_count self.new ≡ connect_count self.old }
    {
        match kept_at(&self.olds, to, conn) {
            OldKind::Nothing => self.signal_at_main(from, clock, to, conn, party, taken),
            OldKind::Parked => self.signal_at_parked(from, clock, to, conn, party, taken),
            OldKind::Signalled => self.signal_at_signalled(from, clock, to, conn, party, taken),
        }
    }
}
