//! What a party does with an end that it uses.
ghost use Rattle.std.specs.Prelude.{◌≡◌, ◌+◌, ◌<◌, ◌≤◌, ◌∷◌, ◌++◌, [], Some, None, IsSome, IfOk, IfErr, OnErr, OnOk, true};
ghost use Rattle.std.specs.Prelude.{List, length, map, slice_get, option_map, if◌then◌else◌};
ghost use Rattle.sj_base.specs.declared.Msg.{Msg};
ghost use Rattle.sj_rules.specs.Node as node;
ghost use Rattle.sj_rules.specs.Node.{held_behind_send, held_behind_take};
ghost use Rattle.sj_rules.specs.Record as rules;
ghost use Rattle.sj_rules.specs.Limits.{limit_of_messages};
ghost use Rattle.sj_table.specs.declared.table.Spot.{Spot};
ghost use Rattle.sj_end.specs.Bodies.{IsCounted};
ghost use Rattle.sj_end.specs.Views.{arrived_at, body_at, deferred_at, expected_at, first_held, held_at};

use crate::{Body, Closed, Deferred, End, Expected, Held, Parked, Room, other_end};
use sj_base::{EndId, Msg, NoMemory};
use sj_table::Spot;
use std::alloc::Global;
use std::collections::VecDeque;

impl Held {
    /// Sends a message on the end, which stands at the next spot then, and answers what goes to the
    /// peer.
    pub fn send(&mut self, msg: Msg, next: Spot) -> Result<Body, NoMemory>
        requires { self.old.end.sent < limit_of_messages }
        ensures ok { OnOk result (held_at self.new ≡ held_behind_send (held_at self.old) msg next) }
        ensures body { IfOk result (λ b. body_at b ≡ rules.Carry (rules.other_end self.old.end.id)
            self.old.end.conn self.old.end.sent self.old.end.taken msg) }
        ensures err { OnErr result (held_at self.new ≡ held_at self.old) }
    {
        let end = &mut self.end;
        let body = Body::Carry {
            to: other_end(end.id),
            conn: end.conn,
            number: end.sent,
            taken: end.taken,
            msg,
        };
        end.put(msg, next)?;
        Ok(body)
    }

    /// A record of an end on which nothing was sent or taken yet.
    pub fn first(alloc: Global, id: EndId, peer: u16, place: Spot) -> Held
        ensures { held_at result ≡ first_held id peer place }
    {
        Held {
            end: End {
                id,
                place,
                conn: 0,
                peer,
                sent: 0,
                taken: 0,
                base: 0,
                cache: VecDeque::new(alloc),
                hops: 0,
            },
            untaken: VecDeque::new(alloc),
            fin: false,
        }
    }

    /// The next message that can be taken.
    pub fn head(&self) -> Option<Msg>
        ensures { result ≡ slice_get self.now.untaken.items 0 }
    {
        self.untaken.front().copied()
    }

    /// Takes the next message of the end, which stands at the next spot then.
    pub fn take(&mut self, next: Spot) -> Msg
        requires { IsSome (slice_get self.old.untaken.items 0) }
        ensures { (rest : List Msg) × (self.old.untaken.items ≡ result ∷ rest)
            × (held_at self.new ≡ held_behind_take (held_at self.old) rest next) }
    {
        let Some(msg) = self.untaken.pop_front() else {
            unreachable!()
        };
        let end = &mut self.end;
        end.taken += 1;
        end.place = next;
        msg
    }

    /// Parks the end, which is sent on, in the box of that room. Its untaken messages are dropped.
    pub fn park(self, room: Room) -> Parked
        ensures { result.end.value ≡ self.end }
    {
        let mut end = room.end;
        *end = self.end;
        Parked { end }
    }

    /// Closes the end, and answers what goes to the peer. The record stays until the peer's Fin is
    /// there.
    pub fn close(self) -> (Option<Closed>, Body)
        ensures closed { option_map (λ c. c.end) result.0
            ≡ (if self.fin then None else Some self.end) }
        ensures body { body_at result.1
            ≡ rules.Fin (rules.other_end self.end.id) self.end.conn self.end.sent }
    {
        let body = Body::Fin {
            to: other_end(self.end.id),
            conn: self.end.conn,
            number: self.end.sent,
        };
        let closed = if self.fin {
            None
        } else {
            Some(Closed { end: self.end })
        };
        (closed, body)
    }

    /// Puts the message of a Carry, which said so many were taken, after the untaken ones.
    pub fn arrived(&mut self, taken: u32, msg: Msg) -> Result<(), NoMemory>
        requires told { taken ≤ self.old.end.sent }
        requires room { self.old.end.taken + length self.old.untaken.items ≤ limit_of_messages }
        ensures ok { OnOk result (held_at self.new ≡ arrived_at (held_at self.old) taken msg) }
        ensures err { OnErr result (held_at self.new ≡ held_at self.old) }
    {
        self.untaken.push_back(msg)?;
        self.end.trim(taken);
        Ok(())
    }

    /// Gives an offered end the place of the statement that accepts it.
    pub fn accept(&mut self, place: Spot)
        requires { self.old.end.place.node ≡ 0 }
        ensures { held_at self.new ≡ node.held_at place (held_at self.old) }
    {
        self.end.place = place;
    }

    /// Notes that the peer's Fin is there.
    pub fn fin_came(&mut self)
        ensures { held_at self.new ≡ record (held_at self.old) { fin = true } }
    {
        self.fin = true;
    }
}

impl Closed {
    /// Ends the record, since the peer's Fin is there.
    pub fn fin_came(self) {}
}

impl Expected {
    /// Puts a body that came after the deferred ones.
    pub fn defer(&mut self, from: u16, body: Body) -> Result<(), (Body, NoMemory)>
        requires { IsCounted (body_at body) }
        ensures ok { OnOk result (expected_at self.new
            ≡ rules.Expected self.old.keeper self.old.place
            (map deferred_at self.old.deferred.items ++ record { party = from; body = body_at body } ∷ [])) }
        ensures id { self.new.id ≡ self.old.id }
        ensures err { OnErr result (expected_at self.new ≡ expected_at self.old) }
        ensures back { IfErr result (λ e. e.0 ≡ body) }
    {
        match self.deferred.push(Deferred { from, body }) {
            Ok(()) => Ok(()),
            Err(refused) => Err((refused.value.body, NoMemory)),
        }
    }
}
