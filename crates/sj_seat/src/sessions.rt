//! Sessions that a builder's code opens with another party.
ghost use Rattle.std.specs.Prelude.{◌≡◌, ◌<◌, ◌∷◌, Err, IfErr, IfOk, List, None, OnErr, OnOk, length, vec_capacity, vec_len};
ghost use Rattle.sj_lang.specs.FileAt.{FileAt};
ghost use Rattle.sj_node.specs.Node.{clock_of};
ghost use Rattle.sj_node.specs.Reading.{parties_of};
ghost use Rattle.sj_rules.specs.Limits.{clock_end};
ghost use Rattle.sj_seat.specs.Asked.{IsOpenable};
ghost use Rattle.sj_seat.specs.Counted.{Counted};
ghost use Rattle.sj_seat.specs.Logged.{OpenedLast};
ghost use Rattle.sj_seat.specs.Views.{calls_of, ends_of, may_of, node_of, table_of, worker_of};
ghost use Rattle.sj_seat.specs.Went.{IsHalt, IsHeldUp, IsRefused, Keeps, Rests, SameBounds, Went, first_open_rule};
ghost use Rattle.sj_seat.specs.Wishes.{open_wished};
ghost use Rattle.sj_seat_laws.specs.Calls as calls;
ghost use Rattle.sj_seat_laws.specs.Calls.{place_opened};
ghost use Rattle.sj_seat_laws.specs.Guards.{opened_place, with_opened};
ghost use Rattle.sj_work.specs.Views.{stop_of};
ghost use Rattle.sj_work.specs.Worked.{kept_stop};

use crate::deeds::do_open;
use crate::ends::hold;
use crate::turns::is_waiting;
use crate::{Guest, OpenWish, SeatRefusal};
use sj_base::EndId;
use sj_lane::{InLane, OutLane};
use sj_node::Halt;
use sj_table::Spot;
use sj_work::Gate;

impl<O: OutLane, I: InLane, G: Gate> Guest<'_, O, I, G> {
    /// Requests a session of the protocol at that party; the party's own end of it, which it holds
    /// from then on. The session is open at once, whether the other party accepts it later or not.
    pub fn request(&mut self, party: u16, protocol: u16) -> Result<EndId, SeatRefusal>
        ensures ok { (file : FileAt) (rest : List calls.Call) →
            length file.parties ≡ parties_of (node_of self.old) → OnOk result
            (Went O.OutLane I.InLane file (calls.requests party protocol ∷ rest) rest self.old self.new) }
        ensures err { (file : FileAt) (rest : List calls.Call) →
            length file.parties ≡ parties_of (node_of self.old) → OnErr result
            (Went O.OutLane I.InLane file rest rest self.old self.new) }
        ensures ends { IfOk result (λ e. ends_of self.new ≡ with_opened (ends_of self.old) e
            (place_opened (may_of self.old).requests party protocol)) }
        ensures opened { IfOk result (OpenedLast (worker_of self.new) (OpenWish.Request party protocol)) }
        ensures rests { OnErr result (Rests self.old self.new) }
        ensures keeps { Keeps (node_of self.old) (node_of self.new) }
        ensures bounds { SameBounds self.old self.new }
        ensures allowed { OnOk result (first_open_rule self.old (OpenWish.Request party protocol) ≡ None) }
        ensures cause { IfErr result (λ r. IsRefused
            (first_open_rule self.old (OpenWish.Request party protocol)) r
            (calls.requests party protocol) self.old self.new) }
    {
        self.open(OpenWish::Request { party, protocol })
    }

    /// Accepts the next session that the party requested, as one of the protocol; the party's own end
    /// of it, which it holds from then on. It waits until a session is offered.
    pub fn accept(&mut self, party: u16, protocol: u16) -> Result<EndId, SeatRefusal>
        ensures ok { (file : FileAt) (rest : List calls.Call) →
            length file.parties ≡ parties_of (node_of self.old) → OnOk result
            (Went O.OutLane I.InLane file (calls.accepts party protocol ∷ rest) rest self.old self.new) }
        ensures err { (file : FileAt) (rest : List calls.Call) →
            length file.parties ≡ parties_of (node_of self.old) → OnErr result
            (Went O.OutLane I.InLane file rest rest self.old self.new) }
        ensures ends { IfOk result (λ e. ends_of self.new ≡ with_opened (ends_of self.old) e
            (place_opened (may_of self.old).accepts party protocol)) }
        ensures opened { IfOk result (OpenedLast (worker_of self.new) (OpenWish.Accept party protocol)) }
        ensures rests { OnErr result (Rests self.old self.new) }
        ensures keeps { Keeps (node_of self.old) (node_of self.new) }
        ensures bounds { SameBounds self.old self.new }
        ensures allowed { OnOk result (first_open_rule self.old (OpenWish.Accept party protocol) ≡ None) }
        ensures cause { IfErr result (λ r. IsRefused
            (first_open_rule self.old (OpenWish.Accept party protocol)) r
            (calls.accepts party protocol) self.old self.new) }
    {
        self.open(OpenWish::Accept { party, protocol })
    }

    /// Opens the session that the code asks for; the party's own end of it, which it holds from then
    /// on. It waits as long as there are looks. What is refused leaves the ends and the count of calls
    /// as they were.
    pub fn open(&mut self, wish: OpenWish) -> Result<EndId, SeatRefusal>
        // The call is made, or none is, whatever the code calls later.
        ensures ok { (file : FileAt) (rest : List calls.Call) →
            length file.parties ≡ parties_of (node_of self.old) → OnOk result
            (Went O.OutLane I.InLane file (open_wished wish ∷ rest) rest self.old self.new) }
        ensures err { (file : FileAt) (rest : List calls.Call) →
            length file.parties ≡ parties_of (node_of self.old) → OnErr result
            (Went O.OutLane I.InLane file rest rest self.old self.new) }
        ensures ends { IfOk result (λ e. ends_of self.new ≡ with_opened (ends_of self.old) e
            (opened_place (may_of self.old) (open_wished wish))) }
        ensures opened { IfOk result (OpenedLast (worker_of self.new) wish) }
        ensures rests { OnErr result (Rests self.old self.new) }
        ensures keeps { Keeps (node_of self.old) (node_of self.new) }
        ensures bounds { SameBounds self.old self.new }
        ensures counts { Counted O.OutLane I.InLane (worker_of self.old) (worker_of self.new) }

        // No rule refuses what is done; what isn't done has its cause.
        ensures allowed { OnOk result (first_open_rule self.old wish ≡ None) }
        ensures cause { IfErr result (λ r.
            IsRefused (first_open_rule self.old wish) r (open_wished wish) self.old self.new) }
    {
        match self.guard().open(wish) {
            Ok(place) => self.act_open(wish, place),
            Err(refusal) => Err(refusal),
        }
    }

    // Opens the session, where it can be done within as many turns in vain as there are looks.
    fn act_open(&mut self, wish: OpenWish, place: Spot) -> Result<EndId, SeatRefusal>
        requires guarded { IsOpenable (table_of self.old) (may_of self.old) (ends_of self.old)
            (calls_of self.old) wish place }
        ensures ok { (file : FileAt) (rest : List calls.Call) →
            length file.parties ≡ parties_of (node_of self.old) → OnOk result
            (Went O.OutLane I.InLane file (open_wished wish ∷ rest) rest self.old self.new) }
        ensures err { (file : FileAt) (rest : List calls.Call) →
            length file.parties ≡ parties_of (node_of self.old) → OnErr result
            (Went O.OutLane I.InLane file rest rest self.old self.new) }
        ensures ends { IfOk result (λ e. ends_of self.new ≡ with_opened (ends_of self.old) e
            (opened_place (may_of self.old) (open_wished wish))) }
        ensures opened { IfOk result (OpenedLast (worker_of self.new) wish) }
        ensures rests { OnErr result (Rests self.old self.new) }
        ensures keeps { Keeps (node_of self.old) (node_of self.new) }
        ensures bounds { SameBounds self.old self.new }
        ensures counts { Counted O.OutLane I.InLane (worker_of self.old) (worker_of self.new) }
        ensures cause { IfErr result (λ r. IsHeldUp r (open_wished wish) self.new) }
    {
        for _ in 0..self.looks {
            let answer = self.attempt_open(wish, place);
            if !is_waiting(&answer) {
                return answer;
            }
            if let Some(stop) = self.wait() {
                return Err(SeatRefusal::Stopped(stop));
            }
        }
        self.attempt_open(wish, place)
    }

    // Opens the session, where it can be done now, and pushes what waits then.
    fn attempt_open(&mut self, wish: OpenWish, place: Spot) -> Result<EndId, SeatRefusal>
        requires guarded { IsOpenable (table_of self.old) (may_of self.old) (ends_of self.old)
            (calls_of self.old) wish place }
        ensures ok { (file : FileAt) (rest : List calls.Call) →
            length file.parties ≡ parties_of (node_of self.old) → OnOk result
            (Went O.OutLane I.InLane file (open_wished wish ∷ rest) rest self.old self.new) }
        ensures err { (file : FileAt) (rest : List calls.Call) →
            length file.parties ≡ parties_of (node_of self.old) → OnErr result
            (Went O.OutLane I.InLane file rest rest self.old self.new) }
        ensures ends { IfOk result (λ e. ends_of self.new ≡ with_opened (ends_of self.old) e
            (opened_place (may_of self.old) (open_wished wish))) }
        ensures opened { IfOk result (OpenedLast (worker_of self.new) wish) }
        ensures rests { OnErr result (Rests self.old self.new) }
        ensures keeps { Keeps (node_of self.old) (node_of self.new) }
        ensures bounds { SameBounds self.old self.new }
        ensures counts { Counted O.OutLane I.InLane (worker_of self.old) (worker_of self.new) }
        ensures cause { IfErr result (λ r. IsHeldUp r (open_wished wish) self.new) }
        ensures waits { result ≡ Err SeatRefusal.Waiting →
            kept_stop (stop_of (worker_of self.new)) ≡ None }
    {
        if let Some(stop) = self.stopped() {
            return Err(SeatRefusal::Stopped(stop));
        }
        if self.ends.reserve(1).is_err() {
            return Err(SeatRefusal::NoMemory);
        }
        match self.make_open(wish, place) {
            Ok(end) => {
                self.settle(true);
                Ok(end)
            }
            Err(halt) => Err(self.refused(halt)),
        }
    }

    // Opens the session, where the node can.
    fn make_open(&mut self, wish: OpenWish, place: Spot) -> Result<EndId, Halt>
        requires guarded { IsOpenable (table_of self.old) (may_of self.old) (ends_of self.old)
            (calls_of self.old) wish place }
        requires clock { clock_of (node_of self.old) < clock_end }
        requires room { vec_len self.old.ends < vec_capacity self.old.ends }
        ensures ok { (file : FileAt) (rest : List calls.Call) →
            length file.parties ≡ parties_of (node_of self.old) → OnOk result
            (Went O.OutLane I.InLane file (open_wished wish ∷ rest) rest self.old self.new) }
        ensures err { (file : FileAt) (rest : List calls.Call) →
            length file.parties ≡ parties_of (node_of self.old) → OnErr result
            (Went O.OutLane I.InLane file rest rest self.old self.new) }
        ensures ends { IfOk result (λ e. ends_of self.new ≡ with_opened (ends_of self.old) e
            (opened_place (may_of self.old) (open_wished wish))) }
        ensures opened { IfOk result (OpenedLast (worker_of self.new) wish) }
        ensures rests { OnErr result (Rests self.old self.new) }
        ensures keeps { Keeps (node_of self.old) (node_of self.new) }
        ensures bounds { SameBounds self.old self.new }
        ensures counts { Counted O.OutLane I.InLane (worker_of self.old) (worker_of self.new) }
        ensures stop { stop_of (worker_of self.new) ≡ stop_of (worker_of self.old) }
        ensures cause { IfErr result (λ h. IsHalt h (open_wished wish) self.new) }
    {
        match do_open(&mut self.worker, wish, place, self.gate) {
            Ok(end) => {
                hold(&self.table, &mut self.ends, end, place);
                self.calls += 1;
                Ok(end)
            }
            Err(halt) => Err(halt),
        }
    }
}
