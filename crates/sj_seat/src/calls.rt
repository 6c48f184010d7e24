//! The calls that a builder's code makes.
ghost use Rattle.std.specs.Prelude.{◌≡◌, ◌∷◌, IfErr, IfOk, List, None, OnErr, OnOk, true, false, is_some, length, option_map};
ghost use Rattle.sj_base.specs.declared.Msg.TheVariants as msgs;
ghost use Rattle.sj_lang.specs.FileAt.{FileAt};
ghost use Rattle.sj_node.specs.Reading.{parties_of};
ghost use Rattle.sj_seat.specs.Counted.{Counted};
ghost use Rattle.sj_seat.specs.Logged.{TellsTaken, TookEnd, TookLast, end_named};
ghost use Rattle.sj_seat.specs.Opened.{openings_at};
ghost use Rattle.sj_seat.specs.Views.{calls_of, ends_of, held_by, may_of, node_of, table_of, texts_of, worker_of};
ghost use Rattle.sj_seat.specs.Went.{IsRefused, Keeps, Rests, SameBounds, Went, first_rule};
ghost use Rattle.sj_seat.specs.Wishes.{is_taking, wished};
ghost use Rattle.sj_seat_laws.specs.Calls as calls;
ghost use Rattle.sj_seat_laws.specs.Calls.{place_held};
ghost use Rattle.sj_table.specs.Spots.{place_in};

use crate::ends::{HeldEnd, spot_held};
use crate::{Guard, Guest, SeatRefusal, Wish};
use sj_base::{EndId, Msg};
use sj_lane::{InLane, OutLane};
use sj_table::Spot;
use sj_work::Gate;

impl<O, I, G> Guest<'_, O, I, G> {
    /// The ends that the party holds.
    pub fn ends(&self) -> &[HeldEnd]
        ensures { result.now ≡ held_by self.now }
    {
        &self.ends
    }

    /// What is ahead of the end, where the party holds it.
    pub fn ahead(&self, end: EndId) -> Option<Spot>
        ensures { option_map (place_in (table_of self.now)) result ≡ place_held (ends_of self.now) end }
    {
        spot_held(&self.ends, end)
    }

    /// What the rules ask of the party.
    pub fn guard(&self) -> Guard<'_>
        ensures table { result.table.now ≡ table_of self.now }
        ensures ends { result.ends.now ≡ held_by self.now }
        ensures may { openings_at result.table.now result.may.now ≡ may_of self.now }
        ensures texts { result.texts ≡ texts_of self.now }
        ensures calls { result.calls ≡ calls_of self.now }
    {
        Guard {
            table: &self.table,
            ends: &self.ends,
            may: &self.may,
            texts: self.texts,
            calls: self.calls,
        }
    }
}

impl<O: OutLane, I: InLane, G: Gate> Guest<'_, O, I, G> {
    /// Does what the code asks for; the message that it takes, if any. It waits as long as there are
    /// looks. What is refused leaves the ends and the count of calls as they were.
    pub fn perform(&mut self, wish: Wish) -> Result<Option<Msg>, SeatRefusal>
        // The call is made, or none is, whatever the code calls later.
        ensures ok { (file : FileAt) (rest : List calls.Call) →
            length file.parties ≡ parties_of (node_of self.old) → OnOk result
            (Went O.OutLane I.InLane file (wished wish ∷ rest) rest self.old self.new) }
        ensures err { (file : FileAt) (rest : List calls.Call) →
            length file.parties ≡ parties_of (node_of self.old) → OnErr result
            (Went O.OutLane I.InLane file rest rest self.old self.new) }
        ensures rests { OnErr result (Rests self.old self.new) }
        ensures keeps { Keeps (node_of self.old) (node_of self.new) }
        ensures bounds { SameBounds self.old self.new }
        ensures counts { Counted O.OutLane I.InLane (worker_of self.old) (worker_of self.new) }
        ensures takes { IfOk result (λ m. is_some m ≡ is_taking wish) }
        ensures tells { IfOk result (TellsTaken (worker_of self.new) (wished wish)) }

        // No rule refuses what is done; what isn't done has its cause.
        ensures allowed { OnOk result (first_rule self.old wish ≡ None) }
        ensures cause { IfErr result (λ r.
            IsRefused (first_rule self.old wish) r (wished wish) self.old self.new) }
    {
        match self.guard().check(wish) {
            Ok(call) => self.act(call),
            Err(refusal) => Err(refusal),
        }
    }

    /// Sends a number, a truth value or one of the texts that the code may name.
    pub fn send(&mut self, end: EndId, msg: Msg) -> Result<(), SeatRefusal>
        ensures ok { (file : FileAt) (rest : List calls.Call) →
            length file.parties ≡ parties_of (node_of self.old) → OnOk result
            (Went O.OutLane I.InLane file (calls.sends end msg ∷ rest) rest self.old self.new) }
        ensures err { (file : FileAt) (rest : List calls.Call) →
            length file.parties ≡ parties_of (node_of self.old) → OnErr result
            (Went O.OutLane I.InLane file rest rest self.old self.new) }
        ensures rests { OnErr result (Rests self.old self.new) }
        ensures keeps { Keeps (node_of self.old) (node_of self.new) }
        ensures bounds { SameBounds self.old self.new }
        ensures allowed { OnOk result (first_rule self.old (Wish.Send end msg) ≡ None) }
        ensures cause { IfErr result (λ r. IsRefused (first_rule self.old (Wish.Send end msg)) r
            (calls.sends end msg) self.old self.new) }
    {
        match self.perform(Wish::Send { end, msg }) {
            Ok(_) => Ok(()),
            Err(refusal) => Err(refusal),
        }
    }

    /// Sends the label.
    pub fn select(&mut self, end: EndId, label: u16) -> Result<(), SeatRefusal>
        ensures ok { (file : FileAt) (rest : List calls.Call) →
            length file.parties ≡ parties_of (node_of self.old) → OnOk result
            (Went O.OutLane I.InLane file (calls.sends end (msgs.Label label) ∷ rest) rest self.old self.new) }
        ensures err { (file : FileAt) (rest : List calls.Call) →
            length file.parties ≡ parties_of (node_of self.old) → OnErr result
            (Went O.OutLane I.InLane file rest rest self.old self.new) }
        ensures rests { OnErr result (Rests self.old self.new) }
        ensures keeps { Keeps (node_of self.old) (node_of self.new) }
        ensures bounds { SameBounds self.old self.new }
        ensures allowed { OnOk result (first_rule self.old (Wish.Send end (msgs.Label label)) ≡ None) }
        ensures cause { IfErr result (λ r. IsRefused (first_rule self.old (Wish.Send end (msgs.Label label))) r
            (calls.sends end (msgs.Label label)) self.old self.new) }
    {
        match self.perform(Wish::Send {
            end,
            msg: Msg::Label(label),
        }) {
            Ok(_) => Ok(()),
            Err(refusal) => Err(refusal),
        }
    }

    /// Says that the loop turns once more.
    pub fn more(&mut self, end: EndId) -> Result<(), SeatRefusal>
        ensures ok { (file : FileAt) (rest : List calls.Call) →
            length file.parties ≡ parties_of (node_of self.old) → OnOk result
            (Went O.OutLane I.InLane file (calls.sends end (msgs.More true) ∷ rest) rest self.old self.new) }
        ensures err { (file : FileAt) (rest : List calls.Call) →
            length file.parties ≡ parties_of (node_of self.old) → OnErr result
            (Went O.OutLane I.InLane file rest rest self.old self.new) }
        ensures rests { OnErr result (Rests self.old self.new) }
        ensures keeps { Keeps (node_of self.old) (node_of self.new) }
        ensures bounds { SameBounds self.old self.new }
        ensures allowed { OnOk result (first_rule self.old (Wish.Send end (msgs.More true)) ≡ None) }
        ensures cause { IfErr result (λ r. IsRefused (first_rule self.old (Wish.Send end (msgs.More true))) r
            (calls.sends end (msgs.More true)) self.old self.new) }
    {
        match self.perform(Wish::Send {
            end,
            msg: Msg::More(true),
        }) {
            Ok(_) => Ok(()),
            Err(refusal) => Err(refusal),
        }
    }

    /// Says that the loop is over.
    pub fn stop(&mut self, end: EndId) -> Result<(), SeatRefusal>
        ensures ok { (file : FileAt) (rest : List calls.Call) →
            length file.parties ≡ parties_of (node_of self.old) → OnOk result
            (Went O.OutLane I.InLane file (calls.sends end (msgs.More false) ∷ rest) rest self.old self.new) }
        ensures err { (file : FileAt) (rest : List calls.Call) →
            length file.parties ≡ parties_of (node_of self.old) → OnErr result
            (Went O.OutLane I.InLane file rest rest self.old self.new) }
        ensures rests { OnErr result (Rests self.old self.new) }
        ensures keeps { Keeps (node_of self.old) (node_of self.new) }
        ensures bounds { SameBounds self.old self.new }
        ensures allowed { OnOk result (first_rule self.old (Wish.Send end (msgs.More false)) ≡ None) }
        ensures cause { IfErr result (λ r. IsRefused (first_rule self.old (Wish.Send end (msgs.More false))) r
            (calls.sends end (msgs.More false)) self.old self.new) }
    {
        match self.perform(Wish::Send {
            end,
            msg: Msg::More(false),
        }) {
            Ok(_) => Ok(()),
            Err(refusal) => Err(refusal),
        }
    }

    /// Sends the second end on the first one; the party no longer has it then.
    pub fn delegate(&mut self, carrier: EndId, end: EndId) -> Result<(), SeatRefusal>
        ensures ok { (file : FileAt) (rest : List calls.Call) →
            length file.parties ≡ parties_of (node_of self.old) → OnOk result
            (Went O.OutLane I.InLane file (calls.delegates carrier end ∷ rest) rest self.old self.new) }
        ensures err { (file : FileAt) (rest : List calls.Call) →
            length file.parties ≡ parties_of (node_of self.old) → OnErr result
            (Went O.OutLane I.InLane file rest rest self.old self.new) }
        ensures rests { OnErr result (Rests self.old self.new) }
        ensures keeps { Keeps (node_of self.old) (node_of self.new) }
        ensures bounds { SameBounds self.old self.new }
        ensures allowed { OnOk result (first_rule self.old (Wish.Delegate carrier end) ≡ None) }
        ensures cause { IfErr result (λ r. IsRefused (first_rule self.old (Wish.Delegate carrier end)) r
            (calls.delegates carrier end) self.old self.new) }
    {
        match self.perform(Wish::Delegate { carrier, end }) {
            Ok(_) => Ok(()),
            Err(refusal) => Err(refusal),
        }
    }

    /// Closes the end, at which nothing is ahead.
    pub fn close(&mut self, end: EndId) -> Result<(), SeatRefusal>
        ensures ok { (file : FileAt) (rest : List calls.Call) →
            length file.parties ≡ parties_of (node_of self.old) → OnOk result
            (Went O.OutLane I.InLane file (calls.closes end ∷ rest) rest self.old self.new) }
        ensures err { (file : FileAt) (rest : List calls.Call) →
            length file.parties ≡ parties_of (node_of self.old) → OnErr result
            (Went O.OutLane I.InLane file rest rest self.old self.new) }
        ensures rests { OnErr result (Rests self.old self.new) }
        ensures keeps { Keeps (node_of self.old) (node_of self.new) }
        ensures bounds { SameBounds self.old self.new }
        ensures allowed { OnOk result (first_rule self.old (Wish.Close end) ≡ None) }
        ensures cause { IfErr result (λ r. IsRefused (first_rule self.old (Wish.Close end)) r
            (calls.closes end) self.old self.new) }
    {
        match self.perform(Wish::Close { end }) {
            Ok(_) => Ok(()),
            Err(refusal) => Err(refusal),
        }
    }

    /// The next message of the end, which is no end.
    pub fn take(&mut self, end: EndId) -> Result<Msg, SeatRefusal>
        ensures ok { (file : FileAt) (rest : List calls.Call) →
            length file.parties ≡ parties_of (node_of self.old) → OnOk result
            (Went O.OutLane I.InLane file (calls.takes end ∷ rest) rest self.old self.new) }
        ensures err { (file : FileAt) (rest : List calls.Call) →
            length file.parties ≡ parties_of (node_of self.old) → OnErr result
            (Went O.OutLane I.InLane file rest rest self.old self.new) }
        ensures took { IfOk result (TookLast (worker_of self.new) end) }
        ensures rests { OnErr result (Rests self.old self.new) }
        ensures keeps { Keeps (node_of self.old) (node_of self.new) }
        ensures bounds { SameBounds self.old self.new }
        ensures allowed { OnOk result (first_rule self.old (Wish.Take end) ≡ None) }
        ensures cause { IfErr result (λ r. IsRefused (first_rule self.old (Wish.Take end)) r
            (calls.takes end) self.old self.new) }
    {
        match self.perform(Wish::Take { end }) {
            Ok(Some(msg)) => Ok(msg),
            Ok(None) => unreachable!(),
            Err(refusal) => Err(refusal),
        }
    }

    /// The end that comes next on the end, which the party holds from then on; none where what came
    /// names none, as no run of an accepted file has it.
    pub fn take_end(&mut self, end: EndId) -> Result<Option<EndId>, SeatRefusal>
        ensures ok { (file : FileAt) (rest : List calls.Call) →
            length file.parties ≡ parties_of (node_of self.old) → OnOk result
            (Went O.OutLane I.InLane file (calls.takes end ∷ rest) rest self.old self.new) }
        ensures err { (file : FileAt) (rest : List calls.Call) →
            length file.parties ≡ parties_of (node_of self.old) → OnErr result
            (Went O.OutLane I.InLane file rest rest self.old self.new) }
        ensures took { IfOk result (TookEnd (worker_of self.new) end) }
        ensures rests { OnErr result (Rests self.old self.new) }
        ensures keeps { Keeps (node_of self.old) (node_of self.new) }
        ensures bounds { SameBounds self.old self.new }
        ensures allowed { OnOk result (first_rule self.old (Wish.TakeEnd end) ≡ None) }
        ensures cause { IfErr result (λ r. IsRefused (first_rule self.old (Wish.TakeEnd end)) r
            (calls.takes end) self.old self.new) }
    {
        match self.perform(Wish::TakeEnd { end }) {
            Ok(Some(msg)) => Ok(end_named(msg)),
            Ok(None) => unreachable!(),
            Err(refusal) => Err(refusal),
        }
    }
}

/// The end that the message names, if any.
fn end_named(msg: Msg) -> Option<EndId>
    ensures { result ≡ end_named msg }
{
    match msg {
        Msg::Sess { sess, side, .. } => Some(EndId { sess, side }),
        _ => None,
    }
}
