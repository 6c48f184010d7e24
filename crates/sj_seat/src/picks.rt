//! Ends on which a message is there, and a take from the first of several.
ghost use Rattle.std.specs.Prelude.{◌≡◌, ◌∷◌, IfErr, IfOk, IfSome, List, None, OnErr, OnOk, Some, false, is_some, length, true};
ghost use Rattle.sj_lang.specs.FileAt.{FileAt};
ghost use Rattle.sj_node.specs.Node.{Stays, next_head};
ghost use Rattle.sj_node.specs.Reading.{parties_of};
ghost use Rattle.sj_seat.specs.Counted.{Counted};
ghost use Rattle.sj_seat.specs.Logged.{TookLast};
ghost use Rattle.sj_seat.specs.Looked.{LookedAt};
ghost use Rattle.sj_seat.specs.Ready.{IsAnyRefused, IsCutShort, IsNoneTaken, IsReadyRefused, IsUnseen, TookFirst, any_rule, first_there, ready_rule};
ghost use Rattle.sj_seat.specs.Rules.{first_refusal, take_tests};
ghost use Rattle.sj_seat.specs.Views.{calls_of, ends_of, node_of, worker_of};
ghost use Rattle.sj_seat.specs.Went.{Keeps, Rests, SameBounds, Went};
ghost use Rattle.sj_seat_laws.specs.Calls as calls;

use crate::{Guest, SeatRefusal};
use sj_base::{EndId, Msg};
use sj_lane::{InLane, OutLane};
use sj_work::Gate;

impl<O: OutLane, I: InLane, G: Gate> Guest<'_, O, I, G> {
    /// Whether a message is there for an end that the party holds. Where none is there yet, what came
    /// is delivered first.
    pub fn ready(&mut self, end: EndId) -> Result<bool, SeatRefusal>
        ensures there { IfOk result (λ b. b ≡ is_some (next_head (node_of self.new) end)) }
        ensures looked { IfOk result (λ b. b ≡ false →
            LookedAt I.InLane 1 (worker_of self.old) (worker_of self.new)) }

        // The code calls nothing, whatever it calls later.
        ensures went { (file : FileAt) (rest : List calls.Call) →
            length file.parties ≡ parties_of (node_of self.old) →
            Went O.OutLane I.InLane file rest rest self.old self.new }
        ensures rests { Rests self.old self.new }
        ensures keeps { Keeps (node_of self.old) (node_of self.new) }
        ensures bounds { SameBounds self.old self.new }
        ensures counts { Counted O.OutLane I.InLane (worker_of self.old) (worker_of self.new) }

        // No rule refuses what is answered; what isn't has its cause.
        ensures allowed { OnOk result (ready_rule self.old end ≡ None) }
        ensures cause { IfErr result (λ r.
            IsReadyRefused (ready_rule self.old end) r self.old self.new) }
    {
        match self.guard().ready(end) {
            Ok(()) => self.look(end),
            Err(refusal) => Err(refusal),
        }
    }

    // The same of any end.
    fn look(&mut self, end: EndId) -> Result<bool, SeatRefusal>
        ensures there { IfOk result (λ b. b ≡ is_some (next_head (node_of self.new) end)) }
        ensures looked { IfOk result (λ b. b ≡ false →
            LookedAt I.InLane 1 (worker_of self.old) (worker_of self.new)) }
        ensures went { (file : FileAt) (rest : List calls.Call) →
            length file.parties ≡ parties_of (node_of self.old) →
            Went O.OutLane I.InLane file rest rest self.old self.new }
        ensures rests { Rests self.old self.new }
        ensures keeps { Keeps (node_of self.old) (node_of self.new) }
        ensures bounds { SameBounds self.old self.new }
        ensures counts { Counted O.OutLane I.InLane (worker_of self.old) (worker_of self.new) }
        ensures cause { IfErr result (λ r. IsUnseen r self.new) }
    {
        if self.worker.node().head(end).is_some() {
            return Ok(true);
        }
        match self.wait() {
            Some(stop) => Err(SeatRefusal::Stopped(stop)),
            None => Ok(self.worker.node().head(end).is_some()),
        }
    }

    /// The next message of the first of these ends on which one is there, which is no end. It waits
    /// as a take does.
    pub fn take_any(&mut self, ends: &[EndId]) -> Result<(EndId, Msg), SeatRefusal>
        // The call is made, or none is, whatever the code calls later.
        ensures ok { IfOk result (λ r. (file : FileAt) (rest : List calls.Call) →
            length file.parties ≡ parties_of (node_of self.old) →
            Went O.OutLane I.InLane file (calls.takes r.0 ∷ rest) rest self.old self.new) }
        ensures err { (file : FileAt) (rest : List calls.Call) →
            length file.parties ≡ parties_of (node_of self.old) → OnErr result
            (Went O.OutLane I.InLane file rest rest self.old self.new) }
        ensures rests { OnErr result (Rests self.old self.new) }
        ensures keeps { Keeps (node_of self.old) (node_of self.new) }
        ensures bounds { SameBounds self.old self.new }
        ensures counts { Counted O.OutLane I.InLane (worker_of self.old) (worker_of self.new) }

        // It is from the first end on which a message is there, at once where one is there already.
        ensures took { IfOk result (λ r. TookLast (worker_of self.new) r.0 r.1) }
        ensures first { IfOk result (λ r.
            TookFirst O.OutLane I.InLane ends.now r.0 self.old self.new) }
        ensures at_once { IfOk result (λ r. IfSome (first_there (node_of self.old) ends.now) (λ e. r.0 ≡ e)) }

        // No rule refuses what is done; what isn't done has its cause.
        ensures allowed { OnOk result (any_rule self.old ends.now ≡ None) }
        ensures cause { IfErr result (λ r.
            IsAnyRefused (any_rule self.old ends.now) r ends.now self.old self.new) }
    {
        if let Some(refusal) = self.refused_any(ends) {
            return Err(refusal);
        }
        match self.first_ready(ends) {
            Some(end) => self.take_there(end),
            None => self.wait_for_any(ends),
        }
    }

    // The same, where no rule refuses it and none has a message.
    fn wait_for_any(&mut self, ends: &[EndId]) -> Result<(EndId, Msg), SeatRefusal>
        requires allowed { any_rule self.old ends.now ≡ None }
        requires none { first_there (node_of self.old) ends.now ≡ None }
        ensures ok { IfOk result (λ r. (file : FileAt) (rest : List calls.Call) →
            length file.parties ≡ parties_of (node_of self.old) →
            Went O.OutLane I.InLane file (calls.takes r.0 ∷ rest) rest self.old self.new) }
        ensures err { (file : FileAt) (rest : List calls.Call) →
            length file.parties ≡ parties_of (node_of self.old) → OnErr result
            (Went O.OutLane I.InLane file rest rest self.old self.new) }
        ensures rests { OnErr result (Rests self.old self.new) }
        ensures keeps { Keeps (node_of self.old) (node_of self.new) }
        ensures bounds { SameBounds self.old self.new }
        ensures counts { Counted O.OutLane I.InLane (worker_of self.old) (worker_of self.new) }
        ensures took { IfOk result (λ r. TookLast (worker_of self.new) r.0 r.1) }
        ensures first { IfOk result (λ r.
            TookFirst O.OutLane I.InLane ends.now r.0 self.old self.new) }
        ensures cause { IfErr result (λ r. IsNoneTaken r ends.now self.new) }
    {
        for _ in 0..self.looks {
            if let Some(stop) = self.wait() {
                return Err(SeatRefusal::Stopped(stop));
            }
            if let Some(end) = self.first_ready(ends) {
                return self.take_there(end);
            }
        }
        Err(SeatRefusal::Waiting)
    }

    // Takes the message that is there.
    fn take_there(&mut self, end: EndId) -> Result<(EndId, Msg), SeatRefusal>
        requires allowed { first_refusal (take_tests (calls_of self.old) (ends_of self.old) end) ≡ None }
        requires there { is_some (next_head (node_of self.old) end) ≡ true }
        ensures ok { (file : FileAt) (rest : List calls.Call) →
            length file.parties ≡ parties_of (node_of self.old) → OnOk result
            (Went O.OutLane I.InLane file (calls.takes end ∷ rest) rest self.old self.new) }
        ensures err { (file : FileAt) (rest : List calls.Call) →
            length file.parties ≡ parties_of (node_of self.old) → OnErr result
            (Went O.OutLane I.InLane file rest rest self.old self.new) }
        ensures rests { OnErr result (Rests self.old self.new) }
        ensures keeps { Keeps (node_of self.old) (node_of self.new) }
        ensures bounds { SameBounds self.old self.new }
        ensures counts { Counted O.OutLane I.InLane (worker_of self.old) (worker_of self.new) }
        ensures end { IfOk result (λ r. r.0 ≡ end) }
        ensures took { IfOk result (λ r. TookLast (worker_of self.new) end r.1) }
        ensures cause { IfErr result (λ r. IsCutShort r end self.new) }
        ensures stays { OnErr result (Stays (node_of self.old) (node_of self.new)) }
    {
        match self.guard().take(end) {
            Ok(call) => match self.attempt(call) {
                Ok(Some(msg)) => Ok((end, msg)),
                Ok(None) => unreachable!(),
                Err(refusal) => Err(refusal),
            },
            Err(_) => unreachable!(),
        }
    }

    // The first of these ends on which a message is there.
    fn first_ready(&self, ends: &[EndId]) -> Option<EndId>
        ensures { result ≡ first_there (node_of self.now) ends.now }
    {
        for end in ends {
            if self.worker.node().head(*end).is_some() {
                return Some(*end);
            }
        }
        None
    }

    // The first rule that refuses a take from one of these ends.
    fn refused_any(&self, ends: &[EndId]) -> Option<SeatRefusal>
        ensures { result ≡ any_rule self.now ends.now }
    {
        for end in ends {
            if let Err(refusal) = self.guard().take(*end) {
                return Some(refusal);
            }
        }
        None
    }
}
