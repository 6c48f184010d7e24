//! Calls of a guest that no rule refuses, and the turns in which one waits.
ghost use Rattle.std.specs.Prelude.{◌≡◌, ◌<◌, ◌∷◌, Err, IfErr, IfOk, IfSome, IsTrue, List, None, OnErr, OnOk, Some};
ghost use Rattle.std.specs.Prelude.{is_some, length, vec_capacity, vec_len};
ghost use Rattle.sj_lang.specs.FileAt.{FileAt};
ghost use Rattle.sj_node.specs.Node.{Stays, clock_of};
ghost use Rattle.sj_node.specs.Reading.{parties_of};
ghost use Rattle.sj_node.specs.Seats.{is_take};
ghost use Rattle.sj_rules.specs.Limits.{clock_end};
ghost use Rattle.sj_seat.specs.Asked.{IsGuarded, asked};
ghost use Rattle.sj_seat.specs.Counted.{Counted};
ghost use Rattle.sj_seat.specs.Logged.{TellsTaken, last_act};
ghost use Rattle.sj_seat.specs.Looked.{LookedAt};
ghost use Rattle.sj_seat.specs.Views.{calls_of, ends_of, may_of, node_of, table_of, worker_of};
ghost use Rattle.sj_seat.specs.Went.{IsHalt, IsHeldUp, IsStopped, Keeps, Rests, SameBounds, Went};
ghost use Rattle.sj_seat_laws.specs.Calls as calls;
ghost use Rattle.sj_work.specs.Laned.{laned};
ghost use Rattle.sj_work.specs.Views.{stop_of};
ghost use Rattle.sj_work.specs.Worked.{kept_stop};

use crate::deeds::{deliver, do_call, for_good, push};
use crate::ends::go_on;
use crate::{Guest, SeatRefusal};
use sj_base::Msg;
use sj_end::CLOCK_END;
use sj_lane::{InLane, OutLane};
use sj_node::{Call, Halt};
use sj_work::{Gate, Stop};

impl<O: OutLane, I: InLane, G: Gate> Guest<'_, O, I, G> {
    /// One round: takes what came, and pushes what waits. Answers the stop that stays, if any.
    pub(crate) fn wait(&mut self) -> Option<Stop>
        ensures went { (file : FileAt) (rest : List calls.Call) →
            length file.parties ≡ parties_of (node_of self.old) →
            Went O.OutLane I.InLane file rest rest self.old self.new }
        ensures keeps { Keeps (node_of self.old) (node_of self.new) }
        ensures bounds { SameBounds self.old self.new }
        ensures rests { Rests self.old self.new }
        ensures acts { last_act (laned (worker_of self.new)).log
            ≡ last_act (laned (worker_of self.old)).log }
        ensures counts { Counted O.OutLane I.InLane (worker_of self.old) (worker_of self.new) }
        ensures none { result ≡ None → kept_stop (stop_of (worker_of self.new)) ≡ None }
        ensures some { IfSome result (λ s. IsStopped s self.new) }
        ensures looked { result ≡ None → LookedAt I.InLane 1 (worker_of self.old) (worker_of self.new) }
    {
        for_good(deliver(&mut self.worker, self.gate))
    }

    /// Pushes what waits after a call that posted something; else nothing.
    pub(crate) fn settle(&mut self, posted: bool)
        ensures went { (file : FileAt) (rest : List calls.Call) →
            length file.parties ≡ parties_of (node_of self.old) →
            Went O.OutLane I.InLane file rest rest self.old self.new }
        ensures keeps { Keeps (node_of self.old) (node_of self.new) }
        ensures bounds { SameBounds self.old self.new }
        ensures rests { Rests self.old self.new }
        ensures acts { last_act (laned (worker_of self.new)).log
            ≡ last_act (laned (worker_of self.old)).log }
        ensures counts { Counted O.OutLane I.InLane (worker_of self.old) (worker_of self.new) }
    {
        if posted {
            push(&mut self.worker);
        }
    }

    /// Does the call, where the node can.
    fn make(&mut self, call: Call) -> Result<Option<Msg>, Halt>
        requires guarded { IsGuarded (table_of self.old) (may_of self.old) (ends_of self.old)
            (calls_of self.old) call }
        requires clock { clock_of (node_of self.old) < clock_end }
        requires room { vec_len self.old.ends < vec_capacity self.old.ends }

        // The call is made, or nothing is.
        ensures ok { (file : FileAt) (rest : List calls.Call) →
            length file.parties ≡ parties_of (node_of self.old) → OnOk result
            (Went O.OutLane I.InLane file (asked call ∷ rest) rest self.old self.new) }
        ensures err { (file : FileAt) (rest : List calls.Call) →
            length file.parties ≡ parties_of (node_of self.old) → OnErr result
            (Went O.OutLane I.InLane file rest rest self.old self.new) }
        ensures rests { OnErr result (Rests self.old self.new) }
        ensures takes { IfOk result (λ m. is_some m ≡ is_take call) }
        ensures tells { IfOk result (TellsTaken (worker_of self.new) (asked call)) }
        ensures stays { OnErr result (Stays (node_of self.old) (node_of self.new)) }

        // What stays in any case, and what the lanes counted.
        ensures keeps { Keeps (node_of self.old) (node_of self.new) }
        ensures bounds { SameBounds self.old self.new }
        ensures counts { Counted O.OutLane I.InLane (worker_of self.old) (worker_of self.new) }
        ensures stop { stop_of (worker_of self.new) ≡ stop_of (worker_of self.old) }

        // Why it isn't.
        ensures cause { IfErr result (λ h. IsHalt h (asked call) self.new) }
    {
        match do_call(&mut self.worker, call, self.gate) {
            Ok(msg) => {
                go_on(&self.table, &mut self.ends, call, msg);
                self.calls += 1;
                Ok(msg)
            }
            Err(halt) => Err(halt),
        }
    }

    /// Why no call can be made any more, if so.
    pub(crate) fn stopped(&self) -> Option<Stop>
        ensures some { IfSome result (λ s. IsStopped s self.now) }
        ensures none { result ≡ None → kept_stop (stop_of (worker_of self.now)) ≡ None }
        ensures clock { result ≡ None → clock_of (node_of self.now) < clock_end }
    {
        match self.worker.stop() {
            Some(stop @ (Stop::NoMemory | Stop::Fault | Stop::Unfit)) => Some(stop),
            _ => {
                if self.worker.node().clock() >= CLOCK_END {
                    Some(Stop::ClockEnd)
                } else {
                    None
                }
            }
        }
    }

    /// Why a call isn't done that the node refused so.
    pub(crate) fn refused(&self, halt: Halt) -> SeatRefusal
        ensures { (c : calls.Call) → IsHalt halt c self.now → IsHeldUp result c self.now }
    {
        match halt {
            Halt::Waits => SeatRefusal::Waiting,
            Halt::AtLimit => SeatRefusal::AtLimit,
            Halt::Unfit => SeatRefusal::Stopped(Stop::Unfit),
            Halt::NoMemory | Halt::Ended => SeatRefusal::NoMemory,
        }
    }

    /// Does the call, where it can be done now, and pushes what waits then.
    pub(crate) fn attempt(&mut self, call: Call) -> Result<Option<Msg>, SeatRefusal>
        requires guarded { IsGuarded (table_of self.old) (may_of self.old) (ends_of self.old)
            (calls_of self.old) call }

        // The call is made, or nothing is.
        ensures ok { (file : FileAt) (rest : List calls.Call) →
            length file.parties ≡ parties_of (node_of self.old) → OnOk result
            (Went O.OutLane I.InLane file (asked call ∷ rest) rest self.old self.new) }
        ensures err { (file : FileAt) (rest : List calls.Call) →
            length file.parties ≡ parties_of (node_of self.old) → OnErr result
            (Went O.OutLane I.InLane file rest rest self.old self.new) }
        ensures rests { OnErr result (Rests self.old self.new) }
        ensures takes { IfOk result (λ m. is_some m ≡ is_take call) }
        ensures tells { IfOk result (TellsTaken (worker_of self.new) (asked call)) }
        ensures stays { OnErr result (Stays (node_of self.old) (node_of self.new)) }

        // What stays in any case, and what the lanes counted.
        ensures keeps { Keeps (node_of self.old) (node_of self.new) }
        ensures bounds { SameBounds self.old self.new }
        ensures counts { Counted O.OutLane I.InLane (worker_of self.old) (worker_of self.new) }

        // Why it isn't.
        ensures cause { IfErr result (λ r. IsHeldUp r (asked call) self.new) }
        ensures waits { result ≡ Err SeatRefusal.Waiting →
            kept_stop (stop_of (worker_of self.new)) ≡ None }
    {
        if let Some(stop) = self.stopped() {
            return Err(SeatRefusal::Stopped(stop));
        }
        if self.ends.reserve(1).is_err() {
            return Err(SeatRefusal::NoMemory);
        }
        match self.make(call) {
            Ok(msg) => {
                self.settle(posts(&msg));
                Ok(msg)
            }
            Err(halt) => Err(self.refused(halt)),
        }
    }

    /// Does the call, where it can be done within as many turns in vain as there are looks.
    pub(crate) fn act(&mut self, call: Call) -> Result<Option<Msg>, SeatRefusal>
        requires guarded { IsGuarded (table_of self.old) (may_of self.old) (ends_of self.old)
            (calls_of self.old) call }

        // The call is made, or nothing is.
        ensures ok { (file : FileAt) (rest : List calls.Call) →
            length file.parties ≡ parties_of (node_of self.old) → OnOk result
            (Went O.OutLane I.InLane file (asked call ∷ rest) rest self.old self.new) }
        ensures err { (file : FileAt) (rest : List calls.Call) →
            length file.parties ≡ parties_of (node_of self.old) → OnErr result
            (Went O.OutLane I.InLane file rest rest self.old self.new) }
        ensures rests { OnErr result (Rests self.old self.new) }
        ensures takes { IfOk result (λ m. is_some m ≡ is_take call) }
        ensures tells { IfOk result (TellsTaken (worker_of self.new) (asked call)) }

        // What stays in any case, and what the lanes counted.
        ensures keeps { Keeps (node_of self.old) (node_of self.new) }
        ensures bounds { SameBounds self.old self.new }
        ensures counts { Counted O.OutLane I.InLane (worker_of self.old) (worker_of self.new) }

        // Why it isn't.
        ensures cause { IfErr result (λ r. IsHeldUp r (asked call) self.new) }
    {
        for _ in 0..self.looks {
            if self.is_due(call) {
                let answer = self.attempt(call);
                if !is_waiting(&answer) {
                    return answer;
                }
            }
            if let Some(stop) = self.wait() {
                return Err(SeatRefusal::Stopped(stop));
            }
        }
        self.attempt(call)
    }

    // Whether the call is worth an attempt. A take is once a message is there.
    fn is_due(&self, call: Call) -> bool {
        match call {
            Call::Take { end, .. } => self.worker.node().head(end).is_some(),
            _ => true,
        }
    }
}

// Whether a call that took that message, if any, posted something. A take of a value posts nothing.
fn posts(taken: &Option<Msg>) -> bool {
    matches!(taken, None | Some(Msg::Sess { .. }))
}

/// Whether the call waits yet.
pub(crate) fn is_waiting<T>(answer: &Result<T, SeatRefusal>) -> bool
    ensures { IsTrue result → answer.now ≡ Err SeatRefusal.Waiting }
{
    matches!(answer, Err(SeatRefusal::Waiting))
}
