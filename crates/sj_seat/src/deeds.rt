//! What a worker does whose party is played by code: deliveries, and a call.
ghost use Rattle.std.specs.Prelude.{◌≡◌, ◌<◌, ◌≤◌, IfOk, IfErr, IsErrOf, IsTrue, None, OnErr, OnOk, Some, is_some, length};
ghost use Rattle.sj_lang.specs.FileAt.{FileAt};
ghost use Rattle.sj_node.specs.Calls.{place_here};
ghost use Rattle.sj_node.specs.Node.{Stays, clock_of, wants_of};
ghost use Rattle.sj_node.specs.Reading.{parties_of};
ghost use Rattle.sj_node.specs.Seats.{head_taken, is_take, want_at};
ghost use Rattle.sj_node.specs.declared.refusal.Halt.TheVariants as halts;
ghost use Rattle.sj_rules.specs.Limits.{clock_end, limit_of_steps};
ghost use Rattle.sj_seat.specs.Asked.{asked, want_opening};
ghost use Rattle.sj_seat.specs.Counted.{Counted};
ghost use Rattle.sj_seat.specs.Logged.{OpenedLast, TellsTaken, last_act};
ghost use Rattle.sj_seat.specs.Looked.{LookedAt};
ghost use Rattle.sj_seat.specs.Went.{HasNoRow, IsHaltOf, Keeps, SeatWork, held_up, lasting};
ghost use Rattle.sj_seat_laws.specs.Calls.{SeatedAt};
ghost use Rattle.sj_seat_laws.specs.Guards.{called, opened, seated_want};
ghost use Rattle.sj_semantics.specs.declared.Want.TheVariants as wants;
ghost use Rattle.sj_work.specs.Laned.{laned};
ghost use Rattle.sj_work.specs.Views.{node_of, stop_of};
ghost use Rattle.sj_work.specs.Worked.{kept_stop};

use crate::OpenWish;
use sj_base::{EndId, Msg};
use sj_end::CLOCK_END;
use sj_lane::{InLane, OutLane};
use sj_node::{Call, Halt};
use sj_table::Spot;
use sj_work::{Gate, Stop, Worker, attend, push_out};

/// One round: takes what came, and pushes what waits.
pub(crate) fn deliver<O: OutLane, I: InLane, G: Gate>(worker: &mut Worker<O, I>, gate: &G) -> Stop
    requires idle { wants_of (node_of worker.old) ≡ wants.Ended }
    ensures keeps { Keeps (node_of worker.old) (node_of worker.new) }
    ensures idle { wants_of (node_of worker.new) ≡ wants.Ended }
    ensures work { (file : FileAt) (s : SeatedAt) →
        length file.parties ≡ parties_of (node_of worker.old) →
        SeatWork O.OutLane I.InLane file s s worker.old worker.new }
    ensures acts { last_act (laned worker.new).log ≡ last_act (laned worker.old).log }
    ensures counts { Counted O.OutLane I.InLane worker.old worker.new }
    ensures stop { stop_of worker.new ≡ Some result }
    ensures ended { result ≡ Stop.ClockEnd → clock_end ≤ clock_of (node_of worker.new) }
    ensures looked { lasting result ≡ None → LookedAt I.InLane 1 worker.old worker.new }
{
    attend(worker, gate)
}

/// Pushes what waits.
pub(crate) fn push<O: OutLane, I: InLane>(worker: &mut Worker<O, I>)
    requires idle { wants_of (node_of worker.old) ≡ wants.Ended }
    ensures keeps { Keeps (node_of worker.old) (node_of worker.new) }
    ensures idle { wants_of (node_of worker.new) ≡ wants.Ended }
    ensures work { (file : FileAt) (s : SeatedAt) →
        length file.parties ≡ parties_of (node_of worker.old) →
        SeatWork O.OutLane I.InLane file s s worker.old worker.new }
    ensures acts { last_act (laned worker.new).log ≡ last_act (laned worker.old).log }
    ensures counts { Counted O.OutLane I.InLane worker.old worker.new }
{
    let _ = push_out(worker);
}

/// The stop, where nothing more is done after it.
pub(crate) fn for_good(stop: Stop) -> Option<Stop>
    ensures { result ≡ lasting stop }
{
    match stop {
        Stop::ClockEnd | Stop::NoMemory | Stop::Fault | Stop::Unfit => Some(stop),
        Stop::Finished | Stop::Idle | Stop::AtLimit => None,
    }
}

// Whether nothing keeps the party from another round.
fn may_go_on(stop: Stop) -> bool
    ensures { IsTrue result → kept_stop (Some stop) ≡ None }
{
    matches!(stop, Stop::Finished | Stop::Idle)
}

// Rounds until one has an event, so many at most, and one at least.
fn rounds<O: OutLane, I: InLane, G: Gate>(worker: &mut Worker<O, I>, looks: u32, gate: &G) -> Stop
    requires idle { wants_of (node_of worker.old) ≡ wants.Ended }
    ensures keeps { Keeps (node_of worker.old) (node_of worker.new) }
    ensures idle { wants_of (node_of worker.new) ≡ wants.Ended }
    ensures work { (file : FileAt) (s : SeatedAt) →
        length file.parties ≡ parties_of (node_of worker.old) →
        SeatWork O.OutLane I.InLane file s s worker.old worker.new }
    ensures acts { last_act (laned worker.new).log ≡ last_act (laned worker.old).log }
    ensures counts { Counted O.OutLane I.InLane worker.old worker.new }
    ensures stop { stop_of worker.new ≡ Some result }
    ensures ended { result ≡ Stop.ClockEnd → clock_end ≤ clock_of (node_of worker.new) }
{
    let before = worker.node().clock();
    for _ in 1..looks {
        let stop = deliver(worker, gate);
        if !may_go_on(stop) {
            return stop;
        }
        if worker.node().clock() > before {
            return stop;
        }
    }
    deliver(worker, gate)
}

/// Takes what came, and pushes what waits, until so many rounds in a row have no event, and one at
/// least.
pub(crate) fn deliver_all<O: OutLane, I: InLane, G: Gate>(
    worker: &mut Worker<O, I>,
    looks: u32,
    gate: &G,
) -> Stop
    requires idle { wants_of (node_of worker.old) ≡ wants.Ended }
    ensures keeps { Keeps (node_of worker.old) (node_of worker.new) }
    ensures idle { wants_of (node_of worker.new) ≡ wants.Ended }
    ensures work { (file : FileAt) (s : SeatedAt) →
        length file.parties ≡ parties_of (node_of worker.old) →
        SeatWork O.OutLane I.InLane file s s worker.old worker.new }
    ensures acts { last_act (laned worker.new).log ≡ last_act (laned worker.old).log }
    ensures counts { Counted O.OutLane I.InLane worker.old worker.new }
    ensures stop { stop_of worker.new ≡ Some result }
    ensures ended { result ≡ Stop.ClockEnd → clock_end ≤ clock_of (node_of worker.new) }
{
    while worker.node().clock() < CLOCK_END {
        let before = worker.node().clock();
        let stop = rounds(worker, looks, gate);
        if !may_go_on(stop) {
            return stop;
        }
        if worker.node().clock() <= before {
            return stop;
        }
    }
    deliver(worker, gate)
}

/// Does the call, the guarded one of the party, where the node can. Whatever it refuses, the node is
/// as it was.
pub(crate) fn do_call<O: OutLane, I: InLane, G: Gate>(
    worker: &mut Worker<O, I>,
    call: Call,
    gate: &G,
) -> Result<Option<Msg>, Halt>
    requires idle { wants_of (node_of worker.old) ≡ wants.Ended }
    requires clock { clock_of (node_of worker.old) < clock_end }
    ensures keeps { Keeps (node_of worker.old) (node_of worker.new) }
    ensures idle { wants_of (node_of worker.new) ≡ wants.Ended }
    ensures ok { (file : FileAt) (s : SeatedAt) →
        length file.parties ≡ parties_of (node_of worker.old) →
        seated_want s ≡ want_at (node_of worker.old) call → s.steps < limit_of_steps →
        OnOk result (SeatWork O.OutLane I.InLane file s
        (called s (head_taken (node_of worker.old) call)) worker.old worker.new) }
    ensures err { (file : FileAt) (s : SeatedAt) →
        length file.parties ≡ parties_of (node_of worker.old) →
        OnErr result (SeatWork O.OutLane I.InLane file s s worker.old worker.new) }
    ensures taken { IfOk result (λ m. m ≡ head_taken (node_of worker.old) call) }
    ensures takes { IfOk result (λ m. is_some m ≡ is_take call) }
    ensures tells { IfOk result (TellsTaken worker.new (asked call)) }
    ensures stays { OnErr result (Stays (node_of worker.old) (node_of worker.new)) }
    ensures counts { Counted O.OutLane I.InLane worker.old worker.new }
    ensures stop { stop_of worker.new ≡ stop_of worker.old }
    ensures waits { IsErrOf result Halt.Waits →
        held_up (node_of worker.new) (want_at (node_of worker.old) call) ≡ Some halts.Waits }
    ensures at_limit { IsErrOf result Halt.AtLimit →
        held_up (node_of worker.new) (want_at (node_of worker.old) call) ≡ Some halts.AtLimit }
    ensures unfit { IsErrOf result Halt.Unfit →
        HasNoRow (node_of worker.new) (want_at (node_of worker.old) call) (asked call) }
    ensures ended { IsErrOf result Halt.Ended → ⊥ }
{
    worker.call(call, gate)
}

/// Opens the session, the guarded call of the party, where the node can; its own end, which gets that
/// place. Whatever it refuses, the node is as it was.
pub(crate) fn do_open<O: OutLane, I: InLane, G: Gate>(
    worker: &mut Worker<O, I>,
    wish: OpenWish,
    place: Spot,
    gate: &G,
) -> Result<EndId, Halt>
    requires idle { wants_of (node_of worker.old) ≡ wants.Ended }
    requires clock { clock_of (node_of worker.old) < clock_end }
    ensures keeps { Keeps (node_of worker.old) (node_of worker.new) }
    ensures idle { wants_of (node_of worker.new) ≡ wants.Ended }
    ensures ok { IfOk result (λ e. (file : FileAt) (s : SeatedAt) →
        length file.parties ≡ parties_of (node_of worker.old) →
        seated_want s ≡ want_opening (place_here (node_of worker.old) place) wish →
        s.steps < limit_of_steps →
        SeatWork O.OutLane I.InLane file s (opened s e) worker.old worker.new) }
    ensures err { (file : FileAt) (s : SeatedAt) →
        length file.parties ≡ parties_of (node_of worker.old) →
        OnErr result (SeatWork O.OutLane I.InLane file s s worker.old worker.new) }
    ensures opened { IfOk result (OpenedLast worker.new wish) }
    ensures counts { Counted O.OutLane I.InLane worker.old worker.new }
    ensures stop { stop_of worker.new ≡ stop_of worker.old }
    ensures cause { IfErr result (λ h. IsHaltOf h (node_of worker.new)
        (want_opening (place_here (node_of worker.old) place) wish)) }
{
    match wish {
        OpenWish::Request { party, .. } => worker.call_request(place, party, gate),
        OpenWish::Accept { party, .. } => worker.call_accept(place, party, gate),
    }
}
