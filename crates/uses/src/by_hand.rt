//! A file played by hand: nodes act, and the caller carries each frame from one to the other.
ghost use Rattle.std.specs.Prelude.{◌≡◌, ◌+◌, IfErr, IfOk, IfSome, OnErr, length};
ghost use Rattle.sj_node.specs.Node.{Stays, is_refused, log_of};
ghost use Rattle.uses.specs.Carried.{FitsNone, HasCarried, WaitsAsBefore};
ghost use Rattle.uses.specs.Stops.{StopsFor};

use porcharnica::{CLOCK_END, DeliverRefusal, Halt, Node};

/// The most acts of a party.
const MOST_ACTS: u32 = 10_000;

/// What a party did by hand.
#[derive(Clone, Copy, Debug, PartialEq, Eq)]
pub struct Acted {
    pub acts: u32,
    /// Why it stopped; none where it acted as often as a party may, or its clock is at its end.
    pub halt: Option<Halt>,
}

/// Lets a party act until it waits, has ended or is at a limit.
pub fn act_on(node: &mut Node) -> Acted
    ensures acts { length (log_of node.new) ≡ length (log_of node.old) + result.acts }
    ensures cause { IfSome result.halt (StopsFor node.new) }
{
    for acts in 0..MOST_ACTS {
        if node.clock() >= CLOCK_END {
            return Acted { acts, halt: None };
        }
        match node.act() {
            Ok(()) => {}
            Err(halt) => {
                return Acted {
                    acts,
                    halt: Some(halt),
                };
            }
        }
    }
    Acted {
        acts: MOST_ACTS,
        halt: None,
    }
}

/// Carries the first frame that one party has for another one, and delivers it there. Whether there
/// was one; a frame that is refused stays where it was, and the other node as it was.
pub fn carry(from: &mut Node, to: &mut Node) -> Result<bool, DeliverRefusal>
    ensures carried { IfOk result (HasCarried from.old to.old from.new to.new) }
    ensures unfit { IfErr result (λ e. is_refused e (FitsNone from.old to.old)) }
    ensures back { OnErr result (WaitsAsBefore from.old from.new) }
    ensures stays { OnErr result (Stays to.old to.new) }
{
    let party = to.party();
    if to.clock() >= CLOCK_END {
        return Ok(false);
    }
    let Some(frame) = from.take_out(party) else {
        return Ok(false);
    };
    match to.deliver(from.party(), frame) {
        Ok(()) => Ok(true),
        Err((frame, refusal)) => {
            from.put_back(party, frame);
            Err(refusal)
        }
    }
}
