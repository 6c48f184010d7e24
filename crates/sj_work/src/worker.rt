//! A worker, its gate, and why it stopped.
ghost use Rattle.std.specs.Borrow.{sem};
ghost use Rattle.std.specs.Prelude.{◌≡◌, ◌↔◌, [], IsSome, None, Some};
ghost use Rattle.sj_node.specs.Node.{log_of};
ghost use Rattle.sj_node.specs.Reading.{TakesEntry};
ghost use Rattle.sj_work.specs.Lending.{LendsLanes};
ghost use Rattle.sj_work.specs.Views.{lanes_of, node_of, stop_of, unfit_of};

use sj_end::{Entry, Line};
use sj_lane::Lanes;
use sj_node::Node;

/// How many acts one turn has at most, and how many pops from one party.
pub(crate) const AT_ONCE: u32 = 64;

/// What is shown each event as it happens.
pub trait Gate: Sync {
    fn pass(&self, party: u16, entry: &Entry);
}

/// The gate that does nothing.
#[derive(Clone, Copy, Debug)]
pub struct NoGate;

impl Gate for NoGate {
    fn pass(&self, _party: u16, _entry: &Entry) {}
}

/// Why a worker stopped.
#[derive(Clone, Copy, Debug, PartialEq, Eq)]
pub enum Stop {
    /// The program has ended, no end is kept and no frame waits.
    Finished,
    /// The party waits or has ended, and so many turns in a row had no event.
    Idle,
    /// The party has done all steps that it may do, or would delegate an end or open a session once
    /// too often. So many turns in a row had no event, and one at least.
    AtLimit,
    /// The clock can't rise any more.
    ClockEnd,
    NoMemory,
    /// A lane met a fault.
    Fault,
    /// A frame, a head or a send that the rules have no row for.
    Unfit,
}

/// What a worker answered last: its stop, with the line of what didn't fit.
#[derive(Clone, Copy, Debug)]
pub(crate) enum Outcome {
    Finished,
    Idle,
    AtLimit,
    ClockEnd,
    NoMemory,
    Fault,
    Unfit(Line),
}

/// A party's node with its lanes.
#[derive(Drop)]
pub struct Worker<O, I> {
    pub(crate) node: Node,
    pub(crate) lanes: Lanes<O, I>,
    pub(crate) answer: Option<Outcome>,
    /// How many turns in a row had no event.
    pub(crate) looks: u32,
}

impl<O, I> Worker<O, I> {
    /// A worker that has done nothing yet.
    pub fn new(node: Node, lanes: Lanes<O, I>) -> Worker<O, I>
        ensures node { node_of result ≡ node }
        ensures lanes { lanes_of result ≡ lanes }
        ensures stop { stop_of result ≡ None }
    {
        Worker {
            node,
            lanes,
            answer: None,
            looks: 0,
        }
    }

    pub fn node(&self) -> &Node
        ensures { result.now ≡ node_of self.now }
    {
        &self.node
    }

    /// The last answer of `work`, none where it never answered.
    pub fn stop(&self) -> Option<Stop>
        ensures { result ≡ stop_of self.now }
    {
        match self.answer {
            None => None,
            Some(Outcome::Finished) => Some(Stop::Finished),
            Some(Outcome::Idle) => Some(Stop::Idle),
            Some(Outcome::AtLimit) => Some(Stop::AtLimit),
            Some(Outcome::ClockEnd) => Some(Stop::ClockEnd),
            Some(Outcome::NoMemory) => Some(Stop::NoMemory),
            Some(Outcome::Fault) => Some(Stop::Fault),
            Some(Outcome::Unfit(_)) => Some(Stop::Unfit),
        }
    }

    /// The line that the frame, head or send would have made for which there is no row.
    pub fn unfit(&self) -> Option<Line>
        ensures line { result ≡ unfit_of self.now }
        ensures some { IsSome result ↔ (stop_of self.now ≡ Some Stop.Unfit) }
    {
        match self.answer {
            Some(Outcome::Unfit(line)) => Some(line),
            _ => None,
        }
    }

    /// The lanes, to be handed to `carry` or exchanged between rounds.
    pub fn lanes(&mut self) -> &mut Lanes<O, I>
        ensures value { result.now ≡ lanes_of self.old }
        ensures* writes_back { sem 𝓛 (LendsLanes O.row I.row self.entry result) }
    {
        &mut self.lanes
    }

    pub fn into_lanes(self) -> Lanes<O, I>
    where
        O: Drop,
        I: Drop,
        ensures { result ≡ lanes_of self }
    {
        self.lanes
    }

    /// The lanes, the node without its log, and what the node noted.
    pub fn into_parts(self) -> (Lanes<O, I>, Node, Vec<Entry>)
        ensures lanes { result.0 ≡ lanes_of self }
        ensures none { log_of result.1 ≡ [] }
        ensures node { TakesEntry (node_of self) result.1 }
        ensures log { result.2.items ≡ log_of (node_of self) }
    {
        let Worker {
            mut node,
            lanes,
            answer: _,
            looks: _,
        } = self;
        let log = node.take_log();
        (lanes, node, log)
    }
}
