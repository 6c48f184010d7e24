//! A party between its calls: what comes is taken, and what waits is pushed.
ghost use Rattle.std.specs.Prelude.{◌≡◌, IfSome, List, None, Some, length};
ghost use Rattle.sj_lang.specs.FileAt.{FileAt};
ghost use Rattle.sj_node.specs.Reading.{parties_of};
ghost use Rattle.sj_seat.specs.Counted.{Counted};
ghost use Rattle.sj_seat.specs.Views.{node_of, worker_of};
ghost use Rattle.sj_seat.specs.Went.{IsStopped, Keeps, Rests, SameBounds, Went};
ghost use Rattle.sj_seat_laws.specs.Calls as calls;
ghost use Rattle.sj_work.specs.Views.{stop_of};
ghost use Rattle.sj_work.specs.Worked.{kept_stop};

use crate::Guest;
use crate::deeds::{deliver_all, for_good};
use sj_lane::{InLane, OutLane};
use sj_work::{Gate, Stop, Worker};

impl<O, I, G> Guest<'_, O, I, G> {
    /// The party's worker.
    pub fn worker(&self) -> &Worker<O, I>
        ensures { result.now ≡ worker_of self.now }
    {
        &self.worker
    }
}

impl<O: OutLane, I: InLane, G: Gate> Guest<'_, O, I, G> {
    /// Takes what came, and pushes what waits, until so many turns in a row have no event. Answers the
    /// stop that ends it for good, if any.
    pub fn attend(&mut self, looks: u32) -> Option<Stop>
        // No call is made, whatever the code calls later.
        ensures went { (file : FileAt) (rest : List calls.Call) →
            length file.parties ≡ parties_of (node_of self.old) →
            Went O.OutLane I.InLane file rest rest self.old self.new }
        ensures rests { Rests self.old self.new }

        // What stays, and what the lanes counted.
        ensures keeps { Keeps (node_of self.old) (node_of self.new) }
        ensures bounds { SameBounds self.old self.new }
        ensures counts { Counted O.OutLane I.InLane (worker_of self.old) (worker_of self.new) }

        // The stop, which has its cause.
        ensures none { result ≡ None → kept_stop (stop_of (worker_of self.new)) ≡ None }
        ensures some { IfSome result (λ s. stop_of (worker_of self.new) ≡ Some s) }
        ensures cause { IfSome result (λ s. IsStopped s self.new) }
    {
        for_good(deliver_all(&mut self.worker, looks, self.gate))
    }
}
