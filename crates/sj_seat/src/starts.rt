//! A party before its first call, and after its last one.
ghost use Rattle.std.specs.Prelude.{◌≡◌, ◌<◌, IfOk, None, ℕ, length, slice_get};
ghost use Rattle.sj_check.specs.Held.{file_in};
ghost use Rattle.sj_lang.specs.FileAt.{body_named};
ghost use Rattle.sj_lang.specs.FileView.{file_of};
ghost use Rattle.sj_node.specs.Node.{wants_of};
ghost use Rattle.sj_node.specs.Reading as nodes;
ghost use Rattle.sj_node.specs.Starting.{BeginsWith, nothing_to_do};
ghost use Rattle.sj_seat.specs.Opened.{openings_at};
ghost use Rattle.sj_seat.specs.Places.{CarriesPlaces};
ghost use Rattle.sj_seat.specs.Views.{calls_of, ends_of, held_by, looks_of, may_of, node_of, table_of, texts_of, worker_of};
ghost use Rattle.sj_seat_laws.specs.SeatedStart.{connected_ends, openings_of};
ghost use Rattle.sj_semantics.specs.declared.Want.TheVariants as wants;
ghost use Rattle.sj_table.specs.Spots.{start_in};
ghost use Rattle.sj_work.specs.Views as works;

use crate::Guest;
use crate::ends::HeldEnd;
use crate::firsts::first_ends;
use crate::openings::{Openings, party_openings};
use sj_base::NoMemory;
use sj_check::Accepted;
use sj_lane::Lanes;
use sj_node::Node;
use sj_table::Table;
use sj_work::Worker;
use std::alloc::Global;

impl<'a, O, I, G> Guest<'a, O, I, G> {
    /// The party before its first call, which holds these ends.
    pub fn new(
        worker: Worker<O, I>,
        table: Table,
        ends: Vec<HeldEnd>,
        may: Openings,
        texts: usize,
        looks: u32,
        gate: &'a G,
    ) -> Guest<'a, O, I, G>
        requires same { table ≡ nodes.table_of (works.node_of worker) }
        requires idle { wants_of (works.node_of worker) ≡ wants.Ended }
        requires carries { CarriesPlaces table }
        ensures worker { worker_of result ≡ worker }
        ensures table { table_of result ≡ table }
        ensures ends { held_by result ≡ ends.items }
        ensures may { may_of result ≡ openings_at table may }
        ensures texts { texts_of result ≡ texts }
        ensures calls { calls_of result ≡ 0 }
        ensures looks { looks_of result ≡ looks }
    {
        Guest {
            worker,
            table,
            ends,
            may,
            texts,
            calls: 0,
            looks,
            gate,
        }
    }

    /// Ends the calls of the code: the worker, which goes on as one that has nothing to do, and the
    /// ends that the party still holds.
    pub fn leave(self) -> (Worker<O, I>, Vec<HeldEnd>)
        ensures worker { result.0 ≡ worker_of self.entry }
        ensures ends { result.1.items ≡ held_by self.entry }
    {
        (self.worker, self.ends)
    }

    /// The party of the file before its first call, with these lanes, over the table that all nodes
    /// of the run have. Its code may name so many texts: those of the file (`text_count`), or more where
    /// it adds some.
    pub fn start(
        alloc: Global,
        accepted: &Accepted,
        table: &Table,
        party: u16,
        lanes: Lanes<O, I>,
        texts: usize,
        looks: u32,
        gate: &'a G,
    ) -> Result<Guest<'a, O, I, G>, NoMemory>
    where
        O: Drop,
        I: Drop,
        requires party { party < length (file_of (file_in accepted.now)).parties }
        requires starts { (p : ℕ) → start_in table.now p
            ≡ body_named (file_of (file_in accepted.now)).protocols p }
        requires carries { CarriesPlaces table.now }

        // It holds the ends that connections give it, and made no call.
        ensures ends { IfOk result (λ g. ends_of g
            ≡ connected_ends (file_of (file_in accepted.now)) party) }
        ensures calls { IfOk result (λ g. calls_of g ≡ 0) }

        // It opens the sessions that the party's statements open.
        ensures may { IfOk result (λ g. may_of g ≡ openings_of (file_of (file_in accepted.now))
            (slice_get (file_of (file_in accepted.now)).parties party)) }

        // Its node is the first one of the file, with nothing to do of its own.
        ensures begins { IfOk result (λ g. BeginsWith (file_of (file_in accepted.now)) party 0
            (nothing_to_do (file_of (file_in accepted.now))) (node_of g)) }
        ensures lanes { IfOk result (λ g. works.lanes_of (worker_of g) ≡ lanes) }
        ensures stop { IfOk result (λ g. works.stop_of (worker_of g) ≡ None) }
        ensures texts { IfOk result (λ g. texts_of g ≡ texts) }
        ensures looks { IfOk result (λ g. looks_of g ≡ looks) }
    {
        let file = accepted.file();
        let ends = first_ends(alloc, file, table, party)?;
        let may = party_openings(alloc, file, table, party)?;
        let node = Node::seated(alloc, accepted, table.copied()?, party)?;
        let worker = Worker::new(node, lanes);
        Ok(Guest::new(worker, table.copied()?, ends, may, texts, looks, gate))
    }
}
