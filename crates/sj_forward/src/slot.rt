//! What a party keeps of one end.
ghost use Rattle.std.specs.Prelude.{◌≡◌, ◌<◌, ◌^◌, [], Some, None, IfSome, OnErr, OnOk, IsSome, map, option_map, true, vec_len};
ghost use Rattle.sj_forward.specs.Ends.{Becomes, SlotStays, TakesFirst, has_waiting, is_storing, more_stored, record_in, slot_held};
ghost use Rattle.sj_forward.specs.Views.{seen_of, sent_at, use_of};
ghost use Rattle.sj_forward_rules.specs.Node.{HeldAt};
ghost use Rattle.sj_forward_rules.specs.Ready.{has_message};
ghost use Rattle.sj_forward_rules.specs.Record as rules;

use crate::frame::Sent;
use crate::records::{
    Record, Seen, Stand, Use, close_record, kind_of, park_record, pass_record, store_in_record,
    take_from_record, use_of_record,
};
use sj_base::NoMemory;
use std::alloc::Global;
use std::collections::VecDeque;

/// The hop number at which the end is in use, and the records by their hop numbers.
#[derive(Drop)]
pub struct Slot {
    pub used: Option<usize>,
    pub records: Vec<Option<Record>>,
}

impl Slot {
    /// Nothing is kept.
    pub(crate) fn new(alloc: Global) -> Slot
        ensures used { result.used ≡ None }
        ensures records { result.records.items ≡ [] }
    {
        Slot {
            used: None,
            records: Vec::new(alloc),
        }
    }

    /// The end where it is in use.
    pub(crate) fn held(&self) -> Option<Use>
        ensures { result ≡ option_map use_of (slot_held self.now) }
    {
        let hop = self.used?;
        if hop >= self.records.len() {
            return None;
        }
        match &self.records[hop] {
            Some(kept) => use_of_record(hop, kept),
            None => None,
        }
    }

    /// The record of that hop.
    pub(crate) fn seen(&self, hop: usize) -> Option<Seen>
        ensures value { result ≡ option_map seen_of (record_in self.now hop) }
        ensures small { IfSome result (λ _. hop < 2 ^ 63) }
    {
        if hop >= self.records.len() {
            return None;
        }
        match &self.records[hop] {
            Some(kept) => Some(Seen {
                behind: kept.behind,
                kind: kind_of(&kept.stand),
            }),
            None => None,
        }
    }

    /// Takes the memory for the record of that hop.
    pub(crate) fn make_record(&mut self, hop: usize) -> Result<(), NoMemory>
        ensures same { SlotStays self.old self.new }
        ensures place { OnOk result (hop < vec_len self.new.records) }
    {
        while self.records.len() <= hop {
            self.records.push(None)?;
        }
        Ok(())
    }

    /// A record of that hop, in use from now on, to which nothing came.
    pub(crate) fn begin(&mut self, alloc: Global, hop: usize, behind: u16)
        requires { hop < vec_len self.old.records }
        ensures { Becomes self.old (Some hop) hop
            (record { behind = behind; state = rules.Held [] }) self.new }
    {
        self.records[hop] = Some(Record {
            behind,
            stand: Stand::Held(VecDeque::new(alloc)),
        });
        self.used = Some(hop);
    }

    /// The end is delegated.
    pub(crate) fn park(&mut self)
        requires { IsSome (slot_held self.old) }
        ensures { (h : HeldAt) → slot_held self.old ≡ Some h → Becomes self.old None h.hop
            (record { behind = h.behind; state = rules.Parked h.untaken }) self.new }
    {
        let Some(hop) = self.used else { unreachable!() };
        let place = &mut self.records[hop];
        park_record(place);
        self.used = None;
    }

    /// The end is closed.
    pub(crate) fn close(&mut self)
        requires { IsSome (slot_held self.old) }
        ensures { (h : HeldAt) → slot_held self.old ≡ Some h → Becomes self.old None h.hop
            (record { behind = h.behind; state = rules.Closed }) self.new }
    {
        let Some(hop) = self.used else { unreachable!() };
        let place = &mut self.records[hop];
        close_record(place);
        self.used = None;
    }

    /// The end takes its next message.
    pub(crate) fn take_first(&mut self) -> Sent
        requires { has_message (slot_held self.old) ≡ true }
        ensures takes { (h : HeldAt) → slot_held self.old ≡ Some h →
            TakesFirst self.old h (sent_at result) self.new }
        ensures places { vec_len self.new.records ≡ vec_len self.old.records }
    {
        let Some(hop) = self.used else { unreachable!() };
        let place = &mut self.records[hop];
        take_from_record(place)
    }

    /// Stores a message after those that are stored at the record.
    pub(crate) fn store(&mut self, hop: usize, sent: Sent) -> Result<(), NoMemory>
        requires { is_storing (record_in self.old hop) ≡ true }
        ensures ok { OnOk result ((r : rules.RecordAt) → record_in self.old hop ≡ Some r →
            Becomes self.old self.old.used hop (more_stored (sent_at sent) r) self.new) }
        ensures err { OnErr result (SlotStays self.old self.new) }
    {
        let place = &mut self.records[hop];
        store_in_record(place, sent)
    }

    /// What waits at the record, which passes on to that party from now on.
    pub(crate) fn pass_on(&mut self, hop: usize, to: u16) -> VecDeque<Sent>
        requires { has_waiting (record_in self.old hop) ≡ true }
        ensures waited { (r : rules.RecordAt) → record_in self.old hop ≡ Some r →
            r.state ≡ rules.Parked (map sent_at result.items) }
        ensures passes { (r : rules.RecordAt) → record_in self.old hop ≡ Some r →
            Becomes self.old self.old.used hop
            (record { behind = r.behind; state = rules.Passing to }) self.new }
    {
        let place = &mut self.records[hop];
        pass_record(place, to)
    }
}
