//! Ends and sessions: how far each end has come, what was sent on it, and who took it.
ghost use Rattle.std.specs.Prelude.{◌≡◌, ◌<◌, ℕ, IfOk, OnOk, OnErr};
ghost use Rattle.sj_lang.specs.FileView.{connect_of};
ghost use Rattle.sj_semantics.specs.Ends.{end_on, limit_of_hops, nowhere, unopened};
ghost use Rattle.sj_semantics.specs.World.{fresh};
ghost use Rattle.sj_semantics.specs.Uses.{on_side, end_after, begins, sends, takes, delegates};
ghost use Rattle.sj_plain.specs.Ends.{ahead_of, end_view, session_at, connected_session, next_on};
ghost use Rattle.sj_table.specs.declared.table.Table.{Table};

use crate::ahead::Ahead;
use sj_base::{Msg, NoMemory};
use sj_lang::{Connect, Proto, Way};
use sj_semantics::Passed;
use sj_table::Table;
use std::alloc::Global;

/// One end of a session.
#[derive(Drop)]
pub(crate) struct PlainEnd {
    place: Ahead,
    sent: Vec<Passed>,
    takers: Vec<u16>,
    hops: u8,
}

impl PlainEnd {
    // The end before any act.
    fn at(alloc: Global, place: Ahead) -> PlainEnd
        ensures { (t : Table) → end_view t result ≡ fresh (ahead_of t place) }
    {
        PlainEnd {
            place,
            sent: Vec::new(alloc),
            takers: Vec::new(alloc),
            hops: 0,
        }
    }

    // The end that no session has.
    fn nowhere(alloc: Global, table: &Table) -> PlainEnd
        ensures { end_view table.now result ≡ nowhere }
    {
        PlainEnd::at(alloc, Ahead::At(table.done()))
    }

    fn send(&mut self, alloc: Global, table: &Table, passed: Passed) -> Result<(), NoMemory>
        ensures ok { OnOk result (end_view table.now self.new
            ≡ end_after passed.by (sends passed.msg) (end_view table.now self.old)) }
        ensures err { OnErr result (end_view table.now self.new ≡ end_view table.now self.old) }
    {
        self.sent.reserve(1)?;
        self.place.pass(alloc, table, Way::Out, &passed.msg)?;
        self.sent.push_reserved(passed);
        Ok(())
    }

    fn take(&mut self, alloc: Global, table: &Table, by: u16, msg: &Msg) -> Result<(), NoMemory>
        ensures ok { OnOk result (end_view table.now self.new
            ≡ end_after by (takes msg.now) (end_view table.now self.old)) }
        ensures err { OnErr result (end_view table.now self.new ≡ end_view table.now self.old) }
    {
        self.takers.reserve(1)?;
        self.place.pass(alloc, table, Way::Into, msg)?;
        self.takers.push_reserved(by);
        Ok(())
    }
}

/// A session: the end of side 0, and the end of side 1.
#[derive(Drop)]
pub struct Session {
    first: PlainEnd,
    second: PlainEnd,
}

impl Session {
    /// The session that the connection makes, its ends where the table's protocols start.
    pub(crate) fn start(alloc: Global, table: &Table, connect: &Connect) -> Session
        ensures { session_at table.now result ≡ connected_session table.now (connect_of connect.now) }
    {
        let first = table.start(connect.first.protocol);
        let second = table.start(connect.second.protocol);
        Session {
            first: PlainEnd::at(alloc, Ahead::At(first)),
            second: PlainEnd::at(alloc, Ahead::At(second)),
        }
    }

    /// A session that isn't opened.
    pub(crate) fn unopened(alloc: Global, table: &Table) -> Session
        ensures { session_at table.now result ≡ unopened }
    {
        Session {
            first: PlainEnd::nowhere(alloc, table),
            second: PlainEnd::nowhere(alloc, table),
        }
    }

    fn end(&self, side: u8) -> &PlainEnd
        ensures { (t : Table) → end_view t result.now ≡ end_on side (session_at t self.now) }
    {
        if side == 0 { &self.first } else { &self.second }
    }

    /// What is ahead of the end.
    pub fn ahead(&self, side: u8) -> &Ahead
        ensures { (t : Table) → ahead_of t result.now ≡ (end_on side (session_at t self.now)).place }
    {
        &self.end(side).place
    }

    /// A copy of the items that are still ahead of the end.
    pub fn place(&self, alloc: Global, table: &Table, side: u8) -> Result<Proto, NoMemory>
        ensures { IfOk result (λ p. p ≡ (end_on side (session_at table.now self.now)).place) }
    {
        self.ahead(side).place(alloc, table)
    }

    /// All messages that the end sent, in order.
    pub(crate) fn sent(&self, side: u8) -> &[Passed]
        ensures { (t : Table) → result.now ≡ (end_on side (session_at t self.now)).sent }
    {
        &self.end(side).sent
    }

    /// Who took the first of the messages that the other end sent, in order.
    pub(crate) fn takers(&self, side: u8) -> &[u16]
        ensures { (t : Table) → result.now ≡ (end_on side (session_at t self.now)).takers }
    {
        &self.end(side).takers
    }

    /// How often the end was delegated.
    pub(crate) fn hops(&self, side: u8) -> u8
        ensures { (t : Table) → result ≡ (end_on side (session_at t self.now)).hops }
    {
        self.end(side).hops
    }

    /// Of what the other end sent, the first that this end hasn't taken.
    pub(crate) fn untaken(&self, side: u8) -> Option<Passed>
        ensures { (t : Table) → result ≡ next_on side (session_at t self.now) }
    {
        let taken = self.takers(side).len();
        self.sent(if side == 0 { 1 } else { 0 }).get(taken).copied()
    }

    /// Puts the message after those that the end sent, and moves the end past it.
    pub(crate) fn send(
        &mut self,
        alloc: Global,
        table: &Table,
        side: u8,
        passed: Passed,
    ) -> Result<(), NoMemory>
        ensures ok { OnOk result (session_at table.now self.new
            ≡ on_side side (end_after passed.by (sends passed.msg)) (session_at table.now self.old)) }
        ensures err { OnErr result (session_at table.now self.new ≡ session_at table.now self.old) }
    {
        if side == 0 {
            self.first.send(alloc, table, passed)
        } else {
            self.second.send(alloc, table, passed)
        }
    }

    /// Notes that the party took the message, and moves the end past it.
    pub(crate) fn take(
        &mut self,
        alloc: Global,
        table: &Table,
        side: u8,
        by: u16,
        msg: &Msg,
    ) -> Result<(), NoMemory>
        ensures ok { OnOk result (session_at table.now self.new
            ≡ on_side side (end_after by (takes msg.now)) (session_at table.now self.old)) }
        ensures err { OnErr result (session_at table.now self.new ≡ session_at table.now self.old) }
    {
        if side == 0 {
            self.first.take(alloc, table, by, msg)
        } else {
            self.second.take(alloc, table, by, msg)
        }
    }

    /// Puts the end at that place.
    pub(crate) fn begin(&mut self, side: u8, place: Ahead)
        ensures { (t : Table) (by : ℕ) → session_at t self.new
            ≡ on_side side (end_after by (begins (ahead_of t place))) (session_at t self.old) }
    {
        if side == 0 {
            self.first.place = place;
        } else {
            self.second.place = place;
        }
    }

    /// Notes that the end was delegated.
    pub(crate) fn hand_on(&mut self, side: u8)
        requires { (t : Table) → (end_on side (session_at t self.old)).hops < limit_of_hops }
        ensures { (t : Table) (by : ℕ) → session_at t self.new
            ≡ on_side side (end_after by delegates) (session_at t self.old) }
    {
        if side == 0 {
            self.first.hops += 1;
        } else {
            self.second.hops += 1;
        }
    }
}
