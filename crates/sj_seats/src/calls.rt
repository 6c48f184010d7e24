//! Calls of parties that are played by code, as lines tell them.
ghost use Rattle.std.specs.Prelude.{◌≡◌, ◌<◌, IfNone, IfOk, IfSome, OnErr, Some, length};
ghost use Rattle.sj_core.specs.Views.{line_with};
ghost use Rattle.sj_end.specs.Lines.{note_seen};
ghost use Rattle.sj_node.specs.Node.{clock_of};
ghost use Rattle.sj_node.specs.Reading.{table_of};
ghost use Rattle.sj_rules.specs.Limits.{clock_end};
ghost use Rattle.sj_seat.specs.Asked.{IsGuarded, asked};
ghost use Rattle.sj_seat.specs.Holding.{ends_at};
ghost use Rattle.sj_seat.specs.Opened.{openings_at};
ghost use Rattle.sj_seat.specs.Places.{CarriesPlaces};
ghost use Rattle.sj_seat.specs.Wishes.{wished};
ghost use Rattle.sj_seat_laws.specs.SeatRows.{call_told};
ghost use Rattle.sj_seats.specs.Calling.{Calls, Sits};
ghost use Rattle.sj_seats.specs.Played.{IsDueOnAct, IsLed, Redoes, Rests, nodes_in};

use crate::events::noted;
use crate::played::{Chair, PlayedWorld};
use sj_base::{EndId, Msg, NoMemory};
use sj_end::{Entry, Note};
use sj_node::{Call, Halt, Node};
use sj_seat::{Guard, Wish, go_on};
use sj_table::Table;

/// The step that a code asked for whose act has that note; none for what is no step of a code.
fn wish_of(note: Note) -> Option<Wish>
    ensures { IfSome result (λ w. call_told 0 (note_seen note) ≡ Some (wished w)) }
{
    match note {
        Note::Sent {
            end: carrier,
            msg: Msg::Sess { sess, side, .. },
        } => Some(Wish::Delegate {
            carrier,
            end: EndId { sess, side },
        }),
        Note::Sent { end, msg } => Some(Wish::Send { end, msg }),
        Note::Took {
            end,
            msg: Msg::Sess { .. },
        } => Some(Wish::TakeEnd { end }),
        Note::Took { end, .. } => Some(Wish::Take { end }),
        Note::Shut { end } => Some(Wish::Close { end }),
        _ => None,
    }
}

/// How many texts a file may have: each text that a message names is one.
pub(crate) const ALL_TEXTS: usize = usize::MAX;

/// The node's call that the code asks for, where it is guarded.
fn guarded(table: &Table, chair: &Chair, wish: Wish) -> Option<Call>
    requires carries { CarriesPlaces table.now }
    ensures guarded { IfSome result (λ call. IsGuarded table.now (openings_at table.now chair.now.may)
        (ends_at table.now chair.now.ends.items) chair.now.calls call) }
    ensures call { IfSome result (λ call. asked call ≡ wished wish) }
{
    let guard = Guard {
        table,
        ends: &chair.ends,
        may: &chair.may,
        texts: ALL_TEXTS,
        calls: chair.calls,
    };
    match guard.check(wish) {
        Ok(call) => Some(call),
        Err(_) => None,
    }
}

/// The call that the code asks for, where it is guarded and the node can do it.
fn make(
    table: &Table,
    node: &mut Node,
    chair: &mut Chair,
    wish: Wish,
) -> Result<Option<Entry>, NoMemory>
    requires over { table_of node.old ≡ table.now }
    requires carries { CarriesPlaces table.now }
    requires clock { clock_of node.old < clock_end }
    ensures done { IfOk result (λ o. IfSome o (λ e.
        Calls table.now node.old chair.old (wished wish) e node.new chair.new)) }
    ensures none { IfOk result (λ o. IfNone o (Sits table.now node.old chair.old node.new chair.new)) }
    ensures err { OnErr result (Sits table.now node.old chair.old node.new chair.new) }
{
    let Some(call) = guarded(table, chair, wish) else {
        return Ok(None);
    };
    chair.ends.reserve(1)?;
    match node.call(call) {
        Ok(taken) => {
            go_on(table, &mut chair.ends, call, taken);
            chair.calls += 1;
            Ok(Some(noted(node)))
        }
        Err(Halt::NoMemory) => Err(NoMemory),
        Err(Halt::Ended | Halt::AtLimit | Halt::Waits | Halt::Unfit) => Ok(None),
    }
}

impl PlayedWorld {
    /// The act of a party that is played by code, whose note is that one: its code makes the call
    /// that the note tells, where it is the one of a code, guarded and done by the node. It isn't
    /// listed, and its own note may be another one.
    pub fn call(&mut self, party: u16, note: Note) -> Result<Option<Entry>, NoMemory>
        requires led { IsLed self.old }
        requires there { party < length (nodes_in self.old) }
        ensures done { IfOk result (λ o. IfSome o (λ e. note_seen e.note ≡ note_seen note →
            Redoes self.old (line_with party e) self.new)) }
        ensures found { IfOk result (λ o. IfSome o (λ e.
            IsDueOnAct self.old party (note_seen note) (line_with party e))) }
        ensures none { IfOk result (λ o. IfNone o (Rests self.old self.new)) }
        ensures err { OnErr result (Rests self.old self.new) }
        ensures history { self.new.history ≡ self.old.history }
    {
        let Some(wish) = wish_of(note) else {
            return self.open(party, note);
        };
        match &mut self.chairs[party as usize] {
            Some(chair) => make(&self.table, &mut self.nodes[party as usize], chair, wish),
            None => Ok(None),
        }
    }
}
