//! The party before its first call.
ghost use Rattle.std.specs.Prelude.{◌≡◌, ◌<◌, IfOk, length};
ghost use Rattle.sj_check.specs.Held.{file_in};
ghost use Rattle.sj_lang.specs.FileAt.{body_named};
ghost use Rattle.sj_lang.specs.FileView.{file_of};
ghost use Rattle.sj_remote_seat.specs.Turns.{Begins, outs_of};
ghost use Rattle.sj_seat.specs.Places.{CarriesPlaces};
ghost use Rattle.sj_table.specs.Spots.{start_in};

use crate::SeatPlayRefusal;
use crate::seat::Seat;
use sj_base::NoMemory;
use sj_check::Accepted;
use sj_engine::{ByteIn, ByteOut};
use sj_lane::Lanes;
use sj_seat::{Guest, seat_table, text_count};
use sj_table::Table;
use sj_work::NoGate;
use std::alloc::Global;

/// The table of the party's node.
fn table_for(alloc: Global, accepted: &Accepted) -> Result<Table, SeatPlayRefusal>
    ensures starts { IfOk result (λ t. (p : _) → start_in t p
        ≡ body_named (file_of (file_in accepted.now)).protocols p) }
    ensures carries { IfOk result (λ t. CarriesPlaces t) }
{
    match seat_table(alloc, accepted) {
        Ok(Some(table)) => Ok(table),
        Ok(None) => Err(SeatPlayRefusal::LacksPlace),
        Err(NoMemory) => Err(SeatPlayRefusal::from(NoMemory)),
    }
}

/// The party before its first call, with these lanes. A call that waits is refused at once. Its code
/// names texts of the file alone.
pub(crate) fn take_seat<'a>(
    alloc: Global,
    accepted: &Accepted,
    party: u16,
    lanes: Lanes<ByteOut, ByteIn>,
    gate: &'a NoGate,
) -> Result<Seat<'a>, SeatPlayRefusal>
    requires { party < length (file_of (file_in accepted.now)).parties }
    ensures begins { IfOk result (Begins (file_of (file_in accepted.now)) party) }
    ensures lanes { IfOk result (λ seat. outs_of seat ≡ lanes.outs.items) }
{
    let table = table_for(alloc, accepted)?;
    let texts = text_count(accepted.file());
    let seat = Guest::start(alloc, accepted, &table, party, lanes, texts, 0, gate)?;
    Ok(seat)
}
