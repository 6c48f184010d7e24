//! The session that a line opens, or the rule that refuses the line before any call.
ghost use Rattle.std.specs.Prelude.{◌≡◌, is_some};
ghost use Rattle.sj_lang.specs.FileView.{file_of};
ghost use Rattle.sj_seat.specs.Opened.{may_of};
ghost use Rattle.sj_seat.specs.Wishes.{open_wished};
ghost use Rattle.sj_seat_laws.specs.Guards.{opened_place};
ghost use Rattle.sj_seat_lines.specs.Names.{named};
ghost use Rattle.sj_seat_lines.specs.Opens.{accept_of, is_not_opened, open_of, party_of_word, request_of};

use crate::names::{Name, end_of};
use crate::steps::{WRONG_END, label_number};
use sj_lang::File;
use sj_machine::party_of_name;
use sj_seat::{Guard, OpenWish, SeatRefusal};

/// The rule of a session that the party doesn't open.
const NOT_OPENED: u8 = 8;

/// What a line that opens a session comes to before its call.
#[derive(Clone, Copy, Drop)]
pub enum Opens {
    Call(OpenWish),
    /// It is refused by the rule of that number.
    Refused(u8),
}

// The number of the party of that name.
fn party_of_word(file: &File, party: &[u8]) -> Option<u16>
    ensures { result ≡ party_of_word (file_of file.now) party.now }
{
    let name = label_number(&file.names.words, party)?;
    let number = party_of_name(&file.parties, name);
    if number < file.parties.len() && number <= 65_535 {
        Some(number as u16)
    } else {
        None
    }
}

// Whether the party may open such a session.
#[tactic(auto, using(crate::proofs::OpenLemmas::opening))]
fn may_open(seat: Guard<'_>, wish: OpenWish) -> bool
    ensures { result ≡ is_some (opened_place (may_of seat.entry) (open_wished wish)) }
{
    match seat.open(wish) {
        Ok(_) => true,
        Err(refusal) => !is_not_opened(refusal),
    }
}

fn is_not_opened(refusal: SeatRefusal) -> bool
    ensures { result ≡ is_not_opened refusal }
{
    matches!(refusal, SeatRefusal::NotOpened)
}

// A session that may be opened needs a name for the party's own end that isn't in use.
fn open_of(names: &[Name], seat: Guard<'_>, name: &[u8], wish: OpenWish) -> Opens
    ensures { result ≡ open_of (named names.now) (may_of seat.entry) name.now wish }
{
    if !may_open(seat, wish) {
        Opens::Refused(NOT_OPENED)
    } else if end_of(names, name).is_some() {
        Opens::Refused(WRONG_END)
    } else {
        Opens::Call(wish)
    }
}

/// What `request` comes to.
pub fn request_of(
    file: &File,
    names: &[Name],
    seat: Guard<'_>,
    name: &[u8],
    protocol: &[u8],
    party: &[u8],
) -> Opens
    ensures { result ≡ request_of (file_of file.now) (named names.now) (may_of seat.entry)
        name.now protocol.now party.now }
{
    match (
        label_number(&file.names.words, protocol),
        party_of_word(file, party),
    ) {
        (Some(protocol), Some(party)) => {
            open_of(names, seat, name, OpenWish::Request { party, protocol })
        }
        _ => Opens::Refused(NOT_OPENED),
    }
}

/// What `accept` comes to.
pub fn accept_of(
    file: &File,
    names: &[Name],
    seat: Guard<'_>,
    name: &[u8],
    protocol: &[u8],
    party: &[u8],
) -> Opens
    ensures { result ≡ accept_of (file_of file.now) (named names.now) (may_of seat.entry)
        name.now protocol.now party.now }
{
    match (
        label_number(&file.names.words, protocol),
        party_of_word(file, party),
    ) {
        (Some(protocol), Some(party)) => {
            open_of(names, seat, name, OpenWish::Accept { party, protocol })
        }
        _ => Opens::Refused(NOT_OPENED),
    }
}
