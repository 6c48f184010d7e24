//! How a party over a server ends: its last line, and its status.
use sj_remote_lines::Over;
use sj_remote_run::{Outcome, PlayRefusal};
use sj_remote_seat::SeatPlayRefusal;
use sj_seat_lines::Ended;
use sj_seat_local::{NO_MEMORY, WRITE_FAULT};

/// The status where a line can't be read.
const READ_FAULT: u8 = 2;

/// The status where lines couldn't be read or answered; none where they were over.
pub(crate) fn fault_of(over: Option<Over>) -> Option<u8> {
    match over {
        Some(Over::Lines(Ended::Unread)) => Some(READ_FAULT),
        Some(Over::Lines(Ended::Unwritten)) => Some(WRITE_FAULT),
        Some(Over::Lines(Ended::NoMemory)) => Some(NO_MEMORY),
        _ => None,
    }
}

/// The status of a party that ended well.
pub(crate) fn status_of(outcome: Outcome) -> u8 {
    match outcome {
        Outcome::Ended => 0,
        Outcome::Waits => 6,
        Outcome::Limit => 7,
    }
}

/// The status of a party that isn't played any further.
pub(crate) fn status_by(refusal: SeatPlayRefusal) -> u8 {
    match refusal {
        SeatPlayRefusal::LacksPlace => 9,
        SeatPlayRefusal::OtherCode => 31,
        SeatPlayRefusal::Party(refusal) => status_for(refusal),
    }
}

fn status_for(refusal: PlayRefusal) -> u8 {
    match refusal {
        PlayRefusal::NoMemory => NO_MEMORY,
        PlayRefusal::NoServer => 20,
        PlayRefusal::Password => 21,
        PlayRefusal::OtherFile => 22,
        PlayRefusal::Overtaken => 23,
        PlayRefusal::Server => 24,
        PlayRefusal::NoReply => 25,
        PlayRefusal::NoFrame => 26,
        PlayRefusal::Unfit => 27,
        PlayRefusal::LogFault => 28,
        PlayRefusal::TooLong => 29,
        PlayRefusal::Lost => 30,
    }
}
