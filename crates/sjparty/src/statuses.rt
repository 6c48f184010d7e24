//! How a call ends: its last line, and its status.
use sj_check::CheckRefusal;
use sj_party::Fault;
use sj_remote_run::{Outcome, PlayRefusal};
use thiserror::Error;

/// Why no party is played, or not any further.
#[derive(Clone, Copy, Debug, PartialEq, Eq, Error)]
pub(crate) enum Why {
    #[error("usage: sjparty NAME --run ID [--server HOST:PORT] [--wait SECONDS]")]
    Usage,
    #[error("read fault")]
    ReadFault,
    #[error("too large")]
    TooLarge,
    /// The input is no file of the grammar.
    #[error("syntax {0}")]
    Syntax(Fault),
    /// The file isn't accepted.
    #[error("check {0}")]
    Check(CheckRefusal),
    /// The file has no party of that name.
    #[error("no party")]
    NoParty,
    #[error("{0}")]
    Refused(PlayRefusal),
}

/// The status of a party that ended well.
pub(crate) fn status_of(outcome: Outcome) -> u8 {
    match outcome {
        Outcome::Ended => 0,
        Outcome::Waits => 6,
        Outcome::Limit => 7,
    }
}

/// The status of a party that isn't played any further.
fn status_for(refusal: PlayRefusal) -> u8 {
    match refusal {
        PlayRefusal::NoMemory => 11,
        PlayRefusal::NoServer => 20,
        PlayRefusal::Password => 21,
        PlayRefusal::OtherFile => 22,
        PlayRefusal::Overtaken => 23,
        PlayRefusal::Server => 24,
        PlayRefusal::NoReply => 25,
        PlayRefusal::NoFrame => 26,
        PlayRefusal::Unfit => 27,
        PlayRefusal::LogFault => 28,
        PlayRefusal::TooLong => 29,
        PlayRefusal::Lost => 30,
    }
}

/// The status of a call that ends so.
pub(crate) fn status_by(why: Why) -> u8 {
    match why {
        Why::Usage => 1,
        Why::ReadFault => 2,
        Why::TooLarge => 3,
        Why::Syntax(_) => 4,
        Why::Check(_) => 5,
        Why::NoParty => 14,
        Why::Refused(refusal) => status_for(refusal),
    }
}
