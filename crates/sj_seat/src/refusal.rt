//! Why a call isn't done.
ghost use Rattle.std.specs.Prelude.{◌≡◌};

use sj_work::Stop;
use thiserror::Error;

/// Why a call isn't done. The variants stand in the order of the rules.
#[derive(Clone, Copy, Debug, PartialEq, Eq, Error)]
pub enum SeatRefusal {
    /// An end isn't held.
    #[error("the end isn't held")]
    NotHeld,
    /// The place begins otherwise.
    #[error("the place begins otherwise")]
    BeginsOtherwise,
    /// The two ends of a delegation are one, or nothing is ahead of the one that is sent.
    #[error("the end can't be sent there")]
    WrongEnd,
    /// Another kind, a label outside the choice, a text that the code may not name, or an end whose place
    /// doesn't stand for the carried one.
    #[error("what is sent is of another kind")]
    WrongKind,
    /// The party's text opens no such session.
    #[error("no such session may be opened")]
    NotOpened,
    /// 10,000 calls were made, the end that is sent was delegated 100 times, or 100 sessions were
    /// requested.
    #[error("at limit")]
    AtLimit,
    /// Nothing is there to take, or an end that is used is still on its way.
    #[error("nothing came that the call needs")]
    Waiting,
    /// The worker stopped for good.
    #[error("stopped")]
    Stopped(Stop),
    #[error("no memory")]
    NoMemory,
}
