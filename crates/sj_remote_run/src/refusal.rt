//! Why a party isn't played any further.
ghost use Rattle.std.specs.Prelude.{◌≡◌};

use sj_base::NoMemory;
use std::alloc::{AllocError, AllocFailed};
use thiserror::Error;

/// Why a party isn't played any further. What was noted stands at the server.
#[derive(Clone, Copy, Debug, PartialEq, Eq, Error)]
pub enum PlayRefusal {
    /// The server doesn't serve now.
    #[error("no server")]
    NoServer,
    /// The server wants a password, or another one.
    #[error("password refused")]
    Password,
    /// The run has another file.
    #[error("other file")]
    OtherFile,
    /// Another process plays this party.
    #[error("overtaken")]
    Overtaken,
    /// The server answered with an error.
    #[error("server error")]
    Server,
    /// What came is no reply, or none to what was asked.
    #[error("no reply")]
    NoReply,
    /// What another party's entry has is no frame, or the entry isn't the next one.
    #[error("no frame")]
    NoFrame,
    /// A frame that fits nothing.
    #[error("unfit")]
    Unfit,
    /// The stream of the party has an entry that isn't the party's work.
    #[error("log fault")]
    LogFault,
    /// A batch or a stream is too long, or a frame is outside the limits of the wire.
    #[error("too long")]
    TooLong,
    /// The connection ended or broke.
    #[error("connection lost")]
    Lost,
    #[error("no memory")]
    NoMemory,
}

impl From<NoMemory> for PlayRefusal {
    ghost use Rattle.sj_remote_run.specs.declared.refusal.PlayRefusal.TheVariants as plays;

    ghost from_gives = { λ _ e. e ≡ plays.NoMemory };

    fn from(_: NoMemory) -> Self {
        PlayRefusal::NoMemory
    }
}

impl From<AllocError> for PlayRefusal {
    ghost use Rattle.sj_remote_run.specs.declared.refusal.PlayRefusal.TheVariants as plays;

    ghost from_gives = { λ _ e. e ≡ plays.NoMemory };

    fn from(_: AllocError) -> Self {
        PlayRefusal::NoMemory
    }
}

impl<T: Drop> From<AllocFailed<T>> for PlayRefusal {
    ghost use Rattle.sj_remote_run.specs.declared.refusal.PlayRefusal.TheVariants as plays;

    ghost from_gives = { λ _ e. e ≡ plays.NoMemory };

    fn from(_: AllocFailed<T>) -> Self {
        PlayRefusal::NoMemory
    }
}
