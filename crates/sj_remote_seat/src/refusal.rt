//! Why a party that code plays isn't played any further.
ghost use Rattle.std.specs.Prelude.{◌≡◌};

use sj_base::NoMemory;
use sj_remote_run::PlayRefusal;
use std::alloc::{AllocError, AllocFailed};
use thiserror::Error;

/// Why a party that code plays isn't played any further. What was noted stands at the server.
#[derive(Clone, Copy, Debug, PartialEq, Eq, Error)]
pub enum SeatPlayRefusal {
    /// The table of the file lacks a place at which an end begins that is taken.
    #[error("the table lacks a place")]
    LacksPlace,
    /// The code asks for another act than the one that stands in the party's stream.
    #[error("other code")]
    OtherCode,
    /// As of a party that goes by the file.
    #[error("{0}")]
    Party(PlayRefusal),
}

impl From<PlayRefusal> for SeatPlayRefusal {
    ghost use Rattle.sj_remote_seat.specs.declared.refusal.SeatPlayRefusal.TheVariants as refusals;

    ghost from_gives = { λ r e. e ≡ refusals.Party r };

    fn from(refusal: PlayRefusal) -> Self {
        SeatPlayRefusal::Party(refusal)
    }
}

impl From<NoMemory> for SeatPlayRefusal {
    ghost use Rattle.sj_remote_run.specs.declared.refusal.PlayRefusal.TheVariants as plays;
    ghost use Rattle.sj_remote_seat.specs.declared.refusal.SeatPlayRefusal.TheVariants as refusals;

    ghost from_gives = { λ _ e. e ≡ refusals.Party plays.NoMemory };

    fn from(_: NoMemory) -> Self {
        SeatPlayRefusal::Party(PlayRefusal::NoMemory)
    }
}

impl From<AllocError> for SeatPlayRefusal {
    ghost use Rattle.sj_remote_run.specs.declared.refusal.PlayRefusal.TheVariants as plays;
    ghost use Rattle.sj_remote_seat.specs.declared.refusal.SeatPlayRefusal.TheVariants as refusals;

    ghost from_gives = { λ _ e. e ≡ refusals.Party plays.NoMemory };

    fn from(_: AllocError) -> Self {
        SeatPlayRefusal::Party(PlayRefusal::NoMemory)
    }
}

impl<T: Drop> From<AllocFailed<T>> for SeatPlayRefusal {
    ghost use Rattle.sj_remote_run.specs.declared.refusal.PlayRefusal.TheVariants as plays;
    ghost use Rattle.sj_remote_seat.specs.declared.refusal.SeatPlayRefusal.TheVariants as refusals;

    ghost from_gives = { λ _ e. e ≡ refusals.Party plays.NoMemory };

    fn from(_: AllocFailed<T>) -> Self {
        SeatPlayRefusal::Party(PlayRefusal::NoMemory)
    }
}
