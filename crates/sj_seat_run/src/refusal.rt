//! Why a file isn't run with seats.
ghost use Rattle.std.specs.Prelude.{◌≡◌};

use sj_base::NoMemory;
use sj_core::ReplayRefusal;
use sj_end::Misfit;
use thiserror::Error;

/// Why a file isn't run with seats, in the order of refusals.
#[derive(Clone, Copy, Debug, PartialEq, Eq, Error)]
pub enum SeatedRefusal {
    /// No table has a spot for each place of an end that is carried. A file that was read never comes
    /// there.
    #[error("a carried place is in no table")]
    LacksPlace,
    /// The links, or a lane of theirs, met a fault.
    #[error("link fault")]
    LinkFault,
    /// The entry of the joined logs isn't the one that is due there.
    #[error("damaged entry {}", .0.number)]
    Damaged(Misfit),
    /// A party met a frame, a head or a send that the rules have no row for.
    #[error("unfit")]
    Unfit,
    #[error("no memory")]
    NoMemory,
}

impl From<NoMemory> for SeatedRefusal {
    ghost use Rattle.sj_seat_run.specs.declared.refusal.SeatedRefusal.TheVariants as refusals;

    ghost from_gives = { λ _ e. e ≡ refusals.NoMemory };

    fn from(_: NoMemory) -> Self {
        SeatedRefusal::NoMemory
    }
}

impl From<ReplayRefusal> for SeatedRefusal {
    ghost use Rattle.sj_seat_run.specs.Refusals.{seated_refusal};

    ghost from_gives = { λ refusal e. e ≡ seated_refusal refusal };

    fn from(refusal: ReplayRefusal) -> Self {
        match refusal {
            ReplayRefusal::Misfit(misfit) => SeatedRefusal::Damaged(misfit),
            ReplayRefusal::NoMemory => SeatedRefusal::NoMemory,
        }
    }
}
