//! Why a file isn't run by its parties.
ghost use Rattle.std.specs.Prelude.{◌≡◌};

use sj_base::NoMemory;
use sj_core::ReplayRefusal;
use sj_end::Misfit;
use thiserror::Error;

/// Why a file isn't run by its parties, in the order of refusals.
#[derive(Clone, Copy, Debug, PartialEq, Eq, Error)]
pub enum RunRefusal {
    /// The links, or a lane of theirs, met a fault.
    #[error("link fault")]
    LinkFault,
    /// The entry of the joined logs isn't the one that is due there.
    #[error("damaged entry {}", .0.number)]
    Damaged(Misfit),
    #[error("no memory")]
    NoMemory,
}

impl From<NoMemory> for RunRefusal {
    ghost use Rattle.sj_run.specs.declared.refusal.RunRefusal.TheVariants as refusals;

    ghost from_gives = { λ _ e. e ≡ refusals.NoMemory };

    fn from(_: NoMemory) -> Self {
        RunRefusal::NoMemory
    }
}

impl From<ReplayRefusal> for RunRefusal {
    ghost use Rattle.sj_run.specs.Refusals.{run_refusal};

    ghost from_gives = { λ refusal e. e ≡ run_refusal refusal };

    fn from(refusal: ReplayRefusal) -> Self {
        match refusal {
            ReplayRefusal::Misfit(misfit) => RunRefusal::Damaged(misfit),
            ReplayRefusal::NoMemory => RunRefusal::NoMemory,
        }
    }
}
