//! What a party may do in its turn, and why it does nothing.
ghost use Rattle.std.specs.Prelude.{◌≡◌};

use sj_base::NoMemory;
use thiserror::Error;

/// An act of a party, or a delivery to it of the front frame of the lane from another.
#[derive(Clone, Copy, Debug, PartialEq, Eq)]
pub enum Turn {
    Act,
    Deliver(u16),
}

/// Why a turn isn't done. The world is then as it was.
#[derive(Clone, Copy, Debug, PartialEq, Eq, Error)]
pub enum TurnRefusal {
    /// The lane is empty, or the party isn't ready by what it holds.
    #[error("no step")]
    NoStep,
    #[error("no memory")]
    NoMemory,
}

impl From<NoMemory> for TurnRefusal {
    ghost use Rattle.sj_forward.specs.declared.refusal.TurnRefusal.TheVariants as refusals;

    ghost from_gives = { λ _ e. e ≡ refusals.NoMemory };

    fn from(_: NoMemory) -> Self {
        TurnRefusal::NoMemory
    }
}
