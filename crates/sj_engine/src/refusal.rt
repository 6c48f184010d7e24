//! Why an entry isn't done again, and why frames aren't spelt.
ghost use Rattle.std.specs.Prelude.{◌≡◌};

use std::alloc::AllocError;
use thiserror::Error;

/// Why an entry of a log isn't done again.
#[derive(Clone, Copy, Debug, PartialEq, Eq, Error)]
pub enum RedoRefusal {
    /// The party does something else here, or nothing.
    #[error("misfit")]
    Misfit,
    #[error("no memory")]
    NoMemory,
}

/// Why the frames of a lane aren't spelt.
#[derive(Clone, Copy, Debug, PartialEq, Eq, Error)]
pub enum SpellRefusal {
    /// A frame is outside the limits of the wire.
    #[error("outside the limits")]
    Unlawful,
    #[error("no memory")]
    NoMemory,
}

impl From<AllocError> for SpellRefusal {
    ghost use Rattle.sj_engine.specs.declared.refusal.SpellRefusal.TheVariants as refusals;

    ghost from_gives = { λ _ e. e ≡ refusals.NoMemory };

    fn from(_: AllocError) -> Self {
        SpellRefusal::NoMemory
    }
}
