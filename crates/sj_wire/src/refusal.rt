//! Why a frame isn't spelt, and why bytes are no frame.
ghost use Rattle.std.specs.Prelude.{◌≡◌};

use sj_base::NoMemory;
use std::alloc::{AllocError, AllocFailed};
use thiserror::Error;

/// Why a frame isn't spelt.
#[derive(Clone, Copy, Debug, PartialEq, Eq, Error)]
pub enum EncodeRefusal {
    /// The cache of a Give has more messages than a frame holds.
    #[error("too long")]
    TooLong,
    #[error("no memory")]
    NoMemory,
}

impl From<AllocError> for EncodeRefusal {
    ghost use Rattle.sj_wire.specs.declared.refusal.EncodeRefusal.TheVariants as refusals;

    ghost from_gives = { λ _ e. e ≡ refusals.NoMemory };

    fn from(_: AllocError) -> Self {
        EncodeRefusal::NoMemory
    }
}

/// Why what stands at the start of the bytes isn't read. Where it is no frame, it stays so
/// whatever comes after it.
#[derive(Clone, Copy, Debug, PartialEq, Eq, Error)]
pub enum WireRefusal {
    /// No frame has that length.
    #[error("length")]
    Length,
    /// The version isn't 1 or 2.
    #[error("version")]
    Version,
    /// No kind of frame of that version has that byte.
    #[error("kind")]
    Kind,
    /// The fields aren't those of a frame of that kind, or don't fill it.
    #[error("value")]
    Value,
    #[error("no memory")]
    NoMemory,
}

impl From<NoMemory> for WireRefusal {
    ghost use Rattle.sj_wire.specs.declared.refusal.WireRefusal.TheVariants as refusals;

    ghost from_gives = { λ _ e. e ≡ refusals.NoMemory };

    fn from(_: NoMemory) -> Self {
        WireRefusal::NoMemory
    }
}

impl From<AllocError> for WireRefusal {
    ghost use Rattle.sj_wire.specs.declared.refusal.WireRefusal.TheVariants as refusals;

    ghost from_gives = { λ _ e. e ≡ refusals.NoMemory };

    fn from(_: AllocError) -> Self {
        WireRefusal::NoMemory
    }
}

impl<T: Drop> From<AllocFailed<T>> for WireRefusal {
    ghost use Rattle.sj_wire.specs.declared.refusal.WireRefusal.TheVariants as refusals;

    ghost from_gives = { λ _ e. e ≡ refusals.NoMemory };

    fn from(_: AllocFailed<T>) -> Self {
        WireRefusal::NoMemory
    }
}
