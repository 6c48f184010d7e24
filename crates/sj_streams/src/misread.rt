//! Why a reply isn't read.
ghost use Rattle.std.specs.Prelude.{◌≡◌};

use sj_base::NoMemory;
use std::alloc::{AllocError, AllocFailed};
use thiserror::Error;

/// Why a reply isn't read.
#[derive(Clone, Copy, Debug, PartialEq, Eq, Error)]
pub enum Misread {
    /// It has another shape.
    #[error("a reply of another shape")]
    Shape,
    /// It has a stream that wasn't asked for.
    #[error("a stream that wasn't asked for")]
    Key,
    /// An entry hasn't the number that comes next.
    #[error("an entry that isn't the next")]
    Gap,
    #[error("out of memory")]
    NoMemory,
}

impl From<NoMemory> for Misread {
    ghost use Rattle.sj_streams.specs.declared.misread.Misread.TheVariants as misreads;

    ghost from_gives = { λ _ e. e ≡ misreads.NoMemory };

    fn from(_: NoMemory) -> Self {
        Misread::NoMemory
    }
}

impl From<AllocError> for Misread {
    ghost use Rattle.sj_streams.specs.declared.misread.Misread.TheVariants as misreads;

    ghost from_gives = { λ _ e. e ≡ misreads.NoMemory };

    fn from(_: AllocError) -> Self {
        Misread::NoMemory
    }
}

impl<T: Drop> From<AllocFailed<T>> for Misread {
    ghost use Rattle.sj_streams.specs.declared.misread.Misread.TheVariants as misreads;

    ghost from_gives = { λ _ e. e ≡ misreads.NoMemory };

    fn from(_: AllocFailed<T>) -> Self {
        Misread::NoMemory
    }
}
