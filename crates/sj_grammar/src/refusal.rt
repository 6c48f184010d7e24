//! Why a parser gives no value.
use crate::tokens::Fault;
use sj_base::NoMemory;
use std::alloc::AllocFailed;
use thiserror::Error;

/// Why a parser gives no value.
#[derive(Clone, Copy, Debug, PartialEq, Eq, Error)]
pub enum ParseRefusal {
    /// The text is outside the grammar: its first fault.
    #[error("{0}")]
    At(Fault),
    #[error("no memory")]
    NoMemory,
}

impl From<Fault> for ParseRefusal {
    ghost use Rattle.std.specs.Prelude.{◌≡◌};
    ghost use Rattle.sj_grammar.specs.declared.refusal.ParseRefusal.TheVariants as refusals;

    ghost from_gives = { λ f e. e ≡ refusals.At f };

    fn from(fault: Fault) -> Self {
        ParseRefusal::At(fault)
    }
}

impl From<NoMemory> for ParseRefusal {
    ghost use Rattle.std.specs.Prelude.{◌≡◌};
    ghost use Rattle.sj_grammar.specs.declared.refusal.ParseRefusal.TheVariants as refusals;

    ghost from_gives = { λ _ e. e ≡ refusals.NoMemory };

    fn from(_: NoMemory) -> Self {
        ParseRefusal::NoMemory
    }
}

impl<T: Drop> From<AllocFailed<T>> for ParseRefusal {
    ghost use Rattle.std.specs.Prelude.{◌≡◌};
    ghost use Rattle.sj_grammar.specs.declared.refusal.ParseRefusal.TheVariants as refusals;

    ghost from_gives = { λ _ e. e ≡ refusals.NoMemory };

    fn from(_: AllocFailed<T>) -> Self {
        ParseRefusal::NoMemory
    }
}
