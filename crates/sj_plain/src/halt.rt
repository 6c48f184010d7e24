//! Why a party can't act.
ghost use Rattle.std.specs.Prelude.{◌≡◌};

use sj_base::NoMemory;
use thiserror::Error;

/// Why a party can't act. The world is then as it was.
#[derive(Clone, Copy, Debug, PartialEq, Eq, Error)]
pub enum Halt {
    /// It would take a message or accept a session where none is there.
    #[error("waits")]
    Waits,
    /// It has nothing more to do.
    #[error("ended")]
    Ended,
    /// It has done 10,000 steps, would delegate an end that was delegated 100 times, or would
    /// request a 101st session.
    #[error("at limit")]
    AtLimit,
    #[error("no memory")]
    NoMemory,
}

impl From<NoMemory> for Halt {
    ghost use Rattle.sj_plain.specs.declared.halt.Halt.TheVariants as halts;

    ghost from_gives = { λ _ e. e ≡ halts.NoMemory };

    fn from(_: NoMemory) -> Self {
        Halt::NoMemory
    }
}
