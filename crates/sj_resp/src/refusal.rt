//! Why bytes aren't read as a token.
ghost use Rattle.std.specs.Prelude.{◌≡◌};

use sj_base::NoMemory;
use std::alloc::AllocError;
use thiserror::Error;

/// Why no token is read from the start of the bytes. All causes but `NoMemory` are final: no
/// further bytes make a token of these.
#[derive(Clone, Copy, Debug, PartialEq, Eq, Error)]
pub enum RespRefusal {
    /// The first byte begins no token.
    #[error("a byte that begins no token")]
    Kind,
    /// The line is longer than 65,536 bytes.
    #[error("a line that is too long")]
    Long,
    /// A carriage return in the line has no newline after it.
    #[error("a carriage return without a newline")]
    Line,
    /// The line isn't a canonical number, or the number is beyond its limit.
    #[error("a number that is malformed or too large")]
    Number,
    /// No end of line comes after as many bytes as the length says.
    #[error("a bulk that doesn't end where its length says")]
    End,
    /// Out of memory: the bytes may well be a token.
    #[error("out of memory")]
    NoMemory,
}

impl From<NoMemory> for RespRefusal {
    ghost use Rattle.sj_resp.specs.declared.refusal.RespRefusal.TheVariants as refusals;

    ghost from_gives = { λ _ e. e ≡ refusals.NoMemory };

    fn from(_: NoMemory) -> Self {
        RespRefusal::NoMemory
    }
}

impl From<AllocError> for RespRefusal {
    ghost use Rattle.sj_resp.specs.declared.refusal.RespRefusal.TheVariants as refusals;

    ghost from_gives = { λ _ e. e ≡ refusals.NoMemory };

    fn from(_: AllocError) -> Self {
        RespRefusal::NoMemory
    }
}
