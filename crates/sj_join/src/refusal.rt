//! Why the logs of a run aren't joined.
ghost use Rattle.std.specs.Prelude.{◌≡◌};

use sj_base::NoMemory;
use sj_remote::{ConnRefusal, TalkRefusal};
use std::alloc::AllocFailed;
use thiserror::Error;

/// Why the logs of a run aren't joined.
#[derive(Clone, Copy, Debug, PartialEq, Eq, Error)]
pub enum JoinRefusal {
    /// The server has no file of that run.
    #[error("no run")]
    NoRun,
    /// The server refuses, or what comes isn't what was asked for.
    #[error("{0}")]
    Talk(TalkRefusal),
    /// The file or a log has more bytes than one may have.
    #[error("too large")]
    TooLarge,
    /// An entry of that party's stream has no lines.
    #[error("an entry without lines, of party {party}")]
    NoLines { party: u16 },
    /// The lines of that party's stream aren't in the grammar of logs. The first line that isn't,
    /// and the rule that it breaks.
    #[error("log of party {party}: L{rule} at {line}")]
    NoLog { party: u16, rule: u8, line: u32 },
    /// A line of that party's stream is another party's, or comes before the one above it.
    #[error("log of party {party}: not in order, or another's")]
    Disorder { party: u16 },
    #[error("out of memory")]
    NoMemory,
}

impl From<NoMemory> for JoinRefusal {
    ghost use Rattle.sj_join.specs.declared.refusal.JoinRefusal.TheVariants as joins;

    ghost from_gives = { λ _ e. e ≡ joins.NoMemory };

    fn from(_: NoMemory) -> Self {
        JoinRefusal::NoMemory
    }
}

impl From<ConnRefusal> for JoinRefusal {
    ghost use Rattle.sj_join.specs.Refusals.{refusal_of_conn};

    ghost from_gives = { λ c e. e ≡ refusal_of_conn c };

    fn from(refusal: ConnRefusal) -> Self {
        match refusal {
            ConnRefusal::Lost => JoinRefusal::Talk(TalkRefusal::Lost),
            ConnRefusal::NoReply => JoinRefusal::Talk(TalkRefusal::NoReply),
            ConnRefusal::NoMemory => JoinRefusal::NoMemory,
        }
    }
}

impl From<TalkRefusal> for JoinRefusal {
    ghost use Rattle.sj_join.specs.Refusals.{refusal_of_talk};

    ghost from_gives = { λ t e. e ≡ refusal_of_talk t };

    fn from(refusal: TalkRefusal) -> Self {
        match refusal {
            TalkRefusal::NoMemory => JoinRefusal::NoMemory,
            other => JoinRefusal::Talk(other),
        }
    }
}

impl<T: Drop> From<AllocFailed<T>> for JoinRefusal {
    ghost use Rattle.sj_join.specs.declared.refusal.JoinRefusal.TheVariants as joins;

    ghost from_gives = { λ _ e. e ≡ joins.NoMemory };

    fn from(_: AllocFailed<T>) -> Self {
        JoinRefusal::NoMemory
    }
}
