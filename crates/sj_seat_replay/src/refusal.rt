//! Why a log isn't done again with seats.
ghost use Rattle.std.specs.Prelude.{◌≡◌};

use sj_base::NoMemory;
use sj_core::ReplayRefusal;
use sj_end::Misfit;
use sj_log::LogRefusal;
use thiserror::Error;

/// Why a log isn't done again with seats, in the order of refusals.
#[derive(Clone, Copy, Debug, PartialEq, Eq, Error)]
pub enum SeatReplayRefusal {
    /// The first line that isn't in the grammar, from 1 on, and the rule that it breaks.
    #[error("log L{rule} at {line}")]
    Text { rule: u8, line: u32 },
    /// No table has a spot for each place of an end that is carried. A file that was read never comes
    /// there.
    #[error("a carried place is in no table")]
    LacksPlace,
    /// The first entry that isn't the one that is due there.
    #[error("log entry {}", .0.number)]
    Entry(Misfit),
    #[error("no memory")]
    NoMemory,
}

impl From<NoMemory> for SeatReplayRefusal {
    ghost use Rattle.sj_seat_replay.specs.declared.refusal.SeatReplayRefusal.TheVariants as refusals;

    ghost from_gives = { λ _ e. e ≡ refusals.NoMemory };

    fn from(_: NoMemory) -> Self {
        SeatReplayRefusal::NoMemory
    }
}

impl From<LogRefusal> for SeatReplayRefusal {
    ghost use Rattle.sj_seat_replay.specs.Replays.{text_refusal};

    ghost from_gives = { λ refusal e. e ≡ text_refusal refusal };

    fn from(refusal: LogRefusal) -> Self {
        match refusal {
            LogRefusal::At { rule, line } => SeatReplayRefusal::Text { rule, line },
            LogRefusal::NoMemory => SeatReplayRefusal::NoMemory,
        }
    }
}

impl From<ReplayRefusal> for SeatReplayRefusal {
    ghost use Rattle.sj_seat_replay.specs.Replays.{entry_refusal};

    ghost from_gives = { λ refusal e. e ≡ entry_refusal refusal };

    fn from(refusal: ReplayRefusal) -> Self {
        match refusal {
            ReplayRefusal::Misfit(misfit) => SeatReplayRefusal::Entry(misfit),
            ReplayRefusal::NoMemory => SeatReplayRefusal::NoMemory,
        }
    }
}
