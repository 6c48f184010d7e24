//! Why a server's answer isn't what was asked for.
ghost use Rattle.std.specs.Prelude.{◌≡◌};

use sj_base::NoMemory;
use sj_streams::Refusal;
use thiserror::Error;

/// Why a server's answer isn't what was asked for.
#[derive(Clone, Copy, Debug, PartialEq, Eq, Error)]
pub enum TalkRefusal {
    /// The connection ended or broke.
    #[error("connection lost")]
    Lost,
    /// What came is no reply, or none to what was asked.
    #[error("no reply")]
    NoReply,
    /// An entry hasn't the number that comes next.
    #[error("an entry that isn't the next")]
    Gap,
    /// The server refused the command.
    #[error("refused: {0}")]
    Refused(Refusal),
    #[error("out of memory")]
    NoMemory,
}

impl From<NoMemory> for TalkRefusal {
    ghost use Rattle.sj_remote.specs.declared.talk_refusal.TalkRefusal.TheVariants as talks;

    ghost from_gives = { λ _ e. e ≡ talks.NoMemory };

    fn from(_: NoMemory) -> Self {
        TalkRefusal::NoMemory
    }
}
