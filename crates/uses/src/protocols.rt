//! Two protocols that a program states, and checks before it speaks.
ghost use Rattle.std.specs.Prelude.{◌≡◌, ◌≤◌, IfErr, IfOk, length};
ghost use Rattle.sj_lang.specs.Limits.{file_limit};
ghost use Rattle.uses.specs.Talks.{CanTalk, IsNoTalk};

use porcharnica::{Fault, ParseRefusal, meets, parse_file};
use std::alloc::Global;
use thiserror::Error;

/// Why it isn't answered whether two protocols meet.
#[derive(Clone, Copy, Debug, PartialEq, Eq, Error)]
pub enum TalkRefusal {
    /// The text stands for no file: its first fault.
    #[error("no file: line {}, column {}", .0.line, .0.column)]
    At(Fault),
    /// It stands for a file with so many protocols, and not with two.
    #[error("{0} protocols")]
    Protocols(usize),
    #[error("no memory")]
    NoMemory,
}

impl From<ParseRefusal> for TalkRefusal {
    ghost use Rattle.uses.specs.Talks.{talk_refusal};

    ghost from_gives = { λ refusal e. e ≡ talk_refusal refusal };

    fn from(refusal: ParseRefusal) -> Self {
        match refusal {
            ParseRefusal::At(fault) => TalkRefusal::At(fault),
            ParseRefusal::NoMemory => TalkRefusal::NoMemory,
        }
    }
}

/// Whether the two protocols of the text, a program's own and that of its peer, meet: what the one
/// sends, the other can take.
pub fn can_talk(alloc: Global, text: &[u8]) -> Result<bool, TalkRefusal>
    requires { length text.now ≤ file_limit }
    ensures ok { IfOk result (CanTalk text.now) }
    ensures err { IfErr result (IsNoTalk text.now) }
{
    let file = parse_file(alloc, text)?;
    let [own, peers] = file.protocols.as_slice() else {
        return Err(TalkRefusal::Protocols(file.protocols.len()));
    };
    Ok(meets(&own.body, &peers.body))
}
