//! What parties send to each other.
ghost use Rattle.std.specs.Prelude.{◌≡◌, ℕ};
ghost use Rattle.sj_forward.specs.Views.{frame_at, sent_at};
ghost use Rattle.sj_forward_rules.specs.Node as rules;
ghost use Rattle.sj_rules.specs.Record.{other_end as other};

use sj_base::{EndId, Msg};

/// A message as it goes, with the hop number of the end that it names; 0 where it names none.
#[derive(Clone, Copy)]
pub struct Sent {
    pub msg: Msg,
    pub hop: u8,
}

/// A frame. An end has a record for each hop, and hop numbers count them in tables.
#[derive(Clone, Copy)]
pub enum ForwardFrame {
    /// A message for a record of the end that takes it.
    In { to: EndId, hop: usize, sent: Sent },
    /// A message back to a record of the end that sent it.
    Out { of: EndId, hop: usize, sent: Sent },
    /// Asks for what waits at a record.
    Claim { of: EndId, hop: usize },
    /// Opens a session.
    Open { sess: u32 },
}

/// The other end of the session.
fn other_end(end: EndId) -> EndId
    ensures { result ≡ other end }
{
    EndId {
        sess: end.sess,
        side: 1u8.saturating_sub(end.side),
    }
}

/// The frame in which a message leaves the record of its end at that hop, for the party before that
/// record.
pub(crate) fn onward(end: EndId, hop: usize, sent: Sent) -> ForwardFrame
    ensures { (behind : ℕ) → rules.onward end hop behind (sent_at sent)
        ≡ record { party = behind; frame = frame_at result } }
{
    if hop == 0 {
        ForwardFrame::In {
            to: other_end(end),
            hop: 0,
            sent,
        }
    } else {
        ForwardFrame::Out {
            of: end,
            hop: hop - 1,
            sent,
        }
    }
}
