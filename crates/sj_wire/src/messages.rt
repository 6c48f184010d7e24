//! Messages, read from the start of bytes.
ghost use Rattle.std.specs.Prelude.{◌≡◌, length, IfOk};
ghost use Rattle.sj_wire.specs.Reading.{message_at, messages_at, sess_at, value_at};
ghost use Rattle.sj_wire.specs.Reads.{Reads};

use crate::WireRefusal;
use crate::fields::{end_id, flag, u8_at, u16_at, u32_at, u64_at};
use sj_base::Msg;
use std::alloc::Global;
use std::collections::VecDeque;

/// The end of a session message, and its keeper.
#[tactic(auto, unfolding(crate::specs::Reading::sess_at))]
fn sess(bytes: &[u8]) -> Result<(Msg, &[u8]), WireRefusal>
    ensures { Reads (λ x. (x.0, x.1.now)) result (sess_at bytes.now) }
{
    let (end, rest) = end_id(bytes)?;
    let (keeper, rest) = u16_at(rest)?;
    let msg = Msg::Sess {
        sess: end.sess,
        side: end.side,
        keeper,
    };
    Ok((msg, rest))
}

/// The value of a message with that tag.
#[tactic(auto, unfolding(crate::specs::Reading::value_at))]
fn value(tag: u8, bytes: &[u8]) -> Result<(Msg, &[u8]), WireRefusal>
    ensures { Reads (λ x. (x.0, x.1.now)) result (value_at tag bytes.now) }
{
    match tag {
        0 => {
            let (i, rest) = u64_at(bytes)?;
            Ok((Msg::Int(i.cast_signed()), rest))
        }
        1 => {
            let (b, rest) = flag(bytes)?;
            Ok((Msg::Bool(b), rest))
        }
        2 => {
            let (t, rest) = u32_at(bytes)?;
            Ok((Msg::Text(t), rest))
        }
        3 => {
            let (l, rest) = u16_at(bytes)?;
            Ok((Msg::Label(l), rest))
        }
        4 => {
            let (b, rest) = flag(bytes)?;
            Ok((Msg::More(b), rest))
        }
        5 => sess(bytes),
        _ => Err(WireRefusal::Value),
    }
}

#[tactic(auto, unfolding(crate::specs::Reading::message_at))]
pub(crate) fn message(bytes: &[u8]) -> Result<(Msg, &[u8]), WireRefusal>
    ensures { Reads (λ x. (x.0, x.1.now)) result (message_at bytes.now) }
{
    let (tag, rest) = u8_at(bytes)?;
    value(tag, rest)
}

/// So many messages.
pub(crate) fn messages(
    alloc: Global,
    count: u32,
    bytes: &[u8],
) -> Result<(VecDeque<Msg>, &[u8]), WireRefusal>
    ensures read { Reads (λ x. (x.0.items, x.1.now)) result (messages_at count bytes.now) }
    ensures count { IfOk result (λ x. length x.0.items ≡ count) }
{
    let mut cache = VecDeque::new(alloc);
    let mut rest = bytes;
    for _ in 0..count {
        let (msg, after) = message(rest)?;
        cache.push_back(msg)?;
        rest = after;
    }
    Ok((cache, rest))
}
