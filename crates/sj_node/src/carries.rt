//! A Carry or a Fin comes to a party.
ghost use Rattle.std.specs.Prelude.{◌≡◌, ◌≤◌, Some, None, option_map, OnOk, OnErr, IsErrOf};
ghost use Rattle.sj_node.specs.Coming.{RowOf, NoRow, peer_of};
ghost use Rattle.sj_node.specs.Slots.{mains_in, olds_in};
ghost use Rattle.sj_rules.specs.Node.{with_number};
ghost use Rattle.sj_rules.specs.Record as rules;
ghost use Rattle.sj_rules.specs.Limits.{limit_of_messages};

use crate::DeliverRefusal;
use crate::arrivals::{carry_to_main, fin_to_main};
use crate::slots::{Main, Old, slot_of};
use sj_base::{EndId, Msg};

/// The peer of the old record of the end that has that connection number.
pub(crate) fn old_peer(olds: &[Option<Old>], end: EndId, conn: u32) -> Option<u16>
    ensures { result ≡ option_map peer_of (with_number conn (olds_in olds.now end)) }
{
    let at = slot_of(end, olds.len())?;
    let end = match &olds[at] {
        Some(Old::Parked(parked)) => &parked.end,
        Some(Old::Signalled(signalled)) => &signalled.end,
        None => return None,
    };
    if end.conn == conn {
        Some(end.peer)
    } else {
        None
    }
}

/// A Carry comes. At an old record of its number it is dropped.
pub(crate) fn carry_comes(
    mains: &mut Vec<Option<Main>>,
    olds: &[Option<Old>],
    from: u16,
    to: EndId,
    conn: u32,
    number: u32,
    taken: u32,
    msg: Msg,
) -> Result<(), DeliverRefusal>
    requires { number ≤ limit_of_messages }
    ensures ok { OnOk result (RowOf from (rules.Carry to conn number taken msg)
        (mains_in mains.old.items) (olds_in olds.now) (mains_in mains.new.items)) }
    ensures unfit { IsErrOf result DeliverRefusal.Unfit →
        NoRow from (rules.Carry to conn number taken msg) (mains_in mains.old.items) (olds_in olds.now) }
    ensures err { OnErr result (mains_in mains.new.items ≡ mains_in mains.old.items) }
{
    match old_peer(olds, to, conn) {
        Some(peer) => {
            if from == peer {
                Ok(())
            } else {
                Err(DeliverRefusal::Unfit)
            }
        }
        None => carry_to_main(mains, from, to, conn, number, taken, msg),
    }
}

/// A Fin comes. At an old record of its number it is dropped.
pub(crate) fn fin_comes(
    mains: &mut Vec<Option<Main>>,
    olds: &[Option<Old>],
    from: u16,
    to: EndId,
    conn: u32,
    number: u32,
) -> Result<(), DeliverRefusal>
    ensures ok { OnOk result (RowOf from (rules.Fin to conn number)
        (mains_in mains.old.items) (olds_in olds.now) (mains_in mains.new.items)) }
    ensures unfit { IsErrOf result DeliverRefusal.Unfit →
        NoRow from (rules.Fin to conn number) (mains_in mains.old.items) (olds_in olds.now) }
    ensures err { OnErr result (mains_in mains.new.items ≡ mains_in mains.old.items) }
{
    match old_peer(olds, to, conn) {
        Some(peer) => {
            if from == peer {
                Ok(())
            } else {
                Err(DeliverRefusal::Unfit)
            }
        }
        None => fin_to_main(mains, from, to, conn, number),
    }
}
