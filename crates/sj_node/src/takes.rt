//! Steps that take from an end.
ghost use Rattle.std.specs.Prelude.{◌≡◌, ◌+◌, ◌*◌, ◌<◌, Some, OnOk, OnErr, IfErr, IsErrOf, false, option_map, is_none, slice_get, vec_len};
ghost use Rattle.sj_end.specs.Views.{expected_at, held_at};
ghost use Rattle.sj_node.specs.Play.{awaited_place, names_known};
ghost use Rattle.sj_node.specs.Fitting.{can_take};
ghost use Rattle.sj_node.specs.Halts.{is_late};
ghost use Rattle.sj_node.specs.Slots.{main_at, mains_in};
ghost use Rattle.sj_node.specs.Taking.{Takes, TakesFrom, TakesHeld, held_head};
ghost use Rattle.sj_rules.specs.Node.{put};
ghost use Rattle.sj_rules.specs.Record as rules;
ghost use Rattle.sj_table.specs.Spots.{place_in, start_in};

use crate::Halt;
use crate::numbers::is_session;
use crate::slots::{Main, slot_of};
use sj_base::{EndId, Msg};
use sj_end::{Expected, Held};
use sj_lang::Way;
use sj_semantics::Awaits;
use sj_table::{Spot, Table};

/// The next message of the end, where that is held.
pub(crate) fn head_at(mains: &[Option<Main>], end: EndId) -> Option<Msg>
    ensures { result ≡ held_head (mains_in mains.now end) }
{
    let at = slot_of(end, mains.len())?;
    match &mains[at] {
        Some(Main::Held(held)) => held.head(),
        _ => None,
    }
}

/// Takes the message, which is the end's next, where its place lets it come.
pub(crate) fn take_on(
    mains: &mut Vec<Option<Main>>,
    table: &Table,
    end: EndId,
    msg: Msg,
) -> Result<(), Halt>
    requires { held_head (mains_in mains.old.items end) ≡ Some msg }
    ensures ok { OnOk result (Takes table.now end msg (mains_in mains.old.items) (mains_in mains.new.items)) }
    ensures err { OnErr result (mains_in mains.new.items ≡ mains_in mains.old.items) }
    ensures late { IfErr result is_late }
    ensures unfit { IsErrOf result Halt.Unfit → can_take table.now msg (mains_in mains.old.items end) ≡ false }
    ensures len { vec_len mains.new ≡ vec_len mains.old }
{
    let Some(at) = slot_of(end, mains.len()) else {
        return Err(Halt::Unfit);
    };
    let slot = &mut mains[at];
    take_from(slot, table, msg)
}

fn take_from(slot: &mut Option<Main>, table: &Table, msg: Msg) -> Result<(), Halt>
    requires { held_head (option_map main_at slot.old) ≡ Some msg }
    ensures ok { OnOk result (TakesFrom table.now msg (option_map main_at slot.old) (option_map main_at slot.new)) }
    ensures err { OnErr result (option_map main_at slot.new ≡ option_map main_at slot.old) }
    ensures late { IfErr result is_late }
    ensures unfit { IsErrOf result Halt.Unfit → can_take table.now msg (option_map main_at slot.old) ≡ false }
{
    match slot {
        Some(Main::Held(held)) => take_held(held, table, msg),
        _ => Err(Halt::Unfit),
    }
}

fn take_held(held: &mut Held, table: &Table, msg: Msg) -> Result<(), Halt>
    requires { slice_get held.old.untaken.items 0 ≡ Some msg }
    ensures ok { OnOk result (TakesHeld table.now msg (held_at held.old) (held_at held.new)) }
    ensures err { OnErr result (held_at held.new ≡ held_at held.old) }
    ensures late { IfErr result is_late }
    ensures unfit { IsErrOf result Halt.Unfit →
        can_take table.now msg (Some (rules.Held (held_at held.old))) ≡ false }
{
    let Some(next) = table.after(held.end.place, Way::Into, &msg) else {
        return Err(Halt::Unfit);
    };
    let _ = held.take(next);
    Ok(())
}

/// The spot that an end gets which is taken there.
pub(crate) fn awaited_spot(table: &Table, awaits: Awaits) -> Spot
    ensures { place_in table.now result ≡ awaited_place (start_in table.now) awaits }
{
    match awaits {
        Awaits::Session(protocol) => table.start(protocol),
        _ => table.done(),
    }
}

/// Whether a session message names an end of a session, and a party, among so many connections and
/// parties.
pub(crate) fn is_known(connects: usize, parties: u16, msg: &Msg) -> bool
    ensures { result ≡ names_known connects parties msg.now }
{
    match msg {
        Msg::Sess { sess, side, keeper } => {
            is_session(connects, parties, *sess) && *side < 2 && *keeper < parties
        }
        _ => true,
    }
}

/// Whether the party neither uses the end nor awaits it nor has closed it.
pub(crate) fn is_free(mains: &[Option<Main>], end: EndId) -> bool
    ensures { result ≡ is_none (mains_in mains.now end) }
{
    match slot_of(end, mains.len()) {
        Some(at) => mains[at].is_none(),
        None => true,
    }
}

/// Puts the record of an end that the party awaits into its slot.
pub(crate) fn expect(mains: &mut Vec<Option<Main>>, expected: Expected)
    requires side { expected.id.side < 2 }
    requires slot { 2 * expected.id.sess + expected.id.side < vec_len mains.old }
    ensures { mains_in mains.new.items
        ≡ put expected.id (Some (expected_at expected)) (mains_in mains.old.items) }
{
    let at = 2 * expected.id.sess as usize + expected.id.side as usize;
    mains[at] = Some(Main::Expected(expected));
}
