//! The taker of an end gets it.
ghost use Rattle.std.specs.Prelude.{◌≡◌, ◌+◌, ◌≤◌, Some, IfOk, IfErr, IsTrue, is_some, length, map};
ghost use Rattle.sj_end.specs.Views.{deferred_at, held_at, post_at};
ghost use Rattle.sj_handover.specs.Installing.{Installs, installed_work};
ghost use Rattle.sj_handover.specs.Working.{held_by};
ghost use Rattle.sj_rules.specs.Limits.{limit_of_messages};

use crate::deferrals::{Tally, resend_as, work_off};
use sj_base::{Msg, NoMemory};
use sj_end::{Deferred, End, Expected, Held, Post};
use std::alloc::Global;
use std::collections::VecDeque;

/// The end that came, at the place that was awaited: its cache again where that is asked for, and
/// then each deferred body. Where it runs out of memory, it hands both back.
pub fn install(
    alloc: Global,
    e: Expected,
    end: End,
    resend: Option<u32>,
) -> Result<(Held, Vec<Post>), (Expected, End)>
    requires fits { IsTrue (is_some (installed_work e end resend)) }
    requires taken { end.taken ≤ limit_of_messages }
    ensures ok { IfOk result (λ r. installed_work e end resend
        ≡ Some (record { state = held_at r.0; posts = map post_at r.1.items })) }
    ensures expected { IfErr result (λ x. x.0 ≡ e) }
    ensures end { IfErr result (λ x. x.1 ≡ end) }
{
    let mut end = end;
    let own = end.place;
    end.place = e.place;
    match worked(alloc, &end, &e.deferred, resend) {
        Ok(Some((tally, untaken, posts))) => Ok((taken_over(end, tally, untaken), posts)),
        Ok(None) => unreachable!(),
        Err(_) => {
            end.place = own;
            Err((e, end))
        }
    }
}

/// The end with what was worked off.
pub fn taken_over(end: End, tally: Tally, untaken: VecDeque<Msg>) -> Held
    requires base { end.base ≤ tally.base }
    requires upto { tally.base ≤ end.sent }
    requires room { end.taken + length untaken.items ≤ limit_of_messages + 1 }
    ensures { held_at result ≡ held_by end tally untaken.items }
{
    let mut end = end;
    end.conn = tally.conn;
    end.peer = tally.peer;
    end.trim(tally.base);
    Held {
        end,
        untaken,
        fin: tally.fin,
    }
}

/// What the deferred bodies make of the end, and what is sent; the end itself stays as it is. None
/// where the resend or a deferred body doesn't fit.
pub fn worked(
    alloc: Global,
    end: &End,
    deferred: &[Deferred],
    resend: Option<u32>,
) -> Result<Option<(Tally, VecDeque<Msg>, Vec<Post>)>, NoMemory>
    requires { end.now.taken ≤ limit_of_messages }
    ensures { IfOk result (Installs end.now (map deferred_at deferred.now) resend) }
{
    if let Some(start) = resend {
        if start < end.base || end.sent < start {
            return Ok(None);
        }
    }
    let mut posts = Vec::new(alloc);
    let mut untaken = VecDeque::new(alloc);
    if let Some(start) = resend {
        resend_as(&mut posts, end, end.conn, end.peer, start)?;
    }
    match work_off(end, deferred, &mut posts, &mut untaken)? {
        Some(tally) => Ok(Some((tally, untaken, posts))),
        None => Ok(None),
    }
}
