//! How a new process comes to where the party's last one was.
#![tactic(auto, using(crate::proofs::StepsLemmas::no_step, crate::proofs::StepsLemmas::one_step, crate::proofs::StepsLemmas::steps_then))]

ghost use Rattle.std.specs.Prelude.{◌≡◌, [], IfOk, map};
ghost use Rattle.sj_check.specs.Held.{file_in};
ghost use Rattle.sj_lang.specs.FileView.{file_of};
ghost use Rattle.sj_node.specs.Node.{log_of};
ghost use Rattle.sj_remote_run.specs.Caught.{entries_in};
ghost use Rattle.sj_remote_seat.specs.Caught.{DidAll};
ghost use Rattle.sj_remote_seat.specs.Steps.{Steps};
ghost use Rattle.sj_remote_seat.specs.Turns.{IsClear};
ghost use Rattle.sj_seat.specs.Views.{node_of};
ghost use Rattle.sj_streams.specs.Words.{words_at};

use crate::SeatPlayRefusal;
use crate::again::do_again;
use crate::asking::Asking;
use crate::code::Code;
use crate::seat::Seat;
use sj_check::Accepted;
use sj_streams::Came;
use std::alloc::Global;

/// Does again the entries that came at once, in order.
fn redo_came<'a, C: Code>(
    alloc: Global,
    accepted: &Accepted,
    seat: Seat<'a>,
    entries: &[Vec<Vec<u8>>],
    asking: &mut Asking,
    code: &mut C,
) -> Result<Seat<'a>, SeatPlayRefusal>
    requires empty { log_of (node_of seat) ≡ [] }
    requires clear { IsClear seat }
    ensures again { IfOk result (λ new. DidAll (file_of (file_in accepted.now))
        (map (λ e. words_at e.items) entries.now) seat.entry new) }
    ensures clear { IfOk result (λ new. IsClear new) }
    ensures none { IfOk result (λ new. log_of (node_of new) ≡ []) }
    ensures steps { Steps C.Code.step code.old code.new }
{
    let mut going = seat;
    for words in entries {
        let next = do_again(alloc, accepted, going, asking, code, words)?;
        going = next;
    }
    Ok(going)
}

/// Does again what stands in the party's own stream, in order, by what its code asks for.
pub(crate) fn catch_up<'a, C: Code>(
    alloc: Global,
    accepted: &Accepted,
    seat: Seat<'a>,
    own: &[Came],
    asking: &mut Asking,
    code: &mut C,
) -> Result<Seat<'a>, SeatPlayRefusal>
    requires empty { log_of (node_of seat) ≡ [] }
    requires clear { IsClear seat }
    ensures again { IfOk result (λ new. DidAll (file_of (file_in accepted.now))
        (entries_in own.now) seat.entry new) }
    ensures clear { IfOk result (λ new. IsClear new) }
    ensures none { IfOk result (λ new. log_of (node_of new) ≡ []) }
    ensures steps { Steps C.Code.step code.old code.new }
{
    let mut going = seat;
    for came in own {
        let next = redo_came(alloc, accepted, going, &came.entries, asking, code)?;
        going = next;
    }
    Ok(going)
}
