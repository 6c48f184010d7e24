//! The parties of a run, each by the file or by code.
ghost use Rattle.std.specs.Prelude.{◌≡◌, is_some};
ghost use Rattle.sj_seat_run.specs.Runners.{is_coded, opened_at, worker_at};

use sj_seat::{Guest, OpenedSession};
use sj_work::Worker;
use std::alloc::Global;

/// A party that code plays, its code, and the sessions that it opened.
#[derive(Drop)]
pub(crate) struct Actor<'a, O, I, G, C> {
    pub guest: Guest<'a, O, I, G>,
    pub code: C,
    pub opened: Vec<OpenedSession>,
}

/// A party of a run: it goes by the file, or code plays it.
#[derive(Drop)]
pub(crate) enum Runner<'a, O, I, G, C> {
    Written(Worker<O, I>),
    Coded(Actor<'a, O, I, G, C>),
}

impl<O, I, G, C> Runner<'_, O, I, G, C> {
    /// Whether code plays it.
    pub fn is_coded(&self) -> bool {
        matches!(self, Runner::Coded(..))
    }

    /// Its worker, its code where it has one, and the sessions that it opened.
    pub fn into_parts(self, alloc: Global) -> (Worker<O, I>, Option<C>, Vec<OpenedSession>)
        ensures worker { result.0 ≡ worker_at self.entry }
        ensures code { is_some result.1 ≡ is_coded self.entry }
        ensures opened { result.2.items ≡ opened_at self.entry }
    {
        match self {
            Runner::Written(worker) => (worker, None, Vec::new(alloc)),
            Runner::Coded(actor) => {
                let (worker, _) = actor.guest.leave();
                (worker, Some(actor.code), actor.opened)
            }
        }
    }
}
