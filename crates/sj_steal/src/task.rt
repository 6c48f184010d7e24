//! A value and what is done with it, as a job.
ghost use Rattle.std.specs.Prelude.{◌≡◌, ◌<◌, ℕ};
ghost use Rattle.sj_steal.specs.Calls.{Leaves};

use crate::job::Job;

/// A value with its number, and the call that is made at it.
#[derive(Drop)]
pub struct Task<'a, W, F> {
    pub number: u16,
    pub value: W,
    pub call: &'a F,
}

impl<'a, W: Send + Drop, F: Fn(&mut W) + Sync> Job for Task<'a, W, F> {
    ghost number_of = { λ t. t.number };

    ghost can_run = { (f : F) (x : _) → F.pre f x };

    ghost ran = { λ old new. (new.call ≡ old.call) × Leaves F.Fn old.call.now old.value new.value };

    fn number(&self) -> u16 {
        self.number
    }

    fn run(&mut self) {
        make(self.call, &mut self.value);
    }
}

fn make<W, F: Fn(&mut W)>(call: &F, value: &mut W)
    requires { F.IsAlwaysCallable call.now }
    ensures { Leaves F.Fn call.now value.old value.new }
{
    call(value);
}
