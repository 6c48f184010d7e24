//! How the workers stopped.
ghost use Rattle.std.specs.Prelude.{◌≡◌, ◌↔◌, IsTrue, Some, false};
ghost use Rattle.sj_run.specs.Workers.{NoneStopped, SomeStopped};

use sj_work::{Stop, Worker};

fn is_stop(stop: Option<Stop>, other: Stop) -> bool
    ensures { IsTrue result ↔ (stop ≡ Some other) }
{
    stop == Some(other)
}

/// Whether some worker stopped so.
pub(crate) fn any_stopped<O, I>(workers: &[Worker<O, I>], stop: Stop) -> bool
    ensures some { IsTrue result → SomeStopped workers.now stop }
    ensures none { result ≡ false → NoneStopped workers.now stop }
{
    for worker in workers {
        if is_stop(worker.stop(), stop) {
            return true;
        }
    }
    false
}
