//! How the workers stopped.
ghost use Rattle.std.specs.Prelude.{◌≡◌, ◌↔◌, IsTrue, IfSome, None, Some, false, map};
ghost use Rattle.sj_end.specs.Lines.{line_at};
ghost use Rattle.sj_run.specs.Damage.{IsLowestUnfit};
ghost use Rattle.sj_run.specs.Left.{left_of};
ghost use Rattle.sj_run.specs.Workers.{NoneStopped, SomeStopped};
ghost use Rattle.sj_work.specs.declared.worker.Stop.TheVariants as stops;

use sj_end::Line;
use sj_work::{Stop, Worker};

fn is_fault(stop: Option<Stop>) -> bool
    ensures { IsTrue result ↔ (stop ≡ Some Stop.Fault) }
{
    matches!(stop, Some(Stop::Fault))
}

fn is_short(stop: Option<Stop>) -> bool
    ensures { IsTrue result ↔ (stop ≡ Some Stop.NoMemory) }
{
    matches!(stop, Some(Stop::NoMemory))
}

/// Whether some worker stopped at a fault of a lane.
pub(crate) fn any_faulty<O, I>(workers: &[Worker<O, I>]) -> bool
    ensures some { IsTrue result → SomeStopped workers.now stops.Fault }
    ensures none { result ≡ false → NoneStopped workers.now stops.Fault }
{
    for worker in workers {
        if is_fault(worker.stop()) {
            return true;
        }
    }
    false
}

/// Whether some worker stopped out of memory.
pub(crate) fn any_short<O, I>(workers: &[Worker<O, I>]) -> bool
    ensures some { IsTrue result → SomeStopped workers.now stops.NoMemory }
    ensures none { result ≡ false → NoneStopped workers.now stops.NoMemory }
{
    for worker in workers {
        if is_short(worker.stop()) {
            return true;
        }
    }
    false
}

/// What the worker of the lowest party couldn't do, of those that stopped as unfit.
pub(crate) fn first_unfit<O, I>(workers: &[Worker<O, I>]) -> Option<Line>
    ensures some { IfSome result (λ l. IsLowestUnfit (map left_of workers.now) (line_at l)) }
    ensures none { result ≡ None → NoneStopped workers.now stops.Unfit }
{
    for worker in workers {
        if let Some(line) = worker.unfit() {
            return Some(line);
        }
    }
    None
}
