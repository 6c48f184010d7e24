//! Code that goes by the file's bodies may go to other threads.

ghost use denote.Param.Send.{IsSend};
ghost use Rattle.sj_machine.specs.contracts.machine.Machine as machine;
ghost use Rattle.seat_trials.specs.contracts.written.Written as written;

use sj_machine::Machine;

fn crosses<T: Send>()
    ensures { IsSend T.row }
{}

fn machine_crosses()
    ensures { IsSend machine.the_row }
{
    crosses::<Machine>();
}

/// Such code may go to another thread, since all that it has may.
pub(crate) fn written_crosses()
    ensures { IsSend written.the_row }
{
    machine_crosses();
}
