//! Tables may go to other threads.
ghost use denote.Param.Send.{IsSend};
ghost use Rattle.sj_table.specs.contracts.table.Table as table;

use sj_table::Table;

fn crosses<T: Send>()
    ensures { IsSend T.row }
{}

/// A table may go to another thread, since all that its copies share may.
pub(crate) fn table_crosses()
    ensures { IsSend table.the_row }
{
    crosses::<Table>();
}
