//! Lines may go to another thread as a party's code.
ghost use denote.Param.Send.{IsSend, IsSync};
ghost use Rattle.sj_lang.specs.contracts.file.File as files;
ghost use Rattle.sj_seat_texts.specs.contracts.texts.Texts as texts;
ghost use Rattle.sj_seat_lines.specs.contracts.names.Name as name;

use sj_lang::File;
use sj_seat_lines::Name;
use sj_seat_texts::Texts;

fn crosses<T: Send>()
    ensures { IsSend T.row }
{}

fn shares<T: Sync>()
    ensures { IsSync T.row }
{}

/// A file may be read by several threads at once.
pub(crate) fn file_shares()
    ensures { IsSync files.the_row }
{
    shares::<File>();
}

/// Texts may go to another thread.
pub(crate) fn texts_cross()
    ensures { IsSend texts.the_row }
{
    crosses::<Texts>();
}

/// A name of an end may.
pub(crate) fn name_crosses()
    ensures { IsSend name.the_row }
{
    crosses::<Name>();
}
