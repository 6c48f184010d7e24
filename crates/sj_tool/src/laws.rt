//! Laws of the table of answers; each is the one clause of a function that does nothing.
//!
//! - `the_table_gives_one_answer`: of one call.
//! - `the_table_has_an_answer`: of each call.
ghost use Rattle.std.specs.Prelude.{◌≡◌, ℕ, List, Some};
ghost use Rattle.sj_tool.specs.AnswerAt.{AnswerAt};
ghost use Rattle.sj_tool.specs.Answers.{IsInTable};
ghost use Rattle.sj_tool.specs.Calls.{CallAt};
ghost use Rattle.sj_tool.specs.Table.{AreOne, CanRise, IsReadAsAsked, RunsWell, ShowsItsRun};

/// Two answers that come of one call have one status and one text, up to a history that is asked
/// for. This holds where the source reports its bytes, and its count of faults isn't at its last
/// value. The links, where parties run, report what they carry and counted no fault.
pub fn the_table_gives_one_answer()
    ensures { (c : CallAt) (left : List ℕ) (a b : AnswerAt) → c.left ≡ Some left → CanRise c
        → RunsWell c → IsInTable c a → IsInTable c b → AreOne c a b }
{}

/// An answer comes of each call that counted no read fault and whose source was read as the words
/// ask. Over links that hold, the lines of the parties' run have to be there: these links may be
/// any, and so the premise says that they show some.
pub fn the_table_has_an_answer()
    ensures { (c : CallAt) → c.faults_after ≡ c.faults → IsReadAsAsked c
        → ShowsItsRun c → (a : AnswerAt) × IsInTable c a }
{}
