//! Laws over two calls; each is the one clause of a function that does nothing.
//!
//! - `a_log_is_replayed_as_it_was_told`: the text of a file and the log of its run, given to
//!   `replay --log`, are answered as the run was.
//! - `nothing_else_is_told_of_a_log`: and by no other answer.

ghost use Rattle.std.specs.Prelude.{◌≡◌, ℕ, List, ◌++◌, Some};
ghost use Rattle.sj_lang.specs.FileAt.{FileAt};
ghost use Rattle.sj_semantics.specs.declared.Verdict.{Verdict};
ghost use Rattle.sj_tool.specs.AnswerAt.{AnswerAt};
ghost use Rattle.sj_tool.specs.Answers.{IsInTable};
ghost use Rattle.sj_tool.specs.Calls.{CallAt};
ghost use Rattle.sj_tool.specs.Table.{CanRise};
ghost use Rattle.sj_tool.specs.Texts.{status_of, text_of};
ghost use Rattle.sj_replay_laws.specs.Again.{IsInLines, ReplaysAll, TellsLog, told_of};

/// A call of `replay --log` may read the text of a file in whole lines and, after it, the log as
/// `run --log` printed it. What `run --log` prints of the file is in that call's table: the same
/// status and the same text.
pub fn a_log_is_replayed_as_it_was_told()
    ensures { (c d : CallAt) (text whole log : List ℕ) (file : FileAt) (verdict : Verdict) →
        TellsLog c text file verdict log → IsInLines text whole →
        ReplaysAll d (whole ++ log) → IsInTable d (told_of file verdict log) }
{}

/// Each answer to such a call is that one, where its source reports its bytes and its count of faults
/// isn't at its last value.
pub fn nothing_else_is_told_of_a_log()
    ensures { (c d : CallAt) (text whole log : List ℕ) (file : FileAt)
        (verdict : Verdict) (a : AnswerAt) → TellsLog c text file verdict log →
        IsInLines text whole → ReplaysAll d (whole ++ log) →
        d.left ≡ Some (whole ++ log) → CanRise d → IsInTable d a →
        (status_of a ≡ status_of (told_of file verdict log))
        × (text_of a ≡ text_of (told_of file verdict log)) }
{}
