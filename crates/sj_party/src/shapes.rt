//! Statements and arms of their parts.
ghost use Rattle.std.specs.Prelude.{◌≡◌};
ghost use Rattle.sj_lang.specs.Code.{at};
ghost use Rattle.sj_lang.specs.CodeView.{deed_of, stmt_of, arm_of, code_of};

use sj_lang::{Deed, Stmt, StmtArm};

pub fn statement(line: u32, deed: Deed) -> Stmt
    ensures { stmt_of result ≡ at line (deed_of deed) }
{
    Stmt { line, deed }
}

pub fn labelled(label: u16, body: Vec<Stmt>) -> StmtArm
    ensures { arm_of result ≡ (label, code_of body.items) }
{
    StmtArm { label, body }
}
