//! The first request or accept of a file.

ghost use Rattle.std.specs.Prelude.{◌≡◌, ◌++◌, map};
ghost use Rattle.sj_acceptance.specs.Openings.{found_in, found_in_arms, found_inside};
ghost use Rattle.sj_forest_laws.specs.Opens as model;
ghost use Rattle.sj_forest_laws.specs.Opens.{as_opening, first_line};
ghost use Rattle.sj_lang.specs.CodeView.{arm_of, branches_of, code_of, deed_of};
ghost use Rattle.sj_lang.specs.FileView.{file_of};

use sj_lang::{Deed, File, Stmt, StmtArm};

/// The line of the file's first request or accept.
pub fn first_opening(file: &File) -> Option<u32>
    ensures { result ≡ model.first_opening (file_of file.now) }
{
    for party in &file.parties {
        match in_block(&party.body) {
            Some(line) => return Some(line),
            None => {}
        }
    }
    None
}

#[cycle(first)]
fn in_block(stmts: &[Stmt]) -> Option<u32>
    ensures { result ≡ first_line (found_in as_opening (code_of stmts.now)) }
{
    for stmt in stmts {
        match in_stmt(stmt.line, &stmt.deed) {
            Some(line) => return Some(line),
            None => {}
        }
    }
    None
}

#[cycle(first)]
fn in_stmt(line: u32, deed: &Deed) -> Option<u32>
    ensures { let act = deed_of deed.now in
        result ≡ first_line (as_opening line act ++ found_inside as_opening act) }
{
    match deed {
        Deed::Request {
            end: _,
            protocol: _,
            party: _,
        } => Some(line),
        Deed::Accept {
            end: _,
            protocol: _,
            party: _,
        } => Some(line),
        Deed::Branch { end: _, arms } => in_arms(arms),
        Deed::OutWhile {
            end: _,
            count: _,
            body,
        } => in_block(body),
        Deed::InWhile { end: _, body } => in_block(body),
        Deed::Relay {
            from: _,
            to: _,
            body,
        } => in_block(body),
        Deed::If { test: _, yes, no } => match in_block(yes) {
            Some(found) => Some(found),
            None => in_block(no),
        },
        Deed::Send { end: _, value: _ } => None,
        Deed::Delegate { end: _, sent: _ } => None,
        Deed::Take {
            end: _,
            into: _,
            kind: _,
        } => None,
        Deed::TakeEnd {
            end: _,
            into: _,
            protocol: _,
        } => None,
        Deed::Select { end: _, label: _ } => None,
        Deed::Let { name: _, value: _ } => None,
        Deed::Close { end: _ } => None,
    }
}

#[cycle(first)]
fn in_arms(arms: &[StmtArm]) -> Option<u32>
    ensures { result ≡ first_line (found_in_arms as_opening (branches_of (map arm_of arms.now))) }
{
    for arm in arms {
        match in_block(&arm.body) {
            Some(line) => return Some(line),
            None => {}
        }
    }
    None
}
