//! Whether a file is a forest.
ghost use Rattle.std.specs.Prelude.{◌≡◌, ◌≤◌, ◌↔◌, IfOk, length};
ghost use Rattle.sj_check.specs.Held.{file_in as held};
ghost use Rattle.sj_forest.specs.Left.{left_in, those_left};
ghost use Rattle.sj_forest.specs.Shape.{IsForestShape, Tells};
ghost use Rattle.sj_forest_laws.specs.Forest.{IsForest};
ghost use Rattle.sj_lang.specs.FileView.{file_of};
ghost use Rattle.sj_lang.specs.Limits.{IsWithin, limits};
ghost use Rattle.sj_semantics_laws.specs.Openless.{IsOpenless};

use crate::edges::edges_in_file;
use crate::openings::first_opening;
use crate::removal::who_is_left;
use crate::shape::{Forest, Shape};
use sj_base::NoMemory;
use sj_check::Accepted;
use sj_lang::File;
use std::alloc::Global;

// The numbers of those that are left, in order.
fn numbers(alloc: Global, left: &[bool]) -> Result<Vec<u16>, NoMemory>
    requires { length left.now ≤ limits.parties }
    ensures { IfOk result (λ ns. ns.items ≡ those_left (left_in left.now) 0 (length left.now)) }
{
    let mut numbers = Vec::new(alloc);
    for party in 0..left.len() {
        if left[party] {
            numbers.push(party as u16)?;
        }
    }
    Ok(numbers)
}

// The shape of a file that opens no session.
fn without_openings(alloc: Global, file: &File) -> Result<Shape, NoMemory>
    requires within { IsWithin limits (file_of file.now) }
    requires openless { IsOpenless (file_of file.now) }
    ensures told { IfOk result (λ s. Tells (file_of file.now) s) }
    ensures exact { IfOk result (λ s. IsForestShape s ↔ IsForest (file_of file.now)) }
{
    let edges = edges_in_file(alloc, file)?;
    let parties = file.parties.len();
    let left = who_is_left(alloc, &edges, parties)?;
    let numbers = numbers(alloc, &left)?;
    if numbers.is_empty() {
        Ok(Shape::Forest(Forest { parties, edges }))
    } else {
        Ok(Shape::Cycle(numbers))
    }
}

/// Whether the file is a forest. Where no body has a request or an accept, parties that
/// have at most one remaining connection are taken away, again and again. Then the file
/// is a forest where nobody is left.
#[tactic(auto, using(crate::proofs::ShapeLemmas::openless_where_none))]
pub fn forest(alloc: Global, accepted: &Accepted) -> Result<Shape, NoMemory>
    ensures told { IfOk result (λ s. Tells (file_of (held accepted.now)) s) }
    ensures exact { IfOk result (λ s. IsForestShape s ↔ IsForest (file_of (held accepted.now))) }
{
    let file = accepted.file();
    match first_opening(file) {
        Some(line) => Ok(Shape::Opens(line)),
        None => without_openings(alloc, file),
    }
}
