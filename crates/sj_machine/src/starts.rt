//! What a party has at the start: its connected ends, and how many names it may bind.
ghost use Rattle.std.specs.Prelude.{◌≡◌, ◌<◌, ◌≤◌, ◌^◌, ◌++◌, IfOk, OnOk, length, map, vec_capacity};
ghost use Rattle.sj_base.specs.declared.EndId.{EndId};
ghost use Rattle.sj_lang.specs.FileAt.{FileAt, end_of_party, ends_from, party_named, party_names};
ghost use Rattle.sj_lang.specs.FileView.{decl_of, file_of, party_of};
ghost use Rattle.sj_machine.specs.Names.{AllBindBelow, AreBelowName, BindsBelow};
ghost use Rattle.sj_machine.specs.Table.{vars_in};
ghost use Rattle.sj_semantics.specs.Value.{no_vars};

use crate::arena::{CodeNode, Op};
use sj_base::{EndId, NoMemory};
use sj_lang::{EndDecl, File, Party};
use sj_semantics::Value;
use std::alloc::Global;

/// The number of the first party of that name, or how many there are.
pub fn party_of_name(parties: &[Party], name: u16) -> usize
    ensures { result ≡ party_named (map party_of parties.now) name }
{
    let mut at = 0;
    while at < parties.len() {
        if parties[at].name == name {
            return at;
        }
        at += 1;
    }
    at
}

/// The names of parties, in order.
pub fn names_of(alloc: Global, parties: &[Party]) -> Result<Vec<u16>, NoMemory>
    ensures { IfOk result (λ names. names.items ≡ party_names (map party_of parties.now)) }
{
    let mut names = Vec::new(alloc);
    for party in parties {
        names.push(party.name)?;
    }
    Ok(names)
}

/// Puts an end after the others where it belongs to the party.
fn add_end(
    ends: &mut Vec<(u16, EndId)>,
    parties: &[Party],
    party: u16,
    decl: EndDecl,
    end: EndId,
) -> Result<(), NoMemory>
    ensures { OnOk result ((file : FileAt) → file.parties ≡ map party_of parties.now →
        ends.new.items ≡ ends.old.items ++ end_of_party file party (decl_of decl) end) }
{
    if party_of_name(parties, decl.party) == party as usize {
        ends.push((decl.name, end))?;
    }
    Ok(())
}

/// The ends that connections give the party, in file order.
pub fn connected_ends(alloc: Global, file: &File, party: u16) -> Result<Vec<(u16, EndId)>, NoMemory>
    requires { length (file_of file.now).connects < 2 ^ 32 }
    ensures { IfOk result (λ ends. ends.items
        ≡ ends_from (file_of file.now) party 0 (file_of file.now).connects) }
{
    let mut ends = Vec::new(alloc);
    let mut at = 0;
    while at < file.connects.len() {
        let connect = file.connects[at];
        let sess = at as u32;
        add_end(
            &mut ends,
            &file.parties,
            party,
            connect.first,
            EndId { sess, side: 0 },
        )?;
        add_end(
            &mut ends,
            &file.parties,
            party,
            connect.second,
            EndId { sess, side: 1 },
        )?;
        at += 1;
    }
    Ok(ends)
}

/// A number above the name that an operation binds.
fn above_bound(op: &Op) -> usize
    ensures { BindsBelow result op.now }
{
    match op {
        Op::Take { into, .. } => *into as usize + 1,
        Op::TakeEnd { into, .. } => *into as usize + 1,
        Op::Let { name, .. } => *name as usize + 1,
        Op::Request { end, .. } => *end as usize + 1,
        Op::Accept { end, .. } => *end as usize + 1,
        _ => 0,
    }
}

/// A number above each name that the party has or may bind.
pub fn names_above(nodes: &[CodeNode], ends: &[(u16, EndId)]) -> usize
    ensures nodes { AllBindBelow result nodes.now }
    ensures ends { AreBelowName result ends.now }
{
    let mut names = 0;
    for node in nodes {
        names = names.max(above_bound(&node.op));
    }
    for entry in ends {
        names = names.max(entry.0 as usize + 1);
    }
    names
}

/// The same ends, with room for so many.
pub fn with_room(
    alloc: Global,
    ends: &[(u16, EndId)],
    room: usize,
) -> Result<Vec<(u16, EndId)>, NoMemory>
    ensures items { IfOk result (λ out. out.items ≡ ends.now) }
    ensures room { IfOk result (λ out. room ≤ vec_capacity out) }
{
    let mut out = Vec::with_capacity(alloc, room)?;
    out.extend_from_slice(ends)?;
    Ok(out)
}

/// A table of that size, with no variable known.
pub fn unknown(alloc: Global, size: usize) -> Result<Vec<Option<Value>>, NoMemory>
    ensures vars { IfOk result (λ out. vars_in out.items ≡ no_vars) }
    ensures size { IfOk result (λ out. length out.items ≡ size) }
{
    Ok(vec![in alloc; None; size]?)
}
