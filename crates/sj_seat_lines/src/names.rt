//! Ends under names.
ghost use Rattle.std.specs.Prelude.{◌≡◌, ◌∷◌, [], ◌++◌, IfOk, OnErr, OnOk, option_map, vec_items};
ghost use Rattle.sj_seat_lines.specs.Names.{ends_under, name_in, named, without};
ghost use Rattle.sj_talk.specs.Names.{end_named};

use crate::words::Words;
use sj_base::{EndId, NoMemory};
use std::alloc::Global;

/// An end under its name.
#[derive(Drop)]
pub struct Name {
    pub name: Vec<u8>,
    pub end: EndId,
}

/// The end of the name.
pub(crate) fn end_of(names: &[Name], name: &[u8]) -> Option<EndId>
    ensures { result ≡ end_named (named names.now) name.now }
{
    for own in names {
        if own.name.as_slice() == name {
            return Some(own.end);
        }
    }
    None
}

/// The ends of the names; none where one of them isn't there.
pub(crate) fn ends_of(
    alloc: Global,
    names: &[Name],
    wanted: Words<'_>,
) -> Result<Option<Vec<EndId>>, NoMemory>
    ensures { IfOk result (λ es. option_map vec_items es ≡ ends_under (named names.now) wanted.entry) }
{
    let mut ends = Vec::new(alloc);
    let mut left = wanted;
    while !left.is_empty() {
        match end_of(names, left.next()) {
            Some(end) => ends.push(end)?,
            None => return Ok(None),
        }
    }
    Ok(Some(ends))
}

/// The name of the end; `?` where it has none.
pub(crate) fn name_of(names: &[Name], end: EndId) -> &[u8]
    ensures { result.now ≡ name_in (named names.now) end }
{
    for own in names {
        if own.end == end {
            return own.name.as_slice();
        }
    }
    b"?"
}

/// Frees the names of the end.
pub(crate) fn forget(names: &mut Vec<Name>, end: EndId)
    ensures { named names.new.items ≡ without (named names.old.items) end }
{
    names.retain(|own| own.end != end);
}

/// Puts an end after the others, under its name.
pub(crate) fn bind(
    alloc: Global,
    names: &mut Vec<Name>,
    name: &[u8],
    end: EndId,
) -> Result<(), NoMemory>
    ensures ok { OnOk result (named names.new.items ≡ named names.old.items ++ (name.now, end) ∷ []) }
    ensures err { OnErr result (names.new.items ≡ names.old.items) }
{
    let name = Vec::from_slice(alloc, name)?;
    names.push(Name { name, end })?;
    Ok(())
}
