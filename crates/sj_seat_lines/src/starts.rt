//! The names that a party begins with.
ghost use Rattle.std.specs.Prelude.{◌≡◌, ◌<◌, ◌^◌, ◌++◌, IfOk, OnOk, length, map};
ghost use Rattle.sj_lang.specs.FileAt.{FileAt, end_of_party, ends_from};
ghost use Rattle.sj_lang.specs.FileView.{decl_of, file_of, party_of};
ghost use Rattle.sj_seat_lines.specs.Names.{named};
ghost use Rattle.sj_talk.specs.Names.{connected_ends, spelled, word_at};

use crate::names::Name;
use sj_base::{EndId, NoMemory};
use sj_lang::{EndDecl, File, Party, Words};
use sj_machine::party_of_name;
use std::alloc::Global;

/// The ends that connections give the party, in file order, under the names that stand there.
pub fn first_names(alloc: Global, file: &File, party: u16) -> Result<Vec<Name>, NoMemory>
    requires few { length (file_of file.now).connects < 2 ^ 32 }
    ensures { IfOk result (λ ns. named ns.items ≡ connected_ends (file_of file.now) party) }
{
    let numbered = numbered_ends(alloc, file, party)?;
    spelled(alloc, &file.names.words, &numbered)
}

// Puts an end after the others where it belongs to the party.
fn add_end(
    ends: &mut Vec<(u16, EndId)>,
    parties: &[Party],
    party: u16,
    decl: EndDecl,
    end: EndId,
) -> Result<(), NoMemory>
    ensures { OnOk result ((file : FileAt) → file.parties ≡ map party_of parties.now →
        ends.new.items ≡ ends.old.items ++ end_of_party file party (decl_of decl) end) }
{
    if party_of_name(parties, decl.party) == party as usize {
        ends.push((decl.name, end))?;
    }
    Ok(())
}

// The ends under the numbers of their names.
fn numbered_ends(alloc: Global, file: &File, party: u16) -> Result<Vec<(u16, EndId)>, NoMemory>
    requires { length (file_of file.now).connects < 2 ^ 32 }
    ensures { IfOk result (λ ends. ends.items
        ≡ ends_from (file_of file.now) party 0 (file_of file.now).connects) }
{
    let mut ends = Vec::new(alloc);
    let mut at = 0;
    while at < file.connects.len() {
        let connect = file.connects[at];
        let sess = at as u32;
        add_end(
            &mut ends,
            &file.parties,
            party,
            connect.first,
            EndId { sess, side: 0 },
        )?;
        add_end(
            &mut ends,
            &file.parties,
            party,
            connect.second,
            EndId { sess, side: 1 },
        )?;
        at += 1;
    }
    Ok(ends)
}

// The ends, each under its word.
fn spelled(alloc: Global, words: &Words, ends: &[(u16, EndId)]) -> Result<Vec<Name>, NoMemory>
    ensures { IfOk result (λ out. named out.items ≡ spelled words.now ends.now) }
{
    let mut out = Vec::new(alloc);
    for entry in ends {
        out.push(spelled_end(alloc, words, *entry)?)?;
    }
    Ok(out)
}

fn spelled_end(alloc: Global, words: &Words, entry: (u16, EndId)) -> Result<Name, NoMemory>
    ensures name { IfOk result (λ b. b.name.items ≡ word_at words.now entry.0) }
    ensures end { IfOk result (λ b. b.end ≡ entry.1) }
{
    let word = match words.get(entry.0 as usize) {
        Some(word) => word,
        None => &[],
    };
    let name = Vec::from_slice(alloc, word)?;
    Ok(Name { name, end: entry.1 })
}
