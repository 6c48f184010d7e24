//! The ends that connections give a party, and how many texts a file has.
ghost use Rattle.std.specs.Prelude.{◌≡◌, ◌<◌, ◌^◌, ◌++◌, IfOk, OnOk, ℕ, length, map, min};
ghost use Rattle.sj_lang.specs.FileAt.{FileAt, body_named, end_of_party, ends_from};
ghost use Rattle.sj_lang.specs.FileView.{decl_of, file_of, party_of};
ghost use Rattle.sj_seat.specs.Holding.{ends_at};
ghost use Rattle.sj_seat.specs.Rules.{limit_of_texts};
ghost use Rattle.sj_seat_laws.specs.SeatedStart.{connected_ends};
ghost use Rattle.sj_semantics.specs.Ends.{end_at};
ghost use Rattle.sj_semantics.specs.World.{start_of};
ghost use Rattle.sj_table.specs.Spots.{place_in, start_in};

use crate::ends::HeldEnd;
use sj_base::{EndId, NoMemory};
use sj_lang::{EndDecl, File, Party, Words};
use sj_machine::party_of_name;
use sj_table::{Spot, Table};
use std::alloc::Global;

/// How many texts a message can name.
const MAX_TEXTS: usize = 1 << 32;

/// How many texts the file has, as far as a message can name them.
pub fn text_count(file: &File) -> usize
    ensures { result ≡ min (length (file_of file.now).texts) limit_of_texts }
{
    count_of(&file.names.texts)
}

// How many words there are, as far as a message can name them.
fn count_of(words: &Words) -> usize
    ensures { result ≡ min (length words.now) limit_of_texts }
{
    for n in 0..MAX_TEXTS {
        if words.get(n).is_none() {
            return n;
        }
    }
    MAX_TEXTS
}

/// The ends that connections give the party, at the starts of their protocols.
pub fn first_ends(
    alloc: Global,
    file: &File,
    table: &Table,
    party: u16,
) -> Result<Vec<HeldEnd>, NoMemory>
    requires few { length (file_of file.now).connects < 2 ^ 32 }
    requires starts { (p : ℕ) → start_in table.now p ≡ body_named (file_of file.now).protocols p }
    ensures { IfOk result (λ ends. ends_at table.now ends.items
        ≡ connected_ends (file_of file.now) party) }
{
    let numbered = numbered_ends(alloc, file, party)?;
    let mut ends = Vec::new(alloc);
    for entry in &numbered {
        let end = entry.1;
        let place = first_spot(file, table, end);
        ends.push(HeldEnd { end, place })?;
    }
    Ok(ends)
}

// The spot at which the end begins.
fn first_spot(file: &File, table: &Table, end: EndId) -> Spot
    requires starts { (p : ℕ) → start_in table.now p ≡ body_named (file_of file.now).protocols p }
    ensures { place_in table.now result ≡ (end_at (start_of (file_of file.now)).sessions end).place }
{
    match file.connects.get(end.sess as usize) {
        Some(connect) => {
            if end.side == 0 {
                table.start(connect.first.protocol)
            } else {
                table.start(connect.second.protocol)
            }
        }
        None => table.done(),
    }
}

// Puts an end after the others where it belongs to the party.
fn add_end(
    ends: &mut Vec<(u16, EndId)>,
    parties: &[Party],
    party: u16,
    decl: EndDecl,
    end: EndId,
) -> Result<(), NoMemory>
    ensures { OnOk result ((file : FileAt) → file.parties ≡ map party_of parties.now →
        ends.new.items ≡ ends.old.items ++ end_of_party file party (decl_of decl) end) }
{
    if party_of_name(parties, decl.party) == party as usize {
        ends.push((decl.name, end))?;
    }
    Ok(())
}

// The ends that connections give the party, in file order, under the numbers of their names.
fn numbered_ends(alloc: Global, file: &File, party: u16) -> Result<Vec<(u16, EndId)>, NoMemory>
    requires { length (file_of file.now).connects < 2 ^ 32 }
    ensures { IfOk result (λ ends. ends.items
        ≡ ends_from (file_of file.now) party 0 (file_of file.now).connects) }
{
    let mut ends = Vec::new(alloc);
    let mut at = 0;
    while at < file.connects.len() {
        let connect = file.connects[at];
        let sess = at as u32;
        add_end(
            &mut ends,
            &file.parties,
            party,
            connect.first,
            EndId { sess, side: 0 },
        )?;
        add_end(
            &mut ends,
            &file.parties,
            party,
            connect.second,
            EndId { sess, side: 1 },
        )?;
        at += 1;
    }
    Ok(ends)
}
