//! Files as text.
#![tactic(auto, using(sj_text::proofs::CutLemmas::cuts))]

ghost use Rattle.std.specs.Prelude.{◌≡◌, ◌++◌, map, OnOk, OnErr};
ghost use Rattle.sj_text.specs.Cut.{IsCutShort};
ghost use Rattle.sj_lang.specs.FileView.{protocol_of, party_of, decl_of, connect_of, file_of};
ghost use Rattle.sj_grammar.specs.Tables.{entry_of};
ghost use Rattle.sj_party.specs.CanonicalExpression.{spelling_of};
ghost use Rattle.sj_party.specs.CanonicalFile.{protocol_line, end_text, party_text, connect_text, protocols_text, parties_text, connects_text, file_text};

use crate::printing_parts::{put_named, put_pair};
use crate::printing_statements::put_block;
use sj_base::NoMemory;
use sj_lang::{Connect, EndDecl, File, Names, Party, Proto, ProtocolDef};
use sj_proto::print_protocol;
use sj_text::put;

/// Appends the canonical text of a file. Where the grammar can give the file, the text stands for
/// it but for its lines. A number that names nothing is left out.
pub fn print_file(text: &mut Vec<u8>, file: &File) -> Result<(), NoMemory>
    ensures ok { OnOk result (text.new.items ≡ text.old.items ++ file_text (file_of file.now)) }
    ensures err { OnErr result (IsCutShort text.old.items
        (file_text (file_of file.now)) text.new.items) }
{
    put_protocols(text, &file.names, &file.protocols)?;
    put_parties(text, &file.names, &file.parties)?;
    put_connects(text, &file.names, &file.connects)
}

/// Appends a protocol on a line of its own, as `protocol p { begin.!<int> }`, with that word before
/// its name.
pub fn print_protocol_line(
    text: &mut Vec<u8>,
    names: &Names,
    lead: &[u8],
    name: u16,
    body: &Proto,
) -> Result<(), NoMemory>
    ensures ok { OnOk result (text.new.items ≡ text.old.items
        ++ protocol_line lead.now (entry_of names.now.words) name body.now) }
    ensures err { OnErr result (IsCutShort text.old.items
        (protocol_line lead.now (entry_of names.now.words) name body.now) text.new.items) }
{
    put(text, lead)?;
    put_named(text, names, b" ", name)?;
    put(text, b" { ")?;
    print_protocol(text, names, body)?;
    put(text, b" }\n")
}

fn put_protocols(
    text: &mut Vec<u8>,
    names: &Names,
    protocols: &[ProtocolDef],
) -> Result<(), NoMemory>
    ensures ok { OnOk result (text.new.items ≡ text.old.items
        ++ protocols_text (spelling_of names.now) (map protocol_of protocols.now)) }
    ensures err { OnErr result (IsCutShort text.old.items
        (protocols_text (spelling_of names.now) (map protocol_of protocols.now)) text.new.items) }
{
    for p in protocols {
        print_protocol_line(text, names, b"protocol", p.name, &p.body)?;
    }
    Ok(())
}

fn put_parties(text: &mut Vec<u8>, names: &Names, parties: &[Party]) -> Result<(), NoMemory>
    ensures ok { OnOk result (text.new.items ≡ text.old.items
        ++ parties_text (spelling_of names.now) (map party_of parties.now)) }
    ensures err { OnErr result (IsCutShort text.old.items
        (parties_text (spelling_of names.now) (map party_of parties.now)) text.new.items) }
{
    for party in parties {
        put_party(text, names, party)?;
    }
    Ok(())
}

fn put_party(text: &mut Vec<u8>, names: &Names, party: &Party) -> Result<(), NoMemory>
    ensures ok { OnOk result (text.new.items ≡ text.old.items
        ++ party_text (spelling_of names.now) (party_of party.now)) }
    ensures err { OnErr result (IsCutShort text.old.items
        (party_text (spelling_of names.now) (party_of party.now)) text.new.items) }
{
    put_named(text, names, b"party ", party.name)?;
    put_block(text, names, b"", 0, &party.body)?;
    put(text, b"\n")
}

fn put_connects(text: &mut Vec<u8>, names: &Names, connects: &[Connect]) -> Result<(), NoMemory>
    ensures ok { OnOk result (text.new.items ≡ text.old.items
        ++ connects_text (spelling_of names.now) (map connect_of connects.now)) }
    ensures err { OnErr result (IsCutShort text.old.items
        (connects_text (spelling_of names.now) (map connect_of connects.now)) text.new.items) }
{
    for connect in connects {
        put_connect(text, names, connect)?;
    }
    Ok(())
}

fn put_connect(text: &mut Vec<u8>, names: &Names, connect: &Connect) -> Result<(), NoMemory>
    ensures ok { OnOk result (text.new.items ≡ text.old.items
        ++ connect_text (spelling_of names.now) (connect_of connect.now)) }
    ensures err { OnErr result (IsCutShort text.old.items
        (connect_text (spelling_of names.now) (connect_of connect.now)) text.new.items) }
{
    put(text, b"connect")?;
    put_end(text, names, &connect.first)?;
    put(text, b" to")?;
    put_end(text, names, &connect.second)?;
    put(text, b";\n")
}

// Appends the names of an end, each after a space.
#[tactic(auto, using(sj_text::proofs::CutLemmas::cuts), unfolding(crate::specs::CanonicalFile::end_text))]
fn put_end(text: &mut Vec<u8>, names: &Names, end: &EndDecl) -> Result<(), NoMemory>
    ensures ok { OnOk result (text.new.items
        ≡ text.old.items ++ end_text (spelling_of names.now) (decl_of end.now)) }
    ensures err { OnErr result (IsCutShort text.old.items
        (end_text (spelling_of names.now) (decl_of end.now)) text.new.items) }
{
    put_pair(text, names, b" ", end.party, end.name)?;
    put_named(text, names, b" ", end.protocol)
}
