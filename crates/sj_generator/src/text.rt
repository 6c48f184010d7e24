//! The text of the generated file.
#![tactic(auto, using(sj_text::proofs::CutLemmas::cuts))]

ghost use Rattle.std.specs.Prelude.{◌≡◌, ◌++◌, ◌+◌, ◌<◌, OnOk, OnErr, decimal};
ghost use Rattle.sj_text.specs.Cut.{IsCutShort};
ghost use Rattle.sj_generator.specs.Generated.{protocols, sender, giver, adder, group, connections, of_each, generated};

use sj_base::NoMemory;
use sj_text::{put, put_number};

/// Appends the text of the file whose loops send n messages each; it is canonical. Out of memory, it
/// leaves a prefix of it after the old text.
pub fn print_generated(text: &mut Vec<u8>, n: u16) -> Result<(), NoMemory>
    ensures ok { OnOk result (text.new.items ≡ text.old.items ++ generated n) }
    ensures err { OnErr result (IsCutShort text.old.items (generated n) text.new.items) }
{
    put_protocols(text)?;
    put_groups(text, n)?;
    put_all_connections(text)
}

// The parties, group by group.
fn put_groups(text: &mut Vec<u8>, n: u16) -> Result<(), NoMemory>
    ensures ok { OnOk result (text.new.items ≡ text.old.items ++ of_each (group n)) }
    ensures err { OnErr result (IsCutShort text.old.items (of_each (group n)) text.new.items) }
{
    put_group(text, n, 0)?;
    put_group(text, n, 1)?;
    put_group(text, n, 2)?;
    put_group(text, n, 3)?;
    put_group(text, n, 4)
}

// The connections, group by group.
fn put_all_connections(text: &mut Vec<u8>) -> Result<(), NoMemory>
    ensures ok { OnOk result (text.new.items ≡ text.old.items ++ of_each connections) }
    ensures err { OnErr result (IsCutShort text.old.items (of_each connections) text.new.items) }
{
    put_connections(text, 0)?;
    put_connections(text, 1)?;
    put_connections(text, 2)?;
    put_connections(text, 3)?;
    put_connections(text, 4)
}

#[tactic(auto, using(sj_text::proofs::CutLemmas::cuts), unfolding(crate::specs::Generated::protocols))]
fn put_protocols(text: &mut Vec<u8>) -> Result<(), NoMemory>
    ensures ok { OnOk result (text.new.items ≡ text.old.items ++ protocols) }
    ensures err { OnErr result (IsCutShort text.old.items protocols text.new.items) }
{
    put(
        text,
        b"protocol w { begin.![!<int>]*.?(int) }\n\
        protocol v { begin.?[?(int)]*.!<int> }\n\
        protocol g { begin.!<?[?(int)]*.!<int>> }\n\
        protocol h { begin.?(?[?(int)]*.!<int>) }\n",
    )
}

// The three parties of a group.
#[tactic(auto, using(sj_text::proofs::CutLemmas::cuts), unfolding(crate::specs::Generated::group))]
fn put_group(text: &mut Vec<u8>, n: u16, i: u16) -> Result<(), NoMemory>
    requires { i < 5 }
    ensures ok { OnOk result (text.new.items ≡ text.old.items ++ group n i) }
    ensures err { OnErr result (IsCutShort text.old.items (group n i) text.new.items) }
{
    put_sender(text, n, i)?;
    put_giver(text, i)?;
    put_adder(text, i)
}

fn put_sender(text: &mut Vec<u8>, n: u16, i: u16) -> Result<(), NoMemory>
    requires { i < 5 }
    ensures ok { OnOk result (text.new.items ≡ text.old.items ++ sender n i) }
    ensures err { OnErr result (IsCutShort text.old.items (sender n i) text.new.items) }
{
    put_numbered(text, b"party a", i, b" {\n")?;
    put_numbered(text, b"  outwhile x ", n, b" {\n")?;
    put_numbered(text, b"    send x ", i + 1, b";\n")?;
    put(text, b"  }\n  recv x r int;\n  close x;\n}\n")
}

fn put_giver(text: &mut Vec<u8>, i: u16) -> Result<(), NoMemory>
    ensures ok { OnOk result (text.new.items ≡ text.old.items ++ giver i) }
    ensures err { OnErr result (IsCutShort text.old.items (giver i) text.new.items) }
{
    put_numbered(text, b"party b", i, b" {\n")?;
    put(text, b"  delegate z y;\n  close z;\n}\n")
}

fn put_adder(text: &mut Vec<u8>, i: u16) -> Result<(), NoMemory>
    ensures ok { OnOk result (text.new.items ≡ text.old.items ++ adder i) }
    ensures err { OnErr result (IsCutShort text.old.items (adder i) text.new.items) }
{
    put_numbered(text, b"party c", i, b" {\n")?;
    put(
        text,
        b"  recv u y session v;\n  let s = 0;\n  inwhile y {\n",
    )?;
    put(text, b"    recv y k int;\n    let s = s + k;\n  }\n")?;
    put(text, b"  send y s;\n  close y;\n  close u;\n}\n")
}

// The two connections of a group.
#[tactic(auto, using(sj_text::proofs::CutLemmas::cuts), unfolding(crate::specs::Generated::connections))]
fn put_connections(text: &mut Vec<u8>, i: u16) -> Result<(), NoMemory>
    ensures ok { OnOk result (text.new.items ≡ text.old.items ++ connections i) }
    ensures err { OnErr result (IsCutShort text.old.items (connections i) text.new.items) }
{
    put_numbered(text, b"connect a", i, b" x w to b")?;
    put_numbered(text, b"", i, b" y v;\n")?;
    put_numbered(text, b"connect b", i, b" z g to c")?;
    put_numbered(text, b"", i, b" u h;\n")
}

// A number between two pieces.
fn put_numbered(text: &mut Vec<u8>, front: &[u8], n: u16, back: &[u8]) -> Result<(), NoMemory>
    ensures ok { OnOk result
        (text.new.items ≡ text.old.items ++ (front.now ++ (decimal n ++ back.now))) }
    ensures err { OnErr result (IsCutShort text.old.items
        (front.now ++ (decimal n ++ back.now)) text.new.items) }
{
    put(text, front)?;
    put_number(text, u64::from(n))?;
    put(text, back)
}
