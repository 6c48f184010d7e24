//! Statements as text.
#![tactic(auto, using(sj_text::proofs::CutLemmas::cuts))]

ghost use Rattle.std.specs.Prelude.{◌≡◌, ◌+◌, ◌++◌, map, codes, IfOk, OnOk, OnErr};
ghost use Rattle.sj_text.specs.Cut.{IsCutShort};
ghost use Rattle.sj_lang.specs.CodeView.{term_of, arm_of, branches_of, code_of, deed_of};
ghost use Rattle.sj_grammar.specs.Statements.{scalar_piece};
ghost use Rattle.sj_party.specs.CanonicalExpression.{spelling_of};
ghost use Rattle.sj_party.specs.CanonicalCode.{spaces, in_block, named_text, pair_text, valued_text, given_text, deed_text, arms_text, block_text};

use crate::printing_parts::{kind_bytes, put_given, put_named, put_pair, put_spaces, put_valued};
use sj_base::NoMemory;
use sj_lang::{Deed, Expr, Names, Scalar, Stmt, StmtArm};
use sj_proto::put_word;
use sj_text::put;

// Appends a statement of two names.
fn put_pair_line(
    text: &mut Vec<u8>,
    names: &Names,
    lead: &[u8],
    x: u16,
    y: u16,
) -> Result<(), NoMemory>
    ensures ok { OnOk result (text.new.items
        ≡ text.old.items ++ (pair_text (spelling_of names.now) lead.now x y ++ codes ";")) }
    ensures err { OnErr result (IsCutShort text.old.items
        (pair_text (spelling_of names.now) lead.now x y ++ codes ";") text.new.items) }
{
    put_pair(text, names, lead, x, y)?;
    put(text, b";")
}

// Appends a statement of a name, a mark and an expression.
fn put_given_line(
    text: &mut Vec<u8>,
    names: &Names,
    lead: &[u8],
    n: u16,
    mark: &[u8],
    e: &Expr,
) -> Result<(), NoMemory>
    ensures ok { OnOk result (text.new.items ≡ text.old.items
        ++ (given_text (spelling_of names.now) lead.now n mark.now (term_of e.now) ++ codes ";")) }
    ensures err { OnErr result (IsCutShort text.old.items
        (given_text (spelling_of names.now) lead.now n mark.now (term_of e.now) ++ codes ";")
        text.new.items) }
{
    put_given(text, names, lead, n, mark, e)?;
    put(text, b";")
}

// Appends a statement of one name.
fn put_named_line(text: &mut Vec<u8>, names: &Names, lead: &[u8], n: u16) -> Result<(), NoMemory>
    ensures ok { OnOk result (text.new.items
        ≡ text.old.items ++ (named_text (spelling_of names.now) lead.now n ++ codes ";")) }
    ensures err { OnErr result (IsCutShort text.old.items
        (named_text (spelling_of names.now) lead.now n ++ codes ";") text.new.items) }
{
    put_named(text, names, lead, n)?;
    put(text, b";")
}

// Appends the statement that takes a value.
fn put_take(
    text: &mut Vec<u8>,
    names: &Names,
    end: u16,
    into: u16,
    kind: Scalar,
) -> Result<(), NoMemory>
    ensures ok { OnOk result (text.new.items ≡ text.old.items ++ (pair_text (spelling_of names.now)
        (codes "recv ") end into ++ (codes " " ++ (scalar_piece kind ++ codes ";")))) }
    ensures err { OnErr result (IsCutShort text.old.items (pair_text (spelling_of names.now)
        (codes "recv ") end into ++ (codes " " ++ (scalar_piece kind ++ codes ";")))
        text.new.items) }
{
    put_pair(text, names, b"recv ", end, into)?;
    put(text, kind_bytes(kind))
}

// Appends a statement of two names, a mark and a third name.
fn put_three_line(
    text: &mut Vec<u8>,
    names: &Names,
    lead: &[u8],
    x: u16,
    y: u16,
    mark: &[u8],
    z: u16,
) -> Result<(), NoMemory>
    ensures ok { OnOk result (text.new.items ≡ text.old.items ++ (pair_text (spelling_of names.now)
        lead.now x y ++ (named_text (spelling_of names.now) mark.now z ++ codes ";"))) }
    ensures err { OnErr result (IsCutShort text.old.items (pair_text (spelling_of names.now)
        lead.now x y ++ (named_text (spelling_of names.now) mark.now z ++ codes ";"))
        text.new.items) }
{
    put_pair(text, names, lead, x, y)?;
    put_named_line(text, names, mark, z)
}

// Opens a block, and answers how far in it stands. Beyond all memory it answers out of memory.
fn put_opening(text: &mut Vec<u8>, n: usize) -> Result<usize, NoMemory>
    ensures ok { OnOk result (text.new.items ≡ text.old.items ++ codes " {\n") }
    ensures further { IfOk result (λ m. m ≡ n + 2) }
    ensures err { OnErr result (text.new.items ≡ text.old.items) }
{
    let Some(inner) = n.checked_add(2) else {
        return Err(NoMemory);
    };
    put(text, b" {\n")?;
    Ok(inner)
}

// Closes a block that stands so far in.
fn put_closing(text: &mut Vec<u8>, n: usize) -> Result<(), NoMemory>
    ensures ok { OnOk result (text.new.items ≡ text.old.items ++ (spaces n ++ codes "}")) }
    ensures err { OnErr result (IsCutShort text.old.items
        (spaces n ++ codes "}") text.new.items) }
{
    put_spaces(text, n)?;
    put(text, b"}")
}

/// Appends a block that stands so many spaces in, after what stands before it.
#[cycle(statements)]
pub fn put_block(
    text: &mut Vec<u8>,
    names: &Names,
    lead: &[u8],
    n: usize,
    body: &[Stmt],
) -> Result<(), NoMemory>
    ensures ok { OnOk result (text.new.items ≡ text.old.items
        ++ (lead.now ++ block_text (spelling_of names.now) n (code_of body.now))) }
    ensures err { OnErr result (IsCutShort text.old.items
        (lead.now ++ block_text (spelling_of names.now) n (code_of body.now)) text.new.items) }
{
    put(text, lead)?;
    let inner = put_opening(text, n)?;
    for stmt in body {
        put_spaces(text, inner)?;
        put_deed(text, names, inner, &stmt.deed)?;
        put(text, b"\n")?;
    }
    put_closing(text, n)
}

// Appends arms between their braces, the last of which stands so many spaces in.
#[cycle(statements)]
fn put_arms(text: &mut Vec<u8>, names: &Names, n: usize, arms: &[StmtArm]) -> Result<(), NoMemory>
    ensures ok { OnOk result (text.new.items ≡ text.old.items ++ in_block n
        (arms_text (spelling_of names.now) (n + 2) (branches_of (map arm_of arms.now)))) }
    ensures err { OnErr result (IsCutShort text.old.items (in_block n
        (arms_text (spelling_of names.now) (n + 2) (branches_of (map arm_of arms.now))))
        text.new.items) }
{
    let inner = put_opening(text, n)?;
    for arm in arms {
        put_spaces(text, inner)?;
        put_word(text, names, arm.label)?;
        put_block(text, names, b":", inner, &arm.body)?;
        put(text, b"\n")?;
    }
    put_closing(text, n)
}

// Appends a statement that stands so many spaces in, from its keyword on.
#[cycle(statements)]
fn put_deed(text: &mut Vec<u8>, names: &Names, n: usize, deed: &Deed) -> Result<(), NoMemory>
    ensures ok { OnOk result (text.new.items
        ≡ text.old.items ++ deed_text (spelling_of names.now) n (deed_of deed.now)) }
    ensures err { OnErr result (IsCutShort text.old.items
        (deed_text (spelling_of names.now) n (deed_of deed.now)) text.new.items) }
{
    match deed {
        Deed::Send { end, value } => put_given_line(text, names, b"send ", *end, b" ", value),
        Deed::Delegate { end, sent } => put_pair_line(text, names, b"delegate ", *end, *sent),
        Deed::Take { end, into, kind } => put_take(text, names, *end, *into, *kind),
        Deed::TakeEnd {
            end,
            into,
            protocol,
        } => put_three_line(text, names, b"recv ", *end, *into, b" session ", *protocol),
        Deed::Select { end, label } => put_pair_line(text, names, b"outbranch ", *end, *label),
        Deed::Branch { end, arms } => {
            put_named(text, names, b"inbranch ", *end)?;
            put_arms(text, names, n, arms)
        }
        Deed::OutWhile { end, count, body } => {
            put_given(text, names, b"outwhile ", *end, b" ", count)?;
            put_block(text, names, b"", n, body)
        }
        Deed::InWhile { end, body } => {
            put_named(text, names, b"inwhile ", *end)?;
            put_block(text, names, b"", n, body)
        }
        Deed::Relay { from, to, body } => {
            put_pair(text, names, b"relay ", *from, *to)?;
            put_block(text, names, b"", n, body)
        }
        Deed::If { test, yes, no } => {
            put_valued(text, names, b"if ", test)?;
            put_block(text, names, b"", n, yes)?;
            put_block(text, names, b" else", n, no)
        }
        Deed::Let { name, value } => put_given_line(text, names, b"let ", *name, b" = ", value),
        Deed::Close { end } => put_named_line(text, names, b"close ", *end),
        Deed::Request {
            end,
            protocol,
            party,
        } => put_three_line(text, names, b"request ", *end, *protocol, b" to ", *party),
        Deed::Accept {
            end,
            protocol,
            party,
        } => put_three_line(text, names, b"accept ", *end, *protocol, b" from ", *party),
    }
}
