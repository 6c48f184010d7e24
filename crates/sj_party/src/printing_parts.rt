//! Parts of statements as text: spaces, names, expressions and kinds after what stands before them.
#![tactic(auto, using(sj_text::proofs::CutLemmas::cuts))]

ghost use Rattle.std.specs.Prelude.{◌≡◌, ◌++◌, codes, OnOk, OnErr};
ghost use Rattle.sj_text.specs.Cut.{IsCutShort};
ghost use Rattle.sj_lang.specs.CodeView.{term_of};
ghost use Rattle.sj_grammar.specs.Statements.{scalar_piece};
ghost use Rattle.sj_party.specs.CanonicalExpression.{spelling_of};
ghost use Rattle.sj_party.specs.CanonicalCode.{spaces, named_text, pair_text, valued_text, given_text};

use crate::printing_expressions::{Wanted, put_expression};
use sj_base::NoMemory;
use sj_lang::{Expr, Names, Scalar};
use sj_proto::put_word;
use sj_text::put;

/// Appends so many spaces.
pub fn put_spaces(text: &mut Vec<u8>, n: usize) -> Result<(), NoMemory>
    ensures ok { OnOk result (text.new.items ≡ text.old.items ++ spaces n) }
    ensures err { OnErr result (IsCutShort text.old.items (spaces n) text.new.items) }
{
    for _ in 0..n {
        put(text, b" ")?;
    }
    Ok(())
}

/// Appends a name after what stands before it.
#[tactic(auto, using(sj_text::proofs::CutLemmas::cuts), unfolding(crate::specs::CanonicalCode::named_text))]
pub fn put_named(text: &mut Vec<u8>, names: &Names, lead: &[u8], n: u16) -> Result<(), NoMemory>
    ensures ok { OnOk result (text.new.items
        ≡ text.old.items ++ named_text (spelling_of names.now) lead.now n) }
    ensures err { OnErr result (IsCutShort text.old.items
        (named_text (spelling_of names.now) lead.now n) text.new.items) }
{
    put(text, lead)?;
    put_word(text, names, n)
}

/// Appends two names.
#[tactic(auto, using(sj_text::proofs::CutLemmas::cuts), unfolding(crate::specs::CanonicalCode::pair_text))]
pub fn put_pair(
    text: &mut Vec<u8>,
    names: &Names,
    lead: &[u8],
    x: u16,
    y: u16,
) -> Result<(), NoMemory>
    ensures ok { OnOk result (text.new.items
        ≡ text.old.items ++ pair_text (spelling_of names.now) lead.now x y) }
    ensures err { OnErr result (IsCutShort text.old.items
        (pair_text (spelling_of names.now) lead.now x y) text.new.items) }
{
    put_named(text, names, lead, x)?;
    put_named(text, names, b" ", y)
}

/// Appends an expression after what stands before it.
#[tactic(auto, using(sj_text::proofs::CutLemmas::cuts), unfolding(crate::specs::CanonicalCode::valued_text))]
pub fn put_valued(text: &mut Vec<u8>, names: &Names, lead: &[u8], e: &Expr) -> Result<(), NoMemory>
    ensures ok { OnOk result (text.new.items
        ≡ text.old.items ++ valued_text (spelling_of names.now) lead.now (term_of e.now)) }
    ensures err { OnErr result (IsCutShort text.old.items
        (valued_text (spelling_of names.now) lead.now (term_of e.now)) text.new.items) }
{
    put(text, lead)?;
    put_expression(text, names, Wanted::Whole, e)
}

/// Appends a name, and after a mark an expression.
#[tactic(auto, using(sj_text::proofs::CutLemmas::cuts), unfolding(crate::specs::CanonicalCode::given_text))]
pub fn put_given(
    text: &mut Vec<u8>,
    names: &Names,
    lead: &[u8],
    n: u16,
    mark: &[u8],
    e: &Expr,
) -> Result<(), NoMemory>
    ensures ok { OnOk result (text.new.items ≡ text.old.items
        ++ given_text (spelling_of names.now) lead.now n mark.now (term_of e.now)) }
    ensures err { OnErr result (IsCutShort text.old.items
        (given_text (spelling_of names.now) lead.now n mark.now (term_of e.now)) text.new.items) }
{
    put_named(text, names, lead, n)?;
    put_valued(text, names, mark, e)
}

/// The kind of a message, and the end of the statement.
pub fn kind_bytes(kind: Scalar) -> &'static [u8]
    ensures { result.now ≡ codes " " ++ (scalar_piece kind ++ codes ";") }
{
    match kind {
        Scalar::Int => b" int;",
        Scalar::Boolean => b" boolean;",
        Scalar::Text => b" String;",
    }
}
