//! Statements, blocks and the arms of an `inbranch`.
ghost use Rattle.std.specs.Prelude.{ℕ, ◌+◌, ◌<◌, ◌≤◌, [], ◌∷◌, length, map, codes, IfOk, IfErr};
ghost use Rattle.sj_lang.specs.CodeView.{deed_of, code_of, arm_of, branches_of};
ghost use Rattle.sj_lang.specs.Limits.{limits};
ghost use Rattle.sj_grammar.specs.Lexis.{next_of};
ghost use Rattle.sj_grammar.specs.ExpressionDues.{whole};
ghost use Rattle.sj_grammar.specs.FileDues.{stmts, block as block_due, branches, name, fixed, expr, file_layer};
ghost use Rattle.sj_grammar.specs.Statements.{AreArms};
ghost use Rattle.sj_grammar.specs.Asked.{Passes};
ghost use Rattle.sj_proto.specs.Onward.{Advances};
ghost use Rattle.sj_proto.specs.Parsed.{standing, Stops};
ghost use Rattle.sj_expr.specs.Leaves.{LeavesTables};
ghost use Rattle.sj_expr.specs.Read.{HasRooms, Grows};
ghost use Rattle.sj_party.specs.Read.{ReadsOnLines, ReadsCode, KeepsRoom};
ghost use Rattle.sj_party.specs.Rooms.{HasRoomFor, Uses};
ghost use Rattle.sj_party.specs.Parts.{a_block, some_arms, ReadsPart, ReadsDeed};
ghost use Rattle.sj_party.specs.Words.{word_of, dues_behind};

use crate::first_words::{FirstWord, begin};
use crate::parts::{name_and_value, one_name, two_names};
use crate::shapes::{labelled, statement};
use crate::simple::simple;
use sj_expr::parse_expression;
use sj_grammar::MOST_OPEN;
use sj_lang::{Deed, Names, Stmt, StmtArm};
use sj_proto::{ParseRefusal, Tokens, is_name_text, take_first};
use std::alloc::Global;

/// Statements inside so many inner braces, as long as one begins with the next token.
#[cycle(code)]
pub(crate) fn statements(
    alloc: Global,
    tokens: &mut Tokens,
    names: &mut Names,
    depth: usize,
) -> Result<Vec<Stmt>, ParseRefusal>
    requires deep { depth ≤ limits.nesting }
    requires room { HasRooms names.old tokens.old }
    ensures reads { IfOk result (λ v. ReadsCode depth (standing tokens.old names.old)
        (standing tokens.new names.new) (code_of v.items)) }
    ensures ends { IfOk result (λ _. Passes file_layer (stmts depth) (next_of tokens.new.ahead)) }
    ensures room { IfOk result (λ _. KeepsRoom names.old tokens.old names.new tokens.new) }
    ensures shorter { IfOk result (λ _. length tokens.new.ahead ≤ length tokens.old.ahead) }
    ensures kept { Grows names.old names.new }
    ensures onward { Advances tokens.old tokens.new }
    ensures fault { IfErr result (λ e. (n : ℕ) → Stops (λ ds. stmts depth ∷ ds) n
        (standing tokens.old names.old) e) }
{
    let mut list = Vec::new(alloc);
    'all: while let Some(begun) = begin(tokens) {
        let deed = deed(alloc, tokens, names, depth, begun.first)?;
        list.push(statement(begun.line, deed))?;
    }
    Ok(list)
}

// What a statement does, after its first word.
#[cycle(code)]
fn deed(
    alloc: Global,
    tokens: &mut Tokens,
    names: &mut Names,
    depth: usize,
    first: FirstWord,
) -> Result<Deed, ParseRefusal>
    requires deep { depth ≤ limits.nesting }
    requires room { HasRoomFor 2 names.old tokens.old }
    ensures reads { IfOk result (λ d. ReadsDeed (word_of first) depth
        (standing tokens.old names.old) (standing tokens.new names.new) (deed_of d)) }
    ensures leaves { LeavesTables (Uses 1 0) result names.old tokens.old names.new tokens.new }
    ensures fault { IfErr result (λ e. (n : ℕ) → Stops (λ ds. dues_behind first depth ds) n
        (standing tokens.old names.old) e) }
{
    match first {
        FirstWord::Simple(word) => simple(alloc, tokens, names, word),
        FirstWord::Inbranch => inbranch(alloc, tokens, names, depth),
        FirstWord::Outwhile => {
            let (end, count) = name_and_value(alloc, tokens, names)?;
            let body = block(alloc, tokens, names, depth)?;
            Ok(Deed::OutWhile { end, count, body })
        }
        FirstWord::Inwhile => {
            let end = one_name(tokens, names)?;
            let body = block(alloc, tokens, names, depth)?;
            Ok(Deed::InWhile { end, body })
        }
        FirstWord::Relay => {
            let (from, to) = two_names(tokens, names)?;
            let body = block(alloc, tokens, names, depth)?;
            Ok(Deed::Relay { from, to, body })
        }
        FirstWord::If => test(alloc, tokens, names, depth),
    }
}

// A test and its two blocks.
#[cycle(code)]
fn test(
    alloc: Global,
    tokens: &mut Tokens,
    names: &mut Names,
    depth: usize,
) -> Result<Deed, ParseRefusal>
    requires deep { depth ≤ limits.nesting }
    requires room { HasRoomFor 2 names.old tokens.old }
    ensures reads { IfOk result (λ d. ReadsDeed (codes "if") depth (standing tokens.old names.old)
        (standing tokens.new names.new) (deed_of d)) }
    ensures leaves { LeavesTables (Uses 1 0) result names.old tokens.old names.new tokens.new }
    ensures fault { IfErr result (λ e. (n : ℕ) → Stops (λ ds. expr whole ∷ block_due depth
        ∷ fixed (codes "else") ∷ block_due depth ∷ ds) n (standing tokens.old names.old) e) }
{
    let test = parse_expression(alloc, tokens, names)?;
    let yes = block(alloc, tokens, names, depth)?;
    tokens.expect(b"else")?;
    let no = block(alloc, tokens, names, depth)?;
    Ok(Deed::If { test, yes, no })
}

// An end, and arms in braces that aren't counted.
#[cycle(code)]
fn inbranch(
    alloc: Global,
    tokens: &mut Tokens,
    names: &mut Names,
    depth: usize,
) -> Result<Deed, ParseRefusal>
    requires deep { depth ≤ limits.nesting }
    requires room { HasRoomFor 2 names.old tokens.old }
    ensures reads { IfOk result (λ d. ReadsDeed (codes "inbranch") depth
        (standing tokens.old names.old) (standing tokens.new names.new) (deed_of d)) }
    ensures leaves { LeavesTables (Uses 1 0) result names.old tokens.old names.new tokens.new }
    ensures fault { IfErr result (λ e. (n : ℕ) → Stops (λ ds. name ∷ fixed (codes "{") ∷ name
        ∷ fixed (codes ":") ∷ block_due depth ∷ branches depth ∷ fixed (codes "}") ∷ ds) n
        (standing tokens.old names.old) e) }
{
    let end = one_name(tokens, names)?;
    tokens.expect(b"{")?;
    let arms = arms(alloc, tokens, names, depth)?;
    tokens.expect(b"}")?;
    Ok(Deed::Branch { end, arms })
}

// Arms, one at least, as long as one begins with the next token.
#[cycle(code)]
fn arms(
    alloc: Global,
    tokens: &mut Tokens,
    names: &mut Names,
    depth: usize,
) -> Result<Vec<StmtArm>, ParseRefusal>
    requires deep { depth ≤ limits.nesting }
    requires room { HasRoomFor 1 names.old tokens.old }
    ensures reads { IfOk result (λ v. ReadsPart (standing tokens.old names.old)
        (standing tokens.new names.new) (some_arms depth (branches_of (map arm_of v.items)))) }
    ensures leaves { LeavesTables (Uses 0 0) result names.old tokens.old names.new tokens.new }
    ensures fault { IfErr result (λ e. (n : ℕ) → Stops (λ ds. name ∷ fixed (codes ":")
        ∷ block_due depth ∷ branches depth ∷ ds) n (standing tokens.old names.old) e) }
{
    let mut list = Vec::new(alloc);
    list.push(arm(alloc, tokens, names, depth)?)?;
    'all: while is_name_text(tokens.spelling()) {
        let next = arm(alloc, tokens, names, depth)?;
        list.push(next)?;
    }
    Ok(list)
}

// A label and its block.
#[cycle(code)]
fn arm(
    alloc: Global,
    tokens: &mut Tokens,
    names: &mut Names,
    depth: usize,
) -> Result<StmtArm, ParseRefusal>
    requires deep { depth ≤ limits.nesting }
    requires room { HasRoomFor 1 names.old tokens.old }
    ensures reads { IfOk result (λ x. ReadsOnLines (standing tokens.old names.old)
        (standing tokens.new names.new)
        (λ names ps. AreArms limits names depth (branches_of (arm_of x ∷ [])) ps)) }
    ensures leaves { LeavesTables (Uses 0 0) result names.old tokens.old names.new tokens.new }
    ensures fault { IfErr result (λ e. (n : ℕ) → Stops (λ ds. name ∷ fixed (codes ":")
        ∷ block_due depth ∷ ds) n (standing tokens.old names.old) e) }
{
    let label = one_name(tokens, names)?;
    tokens.expect(b":")?;
    let body = block(alloc, tokens, names, depth)?;
    Ok(labelled(label, body))
}

// A block inside so many inner braces.
#[cycle(code)]
fn block(
    alloc: Global,
    tokens: &mut Tokens,
    names: &mut Names,
    depth: usize,
) -> Result<Vec<Stmt>, ParseRefusal>
    requires deep { depth ≤ limits.nesting }
    requires room { HasRoomFor 0 names.old tokens.old }
    ensures reads { IfOk result (λ v. ReadsPart (standing tokens.old names.old)
        (standing tokens.new names.new) (a_block depth (code_of v.items))) }
    ensures leaves { LeavesTables (Uses 0 2) result names.old tokens.old names.new tokens.new }
    ensures fault { IfErr result (λ e. (n : ℕ) → Stops (λ ds. block_due depth ∷ ds) n
        (standing tokens.old names.old) e) }
{
    take_first(tokens, b"{", depth >= MOST_OPEN)?;
    let body = statements(alloc, tokens, names, depth + 1)?;
    tokens.expect(b"}")?;
    Ok(body)
}
