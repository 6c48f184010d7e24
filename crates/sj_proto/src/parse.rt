//! Items of protocols from tokens, by what is due.
ghost use Rattle.std.specs.Prelude.{◌≢◌, ◌≤◌, [], ◌∷◌, ◌++◌, IfOk, IfErr, drop, codes};
ghost use Rattle.sj_lang.specs.Place.{done, no_choice, arm as with_arm};
ghost use Rattle.sj_lang.specs.View.{carried_of, followed};
ghost use Rattle.sj_lang.specs.ItemCount.{item_count, kind_items, arm_items};
ghost use Rattle.sj_lang.specs.Limits.{limits};
ghost use Rattle.sj_grammar.specs.Lexis.{next_of};
ghost use Rattle.sj_grammar.specs.Protocols.{seq_pieces, kind_pieces, listed, close_piece, IsGiven, IsGivenKind, AreGiven};
ghost use Rattle.sj_grammar.specs.ProtocolDues.{seq as items_due, maybe as maybe_due, kind as kind_due, label, fixed, arms, more};
ghost use Rattle.sj_grammar.specs.FileDues.{proto, file_layer};
ghost use Rattle.sj_grammar.specs.Asked.{Passes};
ghost use Rattle.sj_proto.specs.Items.{item_pieces};
ghost use Rattle.sj_proto.specs.Left.{due_behind};
ghost use Rattle.sj_proto.specs.Leaves.{LeavesItems};
ghost use Rattle.sj_proto.specs.Parsed.{standing, Gives, Stops, HasRoom};

use crate::choices::{Bracket, close_bytes, take_bracket, take_way};
use crate::naming::take_name;
use crate::shapes::{choice_item, loop_item, message_item};
use crate::tokens::Tokens;
use sj_grammar::{MOST_OPEN, ParseRefusal};
use sj_lang::{Arm, Arms, Item, Kind, Names, Proto, Way};
use std::alloc::Global;

const MOST_ITEMS: usize = 1024;

const MOST_LABELS: usize = 16;

/// Items with dots between them, inside so many brackets; so many items have begun before.
#[cycle(parse)]
pub fn seq(
    alloc: Global,
    tokens: &mut Tokens,
    names: &mut Names,
    items: &mut usize,
    depth: usize,
) -> Result<Proto, ParseRefusal>
    requires few { items.old ≤ limits.items }
    requires deep { depth ≤ limits.nesting }
    requires room { HasRoom names.old tokens.old }
    ensures reads { IfOk result (λ p.
        Gives (standing tokens.old names.old) (standing tokens.new names.new)
        (λ word. seq_pieces word p) (λ word. IsGiven limits word depth p)) }
    ensures some { IfOk result (λ p. p ≢ done) }
    ensures ends { IfOk result (λ _.
        Passes file_layer (proto (more depth)) (next_of tokens.new.ahead)) }
    ensures leaves { LeavesItems item_count result
        names.old tokens.old items.old names.new tokens.new items.new }
    ensures fault { IfErr result (Stops (λ ds. proto (items_due depth) ∷ ds)
        items.old (standing tokens.old names.old)) }
{
    let mut list = Vec::new(alloc);
    loop {
        list.push(item(alloc, tokens, names, items, depth)?)?;
        if !tokens.accept(b".") {
            return Ok(Proto { items: list });
        }
    }
}

// Items, or nothing.
#[cycle(parse)]
fn maybe(
    alloc: Global,
    tokens: &mut Tokens,
    names: &mut Names,
    items: &mut usize,
    depth: usize,
) -> Result<Proto, ParseRefusal>
    requires few { items.old ≤ limits.items }
    requires deep { depth ≤ limits.nesting }
    requires room { HasRoom names.old tokens.old }
    ensures reads { IfOk result (λ p.
        Gives (standing tokens.old names.old) (standing tokens.new names.new)
        (λ word. seq_pieces word p) (λ word. IsGiven limits word depth p)) }
    ensures ends { IfOk result (λ p.
        Passes file_layer (proto (due_behind depth p)) (next_of tokens.new.ahead)) }
    ensures leaves { LeavesItems item_count result
        names.old tokens.old items.old names.new tokens.new items.new }
    ensures fault { IfErr result (Stops (λ ds. proto (maybe_due depth) ∷ ds)
        items.old (standing tokens.old names.old)) }
{
    if tokens.sees(b"!") || tokens.sees(b"?") {
        return seq(alloc, tokens, names, items, depth);
    }
    Ok(Proto {
        items: Vec::new(alloc),
    })
}

#[cycle(parse)]
fn item(
    alloc: Global,
    tokens: &mut Tokens,
    names: &mut Names,
    items: &mut usize,
    depth: usize,
) -> Result<Item, ParseRefusal>
    requires few { items.old ≤ limits.items }
    requires deep { depth ≤ limits.nesting }
    requires room { HasRoom names.old tokens.old }
    ensures reads { IfOk result (λ i.
        Gives (standing tokens.old names.old) (standing tokens.new names.new)
        (λ word. item_pieces word i) (λ word. IsGiven limits word depth (followed i done))) }
    ensures leaves { LeavesItems (λ i. item_count (followed i done)) result
        names.old tokens.old items.old names.new tokens.new items.new }
    ensures fault { IfErr result (Stops (λ ds. proto (items_due depth) ∷ ds)
        items.old (standing tokens.old names.old)) }
{
    let way = take_way(tokens, *items >= MOST_ITEMS)?;
    *items += 1;
    match take_bracket(tokens, way, depth >= MOST_OPEN)? {
        Bracket::Kind => {
            let carried = carried(alloc, tokens, names, items, depth + 1, way)?;
            Ok(message_item(way, carried))
        }
        Bracket::Arms => {
            let arms = choices(alloc, tokens, names, items, depth + 1)?;
            Ok(choice_item(way, arms))
        }
        Bracket::Turns => {
            let body = turns(alloc, tokens, names, items, depth + 1)?;
            Ok(loop_item(way, body))
        }
    }
}

// After `<` or `(`, with the bracket that closes it.
#[cycle(parse)]
fn carried(
    alloc: Global,
    tokens: &mut Tokens,
    names: &mut Names,
    items: &mut usize,
    depth: usize,
    way: Way,
) -> Result<Kind, ParseRefusal>
    requires few { items.old ≤ limits.items }
    requires deep { depth ≤ limits.nesting }
    requires room { HasRoom names.old tokens.old }
    ensures reads { IfOk result (λ k.
        Gives (standing tokens.old names.old) (standing tokens.new names.new)
        (λ word. kind_pieces word (carried_of k) ++ close_piece way ∷ [])
        (λ word. IsGivenKind limits word depth (carried_of k))) }
    ensures leaves { LeavesItems (λ k. kind_items (carried_of k)) result
        names.old tokens.old items.old names.new tokens.new items.new }
    ensures fault { IfErr result (Stops (λ ds.
        proto (kind_due depth) ∷ proto (fixed (close_piece way)) ∷ ds)
        items.old (standing tokens.old names.old)) }
{
    if tokens.accept(b"int") {
        tokens.expect(close_bytes(way))?;
        return Ok(Kind::Int);
    }
    if tokens.accept(b"boolean") {
        tokens.expect(close_bytes(way))?;
        return Ok(Kind::Boolean);
    }
    if tokens.accept(b"String") {
        tokens.expect(close_bytes(way))?;
        return Ok(Kind::Text);
    }
    let p = seq(alloc, tokens, names, items, depth)?;
    tokens.expect(close_bytes(way))?;
    Ok(Kind::Session(p))
}

// After `[`, up to the star.
#[cycle(parse)]
fn turns(
    alloc: Global,
    tokens: &mut Tokens,
    names: &mut Names,
    items: &mut usize,
    depth: usize,
) -> Result<Proto, ParseRefusal>
    requires few { items.old ≤ limits.items }
    requires deep { depth ≤ limits.nesting }
    requires room { HasRoom names.old tokens.old }
    ensures reads { IfOk result (λ p.
        Gives (standing tokens.old names.old) (standing tokens.new names.new)
        (λ word. seq_pieces word p ++ codes "]" ∷ codes "*" ∷ [])
        (λ word. IsGiven limits word depth p)) }
    ensures leaves { LeavesItems item_count result
        names.old tokens.old items.old names.new tokens.new items.new }
    ensures fault { IfErr result (Stops (λ ds. proto (maybe_due depth) ∷ proto (fixed (codes "]"))
        ∷ proto (fixed (codes "*")) ∷ ds)
        items.old (standing tokens.old names.old)) }
{
    let body = maybe(alloc, tokens, names, items, depth)?;
    tokens.expect(b"]")?;
    tokens.expect(b"*")?;
    Ok(body)
}

// After `{`, with the brace that closes it.
#[cycle(parse)]
fn choices(
    alloc: Global,
    tokens: &mut Tokens,
    names: &mut Names,
    items: &mut usize,
    depth: usize,
) -> Result<Arms, ParseRefusal>
    requires few { items.old ≤ limits.items }
    requires deep { depth ≤ limits.nesting }
    requires room { HasRoom names.old tokens.old }
    ensures reads { IfOk result (λ a.
        Gives (standing tokens.old names.old) (standing tokens.new names.new)
        (λ word. drop 1 (listed word a) ++ codes "}" ∷ [])
        (λ word. AreGiven limits word depth 0 a)) }
    ensures some { IfOk result (λ a. a ≢ no_choice) }
    ensures leaves { LeavesItems arm_items result
        names.old tokens.old items.old names.new tokens.new items.new }
    ensures fault { IfErr result (Stops (λ ds. proto (label 0) ∷ proto (fixed (codes ":"))
        ∷ proto (maybe_due depth) ∷ proto (arms depth 1) ∷ proto (fixed (codes "}")) ∷ ds)
        items.old (standing tokens.old names.old)) }
{
    let mut list = Vec::new(alloc);
    loop {
        let before = list.len();
        list.push(one_arm(alloc, tokens, names, items, depth, before)?)?;
        if !tokens.accept(b",") {
            tokens.expect(b"}")?;
            return Ok(Arms { arms: list });
        }
    }
}

// A label and its items; so many arms stand before.
#[cycle(parse)]
fn one_arm(
    alloc: Global,
    tokens: &mut Tokens,
    names: &mut Names,
    items: &mut usize,
    depth: usize,
    before: usize,
) -> Result<Arm, ParseRefusal>
    requires few { items.old ≤ limits.items }
    requires deep { depth ≤ limits.nesting }
    requires room { HasRoom names.old tokens.old }
    ensures reads { IfOk result (λ a.
        Gives (standing tokens.old names.old) (standing tokens.new names.new)
        (λ word. word a.label ∷ codes ":" ∷ seq_pieces word a.rest)
        (λ word. AreGiven limits word depth before (with_arm a.label a.rest no_choice))) }
    ensures ends { IfOk result (λ a.
        Passes file_layer (proto (due_behind depth a.rest)) (next_of tokens.new.ahead)) }
    ensures leaves { LeavesItems (λ a. item_count a.rest) result
        names.old tokens.old items.old names.new tokens.new items.new }
    ensures fault { IfErr result (Stops (λ ds. proto (label before) ∷ proto (fixed (codes ":"))
        ∷ proto (maybe_due depth) ∷ ds)
        items.old (standing tokens.old names.old)) }
{
    let label = take_name(tokens, names, before >= MOST_LABELS)?;
    tokens.expect(b":")?;
    let rest = maybe(alloc, tokens, names, items, depth)?;
    Ok(Arm { label, rest })
}
