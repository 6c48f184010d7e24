//! The ends that blocks name, and sameness at these.
#![tactic(auto, using(crate::proofs::SeenLemmas::named))]

ghost use Rattle.std.specs.Prelude.{◌≡◌, ◌++◌, ◌∷◌, [], ℕ, IfOk, OnOk, map, option_map};
ghost use Rattle.std.specs.Ordering.{nat_cmp};
ghost use Rattle.std.specs.BTreeSet.{contains};
ghost use Rattle.sj_lang.specs.CodeView.{code_of, deed_of, arm_of, branches_of};
ghost use Rattle.sj_acceptance.specs.LabelTests.{is_among};
ghost use Rattle.sj_acceptance.specs.Sameness.{is_same_ends};
ghost use Rattle.sj_table.specs.Spots.{place_in};
ghost use Rattle.sj_check.specs.Named.{ends_named, deed_ends, branch_ends, SameBeyond, is_same_at, is_same_option};
ghost use Rattle.sj_check.specs.Seen.{env_in};

use crate::env::Env;
use crate::places::is_same_spot;
use crate::tables::Protocols;
use sj_base::NoMemory;
use sj_lang::{Deed, Stmt, StmtArm};
use sj_table::{Spot, Table};
use std::alloc::Global;
use std::collections::BTreeSet;

/// These ends, and those that the two blocks name.
pub fn names(
    alloc: Global,
    ends: &[u16],
    first: &[Stmt],
    second: &[Stmt],
) -> Result<BTreeSet<u16>, NoMemory>
    ensures { let all = ends.now ++ ends_named (code_of first.now) ++ ends_named (code_of second.now) in
        IfOk result (λ s. (q : ℕ) → contains nat_cmp s q ≡ is_among q all) }
{
    let mut all = Vec::from_slice(alloc, ends)?;
    add_block(&mut all, first)?;
    add_block(&mut all, second)?;
    distinct(alloc, &all)
}

fn distinct(alloc: Global, all: &[u16]) -> Result<BTreeSet<u16>, NoMemory>
    ensures { IfOk result (λ s. (q : ℕ) → contains nat_cmp s q ≡ is_among q all.now) }
{
    let mut set = BTreeSet::new(alloc);
    for name in all {
        let _ = set.insert(*name)?;
    }
    Ok(set)
}

/// Whether both have the same live ends at the same places, where they may differ at these alone.
pub fn has_same_ends_at(protocols: &Protocols, a: &Env, b: &Env, named: &BTreeSet<u16>) -> bool
    requires { let first = (env_in protocols.now a.now).ends in
        SameBeyond (contains nat_cmp named.now) first (env_in protocols.now b.now).ends }
    ensures { result ≡ is_same_ends (env_in protocols.now a.now).ends (env_in protocols.now b.now).ends }
{
    is_same_at(protocols, a, b, named)
}

// Whether both have the same at these names.
fn is_same_at(protocols: &Protocols, a: &Env, b: &Env, named: &BTreeSet<u16>) -> bool
    ensures { let first = (env_in protocols.now a.now).ends in
        result ≡ is_same_at named.now.keys first (env_in protocols.now b.now).ends }
{
    for name in named {
        if !is_same_option(&protocols.table, a.spot(*name), b.spot(*name)) {
            return false;
        }
    }
    true
}

fn is_same_option(table: &Table, one: Option<Spot>, other: Option<Spot>) -> bool
    ensures { let first = option_map (place_in table.now) one in
        result ≡ is_same_option first (option_map (place_in table.now) other) }
{
    match (one, other) {
        (Some(spot), Some(same)) => is_same_spot(table, spot, same),
        (None, None) => true,
        _ => false,
    }
}

#[cycle(named)]
fn add_block(all: &mut Vec<u16>, stmts: &[Stmt]) -> Result<(), NoMemory>
    ensures { OnOk result (all.new.items ≡ all.old.items ++ ends_named (code_of stmts.now)) }
{
    for stmt in stmts {
        add_deed(all, &stmt.deed)?;
    }
    Ok(())
}

#[cycle(named)]
fn add_deed(all: &mut Vec<u16>, deed: &Deed) -> Result<(), NoMemory>
    ensures { OnOk result (all.new.items ≡ all.old.items ++ deed_ends (deed_of deed.now)) }
{
    match deed {
        Deed::Send { end, value: _ } => add(all, *end),
        Deed::Delegate { end, sent } => add_two(all, *end, *sent),
        Deed::Take {
            end,
            into: _,
            kind: _,
        } => add(all, *end),
        Deed::TakeEnd {
            end,
            into,
            protocol: _,
        } => add_two(all, *end, *into),
        Deed::Select { end, label: _ } => add(all, *end),
        Deed::Branch { end, arms } => {
            add(all, *end)?;
            add_arms(all, arms)
        }
        Deed::OutWhile {
            end,
            count: _,
            body,
        } => {
            add(all, *end)?;
            add_block(all, body)
        }
        Deed::InWhile { end, body } => {
            add(all, *end)?;
            add_block(all, body)
        }
        Deed::Relay { from, to, body } => {
            add_two(all, *from, *to)?;
            add_block(all, body)
        }
        Deed::If { test: _, yes, no } => {
            add_block(all, yes)?;
            add_block(all, no)
        }
        Deed::Let { name: _, value: _ } => Ok(()),
        Deed::Close { end } => add(all, *end),
        Deed::Request {
            end,
            protocol: _,
            party: _,
        } => add(all, *end),
        Deed::Accept {
            end,
            protocol: _,
            party: _,
        } => add(all, *end),
    }
}

#[cycle(named)]
fn add_arms(all: &mut Vec<u16>, arms: &[StmtArm]) -> Result<(), NoMemory>
    ensures { let bs = branches_of (map arm_of arms.now) in
        OnOk result (all.new.items ≡ all.old.items ++ branch_ends bs) }
{
    for arm in arms {
        add_block(all, &arm.body)?;
    }
    Ok(())
}

fn add(all: &mut Vec<u16>, end: u16) -> Result<(), NoMemory>
    ensures { OnOk result (all.new.items ≡ all.old.items ++ end ∷ []) }
{
    all.push(end)?;
    Ok(())
}

fn add_two(all: &mut Vec<u16>, first: u16, second: u16) -> Result<(), NoMemory>
    ensures { OnOk result (all.new.items ≡ all.old.items ++ first ∷ second ∷ []) }
{
    all.push(first)?;
    all.push(second)?;
    Ok(())
}
