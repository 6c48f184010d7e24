//! What stands before and after the arms of `inbranch` and `if`.
#![tactic(auto, using(crate::proofs::SeenLemmas::steps))]

ghost use Rattle.std.specs.Prelude.{◌≡◌, ◌&&◌, ◌∷◌, [], map, IfOk, IfErr};
ghost use Rattle.sj_lang.specs.CodeView.{term_of, arm_of, branches_of};
ghost use Rattle.sj_acceptance.specs.Arms.{common};
ghost use Rattle.sj_acceptance.specs.Rules.{arms_differ};
ghost use Rattle.sj_acceptance.specs.Sameness.{is_same_ends};
ghost use Rattle.sj_acceptance.specs.Tests.{condition_tests, branching_tests};
ghost use Rattle.std.specs.Ordering.{nat_cmp};
ghost use Rattle.std.specs.BTreeSet.{contains};
ghost use Rattle.sj_check.specs.Named.{SameBeyond};
ghost use Rattle.sj_check.specs.Seen.{env_in};
ghost use Rattle.sj_check.specs.Told.{Judges, Walks, IsFault};

use crate::CheckRefusal;
use crate::env::Env;
use crate::kinds::{expr_kind, same_kind};
use crate::name_lists::has_same_ends_at;
use crate::places::is_choice;
use crate::rules::{CheckRule, broken};
use crate::tables::Protocols;
use sj_lang::{Expr, Scalar, StmtArm, Way};
use std::collections::BTreeSet;

/// What `inbranch` asks before its arms.
pub fn branching(
    protocols: &Protocols,
    env: &Env,
    line: u32,
    end: u16,
    arms: &[StmtArm],
) -> Result<(), CheckRefusal>
    ensures { let bs = branches_of (map arm_of arms.now) in
        Judges (branching_tests line (env_in protocols.now env.now) end bs) result }
{
    let Some(spot) = env.spot(end) else {
        return Err(broken(CheckRule::NotThere, line));
    };
    if !is_choice(Way::Into, &protocols.table, spot) {
        return Err(broken(CheckRule::OtherAction, line));
    }
    if !env.has_arms(&protocols.table, spot, arms)? {
        return Err(broken(CheckRule::OtherArms, line));
    }
    Ok(())
}

/// Whether both hold.
pub fn both(first: bool, second: bool) -> bool
    ensures { result ≡ (first && second) }
{
    first && second
}

/// Tests the condition, and answers the environment for the second arm.
pub fn tested(env: &Env, line: u32, test: &Expr) -> Result<Env, CheckRefusal>
    ensures ok { IfOk result (λ e. e ≡ env.now) }
    ensures tests { (p : Protocols) → Judges (condition_tests line (env_in p env.now) (term_of test.now)) result }
{
    let kind = expr_kind(env.variables(), line, test)?;
    if !same_kind(kind, Scalar::Boolean) {
        return Err(broken(CheckRule::OtherKind, line));
    }
    Ok(env.copied()?)
}

/// What two arms leave together, which may differ at these ends alone.
pub fn join(
    protocols: &Protocols,
    env: &mut Env,
    line: u32,
    other: &Env,
    named: &BTreeSet<u16>,
) -> Result<(), CheckRefusal>
    requires { let first = (env_in protocols.now env.old).ends in
        SameBeyond (contains nat_cmp named.now) first (env_in protocols.now other.now).ends }
    ensures join { let first = env_in protocols.now env.old in
        let second = env_in protocols.now other.now in
        let tests = (arms_differ, line, is_same_ends first.ends second.ends) ∷ [] in
        let after = record first { variables = common first.variables second.variables } in
        Walks tests after (env_in protocols.now env.new) result }
    ensures cause { IfErr result IsFault }
{
    if !has_same_ends_at(protocols, env, other, named) {
        return Err(broken(CheckRule::ArmsDiffer, line));
    }
    env.keep_common(other);
    Ok(())
}
