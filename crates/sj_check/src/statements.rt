//! The statements without a block.
#![tactic(auto, using(crate::proofs::SeenLemmas::steps))]

ghost use Rattle.std.specs.Prelude.{[], IfErr};
ghost use Rattle.sj_lang.specs.CodeView.{term_of};
ghost use Rattle.sj_lang.specs.Code as code;
ghost use Rattle.sj_lang.specs.FileAt.{body_named};
ghost use Rattle.sj_acceptance.specs.EnvAt.{with_live};
ghost use Rattle.sj_acceptance.specs.Tests.{opening_tests};
ghost use Rattle.sj_check.specs.Seen.{defs_in, names_in, env_in};
ghost use Rattle.sj_check.specs.Told.{Does, Walks, IsFault};

use crate::CheckRefusal;
use crate::env::Env;
use crate::files::is_party;
use crate::kinds::{carries_as, expr_kind, is_free_for};
use crate::places::{
    is_choice, is_session, is_session_of, selected, sending, stands_for_carried, taking,
};
use crate::rules::{CheckRule, broken};
use crate::tables::Protocols;
use sj_lang::{Expr, Scalar, Way};

pub fn send(
    protocols: &Protocols,
    env: &mut Env,
    line: u32,
    end: u16,
    value: &Expr,
) -> Result<(), CheckRefusal>
    ensures { let deed = code.send end (term_of value.now) in
        Does [] [] line deed (env_in protocols.now env.old) (env_in protocols.now env.new) result }
{
    let Some(spot) = env.spot(end) else {
        return Err(broken(CheckRule::NotThere, line));
    };
    let Some((wanted, rest)) = sending(&protocols.table, spot) else {
        return Err(broken(CheckRule::OtherAction, line));
    };
    let kind = expr_kind(env.variables(), line, value)?;
    if !carries_as(kind, wanted) {
        return Err(broken(CheckRule::OtherKind, line));
    }
    env.put_spot(end, rest)?;
    Ok(())
}

pub fn close(protocols: &Protocols, env: &mut Env, line: u32, end: u16) -> Result<(), CheckRefusal>
    ensures does { Does [] [] line (code.close end) (env_in protocols.now env.old) (env_in protocols.now env.new) result }
    ensures cause { IfErr result IsFault }
{
    let Some(spot) = env.spot(end) else {
        return Err(broken(CheckRule::NotThere, line));
    };
    if !protocols.table.is_done(spot) {
        return Err(broken(CheckRule::ClosedEarly, line));
    }
    env.remove(end);
    Ok(())
}

pub fn delegate(
    protocols: &Protocols,
    env: &mut Env,
    line: u32,
    end: u16,
    sent: u16,
) -> Result<(), CheckRefusal>
    ensures { let deed = code.delegate end sent in
        Does [] [] line deed (env_in protocols.now env.old) (env_in protocols.now env.new) result }
{
    let Some(spot) = env.spot(end) else {
        return Err(broken(CheckRule::NotThere, line));
    };
    let Some(given) = env.spot(sent) else {
        return Err(broken(CheckRule::NotThere, line));
    };
    if end == sent {
        return Err(broken(CheckRule::NotToDelegate, line));
    }
    let Some((wanted, follows)) = sending(&protocols.table, spot) else {
        return Err(broken(CheckRule::OtherAction, line));
    };
    if !is_session(wanted) {
        return Err(broken(CheckRule::OtherKind, line));
    }
    if protocols.table.is_done(given) {
        return Err(broken(CheckRule::NotToDelegate, line));
    }
    if !stands_for_carried(&protocols.table, given, wanted) {
        return Err(broken(CheckRule::OtherKind, line));
    }
    env.remove(sent);
    env.put_spot(end, follows)?;
    Ok(())
}

pub fn take_value(
    protocols: &Protocols,
    env: &mut Env,
    line: u32,
    end: u16,
    into: u16,
    kind: Scalar,
) -> Result<(), CheckRefusal>
    ensures { let deed = code.take_value end into kind in
        Does [] [] line deed (env_in protocols.now env.old) (env_in protocols.now env.new) result }
{
    let Some(spot) = env.spot(end) else {
        return Err(broken(CheckRule::NotThere, line));
    };
    let Some((wanted, rest)) = taking(&protocols.table, spot) else {
        return Err(broken(CheckRule::OtherAction, line));
    };
    if !carries_as(kind, wanted) {
        return Err(broken(CheckRule::OtherKind, line));
    }
    if env.is_live(into) {
        return Err(broken(CheckRule::NameInUse, line));
    }
    if !is_free_for(env.kind(into), kind) {
        return Err(broken(CheckRule::OtherKind, line));
    }
    env.put_spot(end, rest)?;
    env.put_kind(into, kind)?;
    Ok(())
}

pub fn take_end(
    protocols: &Protocols,
    env: &mut Env,
    line: u32,
    end: u16,
    into: u16,
    protocol: u16,
) -> Result<(), CheckRefusal>
    ensures { let deed = code.take_end end into protocol in
        let old = env_in protocols.now env.old in
        Does (defs_in protocols.now) [] line deed old (env_in protocols.now env.new) result }
{
    let Some(spot) = env.spot(end) else {
        return Err(broken(CheckRule::NotThere, line));
    };
    let Some(start) = protocols.start(protocol) else {
        return Err(broken(CheckRule::NoProtocol, line));
    };
    let Some((wanted, rest)) = taking(&protocols.table, spot) else {
        return Err(broken(CheckRule::OtherAction, line));
    };
    if !is_session_of(&protocols.table, start, wanted) {
        return Err(broken(CheckRule::OtherKind, line));
    }
    if env.is_live(into) || env.is_known(into) {
        return Err(broken(CheckRule::NameInUse, line));
    }
    env.put_spot(end, rest)?;
    env.put_spot(into, start)?;
    Ok(())
}

pub fn select(
    protocols: &Protocols,
    env: &mut Env,
    line: u32,
    end: u16,
    label: u16,
) -> Result<(), CheckRefusal>
    ensures { let deed = code.outbranch end label in
        Does [] [] line deed (env_in protocols.now env.old) (env_in protocols.now env.new) result }
{
    let Some(spot) = env.spot(end) else {
        return Err(broken(CheckRule::NotThere, line));
    };
    if !is_choice(Way::Out, &protocols.table, spot) {
        return Err(broken(CheckRule::OtherAction, line));
    }
    let Some(arm) = selected(&protocols.table, spot, label) else {
        return Err(broken(CheckRule::NoLabel, line));
    };
    env.put_spot(end, arm)?;
    Ok(())
}

pub fn let_be(
    protocols: &Protocols,
    env: &mut Env,
    line: u32,
    name: u16,
    value: &Expr,
) -> Result<(), CheckRefusal>
    ensures { let deed = code.let_be name (term_of value.now) in
        Does [] [] line deed (env_in protocols.now env.old) (env_in protocols.now env.new) result }
{
    let kind = expr_kind(env.variables(), line, value)?;
    if env.is_live(name) {
        return Err(broken(CheckRule::NameInUse, line));
    }
    if !is_free_for(env.kind(name), kind) {
        return Err(broken(CheckRule::OtherKind, line));
    }
    env.put_kind(name, kind)?;
    Ok(())
}

/// `request` and `accept`.
pub fn open(
    protocols: &Protocols,
    env: &mut Env,
    line: u32,
    end: u16,
    protocol: u16,
    party: u16,
) -> Result<(), CheckRefusal>
    ensures { let ps = defs_in protocols.now in
        let old = env_in protocols.now env.old in
        let tests = opening_tests ps (names_in protocols.now) line old end protocol party in
        Walks tests (with_live old end (body_named ps protocol)) (env_in protocols.now env.new) result }
{
    let Some(start) = protocols.start(protocol) else {
        return Err(broken(CheckRule::NoProtocol, line));
    };
    if !is_party(protocols.parties, party) {
        return Err(broken(CheckRule::NoParty, line));
    }
    if env.is_live(end) || env.is_known(end) {
        return Err(broken(CheckRule::NameInUse, line));
    }
    env.put_spot(end, start)?;
    Ok(())
}
