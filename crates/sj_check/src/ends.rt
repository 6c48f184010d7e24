//! Connections, and the ends that they give a party.
#![tactic(auto, using(crate::proofs::SeenLemmas::steps))]

ghost use Rattle.std.specs.Prelude.{◌≡◌, [], unwrap_or};
ghost use Rattle.std.specs.Prelude.{IfOk, OnOk, IfErr};
ghost use Rattle.sj_lang.specs.Place.{done};
ghost use Rattle.sj_lang.specs.FileAt.{protocol_named};
ghost use Rattle.sj_lang.specs.FileView.{connect_of, decl_of};
ghost use Rattle.sj_acceptance.specs.FileTests as tests;
ghost use Rattle.sj_acceptance.specs.FileTests.{party_names};
ghost use Rattle.sj_check.specs.Views.{protocols_of, parties_of, connects_of};
ghost use Rattle.sj_check.specs.Seen.{defs_in, env_in};
ghost use Rattle.sj_check.specs.Told.{Judges, IsFault};

use crate::CheckRefusal;
use crate::env::Env;
use crate::files::is_party;
use crate::places::{body_named, do_meet};
use crate::rules::{CheckRule, broken};
use crate::tables::Protocols;
use sj_base::NoMemory;
use sj_lang::{Connect, EndDecl, Party, Proto, ProtocolDef};
use std::alloc::Global;

/// The connections, in order.
pub fn connections(
    parties: &[Party],
    protocols: &[ProtocolDef],
    connects: &[Connect],
) -> Result<(), CheckRefusal>
    ensures { let names = party_names (parties_of parties.now) in
        Judges (tests.connect_tests names (protocols_of protocols.now) [] (connects_of connects.now)) result }
{
    for i in 0..connects.len() {
        connection(parties, protocols, &connects[..i], &connects[i])?;
    }
    Ok(())
}

fn connection(
    parties: &[Party],
    protocols: &[ProtocolDef],
    earlier: &[Connect],
    connect: &Connect,
) -> Result<(), CheckRefusal>
    ensures { let names = party_names (parties_of parties.now) in
        let former = connects_of earlier.now in
        Judges (tests.connection_tests names (protocols_of protocols.now) former (connect_of connect.now)) result }
{
    let line = connect.line;
    let first = connected(
        parties,
        protocols,
        line,
        is_taken(earlier, &connect.first),
        &connect.first,
    )?;
    let taken = is_taken(earlier, &connect.second) || is_same_end(&connect.first, &connect.second);
    let second = connected(parties, protocols, line, taken, &connect.second)?;
    if !do_meet(first, second) {
        return Err(broken(CheckRule::DoNotMeet, line));
    }
    Ok(())
}

// The body of the end's protocol.
fn connected<'a>(
    parties: &[Party],
    protocols: &'a [ProtocolDef],
    line: u32,
    taken: bool,
    end: &EndDecl,
) -> Result<&'a Proto, CheckRefusal>
    ensures body { let ps = protocols_of protocols.now in
        IfOk result (λ p. p.now ≡ unwrap_or (protocol_named ps end.now.protocol) done) }
    ensures tests { let names = party_names (parties_of parties.now) in
        Judges (tests.end_tests names (protocols_of protocols.now) line taken (decl_of end.now)) result }
    ensures cause { IfErr result IsFault }
{
    if !is_party(parties, end.party) {
        return Err(broken(CheckRule::NoParty, line));
    }
    let Some(body) = body_named(protocols, end.protocol) else {
        return Err(broken(CheckRule::NoProtocol, line));
    };
    if taken {
        return Err(broken(CheckRule::NameInUse, line));
    }
    Ok(body)
}

/// Whether both name one end of one party.
pub fn is_same_end(first: &EndDecl, second: &EndDecl) -> bool
    ensures { result ≡ tests.is_same_end (decl_of first.now) (decl_of second.now) }
{
    first.party == second.party && first.name == second.name
}

fn is_taken(earlier: &[Connect], end: &EndDecl) -> bool
    ensures { result ≡ tests.is_taken (decl_of end.now) (connects_of earlier.now) }
{
    for connect in earlier {
        if is_same_end(&connect.first, end) || is_same_end(&connect.second, end) {
            return true;
        }
    }
    false
}

/// The ends that the party holds at the start. The last connections come first, so that of two ends
/// with one name the former stays.
pub fn at_start(
    alloc: Global,
    protocols: &Protocols,
    connects: &[Connect],
    party: u16,
) -> Result<Env, NoMemory>
    ensures { let start = tests.at_start (defs_in protocols.now) (connects_of connects.now) party in
        IfOk result (λ e. env_in protocols.now e ≡ start) }
{
    let mut env = Env::new(alloc);
    for i in (0..connects.len()).rev() {
        let connect = &connects[i];
        bind(protocols, &mut env, party, &connect.second)?;
        bind(protocols, &mut env, party, &connect.first)?;
    }
    Ok(env)
}

fn bind(protocols: &Protocols, env: &mut Env, party: u16, end: &EndDecl) -> Result<(), NoMemory>
    ensures { let old = env_in protocols.now env.old in
        let ends = tests.with_end_of (defs_in protocols.now) party (decl_of end.now) old.ends in
        OnOk result (env_in protocols.now env.new ≡ record old { ends = ends }) }
{
    if end.party != party {
        return Ok(());
    }
    env.put_spot(end.name, protocols.table.start(end.protocol))
}
