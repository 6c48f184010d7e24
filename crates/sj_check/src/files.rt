//! The walk through a file: protocols, parties, connections, bodies.
#![tactic(auto, using(crate::proofs::SeenLemmas::steps))]

ghost use Rattle.std.specs.Prelude.{◌≡◌, ℕ, [], IfErr};
ghost use Rattle.sj_lang.specs.FileAt.{body_named};
ghost use Rattle.sj_lang.specs.FileView.{file_of, party_of};
ghost use Rattle.sj_lang.specs.Limits.{IsWithin, limits};
ghost use Rattle.sj_acceptance.specs.LabelTests.{is_among};
ghost use Rattle.sj_acceptance.specs.FileTests as tests;
ghost use Rattle.sj_acceptance.specs.FileTests.{protocol_names, party_names};
ghost use Rattle.sj_table.specs.Spots.{start_in};
ghost use Rattle.sj_check.specs.Views.{protocols_of, parties_of, connects_of};
ghost use Rattle.sj_check.specs.Seen.{defs_in, names_in};
ghost use Rattle.sj_check.specs.Told.{Judges, IsFault};

use crate::CheckRefusal;
use crate::ends::{at_start, connections};
use crate::openings::openings_meet;
use crate::rules::{CheckRule, broken};
use crate::tables::Protocols;
use crate::uniqueness::names_once;
use crate::walk::block;
use sj_lang::{Connect, File, Party, ProtocolDef};
use sj_table::Table;
use std::alloc::Global;

/// The whole file, with the table of its protocols.
pub fn walked(alloc: Global, file: &File, table: Table) -> Result<(), CheckRefusal>
    requires within { IsWithin limits (file_of file.now) }
    requires starts { (p : ℕ) → start_in table p ≡ body_named (file_of file.now).protocols p }
    ensures { Judges (tests.tests_of (file_of file.now)) result }
{
    protocols_apart(&file.protocols)?;
    parties_apart(&file.parties)?;
    connections(&file.parties, &file.protocols, &file.connects)?;
    let protocols = Protocols::over(&file.protocols, &file.parties, table);
    bodies(alloc, &protocols, &file.connects, &file.parties)?;
    openings_meet(alloc, &file.protocols, &file.parties)
}

fn protocols_apart(protocols: &[ProtocolDef]) -> Result<(), CheckRefusal>
    ensures tests { Judges (tests.protocol_tests [] (protocols_of protocols.now)) result }
    ensures cause { IfErr result IsFault }
{
    for i in 0..protocols.len() {
        let protocol = &protocols[i];
        if is_protocol(&protocols[..i], protocol.name) || !names_once(&protocol.body) {
            return Err(broken(CheckRule::NameInUse, protocol.line));
        }
    }
    Ok(())
}

fn is_protocol(protocols: &[ProtocolDef], name: u16) -> bool
    ensures { result ≡ is_among name (protocol_names (protocols_of protocols.now)) }
{
    for protocol in protocols {
        if protocol.name == name {
            return true;
        }
    }
    false
}

fn parties_apart(parties: &[Party]) -> Result<(), CheckRefusal>
    ensures tests { Judges (tests.party_tests [] (parties_of parties.now)) result }
    ensures cause { IfErr result IsFault }
{
    for i in 0..parties.len() {
        let party = &parties[i];
        if is_party(&parties[..i], party.name) {
            return Err(broken(CheckRule::NameInUse, party.line));
        }
    }
    Ok(())
}

pub fn is_party(parties: &[Party], name: u16) -> bool
    ensures { result ≡ is_among name (party_names (parties_of parties.now)) }
{
    for party in parties {
        if party.name == name {
            return true;
        }
    }
    false
}

fn bodies(
    alloc: Global,
    protocols: &Protocols,
    connects: &[Connect],
    parties: &[Party],
) -> Result<(), CheckRefusal>
    ensures { let cs = connects_of connects.now in
        Judges (tests.body_tests (defs_in protocols.now) (names_in protocols.now) cs (parties_of parties.now)) result }
{
    for party in parties {
        body(alloc, protocols, connects, party)?;
    }
    Ok(())
}

fn body(
    alloc: Global,
    protocols: &Protocols,
    connects: &[Connect],
    party: &Party,
) -> Result<(), CheckRefusal>
    ensures { let cs = connects_of connects.now in
        Judges (tests.one_body_tests (defs_in protocols.now) (names_in protocols.now) cs (party_of party.now)) result }
{
    let mut env = at_start(alloc, protocols, connects, party.name)?;
    block(protocols, &mut env, &party.body)?;
    if !env.has_no_ends() {
        return Err(broken(CheckRule::LeftOpen, party.line));
    }
    Ok(())
}
