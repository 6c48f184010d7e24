//! Copies of a file's parts.
ghost use Rattle.std.specs.Prelude.{◌≡◌, IfOk, map};
ghost use Rattle.sj_lang.specs.FileView.{party_of, protocol_of};

use sj_base::NoMemory;
use sj_lang::{Party, ProtocolDef, copied, copied_block};
use std::alloc::Global;

/// Equal protocols.
pub(crate) fn copied_protocols(
    alloc: Global,
    protocols: &[ProtocolDef],
) -> Result<Vec<ProtocolDef>, NoMemory>
    ensures { IfOk result (λ out. map protocol_of out.items ≡ map protocol_of protocols.now) }
{
    let mut out = Vec::new(alloc);
    for protocol in protocols {
        let body = copied(alloc, &protocol.body)?;
        let line = protocol.line;
        let name = protocol.name;
        out.push(ProtocolDef { line, name, body })?;
    }
    Ok(out)
}

/// Equal parties.
pub(crate) fn copied_parties(alloc: Global, parties: &[Party]) -> Result<Vec<Party>, NoMemory>
    ensures { IfOk result (λ out. map party_of out.items ≡ map party_of parties.now) }
{
    let mut out = Vec::new(alloc);
    for party in parties {
        let body = copied_block(alloc, &party.body)?;
        let line = party.line;
        let name = party.name;
        out.push(Party { line, name, body })?;
    }
    Ok(out)
}
