//! The protocols of a file, with the table of their places, and its parties.
ghost use Rattle.std.specs.Prelude.{◌≡◌, ℕ, option_map};
ghost use Rattle.std.specs.Coded.{Coded-set};
ghost use Rattle.sj_lang.specs.FileAt.{body_named, protocol_named};
ghost use Rattle.sj_lang.specs.PlaceCode.{coded_place};
ghost use Rattle.sj_table.specs.Spots.{place_in, start_in};
ghost use Rattle.sj_check.specs.Views.{protocols_of};

use crate::places::body_named;
use sj_lang::{Party, ProtocolDef};
use sj_table::{Spot, Table};

/// The protocols, the table in which each starts at its body, and the parties.
#[derive(Drop)]
pub struct Protocols<'a> {
    pub defs: &'a [ProtocolDef],
    pub parties: &'a [Party],
    pub table: Table,
    ghost starts: { (p : ℕ) → start_in table p ≡ body_named (protocols_of defs.now) p } by { Prim.hlevel (Coded-set, coded_place) },
}

impl<'a> Protocols<'a> {
    ghost use Rattle.sj_check.specs.Seen.{defs_in};

    /// These protocols and parties, with the table of the protocols.
    pub fn over(defs: &'a [ProtocolDef], parties: &'a [Party], table: Table) -> Protocols<'a>
        requires { (p : ℕ) → start_in table p ≡ body_named (protocols_of defs.now) p }
        ensures defs { defs_in result ≡ protocols_of defs.now }
        ensures parties { result.parties.now ≡ parties.now }
    {
        Protocols {
            defs,
            parties,
            table,
        }
    }

    /// The spot at which an end of the protocol of that name begins; none where there is no such
    /// protocol.
    pub fn start(&self, name: u16) -> Option<Spot>
        ensures { option_map (place_in self.now.table) result ≡ protocol_named (defs_in self.now) name }
    {
        let _ = body_named(self.defs, name)?;
        Some(self.table.start(name))
    }
}
