//! The kinds of a party's variables.
ghost use Rattle.std.specs.Prelude.{◌≡◌, ℕ, ◌≤◌, Some, None, length, slice_index, if◌then◌else◌};
ghost use Rattle.std.specs.Prelude.{IfOk, OnOk};
ghost use Rattle.std.specs.FinMap as map;
ghost use Rattle.sj_acceptance.specs.Arms.{agree, common};
ghost use Rattle.sj_check.specs.Table.{kind_of_byte};

use crate::flat::{at_or, grow};
use sj_base::NoMemory;
use sj_lang::Scalar;
use std::alloc::Global;
use std::marker::Model;

/// The kind of each variable, a byte in a table by the number of its name. So a copy is one of a
/// flat list, and many bytes are compared at once.
#[derive(Drop)]
pub struct Variables {
    table: Vec<u8>,
}

impl Model for Variables {
    ghost use Rattle.std.specs.Ordering.{nat_cmp};
    ghost use Rattle.std.specs.FinMap.{FinMap};
    ghost use Rattle.sj_lang.specs.declared.party.Scalar.{Scalar};
    ghost use Rattle.sj_check.specs.Maps.{coded_kinds};

    ghost Value = { FinMap nat_cmp Scalar };

    ghost coded = { coded_kinds };

    ghost use Rattle.sj_check.specs.Table.{kinds_in};

    ghost view = { λ v. kinds_in v.table.items };
}

impl Variables {
    /// None is known.
    pub fn new(alloc: Global) -> Variables
        ensures { result ≡ map.empty }
    {
        Variables {
            table: Vec::new(alloc),
        }
    }

    /// The kind of a variable.
    pub fn kind(&self, name: u16) -> Option<Scalar>
        ensures { result ≡ map.get self.now name }
    {
        kind_of(at_or(&self.table, name as usize, UNKNOWN))
    }

    /// The variable is known at this kind from now on.
    pub fn put(&mut self, name: u16, kind: Scalar) -> Result<(), NoMemory>
        ensures { OnOk result (self.new ≡ map.insert self.old name kind) }
    {
        let n = name as usize;
        grow(&mut self.table, n + 1, UNKNOWN)?;
        self.table[n] = byte_of(kind);
        Ok(())
    }

    /// The same kinds.
    pub fn copied(&self, alloc: Global) -> Result<Variables, NoMemory>
        ensures { IfOk result (λ v. v ≡ self.now) }
    {
        let table = Vec::from_slice(alloc, &self.table)?;
        Ok(Variables { table })
    }

    /// Keeps the variables that the other knows at the same kind.
    pub fn keep_common(&mut self, other: &Variables)
        ensures { self.new ≡ common self.old other.now }
    {
        self.table.truncate(other.table.len());
        keep(&mut self.table, &other.table);
    }
}

/// The byte of a variable that isn't known.
const UNKNOWN: u8 = 0;

fn byte_of(kind: Scalar) -> u8
    ensures { kind_of_byte result ≡ Some kind }
{
    match kind {
        Scalar::Int => 1,
        Scalar::Boolean => 2,
        Scalar::Text => 3,
    }
}

fn kind_of(byte: u8) -> Option<Scalar>
    ensures { result ≡ kind_of_byte byte }
{
    match byte {
        1 => Some(Scalar::Int),
        2 => Some(Scalar::Boolean),
        3 => Some(Scalar::Text),
        _ => None,
    }
}

// Keeps the kinds that the other table has, too.
fn keep(table: &mut [u8], other: &[u8])
    requires { length table.old ≤ length other.now }
    ensures len { length table.new ≡ length table.old }
    ensures each { (q : ℕ)
        → let old = kind_of_byte (slice_index table.old q) in
        kind_of_byte (slice_index table.new q)
        ≡ (if agree old (kind_of_byte (slice_index other.now q)) then old else None) }
{
    for n in 0..table.len() {
        table[n] = same_byte(table[n], other[n]);
    }
}

fn same_byte(one: u8, other: u8) -> u8
    ensures { let kind = kind_of_byte one in
        kind_of_byte result ≡ (if agree kind (kind_of_byte other) then kind else None) }
{
    if one == other { one } else { UNKNOWN }
}
