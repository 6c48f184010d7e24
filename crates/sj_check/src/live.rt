//! The live ends of a party.
ghost use Rattle.std.specs.Prelude.{◌≡◌, ◌≢◌, ◌↔◌, ℕ, ◌≤◌, IsTrue, None, length, slice_index_or};
ghost use Rattle.std.specs.Prelude.{IfOk, OnOk};
ghost use Rattle.std.specs.FinMap as map;
ghost use Rattle.sj_check.specs.Table.{is_blank};

use crate::flat::{at_or, grow};
use sj_base::NoMemory;
use sj_table::Spot;
use std::alloc::Global;
use std::marker::Model;

/// The spot of each live end, in a table by the number of its name, so that a copy is one of a flat
/// list.
#[derive(Drop)]
pub struct LiveEnds {
    table: Vec<Option<Spot>>,
}

impl Model for LiveEnds {
    ghost use Rattle.std.specs.Ordering.{nat_cmp};
    ghost use Rattle.std.specs.FinMap.{FinMap};
    ghost use Rattle.sj_table.specs.declared.table.Spot.{Spot};
    ghost use Rattle.sj_check.specs.Maps.{coded_spots};

    ghost Value = { FinMap nat_cmp Spot };

    ghost coded = { coded_spots };

    ghost use Rattle.sj_check.specs.Table.{spots_in};

    ghost view = { λ v. spots_in v.table.items };
}

impl LiveEnds {
    /// None is live.
    pub fn new(alloc: Global) -> LiveEnds
        ensures { result ≡ map.empty }
    {
        LiveEnds {
            table: Vec::new(alloc),
        }
    }

    /// The spot of a live end.
    pub fn spot(&self, end: u16) -> Option<Spot>
        ensures { result ≡ map.get self.now end }
    {
        at_or(&self.table, end as usize, None)
    }

    /// The end moves on to this spot, or begins there.
    pub fn put(&mut self, end: u16, spot: Spot) -> Result<(), NoMemory>
        ensures { OnOk result (self.new ≡ map.insert self.old end spot) }
    {
        let n = end as usize;
        grow(&mut self.table, n + 1, None)?;
        self.table[n] = Some(spot);
        Ok(())
    }

    /// The end is live no more.
    pub fn remove(&mut self, end: u16)
        ensures { self.new ≡ map.remove self.old end }
    {
        clear(&mut self.table, end as usize);
    }

    /// The same ends.
    pub fn copied(&self, alloc: Global) -> Result<LiveEnds, NoMemory>
        ensures { IfOk result (λ v. v ≡ self.now) }
    {
        let table = Vec::from_slice(alloc, &self.table)?;
        Ok(LiveEnds { table })
    }

    /// Whether none is live.
    pub fn is_empty(&self) -> bool
        ensures { IsTrue result ↔ (self.now ≡ map.empty) }
    {
        is_blank(&self.table)
    }
}

fn clear(table: &mut Vec<Option<Spot>>, n: usize)
    ensures there { slice_index_or table.new.items n None ≡ None }
    ensures kept { (q : ℕ) → q ≢ n → slice_index_or table.new.items q None ≡ slice_index_or table.old.items q None }
{
    if n < table.len() {
        table[n] = None;
    }
}

fn is_blank(table: &[Option<Spot>]) -> bool
    ensures { result ≡ is_blank table.now }
{
    for spot in table {
        if spot.is_some() {
            return false;
        }
    }
    true
}
