//! New lanes in memory for all parties.
ghost use Rattle.std.specs.Prelude.{IfOk};
ghost use Rattle.sj_lane.specs.MemRows.{AreNewOuts, AreNewIns, AreNewRows};

use crate::lane::Lanes;
use crate::mem::{MemIn, MemOut};
use std::alloc::{AllocError, Global};
use std::collections::VecDeque;

/// Lanes to so many parties, on which nothing was pushed.
fn outs_of(alloc: Global, parties: u16) -> Result<Vec<MemOut>, AllocError>
    ensures { IfOk result (λ v. AreNewOuts parties v.items) }
{
    let mut outs = Vec::new(alloc);
    for _ in 0..parties {
        outs.push(MemOut {
            pushed: Vec::new(alloc),
            waiting: VecDeque::new(alloc),
            vain: 0,
        })?;
    }
    Ok(outs)
}

/// Lanes from so many parties, from which nothing was popped.
fn ins_of(alloc: Global, parties: u16) -> Result<Vec<MemIn>, AllocError>
    ensures { IfOk result (λ v. AreNewIns parties v.items) }
{
    let mut ins = Vec::new(alloc);
    for _ in 0..parties {
        ins.push(MemIn {
            popped: Vec::new(alloc),
            waiting: VecDeque::new(alloc),
            vain: 0,
        })?;
    }
    Ok(ins)
}

/// The lanes of so many parties.
pub(crate) fn lanes_of(alloc: Global, parties: u16) -> Result<Vec<Lanes<MemOut, MemIn>>, AllocError>
    ensures { IfOk result (λ v. AreNewRows parties parties v.items) }
{
    let mut lanes = Vec::new(alloc);
    for _ in 0..parties {
        let outs = outs_of(alloc, parties)?;
        let ins = ins_of(alloc, parties)?;
        lanes.push(Lanes { outs, ins })?;
    }
    Ok(lanes)
}
