//! What a party sends to itself.
ghost use Rattle.std.specs.Prelude.{◌≡◌, IfErr, OnOk, slice_get};
ghost use Rattle.sj_engine.specs.Home.{CarriesHome, IsCarried, IsOutside};

use crate::{ByteIn, ByteOut, SpellRefusal};
use sj_lane::Lanes;
use std::alloc::Global;

/// Carries what a party sent to itself to the lane from which it takes it. Answers whether there was
/// something. A refusal carries nothing.
pub fn carry_home(
    alloc: Global,
    lanes: &mut Lanes<ByteOut, ByteIn>,
    party: u16,
) -> Result<bool, SpellRefusal>
    ensures carried { CarriesHome party lanes.old lanes.new }
    ensures ok { OnOk result
        (IsCarried (slice_get lanes.new.outs.items party) (slice_get lanes.new.ins.items party)) }
    ensures unlawful { IfErr result (λ e. e ≡ SpellRefusal.Unlawful
        → IsOutside (slice_get lanes.new.outs.items party)) }
{
    let at = usize::from(party);
    if at >= lanes.outs.len() || at >= lanes.ins.len() || lanes.outs[at].is_empty() {
        return Ok(false);
    }
    let mut text = Vec::new(alloc);
    if let Err(e) = lanes.outs[at].spell(&mut text) {
        return Err(e);
    }
    if lanes.ins[at].feed(&text).is_err() {
        return Err(SpellRefusal::NoMemory);
    }
    lanes.outs[at].clear();
    Ok(true)
}
