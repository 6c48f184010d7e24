//! Ends that move on, and environments before arms and turns.
#![tactic(auto, using(crate::proofs::SeenLemmas::seen))]

ghost use Rattle.std.specs.Prelude.{◌≡◌, IfOk, OnOk};
ghost use Rattle.sj_acceptance.specs.EnvAt.{with_live, place_at};
ghost use Rattle.sj_acceptance.specs.FirstItem.{turn_of, rest_of, arm_place};
ghost use Rattle.sj_check.specs.Seen.{env_in};
ghost use Rattle.sj_table.specs.Spots.{place_in};

use crate::env::Env;
use crate::places::{arm_place, rest, turn};
use crate::tables::Protocols;
use sj_base::NoMemory;
use sj_table::Spot;

// The spot of the end, and that of the empty place where it isn't live.
fn spot_at(protocols: &Protocols, env: &Env, end: u16) -> Spot
    ensures { place_in protocols.now.table result ≡ place_at (env_in protocols.now env.now) end }
{
    match env.spot(end) {
        Some(spot) => spot,
        None => protocols.table.done(),
    }
}

/// Puts the beginning of a turn at the end's loop into `inner`.
pub fn enter(protocols: &Protocols, env: &Env, inner: &mut Env, end: u16) -> Result<(), NoMemory>
    ensures { let begun = turn_of (place_at (env_in protocols.now env.now) end) in
        OnOk result (env_in protocols.now inner.new ≡ with_live (env_in protocols.now inner.old) end begun) }
{
    let begun = turn(&protocols.table, spot_at(protocols, env, end));
    inner.put_spot(end, begun)
}

/// A copy in which the end stands at the arm of that label.
pub fn at_arm(protocols: &Protocols, env: &Env, end: u16, label: u16) -> Result<Env, NoMemory>
    ensures { let arm = arm_place label (place_at (env_in protocols.now env.now) end) in
        IfOk result (λ e. env_in protocols.now e ≡ with_live (env_in protocols.now env.now) end arm) }
{
    let mut inner = env.copied()?;
    let arm = arm_place(&protocols.table, spot_at(protocols, env, end), label);
    inner.put_spot(end, arm)?;
    Ok(inner)
}

/// Moves the end's place past its first item.
pub fn pass(protocols: &Protocols, env: &mut Env, end: u16) -> Result<(), NoMemory>
    ensures { let follows = rest_of (place_at (env_in protocols.now env.old) end) in
        OnOk result (env_in protocols.now env.new ≡ with_live (env_in protocols.now env.old) end follows) }
{
    let follows = rest(&protocols.table, spot_at(protocols, env, end));
    env.put_spot(end, follows)
}

/// The same at both ends, each from where it was.
pub fn pass_both(
    protocols: &Protocols,
    env: &mut Env,
    first: u16,
    second: u16,
) -> Result<(), NoMemory>
    ensures { let old = env_in protocols.now env.old in
        let passed = with_live old first (rest_of (place_at old first)) in
        let both = with_live passed second (rest_of (place_at old second)) in
        OnOk result (env_in protocols.now env.new ≡ both) }
{
    let behind_first = rest(&protocols.table, spot_at(protocols, env, first));
    let behind_second = rest(&protocols.table, spot_at(protocols, env, second));
    env.put_spot(first, behind_first)?;
    env.put_spot(second, behind_second)
}
