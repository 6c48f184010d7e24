//! The links.
use crate::columns::{settle, take_rest};
use crate::ends::{RingIn, RingOut};
use crate::grids::build;
use crate::lane::{InLane, Lanes, OutLane};
use crate::links::{Links, MakeRefusal};
use sj_base::NoMemory;
use sj_end::Frame;
use std::alloc::Global;

/// Links of rings of 64 frames.
#[derive(Drop)]
pub struct RingLinks {
    kept: Option<Vec<Lanes<RingOut, RingIn>>>,
}

impl RingLinks {
    pub fn new() -> RingLinks {
        RingLinks { kept: None }
    }
}

impl Links for RingLinks {
    ghost use Rattle.std.specs.Prelude.{◌≡◌, ◌≤◌, ℕ, Err, None, Some, IfOk, IfSome, true, vec_len};
    ghost use Rattle.sj_lane.specs.Square.{AllJoined, HasFault, IsFresh, IsRest, IsSquare, KeepsLists};
    ghost use Rattle.sj_lane.specs.Square.{NoFault, NoneFell, SameLists, in_at, out_at};
    ghost use Rattle.sj_lane.specs.Told.{Rose};
    ghost use Rattle.std.proofs.Common.{rules};
    ghost use Rattle.sj_lane.specs.Rings.{Each2, HasNoRest, Joined, LanesKept, handed_after, handed_of};
    ghost use Rattle.sj_lane.specs.KeptLanes.{kept_list, sent_in, got_in, vain_out_in, vain_in_in};

    type Out = RingOut;

    type In = RingIn;

    ghost tells = { λ _. true };

    ghost faults = { λ _. 0 };

    ghost joined = { Joined };

    ghost sent = { λ s. sent_in (kept_list s.kept) };

    ghost got = { λ s. got_in (kept_list s.kept) };

    ghost vain_out = { λ s. vain_out_in (kept_list s.kept) };

    ghost vain_in = { λ s. vain_in_in (kept_list s.kept) };

    // The trait's clauses, and that no frame of any ring was handed over.
    fn make(
        &mut self,
        alloc: Global,
        parties: u16,
    ) -> Result<Vec<Lanes<RingOut, RingIn>>, MakeRefusal>
        ensures square { IfOk result (λ v. (vec_len v ≡ parties) × IsSquare v.items) }
        ensures joined { IfOk result (λ v. AllJoined Joined v.items) }
        ensures fresh { IfOk result (λ v. IsFresh ⟦<RingOut as OutLane>⟧.pushed ⟦<RingIn as InLane>⟧.popped
            ⟦<RingOut as OutLane>⟧.vain ⟦<RingIn as InLane>⟧.vain true v.items) }
        ensures faultless { IfOk result (λ v. NoFault ⟦<RingOut as OutLane>⟧.faults ⟦<RingIn as InLane>⟧.faults v.items) }
        ensures tells { true ≡ true }
        ensures fault { (0 ≤ 0) × (result ≡ Err MakeRefusal.Fault → Rose 0 0) }
        ensures unhanded { IfOk result (λ v. (p q : ℕ) (i : RingIn)
            → in_at v.items p q ≡ Some i → handed_of i ≡ 0) }
    {
        self.kept = None;
        match build(alloc, parties) {
            Ok(lanes) => Ok(lanes),
            Err(_) => Err(MakeRefusal::NoMemory),
        }
    }

    // The trait's clauses, and that no lane changes.
    fn carry(&mut self, _lanes: &mut [Lanes<RingOut, RingIn>]) -> Result<(), NoMemory>
        requires square { IsSquare _lanes.old }
        requires joined { AllJoined Joined _lanes.old }
        ensures square { IsSquare _lanes.new }
        ensures joined { AllJoined Joined _lanes.new }
        ensures lists { SameLists ⟦<RingOut as OutLane>⟧.pushed ⟦<RingIn as InLane>⟧.popped
            ⟦<RingOut as OutLane>⟧.vain ⟦<RingIn as InLane>⟧.vain _lanes.old _lanes.new }
        ensures faults { NoneFell ⟦<RingOut as OutLane>⟧.faults ⟦<RingIn as InLane>⟧.faults
            _lanes.old _lanes.new }
        ensures shown { (p q : ℕ)
            → (sent_in (kept_list self.new.kept) p q ≡ sent_in (kept_list self.old.kept) p q)
            × (got_in (kept_list self.new.kept) p q ≡ got_in (kept_list self.old.kept) p q)
            × (vain_out_in (kept_list self.new.kept) p q
            ≡ vain_out_in (kept_list self.old.kept) p q)
            × (vain_in_in (kept_list self.new.kept) p q
            ≡ vain_in_in (kept_list self.old.kept) p q) }
        ensures tells { true ≡ true }
        ensures fault { ◌≡◌ {A = ℕ} 0 0 }
        ensures stays { _lanes.new ≡ _lanes.old }
    {
        Ok(())
    }

    // The trait's clauses, and that nothing is handed over only where there is no ring, or frames
    // of it were handed over before. All other lanes are the same, and each ring is the same ring.
    fn rest(
        &mut self,
        alloc: Global,
        lanes: &mut Vec<Lanes<RingOut, RingIn>>,
        from: u16,
        to: u16,
    ) -> Result<Option<Vec<Frame>>, NoMemory>
        requires square { IsSquare lanes.old.items }
        requires joined { AllJoined Joined lanes.old.items }
        ensures square { IsSquare lanes.new.items }
        ensures joined { AllJoined Joined lanes.new.items }
        ensures lists { SameLists ⟦<RingOut as OutLane>⟧.pushed ⟦<RingIn as InLane>⟧.popped
            ⟦<RingOut as OutLane>⟧.vain ⟦<RingIn as InLane>⟧.vain lanes.old.items lanes.new.items }
        ensures faults { NoneFell ⟦<RingOut as OutLane>⟧.faults ⟦<RingIn as InLane>⟧.faults
            lanes.old.items lanes.new.items }
        ensures rest { IfOk result (λ o. IfSome o (λ v. (true ≡ true)
            × IsRest ⟦<RingOut as OutLane>⟧.pushed ⟦<RingIn as InLane>⟧.popped
            lanes.old.items from to v.items)) }
        ensures shown { (p q : ℕ)
            → (sent_in (kept_list self.new.kept) p q ≡ sent_in (kept_list self.old.kept) p q)
            × (got_in (kept_list self.new.kept) p q ≡ got_in (kept_list self.old.kept) p q)
            × (vain_out_in (kept_list self.new.kept) p q
            ≡ vain_out_in (kept_list self.old.kept) p q)
            × (vain_in_in (kept_list self.new.kept) p q
            ≡ vain_in_in (kept_list self.old.kept) p q) }
        ensures tells { true ≡ true }
        ensures fault { ◌≡◌ {A = ℕ} 0 0 }
        ensures none { IfOk result (λ o. o ≡ None →
            HasNoRest (out_at lanes.old.items from to) (in_at lanes.old.items from to)) }
        ensures kept { Each2 LanesKept lanes.old.items lanes.new.items }
        ensures others { (p q : ℕ) → ((p ≡ from) × (q ≡ to) → ⊥)
            → (out_at lanes.new.items p q ≡ out_at lanes.old.items p q)
            × (in_at lanes.new.items p q ≡ in_at lanes.old.items p q) }
        ensures handed { (i j : RingIn) → in_at lanes.old.items from to ≡ Some i
            → in_at lanes.new.items from to ≡ Some j
            → handed_of j ≡ handed_after (handed_of i) result }
    {
        take_rest(alloc, lanes, from as usize, to as usize)
    }

    fn back(&mut self, lanes: Vec<Lanes<RingOut, RingIn>>)
        requires square { IsSquare lanes.items }
        requires joined { AllJoined Joined lanes.items }
        ensures kept { true ≡ true → KeepsLists ⟦<RingOut as OutLane>⟧.pushed ⟦<RingIn as InLane>⟧.popped
            ⟦<RingOut as OutLane>⟧.vain ⟦<RingIn as InLane>⟧.vain lanes.items
            (sent_in (kept_list self.new.kept)) (got_in (kept_list self.new.kept))
            (vain_out_in (kept_list self.new.kept)) (vain_in_in (kept_list self.new.kept)) }
        ensures tells { true ≡ true }
        ensures fault { (0 ≤ 0) × (NoFault ⟦<RingOut as OutLane>⟧.faults ⟦<RingIn as InLane>⟧.faults lanes.items → ◌≡◌ {A = ℕ} 0 0) }
        ensures raised { HasFault ⟦<RingOut as OutLane>⟧.faults ⟦<RingIn as InLane>⟧.faults lanes.items → Rose 0 0 }
    {
        let mut lanes = lanes;
        settle(&mut lanes);
        self.kept = Some(lanes);
    }

    ghost joined_later = { Prim.search rules };
}
