//! Links of lists in memory.
use crate::carries::carry_all;
use crate::lane::{InLane, Lanes, OutLane};
use crate::links::{Links, MakeRefusal};
use crate::mem::{MemIn, MemOut};
use crate::rows::lanes_of;
use sj_base::NoMemory;
use sj_end::Frame;
use std::alloc::Global;

/// Links of lists in memory. Frames come to the other side by `carry` alone.
#[derive(Drop)]
pub struct MemLinks {
    kept: Option<Vec<Lanes<MemOut, MemIn>>>,
}

impl MemLinks {
    pub fn new() -> MemLinks {
        MemLinks { kept: None }
    }
}

impl Links for MemLinks {
    ghost use Rattle.std.specs.Prelude.{◌≡◌, ◌≤◌, ℕ, true, Err, None, Ok, IfOk, IfSome};
    ghost use Rattle.std.specs.Prelude.{OnErr, OnOk, vec_len};
    ghost use Rattle.sj_lane.specs.Square.{AllJoined, HasFault, IsFresh, IsRest, IsSquare, KeepsLists};
    ghost use Rattle.sj_lane.specs.Square.{NoFault, NoneFell, SameLists};
    ghost use Rattle.sj_lane.specs.Told.{Rose};
    ghost use Rattle.sj_lane.specs.Mem.{IsCarried};
    ghost use Rattle.sj_lane.specs.MemCarry.{AreMoved, AreMovedUpTo, NoneWait};
    ghost use Rattle.sj_lane.specs.MemLaws.{carried_later};
    ghost use Rattle.sj_lane.specs.MemKept.{kept_list, sent_in, got_in, vain_out_in, vain_in_in};

    type Out = MemOut;

    type In = MemIn;

    ghost tells = { λ _. true };

    ghost faults = { λ _. 0 };

    ghost joined = { IsCarried };

    ghost sent = { λ s. sent_in (kept_list s.kept) };

    ghost got = { λ s. got_in (kept_list s.kept) };

    ghost vain_out = { λ s. vain_out_in (kept_list s.kept) };

    ghost vain_in = { λ s. vain_in_in (kept_list s.kept) };

    // The trait's clauses, and that no frame waits.
    fn make(
        &mut self,
        alloc: Global,
        parties: u16,
    ) -> Result<Vec<Lanes<MemOut, MemIn>>, MakeRefusal>
        ensures square { IfOk result (λ v. (vec_len v ≡ parties) × IsSquare v.items) }
        ensures joined { IfOk result (λ v. AllJoined IsCarried v.items) }
        ensures fresh { IfOk result (λ v. IsFresh ⟦<MemOut as OutLane>⟧.pushed
            ⟦<MemIn as InLane>⟧.popped ⟦<MemOut as OutLane>⟧.vain
            ⟦<MemIn as InLane>⟧.vain true v.items) }
        ensures faultless { IfOk result (λ v. NoFault ⟦<MemOut as OutLane>⟧.faults ⟦<MemIn as InLane>⟧.faults v.items) }
        ensures tells { true ≡ true }
        ensures fault { (0 ≤ 0) × (result ≡ Err MakeRefusal.Fault → Rose 0 0) }
        ensures empty { IfOk result (λ v. NoneWait v.items) }
    {
        self.kept = None;
        match lanes_of(alloc, parties) {
            Ok(lanes) => Ok(lanes),
            Err(_) => Err(MakeRefusal::NoMemory),
        }
    }

    // The trait's clauses, and which frames moved.
    fn carry(&mut self, lanes: &mut [Lanes<MemOut, MemIn>]) -> Result<(), NoMemory>
        requires square { IsSquare lanes.old }
        requires joined { AllJoined IsCarried lanes.old }
        ensures square { IsSquare lanes.new }
        ensures joined { AllJoined IsCarried lanes.new }
        ensures lists { SameLists ⟦<MemOut as OutLane>⟧.pushed ⟦<MemIn as InLane>⟧.popped
            ⟦<MemOut as OutLane>⟧.vain ⟦<MemIn as InLane>⟧.vain lanes.old lanes.new }
        ensures faults { NoneFell ⟦<MemOut as OutLane>⟧.faults ⟦<MemIn as InLane>⟧.faults lanes.old lanes.new }
        ensures shown { (p q : ℕ) → (sent_in (kept_list self.new.kept) p q ≡ sent_in (kept_list self.old.kept) p q)
            × (got_in (kept_list self.new.kept) p q ≡ got_in (kept_list self.old.kept) p q)
            × (vain_out_in (kept_list self.new.kept) p q
            ≡ vain_out_in (kept_list self.old.kept) p q)
            × (vain_in_in (kept_list self.new.kept) p q
            ≡ vain_in_in (kept_list self.old.kept) p q) }
        ensures tells { true ≡ true }
        ensures fault { ◌≡◌ {A = ℕ} 0 0 }
        ensures moved { OnOk result (AreMoved lanes.old lanes.new) }
        ensures short { OnErr result ((p q : ℕ) × AreMovedUpTo p q lanes.old lanes.new) }
    {
        carry_all(lanes)
    }

    // The trait's clauses, and that nothing is ever handed over and no lane changes.
    fn rest(
        &mut self,
        _alloc: Global,
        _lanes: &mut Vec<Lanes<MemOut, MemIn>>,
        _from: u16,
        _to: u16,
    ) -> Result<Option<Vec<Frame>>, NoMemory>
        requires square { IsSquare _lanes.old.items }
        requires joined { AllJoined IsCarried _lanes.old.items }
        ensures square { IsSquare _lanes.new.items }
        ensures joined { AllJoined IsCarried _lanes.new.items }
        ensures lists { SameLists ⟦<MemOut as OutLane>⟧.pushed ⟦<MemIn as InLane>⟧.popped
            ⟦<MemOut as OutLane>⟧.vain ⟦<MemIn as InLane>⟧.vain _lanes.old.items _lanes.new.items }
        ensures faults { NoneFell ⟦<MemOut as OutLane>⟧.faults ⟦<MemIn as InLane>⟧.faults
            _lanes.old.items _lanes.new.items }
        ensures rest { IfOk result (λ o. IfSome o (λ v. (true ≡ true)
            × IsRest ⟦<MemOut as OutLane>⟧.pushed ⟦<MemIn as InLane>⟧.popped
            _lanes.old.items _from _to v.items)) }
        ensures shown { (p q : ℕ)
            → (sent_in (kept_list self.new.kept) p q ≡ sent_in (kept_list self.old.kept) p q)
            × (got_in (kept_list self.new.kept) p q ≡ got_in (kept_list self.old.kept) p q)
            × (vain_out_in (kept_list self.new.kept) p q
            ≡ vain_out_in (kept_list self.old.kept) p q)
            × (vain_in_in (kept_list self.new.kept) p q
            ≡ vain_in_in (kept_list self.old.kept) p q) }
        ensures tells { true ≡ true }
        ensures fault { ◌≡◌ {A = ℕ} 0 0 }
        ensures none { result ≡ Ok None }
        ensures stays { _lanes.new ≡ _lanes.old }
    {
        Ok(None)
    }

    fn back(&mut self, lanes: Vec<Lanes<MemOut, MemIn>>)
        requires square { IsSquare lanes.items }
        requires joined { AllJoined IsCarried lanes.items }
        ensures kept { true ≡ true → KeepsLists ⟦<MemOut as OutLane>⟧.pushed ⟦<MemIn as InLane>⟧.popped
            ⟦<MemOut as OutLane>⟧.vain ⟦<MemIn as InLane>⟧.vain lanes.items
            (sent_in (kept_list self.new.kept)) (got_in (kept_list self.new.kept))
            (vain_out_in (kept_list self.new.kept)) (vain_in_in (kept_list self.new.kept)) }
        ensures tells { true ≡ true }
        ensures fault { (0 ≤ 0) × (NoFault ⟦<MemOut as OutLane>⟧.faults ⟦<MemIn as InLane>⟧.faults lanes.items → ◌≡◌ {A = ℕ} 0 0) }
        ensures raised { HasFault ⟦<MemOut as OutLane>⟧.faults ⟦<MemIn as InLane>⟧.faults lanes.items → Rose 0 0 }
    {
        self.kept = Some(lanes);
    }

    ghost joined_later = { carried_later };
}
