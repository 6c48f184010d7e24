//! Links of rings which fail once.
use sj_base::NoMemory;
use sj_end::Frame;
use sj_lane::{InLane, Lanes, Links, MakeRefusal, OutLane, RingIn, RingLinks, RingOut};
use std::alloc::Global;

/// Links of rings. The first `make` is a fault.
#[derive(Drop)]
pub struct FailsOnce {
    rings: RingLinks,
    faults: u64,
}

impl FailsOnce {
    pub fn new() -> FailsOnce {
        FailsOnce {
            rings: RingLinks::new(),
            faults: 0,
        }
    }
}

impl Links for FailsOnce {
    ghost use Rattle.std.specs.Prelude.{◌≡◌, ◌≤◌, true};
    ghost use Rattle.sj_lane.specs.Square.{AllJoined, HasFault, IsSquare, KeepsLists, NoFault};
    ghost use Rattle.sj_lane.specs.Told.{Rose};
    ghost use Rattle.std.proofs.Common.{rules};

    type Out = RingOut;

    type In = RingIn;

    ghost tells = { λ _. true };

    ghost faults = { λ s. s.faults };

    ghost joined = { ⟦<RingLinks as Links>⟧.joined };

    ghost sent = { λ s. ⟦<RingLinks as Links>⟧.sent s.rings };

    ghost got = { λ s. ⟦<RingLinks as Links>⟧.got s.rings };

    ghost vain_out = { λ s. ⟦<RingLinks as Links>⟧.vain_out s.rings };

    ghost vain_in = { λ s. ⟦<RingLinks as Links>⟧.vain_in s.rings };

    fn make(
        &mut self,
        alloc: Global,
        parties: u16,
    ) -> Result<Vec<Lanes<RingOut, RingIn>>, MakeRefusal> {
        if self.faults == 0 {
            self.faults = 1;
            return Err(MakeRefusal::Fault);
        }
        match self.rings.make(alloc, parties) {
            Ok(lanes) => Ok(lanes),
            Err(_) => Err(MakeRefusal::NoMemory),
        }
    }

    fn carry(&mut self, lanes: &mut [Lanes<RingOut, RingIn>]) -> Result<(), NoMemory> {
        self.rings.carry(lanes)
    }

    fn rest(
        &mut self,
        alloc: Global,
        lanes: &mut Vec<Lanes<RingOut, RingIn>>,
        from: u16,
        to: u16,
    ) -> Result<Option<Vec<Frame>>, NoMemory> {
        self.rings.rest(alloc, lanes, from, to)
    }

    fn back(&mut self, lanes: Vec<Lanes<RingOut, RingIn>>)
        requires square { IsSquare lanes.items }
        requires joined { AllJoined ⟦<RingLinks as Links>⟧.joined lanes.items }
        ensures kept { true ≡ true → KeepsLists ⟦<RingOut as OutLane>⟧.pushed ⟦<RingIn as InLane>⟧.popped
            ⟦<RingOut as OutLane>⟧.vain ⟦<RingIn as InLane>⟧.vain lanes.items
            (⟦<RingLinks as Links>⟧.sent self.new.rings) (⟦<RingLinks as Links>⟧.got self.new.rings)
            (⟦<RingLinks as Links>⟧.vain_out self.new.rings)
            (⟦<RingLinks as Links>⟧.vain_in self.new.rings) }
        ensures tells { true ≡ true }
        ensures fault { (self.old.faults ≤ self.new.faults)
            × (NoFault ⟦<RingOut as OutLane>⟧.faults ⟦<RingIn as InLane>⟧.faults lanes.items →
            self.new.faults ≡ self.old.faults) }
        ensures raised { HasFault ⟦<RingOut as OutLane>⟧.faults ⟦<RingIn as InLane>⟧.faults lanes.items →
            Rose self.old.faults self.new.faults }
    {
        self.rings.back(lanes);
    }

    ghost joined_later = { Prim.search rules };
}
