//! Links between all parties.
ghost use Rattle.std.specs.Prelude.{◌≡◌, ℕ, ◌≤◌, List, Bool, true, Err, IfOk, IfSome, vec_len};
ghost use Rattle.sj_lang.specs.Place.{Place};
ghost use Rattle.sj_rules.specs.Frames.{FrameAt};
ghost use Rattle.sj_lane.specs.Square.{AllJoined, HasFault, IsFresh, IsRest, IsSquare};
ghost use Rattle.sj_lane.specs.Square.{KeepsLists, NoFault, NoneFell, SameLists};
ghost use Rattle.sj_lane.specs.Told.{Rose};

use crate::lane::{InLane, Lanes, OutLane};
use sj_base::NoMemory;
use sj_end::Frame;
use std::alloc::Global;
use thiserror::Error;

/// Why there are no lanes.
#[derive(Clone, Copy, Debug, PartialEq, Eq, Error)]
pub enum MakeRefusal {
    #[error("link fault")]
    Fault,
    #[error("no memory")]
    NoMemory,
}

/// What makes the lanes between all parties, and gets them back.
pub trait Links {
    type Out: OutLane;

    type In: InLane;

    ghost tells: { Self → Bool };

    ghost faults: { Self → ℕ };
    /// These two are the ends of one link.
    ghost joined: { Self.Out → Self.In → Type 0 };
    /// From `back` on: the frames pushed by p to q, those popped from p by q, and the calls in
    /// vain of both lanes.
    ghost sent: { Self → ℕ → ℕ → List (FrameAt Place) };

    ghost got: { Self → ℕ → ℕ → List (FrameAt Place) };

    ghost vain_out: { Self → ℕ → ℕ → ℕ };

    ghost vain_in: { Self → ℕ → ℕ → ℕ };

    fn make(
        &mut self,
        alloc: Global,
        parties: u16,
    ) -> Result<Vec<Lanes<Self::Out, Self::In>>, MakeRefusal>
        ensures square { IfOk result (λ v. (vec_len v ≡ parties) × IsSquare v.items) }
        ensures joined { IfOk result (λ v. AllJoined joined v.items) }
        ensures fresh { IfOk result (λ v. IsFresh Self.Out.pushed Self.In.popped
            Self.Out.vain Self.In.vain (tells self.old) v.items) }
        ensures faultless { IfOk result (λ v. NoFault Self.Out.faults Self.In.faults v.items) }
        ensures tells { tells self.new ≡ tells self.old }
        ensures fault { (faults self.old ≤ faults self.new)
            × (result ≡ Err MakeRefusal.Fault → Rose (faults self.old) (faults self.new)) };

    fn carry(&mut self, lanes: &mut [Lanes<Self::Out, Self::In>]) -> Result<(), NoMemory>
        requires square { IsSquare lanes.old }
        requires joined { AllJoined joined lanes.old }
        ensures square { IsSquare lanes.new }
        ensures joined { AllJoined joined lanes.new }
        ensures lists { SameLists Self.Out.pushed Self.In.popped Self.Out.vain Self.In.vain
            lanes.old lanes.new }
        ensures faults { NoneFell Self.Out.faults Self.In.faults lanes.old lanes.new }
        ensures shown { (p q : ℕ)
            → (sent self.new p q ≡ sent self.old p q) × (got self.new p q ≡ got self.old p q)
            × (vain_out self.new p q ≡ vain_out self.old p q)
            × (vain_in self.new p q ≡ vain_in self.old p q) }
        ensures tells { tells self.new ≡ tells self.old }
        ensures fault { faults self.new ≡ faults self.old };

    /// What waits on the link from that party to that one, in order, where the links can hand it
    /// over; that counts as no pop. When they can, their own contracts say.
    fn rest(
        &mut self,
        alloc: Global,
        lanes: &mut Vec<Lanes<Self::Out, Self::In>>,
        from: u16,
        to: u16,
    ) -> Result<Option<Vec<Frame>>, NoMemory>
        requires square { IsSquare lanes.old.items }
        requires joined { AllJoined joined lanes.old.items }
        ensures square { IsSquare lanes.new.items }
        ensures joined { AllJoined joined lanes.new.items }
        ensures lists { SameLists Self.Out.pushed Self.In.popped Self.Out.vain Self.In.vain
            lanes.old.items lanes.new.items }
        ensures faults { NoneFell Self.Out.faults Self.In.faults
            lanes.old.items lanes.new.items }
        ensures rest { IfOk result (λ o. IfSome o (λ v. (tells self.old ≡ true)
            × IsRest Self.Out.pushed Self.In.popped lanes.old.items from to v.items)) }
        ensures shown { (p q : ℕ)
            → (sent self.new p q ≡ sent self.old p q) × (got self.new p q ≡ got self.old p q)
            × (vain_out self.new p q ≡ vain_out self.old p q)
            × (vain_in self.new p q ≡ vain_in self.old p q) }
        ensures tells { tells self.new ≡ tells self.old }
        ensures fault { faults self.new ≡ faults self.old };

    fn back(&mut self, lanes: Vec<Lanes<Self::Out, Self::In>>)
        requires square { IsSquare lanes.items }
        requires joined { AllJoined joined lanes.items }
        ensures kept { tells self.old ≡ true → KeepsLists Self.Out.pushed Self.In.popped Self.Out.vain
            Self.In.vain lanes.items (sent self.new) (got self.new) (vain_out self.new)
            (vain_in self.new) }
        ensures tells { tells self.new ≡ tells self.old }
        ensures fault { (faults self.old ≤ faults self.new)
            × (NoFault Self.Out.faults Self.In.faults lanes.items →
            faults self.new ≡ faults self.old) }
        ensures raised { HasFault Self.Out.faults Self.In.faults lanes.items →
            Rose (faults self.old) (faults self.new) };

    /// A lane later is still joined to the other end.
    ghost joined_later: { (o p : Self.Out) (i j : Self.In) → joined o i →
        Self.Out.same o p → Self.In.same i j → joined p j };
}
