//! Links of two parties that report nothing: a party may get a frame that nobody sent, and lanes fail
//! in the midst of a run.
ghost use Rattle.std.specs.Prelude.{IfOk};
ghost use Rattle.sj_cases.specs.Odd.{AreOdd, IsOdd, IsUnused};

use sj_base::NoMemory;
use sj_end::Frame;
use sj_lane::{InLane, Lanes, Links, MakeRefusal, OutLane, PopRefusal, PushRefusal};
use std::alloc::{AllocError, Global};

/// A lane that loses so many frames, and then fails.
#[derive(Drop)]
pub struct Breaks {
    pushes: u64,
    faults: u64,
}

impl OutLane for Breaks {
    ghost use Rattle.std.specs.Prelude.{None};

    ghost pushed = { λ _. None };

    ghost faults = { λ o. o.faults };

    ghost vain = { λ _. 0 };

    ghost same = { λ _ _. Unit {0} };

    fn push(&mut self, frame: Frame) -> Result<(), (Frame, PushRefusal)> {
        if self.pushes == 0 {
            self.faults = self.faults.saturating_add(1);
            return Err((frame, PushRefusal::Fault));
        }
        self.pushes -= 1;
        Ok(())
    }

    ghost same_itself = { λ _. tt };

    ghost same_later = { λ _ _ _ _ _. tt };
}

/// A lane that gives one frame, if any, and then nothing, or fails.
#[derive(Drop)]
pub struct Brings {
    frame: Option<Frame>,
    fails: bool,
    vain: u64,
    faults: u64,
}

impl Brings {
    fn new(frame: Option<Frame>, fails: bool) -> Brings
        ensures { IsUnused result }
    {
        Brings {
            frame,
            fails,
            vain: 0,
            faults: 0,
        }
    }
}

impl InLane for Brings {
    ghost use Rattle.std.specs.Prelude.{None};

    ghost popped = { λ _. None };

    ghost faults = { λ i. i.faults };

    ghost vain = { λ i. i.vain };

    ghost same = { λ _ _. Unit {0} };

    fn pop(&mut self) -> Result<Option<Frame>, PopRefusal> {
        if let Some(frame) = self.frame.take() {
            return Ok(Some(frame));
        }
        if self.fails {
            self.faults = self.faults.saturating_add(1);
            return Err(PopRefusal::Fault);
        }
        self.vain = self.vain.saturating_add(1);
        Ok(None)
    }

    ghost same_itself = { λ _. tt };

    ghost same_later = { λ _ _ _ _ _. tt };
}

/// Links of two parties. Their count of faults stands at its last value, and so counts as risen.
#[derive(Drop)]
pub struct Odd {
    /// What each of the two parties gets, as if from the other.
    pub frames: [Option<Frame>; 2],
    /// How many frames each lane takes before it fails.
    pub pushes: u64,
    /// The second party's lane from the first fails after its frame.
    pub fails: bool,
}

// The lanes of one party, which gets these from the two.
fn odd_lanes(
    alloc: Global,
    pushes: u64,
    first: Brings,
    second: Brings,
) -> Result<Lanes<Breaks, Brings>, AllocError>
    requires first { IsUnused first }
    requires second { IsUnused second }
    ensures { IfOk result IsOdd }
{
    let mut outs = Vec::new(alloc);
    outs.push(Breaks { pushes, faults: 0 })?;
    outs.push(Breaks { pushes, faults: 0 })?;
    let mut ins = Vec::new(alloc);
    ins.push(first)?;
    ins.push(second)?;
    Ok(Lanes { outs, ins })
}

fn both(alloc: Global, odd: &mut Odd) -> Result<Vec<Lanes<Breaks, Brings>>, AllocError>
    ensures { IfOk result (λ v. AreOdd v.items) }
{
    let own = Brings::new(odd.frames[0].take(), false);
    let other = Brings::new(odd.frames[1].take(), odd.fails);
    let mut lanes = Vec::new(alloc);
    lanes.push(odd_lanes(alloc, odd.pushes, Brings::new(None, false), own)?)?;
    lanes.push(odd_lanes(alloc, odd.pushes, other, Brings::new(None, false))?)?;
    Ok(lanes)
}

impl Links for Odd {
    ghost use Rattle.std.specs.Prelude.{◌≡◌, ◌≤◌, ◌^◌, ◌-◌, ℕ, [], false, true};
    ghost use Rattle.sj_lane.specs.Square.{AllJoined, HasFault, IsSquare, KeepsLists, NoFault};
    ghost use Rattle.sj_lane.specs.Told.{Rose};

    type Out = Breaks;

    type In = Brings;

    ghost tells = { λ _. false };

    ghost faults = { λ _. 2 ^ 64 - 1 };

    ghost joined = { λ _ _. Unit {0} };

    ghost sent = { λ _ _ _. [] };

    ghost got = { λ _ _ _. [] };

    ghost vain_out = { λ _ _ _. 0 };

    ghost vain_in = { λ _ _ _. 0 };

    fn make(
        &mut self,
        alloc: Global,
        parties: u16,
    ) -> Result<Vec<Lanes<Breaks, Brings>>, MakeRefusal> {
        if parties != 2 {
            return Err(MakeRefusal::NoMemory);
        }
        match both(alloc, self) {
            Ok(lanes) => Ok(lanes),
            Err(_) => Err(MakeRefusal::NoMemory),
        }
    }

    fn carry(&mut self, _lanes: &mut [Lanes<Breaks, Brings>]) -> Result<(), NoMemory> {
        Ok(())
    }

    fn rest(
        &mut self,
        _alloc: Global,
        _lanes: &mut Vec<Lanes<Breaks, Brings>>,
        _from: u16,
        _to: u16,
    ) -> Result<Option<Vec<Frame>>, NoMemory> {
        Ok(None)
    }

    fn back(&mut self, lanes: Vec<Lanes<Breaks, Brings>>)
        requires square { IsSquare lanes.items }
        requires joined { AllJoined (λ (o : _) (i : _). Unit {0}) lanes.items }
        ensures kept { false ≡ true → KeepsLists ⟦<Breaks as OutLane>⟧.pushed ⟦<Brings as InLane>⟧.popped
            ⟦<Breaks as OutLane>⟧.vain ⟦<Brings as InLane>⟧.vain lanes.items (λ _ _. []) (λ _ _. [])
            (λ _ _. 0) (λ _ _. 0) }
        ensures tells { false ≡ false }
        ensures fault { (2 ^ 64 - 1 ≤ 2 ^ 64 - 1)
            × (NoFault ⟦<Breaks as OutLane>⟧.faults ⟦<Brings as InLane>⟧.faults lanes.items →
            ◌≡◌ {A = ℕ} (2 ^ 64 - 1) (2 ^ 64 - 1)) }
        ensures raised { HasFault ⟦<Breaks as OutLane>⟧.faults ⟦<Brings as InLane>⟧.faults lanes.items → Rose (2 ^ 64 - 1) (2 ^ 64 - 1) }
    {
        drop(lanes);
    }

    ghost joined_later = { λ _ _ _ _ _ _ _. tt };
}
