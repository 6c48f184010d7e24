//! Links that report nothing, and a frame that nobody sent.
ghost use Rattle.std.specs.Prelude.{IfOk};
ghost use Rattle.sj_cases.specs.Two.{AreTwo, HasTwo};

use sj_base::{EndId, Msg, NoMemory};
use sj_end::{Body, Frame};
use sj_lane::{InLane, Lanes, Links, MakeRefusal, OutLane, PopRefusal, PushRefusal};
use std::alloc::{AllocError, Global};

/// A lane that loses each frame.
#[derive(Drop)]
pub struct Loses;

impl OutLane for Loses {
    ghost use Rattle.std.specs.Prelude.{None};

    ghost pushed = { λ _. None };

    ghost faults = { λ _. 0 };

    ghost vain = { λ _. 0 };

    ghost same = { λ _ _. Unit {0} };

    fn push(&mut self, _frame: Frame) -> Result<(), (Frame, PushRefusal)> {
        Ok(())
    }

    ghost same_itself = { λ _. tt };

    ghost same_later = { λ _ _ _ _ _. tt };
}

/// A lane that gives one frame, if any.
#[derive(Drop)]
pub struct Gives {
    frame: Option<Frame>,
    vain: u64,
}

impl InLane for Gives {
    ghost use Rattle.std.specs.Prelude.{None};

    ghost popped = { λ _. None };

    ghost faults = { λ _. 0 };

    ghost vain = { λ i. i.vain };

    ghost same = { λ _ _. Unit {0} };

    fn pop(&mut self) -> Result<Option<Frame>, PopRefusal> {
        match self.frame.take() {
            Some(frame) => Ok(Some(frame)),
            None => {
                self.vain = self.vain.saturating_add(1);
                Ok(None)
            }
        }
    }

    ghost same_itself = { λ _. tt };

    ghost same_later = { λ _ _ _ _ _. tt };
}

/// Links of two parties, over which nothing comes but one frame to the second party, as if from the
/// first. It is a Carry of the number 6, or the Open of a session.
#[derive(Drop)]
pub struct Forged {
    opens: bool,
}

impl Forged {
    /// Links over which the Carry comes.
    pub fn carry() -> Forged {
        Forged { opens: false }
    }

    /// Links over which the Open comes.
    pub fn open() -> Forged {
        Forged { opens: true }
    }
}

// The lanes of one party, where that frame comes from the first.
fn party_lanes(alloc: Global, first: Option<Frame>) -> Result<Lanes<Loses, Gives>, AllocError>
    ensures { IfOk result HasTwo }
{
    let mut outs = Vec::new(alloc);
    outs.push(Loses)?;
    outs.push(Loses)?;
    let mut ins = Vec::new(alloc);
    ins.push(Gives {
        frame: first,
        vain: 0,
    })?;
    ins.push(Gives {
        frame: None,
        vain: 0,
    })?;
    Ok(Lanes { outs, ins })
}

fn both(alloc: Global, opens: bool) -> Result<Vec<Lanes<Loses, Gives>>, AllocError>
    ensures { IfOk result (λ v. AreTwo v.items) }
{
    let carry = Body::Carry {
        to: EndId { sess: 0, side: 1 },
        conn: 0,
        number: 0,
        taken: 0,
        msg: Msg::Int(6),
    };
    let open = Body::Open { sess: 64 };
    let body = if opens { open } else { carry };
    let forged = Frame { clock: 1, body };
    let mut lanes = Vec::new(alloc);
    lanes.push(party_lanes(alloc, None)?)?;
    lanes.push(party_lanes(alloc, Some(forged))?)?;
    Ok(lanes)
}

impl Links for Forged {
    ghost use Rattle.std.specs.Prelude.{◌≡◌, ◌≤◌, ℕ, [], false, true};
    ghost use Rattle.sj_lane.specs.Square.{AllJoined, HasFault, IsSquare, KeepsLists, NoFault};
    ghost use Rattle.sj_lane.specs.Told.{Rose};

    type Out = Loses;

    type In = Gives;

    ghost tells = { λ _. false };

    ghost faults = { λ _. 0 };

    ghost joined = { λ _ _. Unit {0} };

    ghost sent = { λ _ _ _. [] };

    ghost got = { λ _ _ _. [] };

    ghost vain_out = { λ _ _ _. 0 };

    ghost vain_in = { λ _ _ _. 0 };

    fn make(
        &mut self,
        alloc: Global,
        parties: u16,
    ) -> Result<Vec<Lanes<Loses, Gives>>, MakeRefusal> {
        if parties != 2 {
            return Err(MakeRefusal::NoMemory);
        }
        match both(alloc, self.opens) {
            Ok(lanes) => Ok(lanes),
            Err(_) => Err(MakeRefusal::NoMemory),
        }
    }

    fn carry(&mut self, _lanes: &mut [Lanes<Loses, Gives>]) -> Result<(), NoMemory> {
        Ok(())
    }

    fn rest(
        &mut self,
        _alloc: Global,
        _lanes: &mut Vec<Lanes<Loses, Gives>>,
        _from: u16,
        _to: u16,
    ) -> Result<Option<Vec<Frame>>, NoMemory> {
        Ok(None)
    }

    fn back(&mut self, lanes: Vec<Lanes<Loses, Gives>>)
        requires square { IsSquare lanes.items }
        requires joined { AllJoined (λ (o : _) (i : _). Unit {0}) lanes.items }
        ensures kept { false ≡ true → KeepsLists ⟦<Loses as OutLane>⟧.pushed ⟦<Gives as InLane>⟧.popped
            ⟦<Loses as OutLane>⟧.vain ⟦<Gives as InLane>⟧.vain lanes.items (λ _ _. []) (λ _ _. [])
            (λ _ _. 0) (λ _ _. 0) }
        ensures tells { false ≡ false }
        ensures fault { (0 ≤ 0) × (NoFault ⟦<Loses as OutLane>⟧.faults ⟦<Gives as InLane>⟧.faults lanes.items → ◌≡◌ {A = ℕ} 0 0) }
        ensures raised { HasFault ⟦<Loses as OutLane>⟧.faults ⟦<Gives as InLane>⟧.faults lanes.items → Rose 0 0 }
    {
        drop(lanes);
    }

    ghost joined_later = { λ _ _ _ _ _ _ _. tt };
}
