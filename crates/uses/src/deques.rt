//! Links of the caller's own: each lane is a deque of another library. They don't report what they
//! carried. So a run over them may be refused as damaged; no other transcript ever comes of it.
ghost use Rattle.std.specs.Prelude.{◌<◌, IfOk};
ghost use Rattle.uses.specs.DequeLanes.{AreInColumns, AreNewIns, AreNewRows, AreOutRows, AreOuts};

use crossbeam_deque::{Steal, Stealer, Worker};
use porcharnica::{
    Frame, InLane, Lanes, Links, MakeRefusal, NoMemory, OutLane, PopRefusal, PushRefusal,
};
use std::alloc::{AllocError, Global};
use std::collections::VecDeque;

/// How many frames a lane holds before it grows.
const FIRST_ROOM: usize = 16;

/// Where a party puts its frames for another one.
#[derive(Drop)]
pub struct DequeOut {
    deque: Worker<Frame>,
}

impl OutLane for DequeOut {
    ghost use Rattle.std.specs.Prelude.{None};

    ghost pushed = { λ _. None };

    ghost faults = { λ _. 0 };

    ghost vain = { λ _. 0 };

    ghost same = { λ _ _. Unit {0} };

    fn push(&mut self, frame: Frame) -> Result<(), (Frame, PushRefusal)> {
        match self.deque.push(frame) {
            Ok(()) => Ok(()),
            Err(frame) => Err((frame, PushRefusal::NoMemory)),
        }
    }

    ghost same_itself = { λ _. tt };

    ghost same_later = { λ _ _ _ _ _. tt };
}

/// Where the other one finds them.
#[derive(Drop)]
pub struct DequeIn {
    deque: Stealer<Frame>,
    vain: u64,
}

impl InLane for DequeIn {
    ghost use Rattle.std.specs.Prelude.{None};

    ghost popped = { λ _. None };

    ghost faults = { λ _. 0 };

    ghost vain = { λ i. i.vain };

    ghost same = { λ _ _. Unit {0} };

    fn pop(&mut self) -> Result<Option<Frame>, PopRefusal> {
        match self.deque.steal() {
            Steal::Success(frame) => Ok(Some(frame)),
            _ => {
                self.vain = self.vain.saturating_add(1);
                Ok(None)
            }
        }
    }

    ghost same_itself = { λ _. tt };

    ghost same_later = { λ _ _ _ _ _. tt };
}

// New deques from a party to each of so many.
fn outs_of(alloc: Global, parties: u16) -> Result<Vec<DequeOut>, AllocError>
    ensures { IfOk result (AreOuts parties) }
{
    let mut outs = Vec::new(alloc);
    for _ in 0..parties {
        let deque = Worker::new_fifo(alloc, FIRST_ROOM)?;
        outs.push(DequeOut { deque })?;
    }
    Ok(outs)
}

fn rows_of(alloc: Global, parties: u16) -> Result<VecDeque<Vec<DequeOut>>, AllocError>
    ensures { IfOk result (λ v. AreOutRows parties parties v.items) }
{
    let mut rows = VecDeque::new(alloc);
    for _ in 0..parties {
        let outs = outs_of(alloc, parties)?;
        rows.push_back(outs)?;
    }
    Ok(rows)
}

// The other ends of those that lead to this party, one of each row.
fn ins_of(
    alloc: Global,
    rows: &VecDeque<Vec<DequeOut>>,
    to: u16,
    parties: u16,
) -> Result<Vec<DequeIn>, AllocError>
    requires rows { AreOutRows parties parties rows.now.items }
    requires there { to < parties }
    ensures { IfOk result (AreNewIns parties) }
{
    let mut ins = Vec::new(alloc);
    for from in 0..usize::from(parties) {
        let deque = rows[from][usize::from(to)].deque.stealer()?;
        ins.push(DequeIn { deque, vain: 0 })?;
    }
    Ok(ins)
}

fn columns_of(
    alloc: Global,
    rows: &VecDeque<Vec<DequeOut>>,
    parties: u16,
) -> Result<VecDeque<Vec<DequeIn>>, AllocError>
    requires { AreOutRows parties parties rows.now.items }
    ensures { IfOk result (λ v. AreInColumns parties parties v.items) }
{
    let mut columns = VecDeque::new(alloc);
    for to in 0..parties {
        let ins = ins_of(alloc, rows, to, parties)?;
        columns.push_back(ins)?;
    }
    Ok(columns)
}

fn lanes_of(alloc: Global, parties: u16) -> Result<Vec<Lanes<DequeOut, DequeIn>>, AllocError>
    ensures { IfOk result (λ v. AreNewRows parties parties v.items) }
{
    let mut rows = rows_of(alloc, parties)?;
    let mut columns = columns_of(alloc, &rows, parties)?;
    let mut lanes = Vec::new(alloc);
    for _ in 0..parties {
        let (Some(outs), Some(ins)) = (rows.pop_front(), columns.pop_front()) else {
            return Err(AllocError);
        };
        lanes.push(Lanes { outs, ins })?;
    }
    Ok(lanes)
}

/// A deque from each party to each.
#[derive(Drop)]
pub struct DequeLinks;

impl Links for DequeLinks {
    ghost use Rattle.std.specs.Prelude.{◌≡◌, ◌≤◌, ℕ, [], false, true};
    ghost use Rattle.sj_lane.specs.Square.{AllJoined, HasFault, IsSquare, KeepsLists, NoFault};
    ghost use Rattle.sj_lane.specs.Told.{Rose};

    type Out = DequeOut;

    type In = DequeIn;

    ghost tells = { λ _. false };

    ghost faults = { λ _. 0 };

    ghost joined = { λ _ _. Unit {0} };

    ghost sent = { λ _ _ _. [] };

    ghost got = { λ _ _ _. [] };

    ghost vain_out = { λ _ _ _. 0 };

    ghost vain_in = { λ _ _ _. 0 };

    fn make(
        &mut self,
        alloc: Global,
        parties: u16,
    ) -> Result<Vec<Lanes<DequeOut, DequeIn>>, MakeRefusal> {
        match lanes_of(alloc, parties) {
            Ok(lanes) => Ok(lanes),
            Err(_) => Err(MakeRefusal::NoMemory),
        }
    }

    fn carry(&mut self, _lanes: &mut [Lanes<DequeOut, DequeIn>]) -> Result<(), NoMemory> {
        Ok(())
    }

    fn rest(
        &mut self,
        _alloc: Global,
        _lanes: &mut Vec<Lanes<DequeOut, DequeIn>>,
        _from: u16,
        _to: u16,
    ) -> Result<Option<Vec<Frame>>, NoMemory> {
        Ok(None)
    }

    fn back(&mut self, lanes: Vec<Lanes<DequeOut, DequeIn>>)
        requires square { IsSquare lanes.items }
        requires joined { AllJoined (λ (o : _) (i : _). Unit {0}) lanes.items }
        ensures kept { false ≡ true → KeepsLists ⟦<DequeOut as OutLane>⟧.pushed
            ⟦<DequeIn as InLane>⟧.popped ⟦<DequeOut as OutLane>⟧.vain ⟦<DequeIn as InLane>⟧.vain
            lanes.items (λ _ _. []) (λ _ _. []) (λ _ _. 0) (λ _ _. 0) }
        ensures tells { false ≡ false }
        ensures fault { (0 ≤ 0) × (NoFault ⟦<DequeOut as OutLane>⟧.faults ⟦<DequeIn as InLane>⟧.faults lanes.items → ◌≡◌ {A = ℕ} 0 0) }
        ensures raised { HasFault ⟦<DequeOut as OutLane>⟧.faults ⟦<DequeIn as InLane>⟧.faults lanes.items → Rose 0 0 }
    {
        drop(lanes);
    }

    ghost joined_later = { λ _ _ _ _ _ _ _. tt };
}
