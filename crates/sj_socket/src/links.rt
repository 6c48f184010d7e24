//! The links.
ghost use Rattle.std.proofs.Common.{◌∙◌, sym};
ghost use Rattle.std.specs.Prelude.{◌≡◌, ◌≤◌, ◌<◌, ◌++◌, ℕ, Ok, Err, None, IfOk, IfSome, OnOk, [], false, true, length, vec_len};
ghost use Rattle.sj_lane.specs.Square.{AllJoined, HasFault, IsFresh, IsRest, IsSquare, KeepsLists, NoFault, NoneFell, SameLists};
ghost use Rattle.sj_lane.specs.Told.{Rose};
ghost use Rattle.sj_socket.specs.Counts.{capped_sum, faults_make, met};
ghost use Rattle.sj_socket.specs.Idle.{AreIdle};
ghost use Rattle.sj_socket.specs.Joined.{AreLinks, IsJoined};
ghost use Rattle.sj_socket.specs.Kept.{AreCarried, uncounted, untold};
ghost use Rattle.sj_socket.specs.Own.{own_came, own_sent};

use crate::carries::carry_all;
use crate::faults::{add_faults, with_all};
use crate::grid::all_lanes;
use crate::in_lane::SocketIn;
use crate::out_lane::SocketOut;
use mio::net::TcpStream;
use sj_base::NoMemory;
use sj_end::Frame;
use sj_lane::{InLane, Lanes, Links, MakeRefusal, OutLane};
use std::alloc::Global;
use std::net::Net;

/// A lane to a party, over a stream of the system.
pub type TcpOut = SocketOut<TcpStream>;
/// A lane from a party.
pub type TcpIn = SocketIn<TcpStream>;

/// Links of one stream for each ordered pair of different parties, between ports of 127.0.0.1 that
/// the system chooses. What a party sends to itself goes into a list, and comes by `carry` alone.
#[derive(Drop)]
pub struct SocketLinks<R: Net + Drop> {
    rt: R,
    pub(crate) faults: u64,
}

impl<R: Net + Drop> SocketLinks<R> {
    /// Opens nothing, and takes no memory.
    pub fn new(rt: R) -> SocketLinks<R>
        ensures { result.faults ≡ 0 }
    {
        SocketLinks { rt, faults: 0 }
    }
}

impl<R: Net + Drop> Links for SocketLinks<R> {
    type Out = TcpOut;

    type In = TcpIn;

    ghost tells = { λ _. false };

    ghost faults = { λ s. s.faults };

    ghost joined = { IsJoined };

    ghost sent = { λ _ _ _. [] };

    ghost got = { λ _ _ _. [] };

    ghost vain_out = { λ _ _ _. 0 };

    ghost vain_in = { λ _ _ _. 0 };

    // The trait's clauses, and that a fault counts once.
    fn make(
        &mut self,
        alloc: Global,
        parties: u16,
    ) -> Result<Vec<Lanes<TcpOut, TcpIn>>, MakeRefusal>
        ensures square { IfOk result (λ v. (vec_len v ≡ parties) × IsSquare v.items) }
        ensures joined { IfOk result (λ v. AllJoined IsJoined v.items) }
        ensures fresh { IfOk result (λ v. IsFresh ⟦<TcpOut as OutLane>⟧.pushed
            ⟦<TcpIn as InLane>⟧.popped ⟦<TcpOut as OutLane>⟧.vain
            ⟦<TcpIn as InLane>⟧.vain false v.items) }
        ensures faultless { IfOk result (λ v. NoFault ⟦<TcpOut as OutLane>⟧.faults ⟦<TcpIn as InLane>⟧.faults v.items) }
        ensures tells { false ≡ false }
        ensures fault { (self.old.faults ≤ self.new.faults)
            × (result ≡ Err MakeRefusal.Fault → Rose self.old.faults self.new.faults) }
        ensures counts { self.new.faults ≡ faults_make self.old.faults result }
        ensures links { IfOk result (λ v. AreLinks v.items) }
        ensures idle { IfOk result (λ v. AreIdle v.items) }
    {
        match all_lanes(&self.rt, alloc, parties) {
            Ok(lanes) => Ok(lanes),
            Err(MakeRefusal::Fault) => {
                self.faults = self.faults.saturating_add(1);
                Err(MakeRefusal::Fault)
            }
            Err(MakeRefusal::NoMemory) => Err(MakeRefusal::NoMemory),
        }
    }

    // The trait's clauses, what goes over streams, and what a party sent to itself.
    fn carry(&mut self, lanes: &mut [Lanes<TcpOut, TcpIn>]) -> Result<(), NoMemory>
        requires square { IsSquare lanes.old }
        requires joined { AllJoined IsJoined lanes.old }
        ensures square { IsSquare lanes.new }
        ensures joined { AllJoined IsJoined lanes.new }
        ensures lists { SameLists ⟦<TcpOut as OutLane>⟧.pushed ⟦<TcpIn as InLane>⟧.popped
            ⟦<TcpOut as OutLane>⟧.vain ⟦<TcpIn as InLane>⟧.vain lanes.old lanes.new }
        ensures faults { NoneFell ⟦<TcpOut as OutLane>⟧.faults ⟦<TcpIn as InLane>⟧.faults
            lanes.old lanes.new }
        ensures shown { (p q : ℕ) → (untold ≡ untold) × (untold ≡ untold)
            × (uncounted ≡ uncounted) × (uncounted ≡ uncounted) }
        ensures tells { false ≡ false }
        ensures fault { self.new.faults ≡ self.old.faults }
        ensures carried { AreCarried lanes.old lanes.new }
        ensures own { (p : ℕ) → p < length lanes.old →
            own_came lanes.new p ++ own_sent lanes.new p
            ≡ own_came lanes.old p ++ own_sent lanes.old p }
        ensures moved { OnOk result ((p : ℕ) → p < length lanes.old → own_sent lanes.new p ≡ []) }
    {
        carry_all(lanes)
    }

    // The trait's clauses, and that nothing is handed over or changed.
    fn rest(
        &mut self,
        _alloc: Global,
        _lanes: &mut Vec<Lanes<TcpOut, TcpIn>>,
        _from: u16,
        _to: u16,
    ) -> Result<Option<Vec<Frame>>, NoMemory>
        requires square { IsSquare _lanes.old.items }
        requires joined { AllJoined IsJoined _lanes.old.items }
        ensures square { IsSquare _lanes.new.items }
        ensures joined { AllJoined IsJoined _lanes.new.items }
        ensures lists { SameLists ⟦<TcpOut as OutLane>⟧.pushed ⟦<TcpIn as InLane>⟧.popped
            ⟦<TcpOut as OutLane>⟧.vain ⟦<TcpIn as InLane>⟧.vain _lanes.old.items _lanes.new.items }
        ensures faults { NoneFell ⟦<TcpOut as OutLane>⟧.faults ⟦<TcpIn as InLane>⟧.faults
            _lanes.old.items _lanes.new.items }
        ensures rest { IfOk result (λ o. IfSome o (λ v. (false ≡ true)
            × IsRest ⟦<TcpOut as OutLane>⟧.pushed ⟦<TcpIn as InLane>⟧.popped
            _lanes.old.items _from _to v.items)) }
        ensures shown { (p q : ℕ) → (untold ≡ untold) × (untold ≡ untold)
            × (uncounted ≡ uncounted) × (uncounted ≡ uncounted) }
        ensures tells { false ≡ false }
        ensures fault { self.new.faults ≡ self.old.faults }
        ensures none { result ≡ Ok None }
        ensures stays { _lanes.new ≡ _lanes.old }
    {
        Ok(None)
    }

    // The streams are closed, and what their lanes counted is added.
    fn back(&mut self, lanes: Vec<Lanes<TcpOut, TcpIn>>)
        requires square { IsSquare lanes.items }
        requires joined { AllJoined IsJoined lanes.items }
        ensures kept { false ≡ true → KeepsLists ⟦<TcpOut as OutLane>⟧.pushed
            ⟦<TcpIn as InLane>⟧.popped ⟦<TcpOut as OutLane>⟧.vain ⟦<TcpIn as InLane>⟧.vain
            lanes.items (λ _ _. []) (λ _ _. []) (λ _ _. 0) (λ _ _. 0) }
        ensures tells { false ≡ false }
        ensures fault { (self.old.faults ≤ self.new.faults)
            × (NoFault ⟦<TcpOut as OutLane>⟧.faults ⟦<TcpIn as InLane>⟧.faults lanes.items →
            self.new.faults ≡ self.old.faults) }
        ensures raised { HasFault ⟦<TcpOut as OutLane>⟧.faults ⟦<TcpIn as InLane>⟧.faults lanes.items →
            Rose self.old.faults self.new.faults }
        ensures counts { self.new.faults ≡ capped_sum self.old.faults (met lanes.items) }
    {
        self.faults = add_faults(self.faults, with_all(0, &lanes));
        drop(lanes);
    }

    ghost joined_later = { λ _ _ _ _ h a b. b ∙ h ∙ sym a };
}
