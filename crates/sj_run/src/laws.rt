//! What several calls of a worker are together, and what comes of parties between which links
//! carried well.
//!
//! - `calls_compose`: a call after another, of however many looks, is one call with the looks of
//!   the later one.
//! - `order_is_no_damage`: where links carried in order and unchanged, the joined logs of a file's
//!   parties are a history, and no party is unfit.
ghost use Rattle.std.specs.Prelude.{◌≡◌, ℕ, List, Some, max, slice_get};
ghost use Rattle.sj_acceptance.specs.Accepted.{IsAccepted};
ghost use Rattle.sj_lang.specs.FileAt.{FileAt};
ghost use Rattle.sj_lang.specs.Place.{Place};
ghost use Rattle.sj_rules.specs.History.{IsHistory};
ghost use Rattle.sj_rules.specs.Log.{IsJoined, LineAt};
ghost use Rattle.sj_rules.specs.World.{WorldAt};
ghost use Rattle.sj_run.specs.Left.{CarriedInOrder, LeftAt, logs_left};
ghost use Rattle.sj_semantics.specs.Program.{Program};
ghost use Rattle.sj_work.specs.declared.worker.Stop.TheVariants as stops;
ghost use Rattle.sj_work.specs.Worked.{Worked};

use sj_lane::{InLane, OutLane};

pub fn calls_compose<O: OutLane, I: InLane>()
    ensures { (few looks : ℕ) (first next last : _) →
        Worked O.OutLane I.InLane few first next →
        Worked O.OutLane I.InLane looks next last →
        Worked O.OutLane I.InLane looks first last }
{}

pub fn order_is_no_damage()
    ensures history { (file : FileAt) (left : List LeftAt) (lines : List LineAt) →
        IsAccepted file → CarriedInOrder file left → IsJoined (logs_left left) lines →
        (core : WorldAt Place Program) × IsHistory max file lines core }
    ensures fits { (file : FileAt) (left : List LeftAt) (lines : List LineAt) →
        IsAccepted file → CarriedInOrder file left → IsJoined (logs_left left) lines →
        (p : ℕ) (l : LeftAt) → slice_get left p ≡ Some l → l.stop ≡ Some stops.Unfit → ⊥ }
{}
