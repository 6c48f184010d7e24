//! What a party knows at a statement.
#![tactic(auto, using(crate::proofs::MapLemmas::maps))]

ghost use Rattle.std.specs.Prelude.{◌≡◌, ℕ, ◌++◌, is_some, map, IfOk, OnOk};
ghost use Rattle.std.specs.Ordering.{nat_cmp};
ghost use Rattle.std.specs.BTreeSet.{contains};
ghost use Rattle.std.specs.FinMap as finite;
ghost use Rattle.sj_lang.specs.CodeView.{code_of, arm_of, branches_of};
ghost use Rattle.sj_table.specs.Spots.{place_in};
ghost use Rattle.sj_table.specs.declared.table.Table.{Table};
ghost use Rattle.sj_acceptance.specs.Arms.{common};
ghost use Rattle.sj_acceptance.specs.FirstItem.{choices};
ghost use Rattle.sj_acceptance.specs.Labels.{branch_labels};
ghost use Rattle.sj_acceptance.specs.LabelTests.{is_among, are_labels_of};
ghost use Rattle.sj_acceptance.specs.Sameness.{is_same_ends};
ghost use Rattle.sj_check.specs.SpotEnv.{no_spots, with_spot, without_spot, with_kind, places_at};
ghost use Rattle.sj_check.specs.Named.{ends_named};

use crate::labels::are_arms_of;
use crate::live::LiveEnds;
use crate::name_lists::names;
use crate::variables::Variables;
use sj_base::NoMemory;
use sj_lang::{Scalar, Stmt, StmtArm};
use sj_table::{Spot, Table};
use std::alloc::Global;
use std::collections::BTreeSet;
use std::marker::Model;

/// The spot of each live end, and the kind of each variable.
#[derive(Drop)]
pub struct Env {
    alloc: Global,
    spots: LiveEnds,
    kinds: Variables,
}

impl Model for Env {
    ghost use Rattle.sj_check.specs.SpotEnv.{SpotEnv};
    ghost use Rattle.sj_check.specs.Maps.{coded_env};

    ghost Value = { SpotEnv };

    ghost coded = { coded_env };

    ghost view = { λ e. record { spots = e.spots; variables = e.kinds } };
}

impl Env {
    /// Nothing is live, and nothing known.
    pub fn new(alloc: Global) -> Env
        ensures { result ≡ no_spots }
    {
        Env {
            alloc,
            spots: LiveEnds::new(alloc),
            kinds: Variables::new(alloc),
        }
    }

    /// The spot of a live end.
    pub fn spot(&self, end: u16) -> Option<Spot>
        ensures { result ≡ finite.get self.now.spots end }
    {
        self.spots.spot(end)
    }

    /// The end moves on to this spot, or begins there.
    pub fn put_spot(&mut self, end: u16, spot: Spot) -> Result<(), NoMemory>
        ensures { OnOk result (self.new ≡ with_spot self.old end spot) }
    {
        self.spots.put(end, spot)?;
        Ok(())
    }

    /// The end is live no more.
    pub fn remove(&mut self, end: u16)
        ensures { self.new ≡ without_spot self.old end }
    {
        self.spots.remove(end);
    }

    /// The kind of a variable.
    pub fn kind(&self, name: u16) -> Option<Scalar>
        ensures { result ≡ finite.get self.now.variables name }
    {
        self.kinds.kind(name)
    }

    /// The variable is known at this kind from now on.
    pub fn put_kind(&mut self, name: u16, kind: Scalar) -> Result<(), NoMemory>
        ensures { OnOk result (self.new ≡ with_kind self.old name kind) }
    {
        self.kinds.put(name, kind)?;
        Ok(())
    }

    /// The kinds of all variables.
    pub fn variables(&self) -> &Variables
        ensures { result.now ≡ self.now.variables }
    {
        &self.kinds
    }

    pub fn is_live(&self, end: u16) -> bool
        ensures { result ≡ is_some (finite.get self.now.spots end) }
    {
        self.spot(end).is_some()
    }

    pub fn is_known(&self, name: u16) -> bool
        ensures { result ≡ is_some (finite.get self.now.variables name) }
    {
        self.kind(name).is_some()
    }

    /// Whether no end is live.
    pub fn has_no_ends(&self) -> bool
        ensures { (t : Table) → result ≡ is_same_ends (places_at t self.now.spots) finite.empty }
    {
        self.spots.is_empty()
    }

    /// An environment that knows nothing.
    pub fn emptied(&self) -> Env
        ensures { result ≡ no_spots }
    {
        Env::new(self.alloc)
    }

    /// Whether the arms are those of the choice that stands first, each once, and at least one.
    pub fn has_arms(&self, table: &Table, spot: Spot, arms: &[StmtArm]) -> Result<bool, NoMemory>
        ensures { let bs = branches_of (map arm_of arms.now) in
            IfOk result (λ r. r ≡ are_labels_of (choices (place_in table.now spot)) (branch_labels bs)) }
    {
        are_arms_of(self.alloc, table, spot, arms)
    }

    /// These ends, and those that the two blocks name.
    pub fn names(
        &self,
        ends: &[u16],
        first: &[Stmt],
        second: &[Stmt],
    ) -> Result<BTreeSet<u16>, NoMemory>
        ensures { let all = ends.now ++ ends_named (code_of first.now) ++ ends_named (code_of second.now) in
            IfOk result (λ s. (q : ℕ) → contains nat_cmp s q ≡ is_among q all) }
    {
        names(self.alloc, ends, first, second)
    }

    /// An equal environment.
    pub fn copied(&self) -> Result<Env, NoMemory>
        ensures { IfOk result (λ e. e ≡ self.now) }
    {
        let spots = self.spots.copied(self.alloc)?;
        let kinds = self.kinds.copied(self.alloc)?;
        Ok(Env {
            alloc: self.alloc,
            spots,
            kinds,
        })
    }

    /// Keeps the variables that the other knows at the same kind.
    pub fn keep_common(&mut self, other: &Env)
        ensures { let known = common self.old.variables other.now.variables in
            self.new ≡ record self.old { variables = known } }
    {
        self.kinds.keep_common(&other.kinds);
    }
}
