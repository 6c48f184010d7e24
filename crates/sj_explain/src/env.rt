//! What is known before a statement: the live ends with their places, and the variables.

use crate::places::copied_rest;
use sj_base::NoMemory;
use sj_lang::{Proto, Scalar, copied};
use std::alloc::Global;

#[derive(Drop)]
pub(crate) struct LiveEnd {
    pub name: u16,
    pub place: Proto,
}

#[derive(Clone, Copy)]
pub(crate) struct Variable {
    pub name: u16,
    pub kind: Scalar,
}

#[derive(Drop)]
pub(crate) struct Env {
    pub ends: Vec<LiveEnd>,
    pub variables: Vec<Variable>,
}

impl Env {
    pub fn new(alloc: Global) -> Env {
        Env {
            ends: Vec::new(alloc),
            variables: Vec::new(alloc),
        }
    }

    /// What is ahead of a live end.
    pub fn place(&self, name: u16) -> Option<&Proto> {
        for end in &self.ends {
            if end.name == name {
                return Some(&end.place);
            }
        }
        None
    }

    /// The end is live at that place.
    pub fn put(&mut self, name: u16, place: Proto) -> Result<(), NoMemory> {
        self.remove(name);
        self.ends.push(LiveEnd { name, place })?;
        Ok(())
    }

    /// The end is live no more.
    pub fn remove(&mut self, name: u16) {
        self.ends.retain(|e| e.name != name);
    }

    /// The end moves after the first item of its place.
    pub fn pass(&mut self, alloc: Global, name: u16) -> Result<(), NoMemory> {
        match self.place(name) {
            Some(place) => {
                let rest = copied_rest(alloc, place)?;
                self.put(name, rest)
            }
            None => Ok(()),
        }
    }

    /// The kind of a variable.
    pub fn kind(&self, name: u16) -> Option<Scalar> {
        for variable in &self.variables {
            if variable.name == name {
                return Some(variable.kind);
            }
        }
        None
    }

    /// The variable is known at that kind.
    pub fn learn(&mut self, name: u16, kind: Scalar) -> Result<(), NoMemory> {
        if self.kind(name).is_none() {
            self.variables.push(Variable { name, kind })?;
        }
        Ok(())
    }

    /// The variables that the other knows at the same kind stay.
    pub fn keep_common(&mut self, other: &Env) {
        self.variables
            .retain(|v| other.kind(v.name) == Some(v.kind));
    }

    pub fn copy(&self, alloc: Global) -> Result<Env, NoMemory> {
        let mut ends = Vec::new(alloc);
        for end in &self.ends {
            let name = end.name;
            let place = copied(alloc, &end.place)?;
            ends.push(LiveEnd { name, place })?;
        }
        let variables = Vec::from_slice(alloc, &self.variables)?;
        Ok(Env { ends, variables })
    }
}
