//! Numbers that are known before a file runs.

ghost use Rattle.std.specs.Prelude.{◌≡◌, IfSome, Some};
ghost use Rattle.sj_lang.specs.CodeView.{term_of};
ghost use Rattle.sj_lang.specs.Term.{var};
ghost use Rattle.sj_semantics.specs.Value.{result_of};
ghost use Rattle.sj_semantics.specs.declared.Value.{Value};
ghost use Rattle.sj_explain.specs.Counts.{IsWorth};

use sj_base::NoMemory;
use sj_lang::{Expr, Op};
use std::alloc::Global;

/// A number, and whether a sum, a difference or a product on the way to it wrapped.
#[derive(Clone, Copy, PartialEq, Eq)]
pub(crate) struct Count {
    pub value: i64,
    pub wrapped: bool,
}

#[derive(Clone, Copy)]
struct Entry {
    name: u16,
    count: Count,
}

/// The variables whose numbers are known.
#[derive(Drop)]
pub(crate) struct Known {
    entries: Vec<Entry>,
}

impl Known {
    pub fn new(alloc: Global) -> Known {
        Known {
            entries: Vec::new(alloc),
        }
    }

    pub fn copy(&self, alloc: Global) -> Result<Known, NoMemory> {
        let entries = Vec::from_slice(alloc, &self.entries)?;
        Ok(Known { entries })
    }

    pub fn get(&self, name: u16) -> Option<Count>
        ensures { IfSome result (λ c. IsWorth self.now.entries.items (var name) c.value) }
    {
        find(&self.entries, name)
    }

    pub fn forget(&mut self, name: u16) {
        self.entries.retain(|e| e.name != name);
    }

    pub fn set(&mut self, name: u16, count: Option<Count>) -> Result<(), NoMemory> {
        self.forget(name);
        if let Some(count) = count {
            self.entries.push(Entry { name, count })?;
        }
        Ok(())
    }

    /// Keeps what the other one knows, too.
    pub fn keep_common(&mut self, other: &Known) {
        self.entries.retain(|e| other.get(e.name) == Some(e.count));
    }
}

// The number that the first entry of that name has.
fn find(entries: &[Entry], name: u16) -> Option<Count>
    ensures { IfSome result (λ c. IsWorth entries.now (var name) c.value) }
{
    match entries.split_first() {
        Some((entry, rest)) => {
            if entry.name == name {
                Some(entry.count)
            } else {
                find(rest, name)
            }
        }
        None => None,
    }
}

/// The number of the expression, where it is one and is known.
#[cycle(counting)]
pub(crate) fn count_of(known: &Known, expr: &Expr) -> Option<Count>
    ensures { IfSome result (λ c. IsWorth known.now.entries.items (term_of expr.now) c.value) }
{
    match expr {
        Expr::Int(value) => Some(Count {
            value: *value,
            wrapped: false,
        }),
        Expr::Var(name) => known.get(*name),
        Expr::Two(op, first, second) => {
            let first = count_of(known, first)?;
            let second = count_of(known, second)?;
            combined(*op, first, second)
        }
        _ => None,
    }
}

fn combined(op: Op, first: Count, second: Count) -> Option<Count>
    ensures { IfSome result (λ c.
        result_of op (Value.Int first.value) (Value.Int second.value) ≡ Some (Value.Int c.value)) }
{
    let (exact, value) = match op {
        Op::Add => (
            first.value.checked_add(second.value),
            first.value.wrapping_add(second.value),
        ),
        Op::Sub => (
            first.value.checked_sub(second.value),
            first.value.wrapping_sub(second.value),
        ),
        Op::Mul => (
            first.value.checked_mul(second.value),
            first.value.wrapping_mul(second.value),
        ),
        _ => return None,
    };
    Some(Count {
        value,
        wrapped: first.wrapped || second.wrapped || exact.is_none(),
    })
}
