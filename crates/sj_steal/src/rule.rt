//! What each thread knows of a deque.
ghost use Rattle.std.specs.Prelude.{◌≡◌, ◌+◌, ◌-◌, ◌≤◌, [], ◌++◌, length};
ghost use Rattle.std.specs.List.Sorted.{IsPermutation};
ghost use Rattle.sj_steal.specs.Hands.{Balanced, hand, whole};

use crossbeam_deque::protocol::{Join, Outcome, Protocol, Split};
use std::collections::LinkedList;

/// The parts that a pass has of the right to know the whole deque, and what it has put and taken. No value of it is made.
pub struct Hand<J> {
    pub parts: u64,
    pub put: LinkedList<J>,
    pub taken: LinkedList<J>,
}

/// What was put is what was taken and what the deque has.
pub struct Fair;

impl<J> Protocol<J, Hand<J>> for Fair {
    ghost use Rattle.std.specs.Prelude.{[]};
    ghost use Rattle.sj_steal.specs.Hands.{Balanced, hand, whole};

    ghost holds = { Balanced };

    ghost first = { hand whole [] [] };

    ghost guest = { hand 0 [] [] };
}

/// One part goes to a new pass.
pub struct Lend;

impl<J> Split<Hand<J>> for Lend {
    ghost use Rattle.std.specs.Prelude.{[], ◌-◌};
    ghost use Rattle.sj_steal.specs.Hands.{hand};

    ghost left = { λ v. hand (v.parts - 1) v.put v.taken };

    ghost right = { λ v. hand 1 [] [] };
}

/// All parts of a pass come back, with what it took.
pub struct Return;

impl<J> Join<Hand<J>> for Return {
    ghost use Rattle.std.specs.Prelude.{[], ◌+◌, ◌++◌};
    ghost use Rattle.sj_steal.specs.Hands.{hand};

    ghost both = { λ v w. hand (v.parts + w.parts) (v.put ++ w.put) (v.taken ++ w.taken) };

    ghost spent = { hand 0 [] [] };
}

/// The jobs were put.
pub struct Put;

impl<J> Outcome<J, Hand<J>> for Put {
    ghost then = { λ v xs w. w ≡ hand v.parts (v.put ++ xs) v.taken };
}

/// The jobs were taken.
pub struct Take;

impl<J> Outcome<J, Hand<J>> for Take {
    ghost then = { λ v xs w. w ≡ hand v.parts v.put (v.taken ++ xs) };
}

/// The jobs were taken by the pass that has every part. Where it finds none, all that was put was taken.
pub struct TakeRest;

impl<J> Outcome<J, Hand<J>> for TakeRest {
    ghost then = { λ v xs w. (w ≡ hand v.parts v.put (v.taken ++ xs)) × (length w.taken ≤ length w.put) };

    ghost empty = { λ v. IsPermutation v.put v.taken };
}
