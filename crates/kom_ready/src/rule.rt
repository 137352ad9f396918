//! The rule of the deques, and what each step tells of it.

use crossbeam_deque::protocol::{Join, Lesson, Outcome, Protocol, Split};
use crossbeam_deque::{Pass, Stealer, Worker};
use kom_base::Comp;
use std::alloc::Global;
use std::collections::LinkedList;

/// What a pass to a deque knows: its parts of the right to know the whole, which numbers were pushed
/// by it, and which it put in and took out. No value of it is made.
pub struct Hand {
    pub parts: u64,
    pub pushed: LinkedList<Comp>,
    pub put: LinkedList<Comp>,
    pub taken: LinkedList<Comp>,
}

/// What was put in is what was taken out and what is held.
pub struct Balance;

impl Protocol<Comp, Hand> for Balance {
    ghost use Rattle.std.specs.Prelude.{[]};
    ghost use Rattle.kom_ready.specs.Rule.{Balanced, all_parts, hand};

    ghost holds = { Balanced };

    ghost first = { hand all_parts [] [] [] };

    ghost guest = { hand 0 [] [] [] };
}

/// A part is cut off, or comes back.
pub struct Cut;

impl Split<Hand> for Cut {
    ghost use Rattle.std.specs.Prelude.{[], ◌-◌};
    ghost use Rattle.kom_ready.specs.Rule.{hand};

    ghost left = { λ v. hand (v.parts - 1) v.pushed v.put v.taken };

    ghost right = { λ v. hand 1 [] [] [] };
}

impl Join<Hand> for Cut {
    ghost use Rattle.std.specs.Prelude.{[], ◌+◌, ◌++◌};
    ghost use Rattle.kom_ready.specs.Rule.{hand};

    ghost both = { λ v w. hand (v.parts + w.parts) v.pushed (v.put ++ w.put) (v.taken ++ w.taken) };

    ghost spent = { hand 0 [] [] [] };
}

/// Numbers were pushed.
pub struct Pushed;

impl Outcome<Comp, Hand> for Pushed {
    ghost use Rattle.std.specs.Prelude.{◌≡◌, ◌++◌};
    ghost use Rattle.kom_ready.specs.Rule.{hand};

    ghost then = { λ v xs w. w ≡ hand v.parts (v.pushed ++ xs) (v.put ++ xs) v.taken };
}

/// Numbers came from another deque.
pub struct Moved;

impl Outcome<Comp, Hand> for Moved {
    ghost use Rattle.std.specs.Prelude.{◌≡◌, ◌++◌};
    ghost use Rattle.kom_ready.specs.Rule.{hand};

    ghost then = { λ v xs w. w ≡ hand v.parts v.pushed (v.put ++ xs) v.taken };
}

/// Numbers were taken out, or the deque was found empty.
pub struct Taken;

impl Outcome<Comp, Hand> for Taken {
    ghost use Rattle.std.specs.Prelude.{◌≡◌, ◌++◌};
    ghost use Rattle.kom_ready.specs.Rule.{IsSettled, hand};

    ghost then = { λ v xs w. w ≡ hand v.parts v.pushed v.put (v.taken ++ xs) };

    ghost empty = { IsSettled };
}

/// Numbers were taken out, and no more than were put in; or the deque was found empty.
pub struct Drained;

impl Outcome<Comp, Hand> for Drained {
    ghost use Rattle.std.specs.Prelude.{◌≡◌, ◌++◌};
    ghost use Rattle.kom_ready.specs.Rule.{IsSettled, IsWithin, hand};

    ghost then = { λ v xs w. (w ≡ hand v.parts v.pushed v.put (v.taken ++ xs)) × IsWithin w };

    ghost empty = { IsSettled };
}

/// No more was taken out than was put in.
pub struct Within;

impl Lesson<Comp, Hand> for Within {
    ghost use Rattle.kom_ready.specs.Rule.{IsWithin};

    ghost fact = { λ v items. IsWithin v };
}

pub type Own = Worker<Comp, Global, Hand, Balance>;

pub type Thief = Stealer<Comp, Global, Hand, Balance>;

pub type Ticket = Pass<Comp, Hand>;
