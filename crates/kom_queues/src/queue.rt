ghost use Rattle.std.specs.Prelude.{◌≡◌, ◌-◌, ◌+◌, ◌<◌, ◌≤◌, [], ◌∷◌, ◌++◌, Some, None, OnOk, length};
ghost use Rattle.kom_base.specs.Lists.{first};
ghost use Rattle.kom_queues.specs.Waiting.{Waiting, popped, arrival_of};

use crate::front::Arrival;
use kom_base::{Comp, EntryNo};
use kom_index::Fifo;
use std::alloc::{AllocError, Global};
use std::marker::Model;

/// The numbers that wait in one direction, the first at the front, and the component that they
/// wait for. The memory of what was taken comes back in time.
#[derive(Drop)]
pub struct Queue {
    numbers: Fifo<EntryNo>,
    aim: Option<Comp>,
}

impl Model for Queue {
    ghost use Rattle.kom_queues.specs.Waiting.{Waiting};

    ghost Value = { Waiting };

    ghost view = { λ q. record { numbers = q.numbers.0; aim = q.aim; spare = q.numbers.1 } };
}

impl Queue {
    /// The empty queue, aimed nowhere. It takes no memory.
    pub fn new(alloc: Global) -> Queue
        ensures numbers { result.numbers ≡ [] }
        ensures aim { result.aim ≡ None }
    {
        Queue {
            numbers: Fifo::new(alloc),
            aim: None,
        }
    }

    /// Makes room for `n` more numbers.
    pub fn reserve(&mut self, n: usize) -> Result<(), AllocError>
        ensures numbers { self.new.numbers ≡ self.old.numbers }
        ensures aim { self.new.aim ≡ self.old.aim }
        ensures ok { OnOk result (n ≤ self.new.spare) }
        ensures not_less { self.old.spare ≤ self.new.spare }
    {
        self.numbers.reserve(n)
    }

    /// How many numbers wait.
    pub fn len(&self) -> usize
        ensures { result ≡ length self.now.numbers }
    {
        self.numbers.len()
    }

    /// Adds a number at the back. It takes no memory.
    pub fn push(&mut self, no: EntryNo)
        requires { 0 < self.old.spare }
        ensures { self.new ≡ record self.old { numbers = self.old.numbers ++ no ∷ []; spare = self.old.spare - 1 } }
    {
        self.numbers.push(no);
    }

    /// Takes the number at the front, if there is one.
    pub fn pop(&mut self) -> Option<EntryNo>
        ensures number { result ≡ first self.old.numbers }
        ensures rest { self.new ≡ popped self.old }
    {
        self.numbers.pop()
    }

    /// Aims the queue at another component, or nowhere.
    pub fn set_aim(&mut self, at: Option<Comp>)
        ensures { self.new ≡ record self.old { aim = at } }
    {
        self.aim = at;
    }

    /// Takes all numbers away and aims the queue nowhere.
    pub fn clear(&mut self)
        ensures numbers { self.new.numbers ≡ [] }
        ensures aim { self.new.aim ≡ None }
        ensures spare { self.old.spare ≤ self.new.spare }
    {
        self.numbers.clear();
        self.aim = None;
    }

    /// The number at the front and the component that it waits for, if it waits for one.
    pub fn arrival(&self) -> Option<Arrival>
        ensures { result ≡ arrival_of self.now }
    {
        match (&self.aim, self.numbers.front()) {
            (Some(comp), Some(no)) => Some(Arrival {
                comp: *comp,
                no: *no,
            }),
            _ => None,
        }
    }
}
