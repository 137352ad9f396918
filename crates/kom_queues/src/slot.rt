ghost use Rattle.std.specs.Prelude.{◌≡◌, ◌<◌, ◌≤◌, [], None, false, true, OnOk};
ghost use Rattle.kom_base.specs.Lists.{first};
ghost use Rattle.kom_queues.specs.Waiting.{popped};
ghost use Rattle.kom_queues.specs.Slots.{side, with_side, arrival_at, front_at, pushed, aimed};

use crate::front::{Arrival, Front, make_front};
use crate::queue::Queue;
use kom_base::{Chan, Comp, Dir, EntryNo};
use std::alloc::{AllocError, Global};

/// The queues of the two directions of a channel, and whether it is there; room may be reserved
/// before it is.
#[derive(Drop)]
pub struct Slot {
    pub plus: Queue,
    pub minus: Queue,
    pub living: bool,
}

impl Slot {
    ghost use Rattle.kom_queues.specs.Slots.{side, with_side, arrival_at, front_at, pushed, aimed};

    /// Empty queues of a channel that is not there. It takes no memory.
    pub fn blank(alloc: Global) -> Slot
        ensures living { result.living ≡ false }
    {
        Slot {
            plus: Queue::new(alloc),
            minus: Queue::new(alloc),
            living: false,
        }
    }

    /// The queue of a direction.
    pub fn queue(&self, d: Dir) -> &Queue
        ensures { result.now ≡ side self.now d }
    {
        match d {
            Dir::Plus => &self.plus,
            Dir::Minus => &self.minus,
        }
    }

    /// What waits at the front of a direction, where the channel is there.
    pub fn arrival(&self, d: Dir) -> Option<Arrival>
        ensures { result ≡ arrival_at self.now d }
    {
        if self.living {
            self.queue(d).arrival()
        } else {
            None
        }
    }

    /// The front of a direction.
    pub fn front(&self, x: Chan, d: Dir) -> Front
        ensures { result ≡ front_at self.now x d }
    {
        make_front(&self.arrival(d), x, d)
    }

    /// Makes room for `n` more numbers in a direction.
    pub fn reserve(&mut self, d: Dir, n: usize) -> Result<(), AllocError>
        ensures numbers { (side self.new d).numbers ≡ (side self.old d).numbers }
        ensures aim { (side self.new d).aim ≡ (side self.old d).aim }
        ensures ok { OnOk result (n ≤ (side self.new d).spare) }
        ensures not_less { (side self.old d).spare ≤ (side self.new d).spare }
        ensures rest { self.new ≡ with_side self.old d (side self.new d) }
    {
        match d {
            Dir::Plus => self.plus.reserve(n),
            Dir::Minus => self.minus.reserve(n),
        }
    }

    /// Adds a number at the back of a direction.
    pub fn push(&mut self, d: Dir, no: EntryNo)
        requires { 0 < (side self.old d).spare }
        ensures { self.new ≡ with_side self.old d (pushed (side self.old d) no) }
    {
        match d {
            Dir::Plus => self.plus.push(no),
            Dir::Minus => self.minus.push(no),
        }
    }

    /// Takes the number at the front of a direction, if there is one.
    pub fn pop(&mut self, d: Dir) -> Option<EntryNo>
        ensures number { result ≡ first (side self.old d).numbers }
        ensures rest { self.new ≡ with_side self.old d (popped (side self.old d)) }
    {
        match d {
            Dir::Plus => self.plus.pop(),
            Dir::Minus => self.minus.pop(),
        }
    }

    /// Aims a direction at another component, or nowhere.
    pub fn set_aim(&mut self, d: Dir, at: Option<Comp>)
        ensures { self.new ≡ with_side self.old d (aimed (side self.old d) at) }
    {
        match d {
            Dir::Plus => self.plus.set_aim(at),
            Dir::Minus => self.minus.set_aim(at),
        }
    }

    /// Makes the channel be there, with empty queues that are aimed nowhere.
    pub fn revive(&mut self)
        ensures living { self.new.living ≡ true }
        ensures plus { self.new.plus.numbers ≡ [] }
        ensures plus_aim { self.new.plus.aim ≡ None }
        ensures plus_spare { self.old.plus.spare ≤ self.new.plus.spare }
        ensures minus { self.new.minus.numbers ≡ [] }
        ensures minus_aim { self.new.minus.aim ≡ None }
        ensures minus_spare { self.old.minus.spare ≤ self.new.minus.spare }
    {
        self.plus.clear();
        self.minus.clear();
        self.living = true;
    }
}
