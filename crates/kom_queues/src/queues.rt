ghost use Rattle.std.specs.Prelude.{◌≡◌, ◌≢◌, ℕ, ◌<◌, ◌≤◌, ◌==◌, if◌then◌else◌, false, true, [], Some, None, IsSome, IfSome, OnOk, length};
ghost use Rattle.std.specs.Option.{option_map, option_map_or, option_and_then};
ghost use Rattle.std.specs.Ordering.{nat_cmp, is_eq};
ghost use Rattle.kom_base.specs.declared.numbers.Dir.{Dir};
ghost use Rattle.kom_base.specs.Lists.{first};
ghost use Rattle.kom_index.specs.Entries.{value_of};
ghost use Rattle.kom_queues.specs.Fronts.{front_cmp, front_of};
ghost use Rattle.kom_queues.specs.Slots.{slot_of, queue_of, is_there, spare_of, content_of, side, with_side, pushed, aimed};
ghost use Rattle.kom_queues.specs.Sound.{IsFirstAt};
ghost use Rattle.kom_queues.specs.Waiting.{popped};

use crate::front::{Arrival, Front, found, is_same, make_front};
use crate::slot::Slot;
use kom_base::{Chan, Comp, Dir, EntryNo};
use kom_index::Ordered;
use std::alloc::{AllocError, Global};
use std::marker::Model;

/// For each direction of each living channel, the entry numbers that wait there and the component
/// that they wait for.
///
/// Contracts see the list of the channels by rising number, each with its two queues and whether it
/// is there; room may be reserved before it is. Each call costs the logarithm of the number of
/// channels.
#[derive(Drop)]
pub struct Queues {
    slots: Ordered<Chan, Slot>,
    /// The front of each direction, ordered by the component and the number that wait there.
    fronts: Ordered<Front, ()>,
    alloc: Global,
}

impl Model for Queues {
    ghost use Rattle.std.specs.Prelude.{List, ℕ};
    ghost use Rattle.kom_queues.specs.declared.slot.Slot.{Slot};

    ghost Value = { List (ℕ × Slot) };

    ghost use Rattle.kom_queues.specs.Sound.{IsSound};

    ghost view = { λ q. q.slots.0 };

    ghost invariant = { λ q. IsSound q.slots.0 q.fronts.0 };
}

impl Queues {
    /// The queues of no channel. They take no memory.
    pub fn new(alloc: Global) -> Queues
        ensures { result ≡ [] }
    {
        Queues {
            slots: Ordered::new(alloc),
            fronts: Ordered::new(alloc),
            alloc,
        }
    }

    /// Makes room for `n` more numbers in a direction, and for the `add` of its channel where it is
    /// not there. On want of memory there is no less room than before.
    pub fn reserve(&mut self, x: Chan, d: Dir, n: usize) -> Result<(), AllocError>
        ensures same { (y : ℕ) (e : Dir) → content_of self.new y e ≡ content_of self.old y e }
        ensures not_less { (y : ℕ) (e : Dir) → spare_of self.old y e ≤ spare_of self.new y e }
        ensures there { (y : ℕ) → is_there self.new y ≡ is_there self.old y }
        ensures slots { (y : ℕ) → IsSome (slot_of self.old y) → IsSome (slot_of self.new y) }
        ensures room { OnOk result (IsSome (slot_of self.new x)) }
        ensures ok { OnOk result (n ≤ spare_of self.new x d) }
    {
        if self.slots.get(&x).is_none() {
            self.open(x)?;
        }
        self.extend(x, d, n)
    }

    /// Makes room for `n` more numbers in a direction of a channel that has a slot.
    fn extend(&mut self, x: Chan, d: Dir, n: usize) -> Result<(), AllocError>
        requires { IsSome (slot_of self.old x) }
        ensures same { (y : ℕ) (e : Dir) → content_of self.new y e ≡ content_of self.old y e }
        ensures not_less { (y : ℕ) (e : Dir) → spare_of self.old y e ≤ spare_of self.new y e }
        ensures there { (y : ℕ) → is_there self.new y ≡ is_there self.old y }
        ensures slots { (y : ℕ) → IsSome (slot_of self.old y) → IsSome (slot_of self.new y) }
        ensures room { IsSome (slot_of self.new x) }
        ensures ok { OnOk result (n ≤ spare_of self.new x d) }
    {
        let mut slot = lend(&mut self.slots, x, self.alloc);
        let outcome = slot.reserve(d, n);
        restore(&mut self.slots, x, slot);
        outcome
    }

    /// Makes a slot for a channel that has none.
    fn open(&mut self, x: Chan) -> Result<(), AllocError>
        requires { slot_of self.old x ≡ None }
        ensures others { (y : ℕ) → y ≢ x → slot_of self.new y ≡ slot_of self.old y }
        ensures ok { OnOk result (IsSome (slot_of self.new x)) }
        ensures blank { is_there self.new x ≡ false }
    {
        self.slots.reserve(1)?;
        self.fronts.reserve(2)?;
        let slot = Slot::blank(self.alloc);
        let plus = slot.arrival(Dir::Plus);
        let minus = slot.arrival(Dir::Minus);
        self.fronts.insert(make_front(&plus, x, Dir::Plus), ());
        self.fronts.insert(make_front(&minus, x, Dir::Minus), ());
        self.slots.insert(x, slot);
        Ok(())
    }

    /// Adds a channel that is not there and that room was reserved for, with empty queues that are
    /// aimed nowhere. It takes no memory.
    pub fn add(&mut self, x: Chan)
        requires room { IsSome (slot_of self.old x) }
        requires absent { is_there self.old x ≡ false }
        ensures others { (y : ℕ) → y ≢ x → slot_of self.new y ≡ slot_of self.old y }
        ensures there { is_there self.new x ≡ true }
        ensures empty { (e : Dir) → content_of self.new x e ≡ Some ([], None) }
        ensures spare { (e : Dir) → spare_of self.old x e ≤ spare_of self.new x e }
    {
        let mut slot = lend(&mut self.slots, x, self.alloc);
        slot.revive();
        restore(&mut self.slots, x, slot);
    }

    /// How many numbers wait in a direction.
    pub fn waiting(&self, x: Chan, d: Dir) -> usize
        requires { is_there self.now x ≡ true }
        ensures { result ≡ option_map_or (λ w. length w.numbers) (queue_of self.now x d) 0 }
    {
        match self.slots.get(&x) {
            Some(slot) => slot.queue(d).len(),
            None => 0,
        }
    }

    /// Adds a number at the back of a direction. It takes no memory.
    pub fn enter(&mut self, x: Chan, d: Dir, no: EntryNo)
        requires there { is_there self.old x ≡ true }
        requires spare { 0 < spare_of self.old x d }
        ensures there { (y : ℕ) → is_there self.new y ≡ is_there self.old y }
        ensures slots { (y : ℕ) → slot_of self.new y ≡ (if y == x then option_map (λ s. with_side s d (pushed (side s d) no)) (slot_of self.old x) else slot_of self.old y) }
    {
        let mut slot = lend(&mut self.slots, x, self.alloc);
        let old = slot.arrival(d);
        slot.push(d, no);
        let new = slot.arrival(d);
        restore(&mut self.slots, x, slot);
        refresh(&mut self.fronts, x, d, &old, &new);
    }

    /// Takes the number at the front of a direction; `None` exactly where none waits. The room that
    /// was reserved stays, and the memory of what was taken comes back in time.
    pub fn take(&mut self, x: Chan, d: Dir) -> Option<EntryNo>
        requires { is_there self.old x ≡ true }
        ensures number { result ≡ option_and_then (λ w. first w.numbers) (queue_of self.old x d) }
        ensures there { (y : ℕ) → is_there self.new y ≡ is_there self.old y }
        ensures slots { (y : ℕ) → slot_of self.new y ≡ (if y == x then option_map (λ s. with_side s d (popped (side s d))) (slot_of self.old x) else slot_of self.old y) }
    {
        let mut slot = lend(&mut self.slots, x, self.alloc);
        let old = slot.arrival(d);
        let taken = slot.pop(d);
        let new = slot.arrival(d);
        restore(&mut self.slots, x, slot);
        refresh(&mut self.fronts, x, d, &old, &new);
        taken
    }

    /// Says for which component a direction waits; `None` where for nobody. It takes no memory.
    pub fn aim(&mut self, x: Chan, d: Dir, at: Option<Comp>)
        requires { is_there self.old x ≡ true }
        ensures there { (y : ℕ) → is_there self.new y ≡ is_there self.old y }
        ensures slots { (y : ℕ) → slot_of self.new y ≡ (if y == x then option_map (λ s. with_side s d (aimed (side s d) at)) (slot_of self.old x) else slot_of self.old y) }
    {
        let mut slot = lend(&mut self.slots, x, self.alloc);
        let old = slot.arrival(d);
        slot.set_aim(d, at);
        let new = slot.arrival(d);
        restore(&mut self.slots, x, slot);
        refresh(&mut self.fronts, x, d, &old, &new);
    }

    /// Takes a channel away with both queues.
    pub fn kill(&mut self, x: Chan)
        requires { is_there self.old x ≡ true }
        ensures { (y : ℕ) → slot_of self.new y ≡ (if y == x then None else slot_of self.old y) }
    {
        let slot = self.slots.remove(&x);
        self.fronts.remove(&slot.front(x, Dir::Plus));
        self.fronts.remove(&slot.front(x, Dir::Minus));
    }

    /// The first of what waits for a component: the least number at the front of a direction, the
    /// least channel among equals, and Plus before Minus; `None` exactly where nothing waits for it.
    pub fn first_at(&self, c: Comp) -> Option<(Chan, Dir, EntryNo)>
        ensures { IsFirstAt self.now c result }
    {
        let low = Front {
            at: Some(Arrival {
                comp: c,
                no: EntryNo {
                    position: 0,
                    place: 0,
                },
            }),
            chan: Chan(0),
            dir: Dir::Plus,
        };
        match self.fronts.first_from(&low) {
            Some(front) => found(front, c),
            None => None,
        }
    }
}

/// Takes the queues of a channel out, to be restored.
fn lend(slots: &mut Ordered<Chan, Slot>, x: Chan, alloc: Global) -> Slot
    requires { IsSome (value_of nat_cmp x slots.old.0) }
    ensures was { value_of nat_cmp x slots.old.0 ≡ Some result }
    ensures here { IsSome (value_of nat_cmp x slots.new.0) }
    ensures others { (q : ℕ) → is_eq (nat_cmp q x) ≡ false → value_of nat_cmp q slots.new.0 ≡ value_of nat_cmp q slots.old.0 }
{
    let mut slot = Slot::blank(alloc);
    slots.swap(&x, &mut slot);
    slot
}

/// Puts the queues of a channel back.
fn restore(slots: &mut Ordered<Chan, Slot>, x: Chan, slot: Slot)
    requires { IsSome (value_of nat_cmp x slots.old.0) }
    ensures { (q : ℕ) → value_of nat_cmp q slots.new.0 ≡ (if is_eq (nat_cmp q x) then Some slot else value_of nat_cmp q slots.old.0) }
{
    let mut slot = slot;
    slots.swap(&x, &mut slot);
}

/// Puts what waits at the front of a direction now in place of what did, unless it is the same.
fn refresh(
    fronts: &mut Ordered<Front, ()>,
    x: Chan,
    d: Dir,
    old: &Option<Arrival>,
    new: &Option<Arrival>,
)
    requires there { IsSome (value_of front_cmp (front_of old.now x d) fronts.old.0) }
    requires absent { is_eq (front_cmp (front_of new.now x d) (front_of old.now x d)) ≡ false → value_of front_cmp (front_of new.now x d) fronts.old.0 ≡ None }
    ensures { (q : Front) → value_of front_cmp q fronts.new.0 ≡ (if is_eq (front_cmp q (front_of new.now x d)) then Some tt else if is_eq (front_cmp q (front_of old.now x d)) then None else value_of front_cmp q fronts.old.0) }
{
    let was = make_front(old, x, d);
    let now = make_front(new, x, d);
    if !is_same(&was, &now) {
        fronts.remove(&was);
        fronts.insert(now, ());
    }
}
