//! A lot steals from the others.
ghost use Rattle.std.specs.Prelude.{◌≡◌, ◌≢◌, ℕ, ◌+◌, ◌≤◌, ◌<◌, ◌++◌, [], ◌∷◌, false, true, length, MatchOption};
ghost use Rattle.crossbeam_deque.specs.Steals.{is_empty};
ghost use Rattle.kom_ready.specs.Counts.{Rose};
ghost use Rattle.kom_ready.specs.Lots.{IsLotOf, IsSameLot, NoneFell, found_of, given_of, pushed_of};

use crate::lots::{Lot, ReadySet};
use crate::rule::{Balance, Hand, Moved, Taken};
use crossbeam_deque::Steal;
use kom_base::Comp;
use std::alloc::Global;
use std::sync::Wait;

/// How many numbers move at once.
const BATCH: usize = 32;

impl Lot {
    /// The next component: the first of the own deque, or else, of a batch from the deque of the first
    /// worker after the own one, round the circle, that has some. A steal that lost against another
    /// worker is tried again, so the call may wait. It takes no memory. `None` comes only where the
    /// own deque and each other's were found empty in this call.
    pub fn next<R: Wait>(&mut self, rt: &R, set: &ReadySet) -> Option<Comp>
        requires { IsLotOf set.now self.old }
        ensures same { IsSameLot self.old self.new }
        ensures pushed { pushed_of self.new ≡ pushed_of self.old }
        ensures given { MatchOption result ((given_of self.new ≡ given_of self.old) × ((j : ℕ) → j < length self.old.guests.items → Rose (found_of self.old j) (found_of self.new j))) (λ c. given_of self.new ≡ given_of self.old ++ c ∷ []) }
        ensures found { NoneFell self.old self.new }
    {
        for _ in rt.forever() {
            if let Some(c) = self.pop() {
                return Some(c);
            }
            if !self.steal(rt, set) {
                return None;
            }
        }
        unreachable!()
    }

    /// Steals from the first worker after the own one, round the circle, that has something; whether
    /// there was one.
    fn steal<R: Wait>(&mut self, rt: &R, set: &ReadySet) -> bool
        requires { IsLotOf set.now self.old }
        ensures same { IsSameLot self.old self.new }
        ensures pushed { pushed_of self.new ≡ pushed_of self.old }
        ensures given { given_of self.new ≡ given_of self.old }
        ensures empty { result ≡ false → (j : ℕ) → j < length self.old.guests.items → j ≢ self.old.number → Rose (found_of self.old j) (found_of self.new j) }
        ensures found { NoneFell self.old self.new }
    {
        let own = self.number;
        self.steal_among(rt, set, own + 1, set.thieves.len()) || self.steal_among(rt, set, 0, own)
    }

    /// Steals from the first of some workers that has something; whether there was one.
    fn steal_among<R: Wait>(&mut self, rt: &R, set: &ReadySet, low: usize, high: usize) -> bool
        requires of { IsLotOf set.now self.old }
        requires high { high ≤ length self.old.guests.items }
        ensures same { IsSameLot self.old self.new }
        ensures pushed { pushed_of self.new ≡ pushed_of self.old }
        ensures given { given_of self.new ≡ given_of self.old }
        ensures empty { result ≡ false → (j : ℕ) → low ≤ j → j < high → Rose (found_of self.old j) (found_of self.new j) }
        ensures found { NoneFell self.old self.new }
    {
        for j in low..high {
            if self.steal_from(rt, set, j) {
                return true;
            }
        }
        false
    }

    /// Steals from one worker; whether there was something.
    fn steal_from<R: Wait>(&mut self, rt: &R, set: &ReadySet, j: usize) -> bool
        requires of { IsLotOf set.now self.old }
        requires there { j < length self.old.guests.items }
        ensures same { IsSameLot self.old self.new }
        ensures pushed { pushed_of self.new ≡ pushed_of self.old }
        ensures given { given_of self.new ≡ given_of self.old }
        ensures empty { result ≡ false → Rose (found_of self.old j) (found_of self.new j) }
        ensures found { NoneFell self.old self.new }
    {
        for _ in rt.forever() {
            match self.try_to_steal(set, j) {
                Steal::Success(_) => return true,
                Steal::Empty => return false,
                Steal::Retry => {}
            }
        }
        unreachable!()
    }

    /// Moves a batch from the deque of one worker to the own one, if no other worker comes between.
    fn try_to_steal(&mut self, set: &ReadySet, j: usize) -> Steal<()>
        requires of { IsLotOf set.now self.old }
        requires there { j < length self.old.guests.items }
        ensures same { IsSameLot self.old self.new }
        ensures pushed { pushed_of self.new ≡ pushed_of self.old }
        ensures given { given_of self.new ≡ given_of self.old }
        ensures empty { is_empty result ≡ true → Rose (found_of self.old j) (found_of self.new j) }
        ensures found { NoneFell self.old self.new }
    {
        let guest = &mut self.guests[j];
        let stolen = set.thieves[j].steal_batch_as::<Global, Hand, Balance, Taken, Moved>(
            &mut guest.pass,
            &mut self.own,
            BATCH,
        );
        if stolen.is_empty() {
            guest.note();
        }
        stolen
    }
}
