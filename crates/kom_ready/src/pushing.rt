//! What is pushed to a lot, and what it has of its own.
ghost use Rattle.std.specs.Prelude.{◌≡◌, ◌⊎◌, ℕ, ◌+◌, ◌<◌, ◌≤◌, ◌++◌, [], ◌∷◌, length, min, IfErr, MatchOption, MatchResult};
ghost use Rattle.crossbeam_deque.specs.Handles.{worker_capacity, worker_index};
ghost use Rattle.kom_ready.specs.Counts.{Rose, last_count};
ghost use Rattle.kom_ready.specs.Lots.{IsSameLot, NoneElse, NoneFell, found_of, given_of, pushed_of};

use crate::lots::Lot;
use crate::rule::{Pushed, Taken};
use kom_base::Comp;

impl Lot {
    /// Puts a component behind the others. It comes back only where the deque cannot grow, or where
    /// 4,294,967,295 components were pushed; all is then as before. The deque need not grow until as
    /// many went into it as it has slots.
    pub fn push(&mut self, c: Comp) -> Result<(), Comp>
        ensures same { IsSameLot self.old self.new }
        ensures pushed { MatchResult result (λ _. pushed_of self.new ≡ pushed_of self.old ++ c ∷ []) (λ x. (x ≡ c) × (pushed_of self.new ≡ pushed_of self.old)) }
        ensures refused { IfErr result (λ _. (length (pushed_of self.old) ≡ 4294967295) ⊎ (worker_capacity self.old.own ≤ worker_index self.old.own)) }
        ensures given { given_of self.new ≡ given_of self.old }
        ensures found { (j : ℕ) → found_of self.new j ≡ found_of self.old j }
    {
        if self.pushes == u32::MAX {
            return Err(c);
        }
        self.own.push_as::<Pushed>(c)?;
        self.pushes += 1;
        Ok(())
    }

    /// The first of the own deque; `None` only where it was empty at a moment of the call, which is
    /// counted.
    pub(crate) fn pop(&mut self) -> Option<Comp>
        requires { self.old.number < length self.old.guests.items }
        ensures same { IsSameLot self.old self.new }
        ensures pushed { pushed_of self.new ≡ pushed_of self.old }
        ensures given { MatchOption result ((given_of self.new ≡ given_of self.old) × Rose (found_of self.old self.old.number) (found_of self.new self.old.number)) (λ c. given_of self.new ≡ given_of self.old ++ c ∷ []) }
        ensures found { NoneFell self.old self.new }
        ensures counts { MatchOption result (NoneElse self.old.number self.old self.new × (found_of self.new self.old.number ≡ min (found_of self.old self.old.number + 1) last_count)) (λ _. (j : ℕ) → found_of self.new j ≡ found_of self.old j) }
    {
        match self.own.pop_as::<Taken>() {
            Some(c) => Some(c),
            None => {
                let own = self.number;
                self.guests[own].note();
                None
            }
        }
    }
}
