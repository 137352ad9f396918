//! What comes back to a deque, and what is taken out of it at the end.
ghost use Rattle.std.specs.Prelude.{◌≡◌, ◌+◌, ◌<◌, ◌≤◌, ◌∷◌, ◌++◌, [], length, vec_capacity, vec_len, MatchOption};
ghost use Rattle.std.specs.List.{sum_by};
ghost use Rattle.kom_ready.specs.Guests.{guest_deque};
ghost use Rattle.kom_ready.specs.Rule.{IsSettled, IsWithin, all_parts, hand};
ghost use Rattle.kom_ready.specs.Stores.{IsBack, IsDrained, store_deque, store_view};

use crate::guest::Guest;
use crate::rule::{Cut, Drained, Within};
use crate::store::Store;
use kom_base::Comp;

impl Store {
    /// Takes a pass back.
    pub(crate) fn merge(&mut self, guest: Guest)
        requires { guest_deque guest ≡ store_deque self.old }
        ensures { IsBack guest self.old self.new }
    {
        let Guest { pass, found: _ } = guest;
        self.own.absorb::<Cut>(pass);
        self.own.len_as::<Within>();
    }

    /// Takes the first out, where all passes are back.
    fn pop(&mut self) -> Option<Comp>
        ensures { MatchOption result ((store_view self.new ≡ store_view self.old) × IsSettled (store_view self.old)) (λ c. (store_view self.new ≡ hand (store_view self.old).parts (store_view self.old).pushed (store_view self.old).put ((store_view self.old).taken ++ c ∷ [])) × IsWithin (store_view self.new)) }
    {
        self.own.pop_as::<Drained>()
    }

    /// Takes all out, where all passes are back, and puts it behind what is left, for which there is
    /// room.
    pub(crate) fn drain(&mut self, left: &mut Vec<Comp>)
        requires full { (store_view self.old).parts ≡ all_parts }
        requires room { length (store_view self.old).put + vec_len left.old ≤ length (store_view self.old).taken + vec_capacity left.old }
        ensures drained { IsDrained self.old self.new left.old.items left.new.items }
        ensures capacity { vec_capacity left.new ≡ vec_capacity left.old }
    {
        while let Some(c) = self.pop() {
            left.push_reserved(c);
        }
    }
}
