ghost use Rattle.std.specs.Prelude.{◌≡◌, ℕ, ◌<◌, true, false, length, IsSome};
ghost use Rattle.kom_refine.specs.Steps.{IsRemoved, is_below};
ghost use Rattle.kom_tree.specs.Forest.{is_alive, is_under, parent_of};
ghost use Rattle.kom_state.specs.Parts.{state_of};
ghost use Rattle.kom_state.specs.Removals.{IsWithout, dies_with};
ghost use Rattle.kom_state.specs.Rooms.{FreesRoom};

use crate::cutting::{cut, deepest, seat};
use crate::state::RunState;
use kom_base::Comp;

impl RunState {
    /// Ends the component in a slot with all below it, their control items and bodies, and their
    /// channels with what waits in them. It costs what it takes away.
    pub fn remove(&mut self, c: Comp, slot: u8)
        requires { c < length (state_of self.old).nodes }
        ensures step { IsRemoved (dies_with self.old c slot) c slot (state_of self.old) (state_of self.new) }
        ensures room { FreesRoom (is_below (state_of self.old) c slot) (dies_with self.old c slot) self.old self.new }
    {
        let mut next = deepest(&self.tree, c, slot);
        while let Some(d) = next {
            self.end_last(d);
            next = deepest(&self.tree, c, slot);
        }
    }

    /// Ends a living component that has a parent, and below which nobody lives.
    fn end_last(&mut self, d: Comp)
        requires living { is_alive self.old.tree.instances d ≡ true }
        requires last { (e : ℕ) → is_alive self.old.tree.instances e ≡ true → is_under d (parent_of self.old.tree.instances e) ≡ false }
        requires below { IsSome (parent_of self.old.tree.instances d) }
        ensures { IsWithout d self.old self.new }
    {
        let (p, slot) = seat(&self.tree, d);
        let (first, count) = self.numbers.span(d);
        cut(&mut self.wiring, &mut self.queues, first.0, count);
        self.life.remove(d);
        self.bodies.set(d, None);
        self.tree.remove(p, slot);
    }
}
