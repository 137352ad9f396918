ghost use Rattle.std.specs.Prelude.{◌≡◌, ◌≤◌, true, OnOk};
ghost use Rattle.kom_state.specs.Parts.{state_of, instance_spare, channel_spare, control_spare, has_row, queue_spare, has_queues};
ghost use Rattle.kom_state.specs.Rooms.{HasNoLess, IsSame};

use crate::state::RunState;
use kom_base::{Chan, Comp, Dir};
use std::alloc::AllocError;

impl RunState {
    /// Makes room for `n` more instances. Like each call that reserves, it leaves the state as it
    /// is, and on want of memory no less room than before.
    pub fn reserve_instances(&mut self, n: usize) -> Result<(), AllocError>
        ensures same { IsSame (state_of self.old) (state_of self.new) }
        ensures not_less { HasNoLess self.old self.new }
        ensures ok { OnOk result (n ≤ instance_spare self.new) }
    {
        self.tree.reserve(n)?;
        self.bodies.reserve(n)?;
        self.numbers.reserve(n)
    }

    /// Makes room for `n` more channels.
    pub fn reserve_channels(&mut self, n: usize) -> Result<(), AllocError>
        ensures same { IsSame (state_of self.old) (state_of self.new) }
        ensures not_less { HasNoLess self.old self.new }
        ensures ok { OnOk result (n ≤ channel_spare self.new) }
    {
        self.wiring.reserve(n)
    }

    /// Makes room for `n` more control items of a component, and for its row where it is not
    /// created yet.
    pub fn reserve_controls(&mut self, c: Comp, n: usize) -> Result<(), AllocError>
        ensures same { IsSame (state_of self.old) (state_of self.new) }
        ensures not_less { HasNoLess self.old self.new }
        ensures row { OnOk result (has_row self.new c ≡ true) }
        ensures ok { OnOk result (n ≤ control_spare self.new c) }
    {
        self.life.reserve(c, n)
    }

    /// Makes room for `n` more numbers in a direction of a channel, and for its queues where it is
    /// not created yet.
    pub fn reserve_queue(&mut self, x: Chan, d: Dir, n: usize) -> Result<(), AllocError>
        ensures same { IsSame (state_of self.old) (state_of self.new) }
        ensures not_less { HasNoLess self.old self.new }
        ensures slot { OnOk result (has_queues self.new x ≡ true) }
        ensures ok { OnOk result (n ≤ queue_spare self.new x d) }
    {
        self.queues.reserve(x, d, n)
    }
}
