ghost use Rattle.std.specs.Prelude.{◌≡◌, ℕ, ◌+◌, ◌≤◌, ◌||◌, true, length, IsSome};
ghost use Rattle.kom_comps.specs.Members.{has};
ghost use Rattle.kom_marks.specs.Marking.{IsMarked};
ghost use Rattle.kom_state.specs.Parts.{state_of};
ghost use Rattle.kom_wakes.specs.Work.{HasSameWork};
ghost use Rattle.kom_state.specs.Rooms.{KeepsRoom, KeepsControls, KeepsQueues};
ghost use Rattle.kom_changes.specs.Ends.{EndsAreMade, HasChannel, has_end_at, end_at, is_comp};
ghost use Rattle.kom_changes.specs.Relinks.{Holds, Resumes, Plugs, Unplugs, IsWireHeld};

use kom_base::{Chan, Comp, Dir, Half};
use kom_comps::Comps;
use kom_marks::mark;
use kom_state::{RunState, channels_are_numbered};
use kom_wakes::relinks_leave;

/// Holds a channel of a component, and marks the components at its ends, which receive nothing from
/// it any more. It takes no memory.
pub fn hold(state: &mut RunState, marks: &mut Comps, c: Comp, wire: u8)
    requires channel { HasChannel state.old c wire }
    requires ends { EndsAreMade (state_of state.old) }
    requires bound { length (state_of state.old).nodes ≤ marks.old.bound }
    ensures step { Holds c wire state.old state.new }
    ensures room { KeepsRoom state.old state.new }
    ensures controls { KeepsControls state.old state.new }
    ensures queues { KeepsQueues state.old state.new }
    ensures marks { IsMarked 2 marks.old marks.new (state_of state.old) (state_of state.new) }
{
    channels_are_numbered();
    relinks_leave();
    state.holds_together();
    let x = state.channel(c, wire);
    mark_ends(state, marks, x);
    state.hold(x);
    state.holds_together();
}

/// Ends the hold of a channel of a component, and marks the components at its ends, which receive
/// from it again. It takes no memory.
pub fn resume(state: &mut RunState, marks: &mut Comps, c: Comp, wire: u8)
    requires channel { HasChannel state.old c wire }
    requires ends { EndsAreMade (state_of state.old) }
    requires bound { length (state_of state.old).nodes ≤ marks.old.bound }
    ensures step { Resumes c wire state.old state.new }
    ensures room { KeepsRoom state.old state.new }
    ensures controls { KeepsControls state.old state.new }
    ensures queues { KeepsQueues state.old state.new }
    ensures marks { IsMarked 2 marks.old marks.new (state_of state.old) (state_of state.new) }
{
    channels_are_numbered();
    relinks_leave();
    state.holds_together();
    let x = state.channel(c, wire);
    mark_ends(state, marks, x);
    state.resume(x);
    state.holds_together();
}

/// Plugs an end of a held channel of a component at a half, wherever it was. Nobody receives from a
/// held channel, so nobody has more or less to do. It takes no memory.
pub fn plug(state: &mut RunState, c: Comp, wire: u8, end: Dir, at: Half)
    requires channel { HasChannel state.old c wire }
    requires held { IsWireHeld state.old c wire }
    ensures step { Plugs c wire end at state.old state.new }
    ensures room { KeepsRoom state.old state.new }
    ensures controls { KeepsControls state.old state.new }
    ensures queues { KeepsQueues state.old state.new }
    ensures work { (d : ℕ) → HasSameWork (state_of state.old) (state_of state.new) d }
{
    channels_are_numbered();
    relinks_leave();
    state.holds_together();
    let x = state.channel(c, wire);
    state.plug(x, end, at);
    state.holds_together();
}

/// Frees an end of a held channel of a component. Nobody has more or less to do. It takes no memory.
pub fn unplug(state: &mut RunState, c: Comp, wire: u8, end: Dir)
    requires channel { HasChannel state.old c wire }
    requires held { IsWireHeld state.old c wire }
    ensures step { Unplugs c wire end state.old state.new }
    ensures room { KeepsRoom state.old state.new }
    ensures controls { KeepsControls state.old state.new }
    ensures queues { KeepsQueues state.old state.new }
    ensures work { (d : ℕ) → HasSameWork (state_of state.old) (state_of state.new) d }
{
    channels_are_numbered();
    relinks_leave();
    state.holds_together();
    let x = state.channel(c, wire);
    state.unplug(x, end);
    state.holds_together();
}

/// Marks the components at the ends of a living channel.
fn mark_ends(state: &RunState, marks: &mut Comps, x: Chan)
    requires there { IsSome ((state_of state.now).links x) }
    requires ends { EndsAreMade (state_of state.now) }
    requires bound { length (state_of state.now).nodes ≤ marks.old.bound }
    ensures each { (d : ℕ) → has marks.new d ≡ (has_end_at (state_of state.now) x d || has marks.old d) }
    ensures few { length marks.new.list ≤ length marks.old.list + 2 }
    ensures bound { marks.new.bound ≡ marks.old.bound }
{
    mark_end(state, marks, x, Dir::Minus);
    mark_end(state, marks, x, Dir::Plus);
}

/// Marks the component at an end of a living channel, if the end is plugged.
fn mark_end(state: &RunState, marks: &mut Comps, x: Chan, end: Dir)
    requires there { IsSome ((state_of state.now).links x) }
    requires ends { EndsAreMade (state_of state.now) }
    requires bound { length (state_of state.now).nodes ≤ marks.old.bound }
    ensures each { (d : ℕ) → has marks.new d ≡ (is_comp d (end_at (state_of state.now) x end) || has marks.old d) }
    ensures few { length marks.new.list ≤ length marks.old.list + 1 }
    ensures bound { marks.new.bound ≡ marks.old.bound }
{
    if let Some(half) = state.end(x, end) {
        mark(marks, half.comp);
    }
}
