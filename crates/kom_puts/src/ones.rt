ghost use Rattle.std.specs.Prelude.{◌≡◌, ℕ, ◌<◌, ◌≤◌, ◌-◌, true, length, IfSome, OnOk};
ghost use Rattle.kom_state.specs.Parts.{state_of, control_spare};
ghost use Rattle.kom_state.specs.Rooms.{HasNoLess, IsSame, KeepsQueues, KeepsRoom};
ghost use Rattle.kom_marks.specs.Marking.{IsMarked};
ghost use Rattle.kom_refine.specs.Steps.{ArePut};
ghost use Rattle.kom_puts.specs.Puts.{HasRoomFor, items_for, to_child_in};

use kom_base::Comp;
use kom_comps::Comps;
use kom_marks::{mark, marks_are_few, marks_stay};
use kom_record::Control;
use kom_state::RunState;
use kom_wakes::puts_leave;
use std::alloc::AllocError;

/// Makes room for `n` more control items of a component, if one is given. It leaves the state as it
/// is, and on want of memory no less room than before.
pub fn reserve_one(state: &mut RunState, c: Option<Comp>, n: usize) -> Result<(), AllocError>
    ensures same { IsSame (state_of state.old) (state_of state.new) }
    ensures not_less { HasNoLess state.old state.new }
    ensures ok { OnOk result (IfSome c (λ d. n ≤ control_spare state.new d)) }
{
    match c {
        Some(d) => state.reserve_controls(d, n),
        None => Ok(()),
    }
}

/// Puts a control item behind those that wait for a living component, if one is given, and marks
/// the component. It takes no memory.
pub fn put_one(state: &mut RunState, marks: &mut Comps, to: Option<(Comp, Control)>)
    requires living { IfSome to (λ a. (state_of state.old).living a.0 ≡ true) }
    requires spare { HasRoomFor 1 to state.old }
    requires bound { length (state_of state.old).nodes ≤ marks.old.bound }
    ensures step { ArePut (items_for to) (state_of state.old) (state_of state.new) }
    ensures room { KeepsRoom state.old state.new }
    ensures controls { (d : ℕ) → control_spare state.new d ≡ control_spare state.old d - length (items_for to d) }
    ensures queues { KeepsQueues state.old state.new }
    ensures marks { IsMarked 1 marks.old marks.new (state_of state.old) (state_of state.new) }
{
    state.holds_together();
    puts_leave();
    marks_stay();
    marks_are_few();
    if let Some((d, item)) = to {
        state.put(d, item);
        mark(marks, d);
    }
}

/// The item for the component in a slot of one that was created, if one is there.
pub fn to_child(state: &RunState, c: Comp, slot: u8, item: Control) -> Option<(Comp, Control)>
    requires { c < length (state_of state.now).nodes }
    ensures { result ≡ to_child_in (state_of state.now) c slot item }
{
    match state.child(c, slot) {
        Some(d) => Some((d, item)),
        None => None,
    }
}
