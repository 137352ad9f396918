ghost use Rattle.std.specs.Prelude.{◌≡◌, ℕ, ◌<◌, ◌≤◌, ◌+◌, true, length, OnOk, Option, List};
ghost use Rattle.kom_state.specs.Parts.{state_of, control_spare};
ghost use Rattle.kom_state.specs.Rooms.{HasNoLess, IsSame, KeepsQueues, KeepsRoom};
ghost use Rattle.kom_marks.specs.Marking.{IsMarked};
ghost use Rattle.kom_refine.specs.Steps.{ArePut};
ghost use Rattle.kom_puts.specs.Puts.{HasRoomForChildren, TakesOneAtMost, to_children_in};
ghost use Rattle.kom_puts.specs.Signals.{item_of, signal_in};

use crate::ones::{put_one, reserve_one, to_child};
use kom_base::Comp;
use kom_comps::Comps;
use kom_lang::Slots;
use kom_marks::{marks_add_up, marks_stay};
use kom_record::{Control, Item};
use kom_state::RunState;
use kom_wakes::same_work_goes_on;
use std::alloc::AllocError;

/// What a component that is started or stopped passes on to its children.
#[derive(Clone, Copy, Debug, PartialEq, Eq)]
pub enum Signal {
    Start,
    Stop,
}

impl Signal {
    /// The control item of it.
    pub fn item(self) -> Control
        ensures { result ≡ item_of self }
    {
        match self {
            Signal::Start => Control::Start,
            Signal::Stop => Control::Stop,
        }
    }
}

/// What a handling of an item passes on, if it does.
pub fn signal_of(item: &Item) -> Option<Signal>
    ensures { result ≡ signal_in item.now }
{
    match item {
        Item::Control(Control::Start) => Some(Signal::Start),
        Item::Control(Control::Stop) => Some(Signal::Stop),
        _ => None,
    }
}

/// Makes room for `n` more items of each child in the slots of a component. It leaves the state as
/// it is, and on want of memory no less room than before.
pub fn reserve_children(
    state: &mut RunState,
    c: Comp,
    slots: &Slots,
    n: usize,
) -> Result<(), AllocError>
    requires made { c < length (state_of state.old).nodes }
    requires few { length slots.now ≤ 256 }
    ensures same { IsSame (state_of state.old) (state_of state.new) }
    ensures not_less { HasNoLess state.old state.new }
    ensures ok { OnOk result (HasRoomForChildren n (state_of state.old) c slots.now state.new) }
{
    for s in 0..slots.len() {
        let child = state.child(c, s as u8);
        reserve_one(state, child, n)?;
    }
    Ok(())
}

/// Puts the item to each child in the slots of a component, and marks the child. It takes no memory.
pub fn put_to_children(
    state: &mut RunState,
    marks: &mut Comps,
    c: Comp,
    slots: &Slots,
    signal: Signal,
)
    requires made { c < length (state_of state.old).nodes }
    requires few { length slots.now ≤ 256 }
    requires spare { HasRoomForChildren 1 (state_of state.old) c slots.now state.old }
    requires bound { length (state_of state.old).nodes ≤ marks.old.bound }
    ensures step { ArePut (to_children_in (state_of state.old) c slots.now (item_of signal)) (state_of state.old) (state_of state.new) }
    ensures room { KeepsRoom state.old state.new }
    ensures controls { TakesOneAtMost state.old state.new }
    ensures unborn { (d : ℕ) → length (state_of state.old).nodes ≤ d → control_spare state.old d ≤ control_spare state.new d }
    ensures queues { KeepsQueues state.old state.new }
    ensures marks { IsMarked (length slots.now) marks.old marks.new (state_of state.old) (state_of state.new) }
{
    state.holds_together();
    same_work_goes_on();
    marks_stay();
    marks_add_up();
    for s in 0..slots.len() {
        let to = to_child(state, c, s as u8, signal.item());
        put_one(state, marks, to);
    }
}
