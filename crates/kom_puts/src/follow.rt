ghost use Rattle.std.specs.Prelude.{◌≡◌, ℕ, ◌<◌, ◌≤◌, ◌+◌, true, length, IfOk, IfSome, OnOk};
ghost use Rattle.std.specs.Option.{option_map};
ghost use Rattle.kom_base.specs.Lists.{first};
ghost use Rattle.kom_lang.specs.declared.body.Body.{Body as BodyValue};
ghost use Rattle.kom_record.specs.declared.item.Control.TheVariants.{Dumped};
ghost use Rattle.kom_state.specs.Parts.{state_of, control_spare};
ghost use Rattle.kom_state.specs.Readings.{ancestry_at};
ghost use Rattle.kom_state.specs.Rooms.{HasNoLess, IsSame, KeepsQueues, KeepsRoom};
ghost use Rattle.kom_marks.specs.Marking.{IsMarked};
ghost use Rattle.kom_refine.specs.Steps.{ArePut};
ghost use Rattle.kom_puts.specs.Puts.{FollowsFrom, HasRoomToFollow, TakesOneAtMost, dumped_in, following};

use crate::children::{put_to_children, reserve_children, signal_of};
use crate::ones::{put_one, reserve_one};
use kom_base::{Comp, Copied};
use kom_comps::Comps;
use kom_lang::Body;
use kom_marks::marks_are_few;
use kom_record::{Control, Item};
use kom_state::RunState;
use std::alloc::{AllocError, Global};

/// The answer to a Dump: the variables of the body that its handling leaves, for the parent of the
/// component; `None` where the item is no Dump, and for the root. It costs a copy of the variables.
pub fn dumped_for(
    alloc: Global,
    state: &RunState,
    c: Comp,
    body: &Body,
    item: &Item,
) -> Result<Option<(Comp, Control)>, AllocError>
    requires { c < length (state_of state.now).nodes }
    ensures { IfOk result (λ dumped. dumped ≡ dumped_in (state_of state.now) c body.now item.now) }
{
    match item {
        Item::Control(Control::Dump) => dumped_by(alloc, state, c, body),
        _ => Ok(None),
    }
}

/// The variables of the body, for the parent of the component, if it has one.
fn dumped_by(
    alloc: Global,
    state: &RunState,
    c: Comp,
    body: &Body,
) -> Result<Option<(Comp, Control)>, AllocError>
    requires { c < length (state_of state.now).nodes }
    ensures { IfOk result (λ dumped. dumped ≡ option_map (λ q. (q.0, Dumped q.1 body.now.vars)) (first (ancestry_at (state_of state.now) c))) }
{
    match state.parent(c) {
        Some((parent, slot)) => {
            let values = body.vars.copy(alloc)?;
            Ok(Some((parent, Control::Dumped { slot, values })))
        }
        None => Ok(None),
    }
}

/// Makes room for `n` more control items of each component to which something follows from the item
/// that a component handles. It leaves the state as it is, and on want of memory no less room than
/// before. It costs the number of slots of the component.
pub fn reserve_to_follow(
    state: &mut RunState,
    c: Comp,
    body: &Body,
    item: &Item,
    n: usize,
) -> Result<(), AllocError>
    requires made { c < length (state_of state.old).nodes }
    requires few { length body.now.slots ≤ 256 }
    ensures same { IsSame (state_of state.old) (state_of state.new) }
    ensures not_less { HasNoLess state.old state.new }
    ensures ok { OnOk result (HasRoomToFollow n (state_of state.old) c body.now item.now state.new) }
{
    match signal_of(item) {
        Some(_) => reserve_children(state, c, &body.slots, n),
        None => {
            let parent = dump_receiver(state, c, item);
            reserve_one(state, parent, n)
        }
    }
}

/// To whom a Dump is answered; `None` where the item is no Dump, and for the root.
fn dump_receiver(state: &RunState, c: Comp, item: &Item) -> Option<Comp>
    requires { c < length (state_of state.now).nodes }
    ensures { (b : BodyValue) → result ≡ option_map (λ a. a.0) (dumped_in (state_of state.now) c b item.now) }
{
    match item {
        Item::Control(Control::Dump) => parent_of(state, c),
        _ => None,
    }
}

/// The parent of a component, if it has one.
fn parent_of(state: &RunState, c: Comp) -> Option<Comp>
    requires { c < length (state_of state.now).nodes }
    ensures { result ≡ option_map (λ q. q.0) (first (ancestry_at (state_of state.now) c)) }
{
    match state.parent(c) {
        Some((parent, _)) => Some(parent),
        None => None,
    }
}

/// Puts what follows from the item that a living component handles, whatever its handlers do: Start
/// and Stop go on to its children, and a Dump is answered to its parent. It marks those components.
/// It takes no memory, and costs the number of slots of the component.
pub fn put_by_item(
    state: &mut RunState,
    marks: &mut Comps,
    c: Comp,
    body: &Body,
    item: &Item,
    dumped: Option<(Comp, Control)>,
)
    requires living { (state_of state.old).living c ≡ true }
    requires few { length body.now.slots ≤ 256 }
    requires dumped { dumped ≡ dumped_in (state_of state.old) c body.now item.now }
    requires spare { HasRoomToFollow 1 (state_of state.old) c body.now item.now state.old }
    requires bound { length (state_of state.old).nodes ≤ marks.old.bound }
    ensures step { FollowsFrom c body.now item.now (state_of state.old) (state_of state.new) }
    ensures puts { ArePut (following (state_of state.old) c body.now item.now) (state_of state.old) (state_of state.new) }
    ensures room { KeepsRoom state.old state.new }
    ensures controls { TakesOneAtMost state.old state.new }
    ensures unborn { (d : ℕ) → length (state_of state.old).nodes ≤ d → control_spare state.old d ≤ control_spare state.new d }
    ensures queues { KeepsQueues state.old state.new }
    ensures marks { IsMarked (1 + length body.now.slots) marks.old marks.new (state_of state.old) (state_of state.new) }
{
    state.holds_together();
    marks_are_few();
    match signal_of(item) {
        Some(signal) => put_to_children(state, marks, c, &body.slots, signal),
        None => put_one(state, marks, dumped),
    }
}
