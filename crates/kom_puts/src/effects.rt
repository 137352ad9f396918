ghost use Rattle.std.specs.Prelude.{◌≡◌, ℕ, ◌<◌, ◌≤◌, ◌-◌, true, length, All, OnOk};
ghost use Rattle.std.specs.Option.{option_map};
ghost use Rattle.kom_state.specs.Parts.{state_of, control_spare};
ghost use Rattle.kom_state.specs.Rooms.{HasNoLess, IsSame, KeepsQueues, KeepsRoom};
ghost use Rattle.kom_record.specs.declared.item.Control.TheVariants.{Fault};
ghost use Rattle.kom_marks.specs.Marking.{IsMarked};
ghost use Rattle.kom_refine.specs.Steps.{ArePut};
ghost use Rattle.kom_puts.specs.Puts.{HasRoomFor, IsEffectAt, TakesOneAtMost, escalated_to, is_above, items_for, leaves_structure, put_in};

use crate::ones::{put_one, reserve_one, to_child};
use kom_base::Comp;
use kom_comps::Comps;
use kom_lang::Effect;
use kom_record::{Control, Item};
use kom_state::RunState;
use std::alloc::AllocError;

/// Makes room for `n` more control items of each component to which one of these effects of a
/// handling of an item by a component puts one as the state is. `told` is who is told of a fault of
/// the component. It leaves the state as it is, and on want of memory no less room than before.
pub fn reserve_for_effects(
    state: &mut RunState,
    c: Comp,
    item: &Item,
    told: &Option<(Comp, u8)>,
    effects: &[Effect],
    n: usize,
) -> Result<(), AllocError>
    requires { c < length (state_of state.old).nodes }
    ensures same { IsSame (state_of state.old) (state_of state.new) }
    ensures not_less { HasNoLess state.old state.new }
    ensures ok { OnOk result (All (λ e. HasRoomFor n (put_in (state_of state.old) c item.now told.now e) state.new) effects.now) }
{
    for k in 0..effects.len() {
        let receiver = receiver_in(state, c, item, told, &effects[k]);
        reserve_one(state, receiver, n)?;
    }
    Ok(())
}

/// Puts what one effect of a handling of an item by a living component puts: Start, Stop and Dump go
/// to the component in the slot, and a fault that is escalated to `told`, who is told of a fault of
/// the component by the record before the handling. An effect that changes a channel or an instance
/// is not one of these; each other puts nothing. Who gets an item is marked. It takes no memory.
pub fn put_by_effect(
    state: &mut RunState,
    marks: &mut Comps,
    c: Comp,
    item: &Item,
    told: &Option<(Comp, u8)>,
    effect: &Effect,
)
    requires living { (state_of state.old).living c ≡ true }
    requires above { is_above (state_of state.old) c told.now ≡ true }
    requires spare { HasRoomFor 1 (put_in (state_of state.old) c item.now told.now effect.now) state.old }
    requires bound { length (state_of state.old).nodes ≤ marks.old.bound }
    requires structure { leaves_structure effect.now ≡ true }
    ensures step { IsEffectAt c item.now told.now effect.now (state_of state.old) (state_of state.new) }
    ensures puts { ArePut (items_for (put_in (state_of state.old) c item.now told.now effect.now)) (state_of state.old) (state_of state.new) }
    ensures room { KeepsRoom state.old state.new }
    ensures controls { TakesOneAtMost state.old state.new }
    ensures spares { (d : ℕ) → control_spare state.new d ≡ control_spare state.old d - length (items_for (put_in (state_of state.old) c item.now told.now effect.now) d) }
    ensures queues { KeepsQueues state.old state.new }
    ensures marks { IsMarked 1 marks.old marks.new (state_of state.old) (state_of state.new) }
{
    state.holds_together();
    let to = put_of(state, c, item, told, effect);
    put_one(state, marks, to);
}

/// Which item an effect puts, and to whom.
fn put_of(
    state: &RunState,
    c: Comp,
    item: &Item,
    told: &Option<(Comp, u8)>,
    effect: &Effect,
) -> Option<(Comp, Control)>
    requires { c < length (state_of state.now).nodes }
    ensures { result ≡ put_in (state_of state.now) c item.now told.now effect.now }
{
    match effect {
        Effect::Start(slot) => to_child(state, c, *slot, Control::Start),
        Effect::Stop(slot) => to_child(state, c, *slot, Control::Stop),
        Effect::Dump(slot) => to_child(state, c, *slot, Control::Dump),
        Effect::Escalate => escalated(item, told),
        _ => None,
    }
}

/// The fault that is escalated, for who is told of it.
fn escalated(item: &Item, told: &Option<(Comp, u8)>) -> Option<(Comp, Control)>
    ensures { result ≡ escalated_to item.now told.now }
{
    match item {
        Item::Control(Control::Fault { number, .. }) => fault_for(told, *number),
        _ => None,
    }
}

/// The fault with this number, for who is told of it.
pub fn fault_for(told: &Option<(Comp, u8)>, number: u16) -> Option<(Comp, Control)>
    ensures { result ≡ option_map (λ q. (q.0, Fault q.1 number)) told.now }
{
    match told {
        Some((d, slot)) => {
            let slot = *slot;
            Some((*d, Control::Fault { slot, number }))
        }
        None => None,
    }
}

/// To whom an effect puts an item.
fn receiver_in(
    state: &RunState,
    c: Comp,
    item: &Item,
    told: &Option<(Comp, u8)>,
    effect: &Effect,
) -> Option<Comp>
    requires { c < length (state_of state.now).nodes }
    ensures { result ≡ option_map (λ a. a.0) (put_in (state_of state.now) c item.now told.now effect.now) }
{
    match effect {
        Effect::Start(slot) => state.child(c, *slot),
        Effect::Stop(slot) => state.child(c, *slot),
        Effect::Dump(slot) => state.child(c, *slot),
        Effect::Escalate => escalated_at(item, told),
        _ => None,
    }
}

/// Who is told of the fault that is escalated.
fn escalated_at(item: &Item, told: &Option<(Comp, u8)>) -> Option<Comp>
    ensures { result ≡ option_map (λ a. a.0) (escalated_to item.now told.now) }
{
    match (item, told) {
        (Item::Control(Control::Fault { .. }), Some((d, _))) => Some(*d),
        _ => None,
    }
}
