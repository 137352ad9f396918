ghost use Rattle.std.specs.Prelude.{◌≡◌, ◌≤◌, ◌<◌, true, length, IsSome, Some};
ghost use Rattle.kom_marks.specs.Marking.{IsMarked};
ghost use Rattle.kom_puts.specs.Puts.{is_above};
ghost use Rattle.kom_state.specs.Parts.{state_of};
ghost use Rattle.kom_changes.specs.Ends.{EndsAreMade};
ghost use Rattle.kom_doing.specs.Effects.{IsDoable, IsDone, LeavesRoomBy, half_in, marks_by};

use kom_base::{Comp, Half, Side};
use kom_changes::{create, destroy, hold, plug, resume, unplug};
use kom_comps::Comps;
use kom_lang::{Effect, Place};
use kom_marks::{marks_are_few, marks_stay};
use kom_nursery::Nursery;
use kom_puts::put_by_effect;
use kom_record::Item;
use kom_state::{RunState, numbers_stay};
use kom_system::System;

/// Does the next effect of a handling of an item by a living component: it changes a channel or an
/// instance, or puts what it puts, and marks whom it gives more or less to do. `told` is who is told
/// of a fault of the component by the record before the handling; the nursery has what this effect
/// and those after it create. It takes no memory, and costs what it creates and takes away, and how
/// many trees the nursery has.
pub fn do_effect(
    state: &mut RunState,
    nursery: &mut Nursery,
    marks: &mut Comps,
    system: &System,
    c: Comp,
    item: &Item,
    told: &Option<(Comp, u8)>,
    effect: &Effect,
)
    requires living { (state_of state.old).living c ≡ true }
    requires above { is_above (state_of state.old) c told.now ≡ true }
    requires ends { EndsAreMade (state_of state.old) }
    requires bound { length (state_of state.old).nodes ≤ marks.old.bound }
    requires may { IsDoable system.now.declarations c item.now told.now effect.now nursery.old marks.old.bound state.old }
    ensures step { IsDone system.now.declarations c item.now told.now effect.now nursery.old nursery.new state.old state.new }
    ensures room { LeavesRoomBy c effect.now nursery.old state.old state.new }
    ensures marks { IsMarked (marks_by (state_of state.old) c effect.now nursery.old) marks.old marks.new (state_of state.old) (state_of state.new) }
{
    numbers_stay();
    marks_stay();
    marks_are_few();
    state.holds_together();
    match effect {
        Effect::Hold(wire) => hold(state, marks, c, *wire),
        Effect::Resume(wire) => resume(state, marks, c, *wire),
        Effect::Unplug { wire, end } => unplug(state, c, *wire, *end),
        Effect::Plug { wire, end, place } => {
            let at = half_at(state, c, place);
            plug(state, c, *wire, *end, at);
        }
        Effect::Create { .. } => create(state, nursery, marks, system),
        Effect::Destroy(slot) => destroy(state, marks, c, *slot),
        _ => put_by_effect(state, marks, c, item, told, effect),
    }
}

/// The half that a place of a living component names, where it names one.
fn half_at(state: &RunState, c: Comp, place: &Place) -> Half
    requires made { c < length (state_of state.now).nodes }
    requires half { IsSome (half_in (state_of state.now) c place.now) }
    ensures { half_in (state_of state.now) c place.now ≡ Some result }
{
    match place.slot {
        None => Half {
            comp: c,
            port: place.port,
            side: Side::Inside,
        },
        Some(slot) => match state.child(c, slot) {
            Some(comp) => Half {
                comp,
                port: place.port,
                side: Side::Outside,
            },
            None => unreachable!(),
        },
    }
}
