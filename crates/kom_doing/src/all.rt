ghost use Rattle.std.specs.Prelude.{◌≡◌, [], true};
ghost use Rattle.kom_puts.specs.Puts.{is_above};
ghost use Rattle.kom_state.specs.Parts.{state_of};
ghost use Rattle.kom_doing.specs.Marks.{Begins, LeadsOn, MarksOn};
ghost use Rattle.kom_doing.specs.Rooms.{HasRoomLeft};

use crate::laws::{effects_go_on, effects_may_be_done, room_is_left};
use crate::one::do_effect;
use kom_base::Comp;
use kom_comps::Comps;
use kom_lang::Effect;
use kom_marks::{marks_add_up, marks_stay};
use kom_nursery::Nursery;
use kom_record::Item;
use kom_state::RunState;
use kom_system::System;
use kom_wakes::same_work_goes_on;

/// Does the effects of a handling of an item by a component, one after another, where the state
/// stands before them and there is room for all of them: afterwards it stands after them. `told` is
/// who is told of a fault of the component by the record before the handling; the nursery has what
/// the effects create. It marks whom they give more or less to do. It takes no memory, and costs
/// what they create and take away, and the square of their number.
pub fn do_effects(
    state: &mut RunState,
    nursery: &mut Nursery,
    marks: &mut Comps,
    system: &System,
    c: Comp,
    item: &Item,
    told: &Option<(Comp, u8)>,
    effects: &[Effect],
)
    requires begins { Begins system.now.declarations c item.now told.now effects.now nursery.old state.old }
    requires above { is_above (state_of state.old) c told.now ≡ true }
    requires room { HasRoomLeft c item.now told.now effects.now nursery.old marks.old.bound state.old }
    ensures done { LeadsOn system.now.declarations c item.now told.now effects.now effects.now [] nursery.old nursery.new state.old state.new }
    ensures marks { MarksOn system.now.declarations c item.now told.now effects.now effects.now nursery.old marks.old marks.new state.old state.new }
{
    system.well_formed();
    effects_may_be_done();
    effects_go_on();
    room_is_left();
    same_work_goes_on();
    marks_stay();
    marks_add_up();
    for k in 0..effects.len() {
        state.holds_together();
        do_effect(state, nursery, marks, system, c, item, told, &effects[k]);
        state.holds_together();
    }
}
