ghost use Rattle.std.specs.Prelude.{◌≡◌, ◌≤◌, [], true, length};
ghost use Rattle.kom_puts.specs.Puts.{is_above};
ghost use Rattle.kom_state.specs.Parts.{state_of};
ghost use Rattle.kom_doing.specs.Marks.{Begins, LeadsOn, MarksOn};
ghost use Rattle.kom_doing.specs.Rooms.{HasRoomLeft};
ghost use Rattle.kom_losses.specs.Owned.{WiresAreCounted};
ghost use Rattle.kom_commits.specs.Counted as counted;
ghost use Rattle.kom_commits.specs.Counted.{ChildrenFit, waits_in_all};

use kom_base::Comp;
use kom_comps::Comps;
use kom_doing::{do_effect, effects_go_on, effects_may_be_done, room_is_left};
use kom_lang::Effect;
use kom_losses::{waiting_under, wires_are_counted};
use kom_marks::{marks_add_up, marks_stay};
use kom_nursery::Nursery;
use kom_record::Item;
use kom_refine::effect_follows;
use kom_state::{RunState, channels_are_numbered};
use kom_system::System;
use kom_waits::effects_count;
use kom_wakes::same_work_goes_on;

/// Does the effects of a handling of an item by a component, one after another, and counts how many
/// events wait in the channels: `queued` is that count before and after. All else is as with
/// `kom_doing::do_effects`; it costs beside that what ends with each Destroy.
pub fn do_all(
    state: &mut RunState,
    nursery: &mut Nursery,
    marks: &mut Comps,
    system: &System,
    c: Comp,
    item: &Item,
    told: &Option<(Comp, u8)>,
    effects: &[Effect],
    queued: &mut u64,
)
    requires begins { ∥ Begins system.now.declarations c item.now told.now effects.now nursery.old state.old ∥₁ }
    requires above { is_above (state_of state.old) c told.now ≡ true }
    requires room { HasRoomLeft c item.now told.now effects.now nursery.old marks.old.bound state.old }
    requires queued { queued.old ≡ waits_in_all state.old }
    ensures done { LeadsOn system.now.declarations c item.now told.now effects.now effects.now [] nursery.old nursery.new state.old state.new }
    ensures marks { MarksOn system.now.declarations c item.now told.now effects.now effects.now nursery.old marks.old marks.new state.old state.new }
    ensures bound { length (state_of state.new).nodes ≤ marks.new.bound }
    ensures queued { queued.new ≡ waits_in_all state.new }
{
    system.well_formed();
    effects_may_be_done();
    effects_go_on();
    room_is_left();
    same_work_goes_on();
    marks_stay();
    marks_add_up();
    wires_are_counted();
    effects_count();
    effect_follows();
    channels_are_numbered();
    for k in 0..effects.len() {
        state.holds_together();
        let effect = &effects[k];
        let lost = lost_by(state, c, effect, *queued);
        do_effect(state, nursery, marks, system, c, item, told, effect);
        *queued -= lost;
        state.holds_together();
    }
}

/// How many events wait in the channels that end with an effect of a living component, of `queued`
/// that wait in all.
fn lost_by(state: &RunState, c: Comp, effect: &Effect, queued: u64) -> u64
    requires living { (state_of state.now).living c ≡ true }
    requires children { ChildrenFit c effect.now (state_of state.now) }
    requires wires { WiresAreCounted state.now }
    requires queued { queued ≡ waits_in_all state.now }
    ensures { result ≡ counted.lost_by state.now c effect.now }
{
    match effect {
        Effect::Destroy(slot) => waiting_under(state, c, *slot),
        _ => 0,
    }
}
