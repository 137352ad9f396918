ghost use Rattle.std.specs.Prelude.{◌≡◌, ◌≤◌, ◌+◌, [], ℕ, length, IfOk, OnOk};
ghost use Rattle.kom_base.specs.declared.numbers.Dir as dirs;
ghost use Rattle.kom_doing.specs.Rooms.{HasRoomLeft, PutsHaveRoom};
ghost use Rattle.kom_entering.specs.Lists.{numbers_into};
ghost use Rattle.kom_nursery.specs.Nurseries.{all_of, broods_of};
ghost use Rattle.kom_puts.specs.Puts.{HasRoomToFollow};
ghost use Rattle.kom_record.specs.Entries.{acts};
ghost use Rattle.kom_state.specs.Parts.{queue_spare, state_of};
ghost use Rattle.kom_turns.specs.Runs.{IsRun, Stands, history_of, system_of};
ghost use Rattle.kom_preparing.specs.Preparing.{HasReacted, HasRoomForWoken, HasRoomToEnd, IsWorkedOut, WasReacted};
ghost use Rattle.kom_preparing.specs.Spaces.{IsButForSpace};

use crate::prepared::Prepared;
use crate::reserve::reserve_state;
use crate::sets::{make_entry_room, widen_sets};
use crate::woken::list_for;
use crate::working::{depth_of, entering_of};
use kom_base::Comp;
use kom_entering::Entering;
use kom_extents::children_are_in_slots;
use kom_lang::{Body, Effect};
use kom_limits::numbers_are_enough;
use kom_nursery::{Nursery, handlings_are_prepared};
use kom_puts::{dumped_for, same_states_follow, told_of};
use kom_record::Item;
use kom_state::channels_are_numbered;
use kom_turns::Run;
use std::alloc::{AllocError, Global};

/// Works out what the end of a handling of an item by a living component needs, and makes all room
/// for it: the handling came to this body with these effects, and the item is that of the Took at
/// position `took`, whose job a worker has in hand. The run is as before but that there may be more
/// room, and the error is want of memory. It costs the effects, what they create and take away, and
/// what they offer with the channels plugged where it is offered.
pub fn prepare(
    run: &mut Run,
    alloc: Global,
    c: Comp,
    took: u32,
    item: &Item,
    body: &Body,
    effects: &[Effect],
) -> Result<Prepared, AllocError>
    requires run { IsRun run.old }
    requires reacted { HasReacted c took item.now body.now effects.now run.old }
    ensures same { IsButForSpace run.old run.new }
    ensures found { IfOk result (λ p. (w : ℕ) → Stands run.old → WasReacted w c took item.now body.now effects.now run.old → IsWorkedOut c took item.now body.now effects.now p run.old) }
    ensures ready { IfOk result (λ p. HasRoomToEnd c item.now body.now effects.now p run.new) }
    ensures empty { IfOk result (λ p. p.woken.items ≡ []) }
    ensures list { IfOk result (λ p. (w : ℕ) → Stands run.old → WasReacted w c took item.now body.now effects.now run.old → HasRoomForWoken c item.now body.now effects.now p run.old) }
{
    run.system.well_formed();
    same_states_follow();
    children_are_in_slots();
    let told = told_of(&run.state, c);
    let entering = entering_of(run, alloc, c, took, item, body, effects)?;
    let dumped = dumped_for(alloc, &run.state, c, body, item)?;
    let nursery = make_state_room(run, alloc, c, took, item, body, &told, &entering, effects)?;
    let count = run.state.instance_count() + nursery.instances();
    widen_sets(run, count)?;
    make_entry_room(run, entering.goings.len())?;
    let woken = list_for(alloc, &run.state, &nursery, c, body, &entering, effects)?;
    Ok(Prepared {
        told,
        dumped,
        entering,
        nursery,
        woken,
    })
}

/// Makes what the effects create, and all room in the state.
fn make_state_room(
    run: &mut Run,
    alloc: Global,
    c: Comp,
    took: u32,
    item: &Item,
    body: &Body,
    told: &Option<(Comp, u8)>,
    entering: &Entering,
    effects: &[Effect],
) -> Result<Nursery, AllocError>
    requires run { IsRun run.old }
    requires reacted { HasReacted c took item.now body.now effects.now run.old }
    requires once { (x : ℕ) (d : dirs.Dir) → length (numbers_into entering.now.comings x d) ≤ entering.now.offers }
    ensures same { IsButForSpace run.old run.new }
    ensures slots { OnOk result (length body.now.slots ≤ 256) }
    ensures effects { OnOk result (length effects.now ≤ 32) }
    ensures follow { OnOk result (HasRoomToFollow 1 (state_of run.new.state) c body.now item.now run.new.state) }
    ensures come { OnOk result ((x : ℕ) (d : dirs.Dir) → length (numbers_into entering.now.comings x d) ≤ queue_spare run.new.state x d) }
    ensures puts { OnOk result (PutsHaveRoom (1 + length effects.now) c item.now told.now effects.now run.new.state) }
    ensures few { IfOk result (λ nursery. length (all_of nursery) ≤ 32000) }
    ensures number { OnOk result (length (state_of run.new.state).nodes ≤ 3200001000) }
    ensures planted { (w : ℕ) → Stands run.old → WasReacted w c took item.now body.now effects.now run.old → IfOk result (λ nursery. nursery ≡ broods_of (system_of run.old) (acts (history_of run.old)) c item.now effects.now) }
    ensures room { (bound : ℕ) → IfOk result (λ nursery. length (state_of run.new.state).nodes + length (all_of nursery) ≤ bound → HasRoomLeft c item.now told.now effects.now nursery bound run.new.state) }
{
    run.system.well_formed();
    handlings_are_prepared();
    numbers_are_enough();
    channels_are_numbered();
    let depth = depth_of(&run.state, c);
    let nursery = reserve_state(
        &mut run.state,
        alloc,
        &run.system,
        c,
        depth,
        item,
        body,
        told,
        entering,
        effects,
    )?;
    Ok(nursery)
}
