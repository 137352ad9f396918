ghost use Rattle.std.specs.Prelude.{◌≡◌, ◌≤◌, ◌<◌, ◌+◌, ℕ, List, length, IfOk, OnOk};
ghost use Rattle.kom_base.specs.declared.numbers.Dir as dirs;
ghost use Rattle.kom_doing.specs.Rooms.{HasRoomLeft, PutsHaveRoom};
ghost use Rattle.kom_entering.specs.Lists.{numbers_into};
ghost use Rattle.kom_numbers.specs.Numbering.{total};
ghost use Rattle.kom_nursery.specs.Nurseries.{AreCreatable, IsNext, all_of, broods_of};
ghost use Rattle.kom_puts.specs.Puts.{HasRoomToFollow};
ghost use Rattle.kom_record.specs.Entries.{Act};
ghost use Rattle.kom_record.specs.declared.item.Item.{Item as ItemValue};
ghost use Rattle.kom_state.specs.Parts.{queue_spare, state_of};
ghost use Rattle.kom_state.specs.Rooms.{HasNoLess, IsSame};

use kom_base::Comp;
use kom_coming::make_room;
use kom_doing::reserve_effects;
use kom_entering::Entering;
use kom_lang::{Body, Effect};
use kom_nursery::Nursery;
use kom_puts::{reserve_for_effects, reserve_to_follow};
use kom_record::Item;
use kom_state::RunState;
use kom_system::System;
use std::alloc::{AllocError, Global};

/// Makes room for what follows from the item and for what comes into channels, and for as many items
/// as there are effects, and one more, of each component to which an effect puts one.
pub fn reserve_puts(
    state: &mut RunState,
    c: Comp,
    item: &Item,
    body: &Body,
    told: &Option<(Comp, u8)>,
    entering: &Entering,
    effects: &[Effect],
) -> Result<(), AllocError>
    requires made { c < length (state_of state.old).nodes }
    requires slots { length body.now.slots ≤ 256 }
    requires once { (x : ℕ) (d : dirs.Dir) → length (numbers_into entering.now.comings x d) ≤ entering.now.offers }
    requires few { length effects.now ≤ 32 }
    ensures same { IsSame (state_of state.old) (state_of state.new) }
    ensures not_less { HasNoLess state.old state.new }
    ensures follow { OnOk result (HasRoomToFollow 1 (state_of state.new) c body.now item.now state.new) }
    ensures come { OnOk result ((x : ℕ) (d : dirs.Dir) → length (numbers_into entering.now.comings x d) ≤ queue_spare state.new x d) }
    ensures puts { OnOk result (PutsHaveRoom (1 + length effects.now) c item.now told.now effects.now state.new) }
{
    reserve_to_follow(state, c, body, item, 1)?;
    make_room(state, entering)?;
    reserve_for_effects(state, c, item, told, effects, 1 + effects.len())?;
    Ok(())
}

/// Makes all that the effects of a handling by a component, which has this depth, create, and room
/// for that, for what is put, and for what comes into channels. It leaves the state as it is, and on
/// want of memory no less room than before.
pub fn reserve_state(
    state: &mut RunState,
    alloc: Global,
    system: &System,
    c: Comp,
    depth: u8,
    item: &Item,
    body: &Body,
    told: &Option<(Comp, u8)>,
    entering: &Entering,
    effects: &[Effect],
) -> Result<Nursery, AllocError>
    requires made { c < length (state_of state.old).nodes }
    requires slots { length body.now.slots ≤ 256 }
    requires once { (x : ℕ) (d : dirs.Dir) → length (numbers_into entering.now.comings x d) ≤ entering.now.offers }
    requires few { length effects.now ≤ 32 }
    requires number { length (state_of state.old).nodes ≤ 3200001000 }
    requires channels { total state.old.numbers ≤ 3200001016 }
    requires depth { 1 ≤ depth }
    requires fits { AreCreatable system.now.declarations depth effects.now }
    ensures same { IsSame (state_of state.old) (state_of state.new) }
    ensures not_less { HasNoLess state.old state.new }
    ensures follow { OnOk result (HasRoomToFollow 1 (state_of state.new) c body.now item.now state.new) }
    ensures come { OnOk result ((x : ℕ) (d : dirs.Dir) → length (numbers_into entering.now.comings x d) ≤ queue_spare state.new x d) }
    ensures puts { OnOk result (PutsHaveRoom (1 + length effects.now) c item.now told.now effects.now state.new) }
    ensures few { IfOk result (λ nursery. length (all_of nursery) ≤ 32000) }
    ensures planted { (done : List Act) (i : ItemValue) → IsNext system.now.declarations done c depth (length (state_of state.old).nodes) → IfOk result (λ nursery. nursery ≡ broods_of system.now.declarations done c i effects.now) }
    ensures room { (bound : ℕ) → IfOk result (λ nursery. length (state_of state.old).nodes + length (all_of nursery) ≤ bound → HasRoomLeft c item.now told.now effects.now nursery bound state.new) }
{
    reserve_puts(state, c, item, body, told, entering, effects)?;
    let nursery = reserve_effects(alloc, state, system, c, depth, item, told, effects)?;
    Ok(nursery)
}
