ghost use Rattle.std.specs.Prelude.{◌≡◌, ℕ, ◌+◌, ◌<◌, ◌≤◌, List, length, IfOk};
ghost use Rattle.kom_numbers.specs.Numbering.{total};
ghost use Rattle.kom_nursery.specs.Nurseries.{AreCreatable, IsNext, all_of, broods_of};
ghost use Rattle.kom_record.specs.Entries.{Act};
ghost use Rattle.kom_record.specs.declared.item.Item.{Item as ItemValue};
ghost use Rattle.kom_state.specs.Parts.{state_of};
ghost use Rattle.kom_state.specs.Rooms.{HasNoLess, IsSame};
ghost use Rattle.kom_doing.specs.Rooms.{HasRoomLeft};

use kom_base::Comp;
use kom_births::rooms_are_left;
use kom_lang::Effect;
use kom_nursery::Nursery;
use kom_puts::reserve_for_effects;
use kom_record::Item;
use kom_state::RunState;
use kom_system::System;
use std::alloc::{AllocError, Global};

/// Makes all that the effects of a handling of an item by a component, which has this depth, create,
/// and room for it and for what they put; `told` is who is told of a fault of the component. It leaves
/// the state as it is, and on want of memory no less room than before.
pub fn reserve_effects(
    alloc: Global,
    state: &mut RunState,
    system: &System,
    c: Comp,
    depth: u8,
    item: &Item,
    told: &Option<(Comp, u8)>,
    effects: &[Effect],
) -> Result<Nursery, AllocError>
    requires made { c < length (state_of state.old).nodes }
    requires few { length effects.now ≤ 32 }
    requires number { length (state_of state.old).nodes ≤ 3200001000 }
    requires channels { total state.old.numbers ≤ 3200001016 }
    requires depth { 1 ≤ depth }
    requires fits { AreCreatable system.now.declarations depth effects.now }
    ensures same { IsSame (state_of state.old) (state_of state.new) }
    ensures not_less { HasNoLess state.old state.new }
    ensures few { IfOk result (λ nursery. length (all_of nursery) ≤ 32000) }
    ensures planted { (done : List Act) (i : ItemValue) → IsNext system.now.declarations done c depth (length (state_of state.old).nodes) → IfOk result (λ nursery. nursery ≡ broods_of system.now.declarations done c i effects.now) }
    ensures room { (bound : ℕ) → IfOk result (λ nursery. length (state_of state.old).nodes + length (all_of nursery) ≤ bound → HasRoomLeft c item.now told.now effects.now nursery bound state.new) }
{
    rooms_are_left();
    let first = state.instance_count();
    let nursery = Nursery::of(alloc, system, first, c, depth, effects)?;
    nursery.make_room(state)?;
    nursery.reserve_tops(state, effects.len())?;
    reserve_for_effects(state, c, item, told, effects, effects.len())?;
    Ok(nursery)
}
