ghost use Rattle.std.specs.Prelude.{◌≡◌, ◌≤◌, ◌+◌, [], true, length, vec_capacity, IfOk};
ghost use Rattle.kom_changes.specs.Ends.{ChildrenAreInSlots};
ghost use Rattle.kom_doing.specs.Marks.{marks_of};
ghost use Rattle.kom_lang.specs.Declarations.{Declarations};
ghost use Rattle.kom_nursery.specs.Nurseries.{all_of, broods_of};
ghost use Rattle.kom_record.specs.Entries.{History, acts};
ghost use Rattle.kom_record.specs.declared.item.Item.{Item};
ghost use Rattle.kom_refine.specs.Points.{StandsAt, start_of};
ghost use Rattle.kom_state.specs.Parts.{state_of};

use kom_base::Comp;
use kom_entering::Entering;
use kom_extents::marks_needed;
use kom_lang::{Body, Effect};
use kom_nursery::Nursery;
use kom_state::RunState;
use std::alloc::{AllocError, Global};

/// An empty list with room for whom the end of a handling marks: the component, whoever is in its
/// slots, who may take what comes in, and whom the effects mark.
pub fn list_for(
    alloc: Global,
    state: &RunState,
    nursery: &Nursery,
    c: Comp,
    body: &Body,
    entering: &Entering,
    effects: &[Effect],
) -> Result<Vec<Comp>, AllocError>
    requires living { (state_of state.now).living c ≡ true }
    requires children { ChildrenAreInSlots c (state_of state.now) }
    requires few { length effects.now ≤ 32 }
    requires few_created { length (all_of nursery.now) ≤ 32000 }
    requires number { length (state_of state.now).nodes ≤ 3200001000 }
    requires slots { length body.now.slots ≤ 256 }
    ensures empty { IfOk result (λ list. list.items ≡ []) }
    ensures room { IfOk result (λ list. (S : Declarations) (R : History) (item : Item) → StandsAt S (start_of R) (state_of state.now) → nursery.now ≡ broods_of S (acts R) c item effects.now → (((1 + length body.now.slots) + length entering.now.comings) + marks_of S (acts R) c item effects.now) + 1 ≤ vec_capacity list) }
{
    let most = marks_needed(state, nursery, c, effects) + body.slots.len() + 2;
    match most.checked_add(entering.comings.len()) {
        Some(count) => Vec::with_capacity(alloc, count),
        None => Err(AllocError),
    }
}
