ghost use Rattle.std.specs.Prelude.{◌≡◌, ◌≤◌, ◌+◌, ◌*◌, true, length};
ghost use Rattle.kom_lang.specs.Declarations.{Declarations};
ghost use Rattle.kom_record.specs.declared.item.Item.{Item};
ghost use Rattle.kom_record.specs.Entries.{History, acts};
ghost use Rattle.kom_refine.specs.Points.{StandsAt, start_of};
ghost use Rattle.kom_state.specs.Parts.{state_of};
ghost use Rattle.kom_nursery.specs.Nurseries.{all_of, broods_of};
ghost use Rattle.kom_changes.specs.Ends.{ChildrenAreInSlots};
ghost use Rattle.kom_doing.specs.Marks.{marks_of};
ghost use Rattle.kom_extents.specs.Extents.{most_at};

use kom_base::Comp;
use kom_changes::count_below;
use kom_lang::Effect;
use kom_nursery::Nursery;
use kom_state::RunState;

/// At most how many components the effects of a handling by a living component mark, where the state
/// stands before them; the nursery has what they create. It costs what they take away, and how many
/// trees they create.
pub fn marks_needed(state: &RunState, nursery: &Nursery, c: Comp, effects: &[Effect]) -> usize
    requires living { (state_of state.now).living c ≡ true }
    requires children { ChildrenAreInSlots c (state_of state.now) }
    requires few { length effects.now ≤ 32 }
    requires few_created { length (all_of nursery.now) ≤ 32000 }
    ensures enough { (S : Declarations) (R : History) (item : Item) → StandsAt S (start_of R) (state_of state.now) → nursery.now ≡ broods_of S (acts R) c item effects.now → marks_of S (acts R) c item effects.now ≤ result }
    ensures small { result ≤ 64 + 33 * (length (state_of state.now).nodes + length (all_of nursery.now)) }
{
    state.holds_together();
    let created = nursery.instances();
    let mut most = created as usize;
    for k in 0..effects.len() {
        most += marks_for(state, created, c, &effects[k]);
    }
    most
}

/// At most how many components one of them marks beside those that it creates, where so many are
/// created in all.
fn marks_for(state: &RunState, created: u32, c: Comp, effect: &Effect) -> usize
    requires living { (state_of state.now).living c ≡ true }
    requires children { ChildrenAreInSlots c (state_of state.now) }
    requires few { created ≤ 32000 }
    ensures most { result ≡ most_at (state_of state.now) c created effect.now }
    ensures small { result ≤ 5000000000 }
{
    match effect {
        Effect::Create { .. } => 0,
        Effect::Destroy(slot) => count_below(state, c, *slot) as usize + created as usize,
        _ => 2,
    }
}
