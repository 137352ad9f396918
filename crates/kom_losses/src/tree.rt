ghost use Rattle.std.specs.Prelude.{◌≡◌, ◌<◌, ◌≤◌, true, length, min, Some};
ghost use Rattle.kom_lang.specs.declared.body.Body.{Body};
ghost use Rattle.kom_state.specs.Parts.{state_of};
ghost use Rattle.kom_state.specs.Removals.{dies_with};
ghost use Rattle.kom_changes.specs.Below.{lives_in};
ghost use Rattle.kom_changes.specs.Ends.{ChildrenAreInSlots};
ghost use Rattle.kom_losses.specs.Owned.{FewWait, WiresAreCounted, owned, waiting_of};

use crate::own::waiting_own;
use kom_base::Comp;
use kom_state::RunState;

/// How many events wait in the channels that end with the component in a slot of a living one and
/// with all below it. It costs as much as these have slots and channels.
pub fn waiting_under(state: &RunState, c: Comp, slot: u8) -> u64
    requires living { (state_of state.now).living c ≡ true }
    requires children { ChildrenAreInSlots c (state_of state.now) }
    requires wires { WiresAreCounted state.now }
    requires few { FewWait state.now }
    ensures { result ≡ waiting_of state.now (dies_with state.now c slot) }
{
    state.holds_together();
    match state.child(c, slot) {
        Some(top) => waiting_tree(state, c, top),
        None => 0,
    }
}

/// How many events wait in the channels of a living component and of all who live below it; it is
/// younger than `c`.
fn waiting_tree(state: &RunState, c: Comp, d: Comp) -> u64
    requires living { (state_of state.now).living d ≡ true }
    requires younger { c < d }
    requires children { ChildrenAreInSlots c (state_of state.now) }
    requires wires { WiresAreCounted state.now }
    requires few { FewWait state.now }
    ensures { result ≡ waiting_of state.now (owned state.now (lives_in (state_of state.now) d)) }
{
    state.holds_together();
    let mut count = waiting_own(state, d);
    for s in 0..slot_count(state, d) {
        if let Some(child) = state.child(d, s as u8) {
            count += waiting_tree(state, c, child);
        }
    }
    count
}

/// How many slots a living component has.
fn slot_count(state: &RunState, d: Comp) -> usize
    requires { (state_of state.now).living d ≡ true }
    ensures few { result ≤ 256 }
    ensures slots { (b : Body) → (state_of state.now).bodies d ≡ Some b → result ≡ min (length b.slots) 256 }
{
    state.holds_together();
    match state.body(d) {
        Some(body) => body.slots.len().min(256),
        None => 0,
    }
}
