ghost use Rattle.std.specs.Prelude.{◌≡◌, ℕ, ◌+◌, ◌<◌, ◌≤◌, ◌==◌, ◌||◌, true, false, length, min, Some};
ghost use Rattle.kom_comps.specs.Members.{has};
ghost use Rattle.kom_lang.specs.declared.body.Body.{Body};
ghost use Rattle.kom_marks.specs.Marking.{IsMarked};
ghost use Rattle.kom_refine.specs.Steps.{is_below};
ghost use Rattle.kom_state.specs.Parts.{state_of};
ghost use Rattle.kom_state.specs.Removals.{dies_with};
ghost use Rattle.kom_state.specs.Rooms.{FreesRoom};
ghost use Rattle.kom_changes.specs.Below.{Destroys, how_many, lives_below, lives_in};
ghost use Rattle.kom_changes.specs.Ends.{ChildrenAreInSlots, EndsAreOwn};

use kom_base::Comp;
use kom_comps::Comps;
use kom_marks::mark;
use kom_state::{RunState, channels_are_numbered};
use kom_wakes::removals_leave;

/// Ends the component in a slot of another one with all below it and their channels, and marks all
/// who end: nobody else receives from these channels. It takes no memory, and costs what it takes
/// away.
pub fn destroy(state: &mut RunState, marks: &mut Comps, c: Comp, slot: u8)
    requires living { (state_of state.old).living c ≡ true }
    requires ends { EndsAreOwn c state.old }
    requires children { ChildrenAreInSlots c (state_of state.old) }
    requires bound { length (state_of state.old).nodes ≤ marks.old.bound }
    ensures step { Destroys c slot state.old state.new }
    ensures room { FreesRoom (is_below (state_of state.old) c slot) (dies_with state.old c slot) state.old state.new }
    ensures marks { IsMarked (how_many (state_of state.old) (lives_below (state_of state.old) c slot)) marks.old marks.new (state_of state.old) (state_of state.new) }
{
    channels_are_numbered();
    removals_leave();
    state.holds_together();
    mark_below(state, marks, c, slot);
    state.remove(c, slot);
}

/// How many components end with the one in a slot of another one, that one included. It costs as
/// much as they have slots.
pub fn count_below(state: &RunState, c: Comp, slot: u8) -> u32
    requires living { (state_of state.now).living c ≡ true }
    requires children { ChildrenAreInSlots c (state_of state.now) }
    ensures { result ≡ how_many (state_of state.now) (lives_below (state_of state.now) c slot) }
{
    state.holds_together();
    match state.child(c, slot) {
        Some(top) => count_tree(state, c, top),
        None => 0,
    }
}

/// Marks all who live in a slot of a component or below.
fn mark_below(state: &RunState, marks: &mut Comps, c: Comp, slot: u8)
    requires living { (state_of state.now).living c ≡ true }
    requires children { ChildrenAreInSlots c (state_of state.now) }
    requires bound { length (state_of state.now).nodes ≤ marks.old.bound }
    ensures each { (e : ℕ) → has marks.new e ≡ (lives_below (state_of state.now) c slot e || has marks.old e) }
    ensures few { length marks.new.list ≤ length marks.old.list + how_many (state_of state.now) (lives_below (state_of state.now) c slot) }
    ensures bound { marks.new.bound ≡ marks.old.bound }
{
    state.holds_together();
    if let Some(top) = state.child(c, slot) {
        mark_tree(state, marks, c, top);
    }
}

/// Marks a living component and all below it; it is younger than `c`.
fn mark_tree(state: &RunState, marks: &mut Comps, c: Comp, d: Comp)
    requires living { (state_of state.now).living d ≡ true }
    requires younger { c < d }
    requires children { ChildrenAreInSlots c (state_of state.now) }
    requires bound { length (state_of state.now).nodes ≤ marks.old.bound }
    ensures each { (e : ℕ) → has marks.new e ≡ (lives_in (state_of state.now) d e || has marks.old e) }
    ensures few { length marks.new.list ≤ length marks.old.list + how_many (state_of state.now) (lives_in (state_of state.now) d) }
    ensures bound { marks.new.bound ≡ marks.old.bound }
{
    state.holds_together();
    mark(marks, d);
    for s in 0..slot_count(state, d) {
        if let Some(child) = state.child(d, s as u8) {
            mark_tree(state, marks, c, child);
        }
    }
}

/// How many components live below a living one, that one included; it is younger than `c`.
fn count_tree(state: &RunState, c: Comp, d: Comp) -> u32
    requires living { (state_of state.now).living d ≡ true }
    requires younger { c < d }
    requires children { ChildrenAreInSlots c (state_of state.now) }
    ensures { result ≡ how_many (state_of state.now) (lives_in (state_of state.now) d) }
{
    state.holds_together();
    // There are no more than 2 ^ 32 instances, so their count fits.
    let _made = state.instance_count();
    let mut count = 1;
    for s in 0..slot_count(state, d) {
        if let Some(child) = state.child(d, s as u8) {
            count += count_tree(state, c, child);
        }
    }
    count
}

/// How many slots a living component has.
fn slot_count(state: &RunState, d: Comp) -> usize
    requires { (state_of state.now).living d ≡ true }
    ensures few { result ≤ 256 }
    ensures slots { (b : Body) → (state_of state.now).bodies d ≡ Some b → result ≡ min (length b.slots) 256 }
{
    state.holds_together();
    match state.body(d) {
        Some(body) => body.slots.len().min(256),
        None => 0,
    }
}
