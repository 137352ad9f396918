ghost use Rattle.std.specs.Prelude.{◌≡◌, ℕ, ◌+◌, ◌<◌, ◌≤◌, ◌^◌, ◌∷◌, ◌&&◌, ◌||◌, List, length, nat_le, nat_lt};
ghost use Rattle.kom_births.specs.declared.seed.Seed.{Seed};
ghost use Rattle.kom_comps.specs.Members.{has};
ghost use Rattle.kom_marks.specs.Marking.{IsMarked};
ghost use Rattle.kom_state.specs.Parts.{state_of};
ghost use Rattle.kom_changes.specs.Sown.{Creates, IsFirstSown, MaySowFirst};

use kom_base::Comp;
use kom_births::creations_are_sown;
use kom_comps::Comps;
use kom_marks::mark;
use kom_nursery::Nursery;
use kom_state::{RunState, channels_are_numbered};
use kom_system::System;

/// Creates the next tree of a nursery, and marks its instances. It takes no memory, and costs what
/// it creates, and how many trees there are.
pub fn create(state: &mut RunState, nursery: &mut Nursery, marks: &mut Comps, system: &System)
    requires { MaySowFirst system.now.declarations nursery.old marks.old.bound state.old }
    ensures step { Creates system.now.declarations nursery.old nursery.new state.old state.new }
    ensures sown { (brood : List Seed) (rest : List (List Seed)) → nursery.old ≡ brood ∷ rest → IsFirstSown system.now.declarations brood rest nursery.new state.old state.new }
    ensures marks { (brood : List Seed) (rest : List (List Seed)) → nursery.old ≡ brood ∷ rest → IsMarked (length brood) marks.old marks.new (state_of state.old) (state_of state.new) }
{
    channels_are_numbered();
    creations_are_sown();
    state.holds_together();
    let first = state.instance_count();
    match nursery.next() {
        Some(brood) => {
            mark_from(marks, first, brood.len() as u32);
            brood.sow(state, system);
        }
        None => unreachable!(),
    }
}

/// Marks so many components, whose numbers follow one another.
fn mark_from(marks: &mut Comps, first: u32, count: u32)
    requires bound { first + count ≤ marks.old.bound }
    requires few { first + count < 2 ^ 32 }
    ensures each { (d : ℕ) → has marks.new d ≡ ((nat_le first d && nat_lt d (first + count)) || has marks.old d) }
    ensures few { length marks.new.list ≤ length marks.old.list + count }
    ensures bound { marks.new.bound ≡ marks.old.bound }
{
    for c in first..first + count {
        mark(marks, Comp(c));
    }
}
