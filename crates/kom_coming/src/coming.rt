ghost use Rattle.std.specs.Prelude.{◌≡◌, ◌≤◌, ◌<◌, ◌+◌, ℕ, length, IsSome};
ghost use Rattle.kom_base.specs.declared.numbers.Dir as dirs;
ghost use Rattle.kom_base.specs.declared.numbers.EntryNo as numbers;
ghost use Rattle.kom_base.specs.Numbers as ways;
ghost use Rattle.kom_entering.specs.Lists.{numbers_into};
ghost use Rattle.kom_marks.specs.Marking.{IsMarked};
ghost use Rattle.kom_refine.specs.States.{State};
ghost use Rattle.kom_refine.specs.Steps.{HaveCome};
ghost use Rattle.kom_state.specs.Parts.{state_of, queue_spare};
ghost use Rattle.kom_state.specs.Rooms.{KeepsControls, KeepsRoom};
ghost use Rattle.kom_state.specs.Steps.{UsesQueue, into_one};
ghost use Rattle.kom_coming.specs.Directions.{AreThere, AreBelow};

use kom_base::{Chan, Dir};
use kom_comps::Comps;
use kom_entering::Coming;
use kom_marks::{mark, marks_add_up, marks_are_few, marks_stay};
use kom_refine::{comes_add_up, nothing_is_added};
use kom_state::RunState;
use kom_wakes::{comings_leave, same_work_goes_on};

/// Brings these numbers into their directions, in order, and marks who may take what came. It takes
/// no memory, and costs the logarithm of the number of channels for each.
pub fn come_in(state: &mut RunState, marks: &mut Comps, comings: &[Coming])
    requires there { AreThere comings.now (state_of state.old) }
    requires room { (x : ℕ) (d : dirs.Dir) → length (numbers_into comings.now x d) ≤ queue_spare state.old x d }
    requires below { AreBelow marks.old.bound (state_of state.old) }
    ensures step { HaveCome (numbers_into comings.now) (state_of state.old) (state_of state.new) }
    ensures room { KeepsRoom state.old state.new }
    ensures controls { KeepsControls state.old state.new }
    ensures queues { (x : ℕ) (d : dirs.Dir) → queue_spare state.new x d + length (numbers_into comings.now x d) ≡ queue_spare state.old x d }
    ensures marked { IsMarked (length comings.now) marks.old marks.new (state_of state.old) (state_of state.new) }
{
    nothing_is_added();
    comes_add_up();
    same_work_goes_on();
    marks_stay();
    marks_add_up();
    for coming in comings {
        come_one(state, marks, coming);
    }
}

/// Brings one number into its direction, and marks who may take it.
fn come_one(state: &mut RunState, marks: &mut Comps, coming: &Coming)
    requires there { IsSome ((state_of state.old).queues coming.now.chan coming.now.dir) }
    requires spare { 0 < queue_spare state.old coming.now.chan coming.now.dir }
    requires below { AreBelow marks.old.bound (state_of state.old) }
    ensures step { HaveCome (into_one coming.now.chan coming.now.dir coming.now.no) (state_of state.old) (state_of state.new) }
    ensures room { KeepsRoom state.old state.new }
    ensures controls { KeepsControls state.old state.new }
    ensures queues { UsesQueue coming.now.chan coming.now.dir state.old state.new }
    ensures marked { IsMarked 1 marks.old marks.new (state_of state.old) (state_of state.new) }
    ensures bound { marks.new.bound ≡ marks.old.bound }
{
    mark_receiver(state, marks, coming.chan, coming.dir);
    state.come(coming.chan, coming.dir, coming.no);
}

/// Marks the component at the end of a direction: beside a step that brings a number there it is
/// marked.
fn mark_receiver(state: &RunState, marks: &mut Comps, x: Chan, d: Dir)
    requires there { IsSome ((state_of state.now).queues x d) }
    requires below { AreBelow marks.old.bound (state_of state.now) }
    ensures marked { (number : numbers.EntryNo) (n : State) → HaveCome (into_one x d number) (state_of state.now) n → IsMarked 1 marks.old marks.new (state_of state.now) n }
    ensures bound { marks.new.bound ≡ marks.old.bound }
{
    comings_leave();
    same_work_goes_on();
    marks_stay();
    marks_are_few();
    state.holds_together();
    match state.end(x, opposite(d)) {
        Some(half) => mark(marks, half.comp),
        None => {}
    }
}

/// The other end of a channel.
fn opposite(d: Dir) -> Dir
    ensures { result ≡ ways.opposite d }
{
    match d {
        Dir::Plus => Dir::Minus,
        Dir::Minus => Dir::Plus,
    }
}
