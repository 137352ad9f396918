ghost use Rattle.std.specs.Prelude.{◌≡◌, ◌≤◌, ◌+◌, ℕ, true, length};
ghost use Rattle.kom_base.specs.declared.numbers.Dir as dirs;
ghost use Rattle.kom_coming.specs.Directions.{AreBelow, AreThere};
ghost use Rattle.kom_entering.specs.Lists.{numbers_into};
ghost use Rattle.kom_marks.specs.Marking.{IsMarked};
ghost use Rattle.kom_puts.specs.Puts.{HasRoomToFollow, dumped_in};
ghost use Rattle.kom_refine.specs.States.{State};
ghost use Rattle.kom_refine.specs.Steps.{SameQueues};
ghost use Rattle.kom_state.specs.Parts.{queue_spare, state_of};
ghost use Rattle.kom_commits.specs.Acting.{IsBegun};

use kom_base::Comp;
use kom_coming::come_in;
use kom_comps::Comps;
use kom_entering::Coming;
use kom_lang::Body;
use kom_marks::marks_add_up;
use kom_puts::put_by_item;
use kom_record::{Control, Item};
use kom_state::RunState;

/// Puts what follows from the item that a living component handles, whatever its handlers do, and
/// brings into the channels what the handling offers. It marks who gets something. It takes no
/// memory, and costs the slots of the component, and the logarithm of the number of channels for
/// each that comes.
pub fn begin(
    state: &mut RunState,
    marks: &mut Comps,
    c: Comp,
    body: &Body,
    item: &Item,
    dumped: Option<(Comp, Control)>,
    comings: &[Coming],
)
    requires living { (state_of state.old).living c ≡ true }
    requires few { length body.now.slots ≤ 256 }
    requires dumped { dumped ≡ dumped_in (state_of state.old) c body.now item.now }
    requires spare { HasRoomToFollow 1 (state_of state.old) c body.now item.now state.old }
    requires there { (m : State) → SameQueues (state_of state.old) m → AreThere comings.now m }
    requires room { (x : ℕ) (d : dirs.Dir) → length (numbers_into comings.now x d) ≤ queue_spare state.old x d }
    requires below { AreBelow marks.old.bound (state_of state.old) }
    requires bound { length (state_of state.old).nodes ≤ marks.old.bound }
    ensures begun { IsBegun c item.now body.now comings.now state.old state.new }
    ensures marks { IsMarked ((1 + length body.now.slots) + length comings.now) marks.old marks.new (state_of state.old) (state_of state.new) }
{
    marks_add_up();
    put_by_item(state, marks, c, body, item, dumped);
    come_in(state, marks, comings);
}
