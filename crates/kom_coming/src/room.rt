ghost use Rattle.std.specs.Prelude.{◌≡◌, ◌≤◌, ℕ, length, OnOk};
ghost use Rattle.kom_base.specs.declared.numbers.Dir as dirs;
ghost use Rattle.kom_entering.specs.Lists.{numbers_into};
ghost use Rattle.kom_state.specs.Parts.{state_of, queue_spare};
ghost use Rattle.kom_state.specs.Rooms.{HasNoLess, IsSame};

use kom_entering::Entering;
use kom_state::RunState;
use std::alloc::AllocError;

/// Makes room for what comes into each direction, into which each offer may come once. The state
/// is as before, and on want of memory there is no less room. It costs what comes in, times the
/// logarithm of the number of channels.
pub fn make_room(state: &mut RunState, entering: &Entering) -> Result<(), AllocError>
    requires once { (x : ℕ) (d : dirs.Dir) → length (numbers_into entering.now.comings x d) ≤ entering.now.offers }
    ensures same { IsSame (state_of state.old) (state_of state.new) }
    ensures not_less { HasNoLess state.old state.new }
    ensures ok { OnOk result ((x : ℕ) (d : dirs.Dir) → length (numbers_into entering.now.comings x d) ≤ queue_spare state.new x d) }
{
    let most = entering.offers as usize;
    for coming in entering.comings.as_slice() {
        state.reserve_queue(coming.chan, coming.dir, most)?;
    }
    Ok(())
}
