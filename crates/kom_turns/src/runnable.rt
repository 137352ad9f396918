ghost use Rattle.std.specs.Prelude.{◌≡◌, ◌||◌, ◌&&◌};
ghost use Rattle.kom_state.specs.Parts.{state_of};
ghost use Rattle.kom_turns.specs.Runs.{IsRunnableBy};

use kom_base::Comp;
use kom_comps::Comps;
use kom_state::RunState;
use kom_wakes::runnable_by_state;

/// Whether a component is runnable after each record for which the state stands and by which it is
/// as busy as the set says. It costs the logarithm of the number of channels.
pub fn is_runnable(state: &RunState, busy: &Comps, c: Comp) -> bool
    ensures { IsRunnableBy (state_of state.now) busy.now c result }
{
    runnable_by_state();
    let front = state.first_for(c);
    if busy.contains(c) {
        return false;
    }
    if !state.alive(c) {
        return false;
    }
    let waits = state.first_control(c).is_some();
    has_work(waits, state.active(c), front.is_some())
}

/// Whether a control item waits, or the component is active and may take an event.
fn has_work(waits: bool, active: bool, event: bool) -> bool
    ensures { result ≡ (waits || (active && event)) }
{
    waits || (active && event)
}
