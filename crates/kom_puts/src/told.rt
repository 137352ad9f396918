ghost use Rattle.std.specs.Prelude.{◌≡◌, ◌<◌, true, length};
ghost use Rattle.kom_state.specs.Parts.{state_of};
ghost use Rattle.kom_state.specs.Readings.{nearest_in};
ghost use Rattle.kom_puts.specs.Puts.{IsTold, is_above};

use kom_base::Comp;
use kom_state::RunState;
use kom_told::nearest_by_state;

/// Who is told of a fault of a component: the closest proper ancestor that has a fault handler
/// subscribed, with its slot that contains the component; `None` exactly where no ancestor has one.
/// It costs the depth of the component.
pub fn told_of(state: &RunState, c: Comp) -> Option<(Comp, u8)>
    requires { c < length (state_of state.now).nodes }
    ensures nearest { result ≡ nearest_in (state_of state.now) c }
    ensures told { IsTold (state_of state.now) c result }
    ensures above { is_above (state_of state.now) c result ≡ true }
{
    nearest_by_state();
    state.nearest(c)
}
