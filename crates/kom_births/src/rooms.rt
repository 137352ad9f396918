ghost use Rattle.std.specs.Prelude.{◌≡◌, ℕ, ◌+◌, ◌<◌, ◌≤◌, ◌^◌, true, length, OnOk};
ghost use Rattle.kom_state.specs.Parts.{state_of, has_queues};
ghost use Rattle.kom_state.specs.Rooms.{IsSame, HasNoLess};
ghost use Rattle.kom_births.specs.Sowing.{HasRows};

use crate::seed::Seed;
use kom_base::{Chan, Comp, Dir};
use kom_state::RunState;
use std::alloc::AllocError;

/// Makes room for the control rows of what is planted, of which the first gets a number.
pub fn reserve_rows(state: &mut RunState, seeds: &[Seed], first: u32) -> Result<(), AllocError>
    requires { first + length seeds.now ≤ 2 ^ 32 }
    ensures same { IsSame (state_of state.old) (state_of state.new) }
    ensures not_less { HasNoLess state.old state.new }
    ensures ok { OnOk result (HasRows seeds.now first state.new) }
{
    for (k, seed) in seeds.iter().enumerate() {
        let items = if seed.init.is_some() { 1 } else { 0 };
        state.reserve_controls(Comp(first + k as u32), items)?;
    }
    Ok(())
}

/// Makes room for the queues of channels whose numbers follow one another.
pub fn reserve_queues(state: &mut RunState, first: u32, count: u32) -> Result<(), AllocError>
    requires { first + count < 2 ^ 32 }
    ensures same { IsSame (state_of state.old) (state_of state.new) }
    ensures not_less { HasNoLess state.old state.new }
    ensures ok { OnOk result ((x : ℕ) → first ≤ x → x < first + count → has_queues state.new x ≡ true) }
{
    for x in first..first + count {
        state.reserve_queue(Chan(x), Dir::Plus, 0)?;
    }
    Ok(())
}
