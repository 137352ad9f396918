ghost use Rattle.std.specs.Prelude.{◌≡◌, ◌<◌, ◌≤◌, ◌^◌, length, OnOk};
ghost use Rattle.kom_refine.specs.Steps.{HaveCome};
ghost use Rattle.kom_state.specs.Parts.{state_of};
ghost use Rattle.kom_state.specs.Rooms.{HasNoLess, IsSame};
ghost use Rattle.kom_moves.specs.Bringing as bringing;
ghost use Rattle.kom_moves.specs.Bringing.{AreThere, HaveRoom, brought};

use kom_base::{Chan, Dir, EntryNo};
use kom_record::Release;
use kom_refine::{comes_add_up, nothing_is_added};
use kom_state::RunState;
use std::alloc::AllocError;

/// The direction in which events come in from the environment by a channel of the root.
fn way_in(state: &RunState, x: Chan) -> Dir
    ensures { result ≡ bringing.way_in state.now.numbers.outs x }
{
    if state.leads_out(x, Dir::Plus) {
        Dir::Minus
    } else {
        Dir::Plus
    }
}

/// Makes room for the numbers of releases in the channels that they come into. It leaves the state
/// as it is, and on want of memory no less room than before.
pub fn make_ways(state: &mut RunState, released: &[Release]) -> Result<(), AllocError>
    ensures same { IsSame (state_of state.old) (state_of state.new) }
    ensures not_less { HasNoLess state.old state.new }
    ensures ok { OnOk result (HaveRoom (length released.now) state.new released.now) }
{
    for release in released {
        let way = way_in(state, release.chan);
        state.reserve_queue(release.chan, way, released.len())?;
    }
    Ok(())
}

/// Brings releases into the channels, each with its place in the entry at this position. It takes
/// no memory.
pub fn bring(state: &mut RunState, position: u32, released: &[Release])
    requires few { length released.now < 2 ^ 32 }
    requires there { AreThere state.old released.now }
    requires room { HaveRoom (length released.now) state.old released.now }
    ensures step { HaveCome (brought state.old.numbers.outs position released.now) (state_of state.old) (state_of state.new) }
    ensures numbers { state.new.numbers ≡ state.old.numbers }
{
    nothing_is_added();
    comes_add_up();
    for (k, release) in released.iter().enumerate() {
        let way = way_in(state, release.chan);
        let no = EntryNo {
            position,
            place: k as u32,
        };
        state.come(release.chan, way, no);
    }
}
