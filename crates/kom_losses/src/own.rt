ghost use Rattle.std.specs.Prelude.{◌≡◌, ◌<◌, ◌≤◌, ◌^◌, true, IsSome};
ghost use Rattle.kom_base.specs.declared.numbers.Dir.TheVariants as dir;
ghost use Rattle.kom_numbers.specs.Numbering.{count_of, is_of};
ghost use Rattle.kom_state.specs.Parts.{state_of};
ghost use Rattle.kom_queued.specs.Counting.{waiting_at};
ghost use Rattle.kom_losses.specs.Owned.{FewWait, WiresAreCounted, waiting_of};

use kom_base::{Chan, Comp, Dir};
use kom_state::RunState;

/// How many events wait in the channels of a living component. It costs as many channels as its
/// type declares.
pub fn waiting_own(state: &RunState, d: Comp) -> u64
    requires living { (state_of state.now).living d ≡ true }
    requires wires { WiresAreCounted state.now }
    requires few { FewWait state.now }
    ensures { result ≡ waiting_of state.now (is_of state.now.numbers d) }
{
    state.holds_together();
    let mut count = 0;
    for k in 0..wire_count(state, d) {
        let x = state.channel(d, k as u8);
        count += waiting_in_both(state, x);
    }
    count
}

/// How many channels a living component has.
fn wire_count(state: &RunState, d: Comp) -> usize
    requires living { (state_of state.now).living d ≡ true }
    requires wires { WiresAreCounted state.now }
    ensures wires { result ≡ count_of state.now.numbers d }
    ensures few { result ≤ 256 }
{
    state.holds_together();
    match state.body(d) {
        Some(body) => body.wires.len(),
        None => unreachable!(),
    }
}

/// How many events wait in both directions of a living channel that does not lead out.
fn waiting_in_both(state: &RunState, x: Chan) -> u64
    requires plus { IsSome ((state_of state.now).queues x dir.Plus) }
    requires minus { IsSome ((state_of state.now).queues x dir.Minus) }
    requires few { waiting_at (state_of state.now) x < 2 ^ 64 }
    ensures { result ≡ waiting_at (state_of state.now) x }
{
    let plus = state.waiting(x, Dir::Plus) as u64;
    let minus = state.waiting(x, Dir::Minus) as u64;
    plus + minus
}
