ghost use Rattle.std.specs.Prelude.{◌≡◌, IfOk, IsSome};
ghost use Rattle.kom_base.specs.Numbers as dirs;
ghost use Rattle.kom_refine.specs.Steps.{IsTaken};
ghost use Rattle.kom_state.specs.Parts.{state_of};
ghost use Rattle.kom_state.specs.Rooms.{KeepsRoom, KeepsControls, KeepsQueues};
ghost use Rattle.kom_turns.specs.Items as items;
ghost use Rattle.kom_turns.specs.Items.{WaitsFirst, IsArrival, half_at, event_at, back_at};

use kom_base::{Chan, Comp, Copied, Dir, EntryNo};
use kom_record::{Item, Record};
use kom_state::RunState;
use std::alloc::{AllocError, Global};

/// The other end of a channel.
fn opposite(d: Dir) -> Dir
    ensures { result ≡ dirs.opposite d }
{
    match d {
        Dir::Plus => Dir::Minus,
        Dir::Minus => Dir::Plus,
    }
}

/// The event that was offered with a number, as it arrives by a direction of a living channel. It
/// costs no more than a copy of the event.
pub fn arrival(
    alloc: Global,
    state: &RunState,
    kept: &Record,
    x: Chan,
    d: Dir,
    no: EntryNo,
) -> Result<Item, AllocError>
    requires half { IsSome (half_at (state_of state.now) x d) }
    requires event { IsSome (event_at kept.now.history no) }
    requires back { IsSome (back_at kept.now.history no) }
    ensures { IfOk result (λ item. IsArrival (state_of state.now) kept.now.history x d no item) }
{
    match (state.end(x, opposite(d)), kept.offer(no), kept.back(no)) {
        (Some(half), Some(event), Some(back)) => Ok(Item::Arrival {
            chan: x,
            dir: d,
            no,
            port: half.port,
            side: half.side,
            event: event.copy(alloc)?,
            back,
        }),
        _ => unreachable!(),
    }
}

/// Takes an item out of where it waits first. It takes no memory.
pub fn take_out(state: &mut RunState, c: Comp, item: &Item)
    requires { WaitsFirst (state_of state.old) c item.now }
    ensures step { IsTaken c item.now (state_of state.old) (state_of state.new) }
    ensures room { KeepsRoom state.old state.new }
    ensures controls { KeepsControls state.old state.new }
    ensures queues { KeepsQueues state.old state.new }
{
    match item {
        Item::Control(_) => {
            let _ = state.take_control(c);
        }
        Item::Arrival { chan, dir, .. } => {
            let _ = state.take_arrival(*chan, *dir);
        }
    }
}

/// How many events an item takes out of a channel.
pub fn events_in(item: &Item) -> u64
    ensures { result ≡ items.events_in item.now }
{
    match item {
        Item::Control(_) => 0,
        Item::Arrival { .. } => 1,
    }
}
