ghost use Rattle.std.specs.Prelude.{◌≡◌, ℕ, ◌+◌, ◌<◌, ◌≤◌, ◌==◌, ◌&&◌, not, false, [], ◌∷◌, ◌++◌, if◌then◌else◌, length, vec_capacity};
ghost use Rattle.kom_comps.specs.Members.{has};
ghost use Rattle.kom_state.specs.Parts.{state_of};
ghost use Rattle.kom_turns.specs.Runs.{IsRunnableBy};
ghost use Rattle.kom_marks.specs.Settling.{IsSettled, IsRunSettled};

use kom_base::Comp;
use kom_comps::Comps;
use kom_record::Wakes;
use kom_state::RunState;
use kom_turns::{Run, is_runnable};

/// Finds out of each marked component whether it is runnable now, and takes the marks away. The
/// answer lists those that are runnable and were not, by rising number, and nobody where the run is
/// closed. It takes no memory but the room that is given, and costs for each mark the logarithm of
/// the number of channels and components.
pub fn settle(run: &mut Run, room: Vec<Comp>) -> Wakes
    requires empty { room.items ≡ [] }
    requires room { length run.old.marks.list ≤ vec_capacity room }
    requires within { run.old.marks.bound ≤ run.old.runnable.bound }
    ensures { IsRunSettled run.old run.new result }
{
    let closed = run.counts.is_closed();
    let mut woken = room;
    settle_marks(
        &run.state,
        &run.busy,
        &mut run.runnable,
        &mut run.marks,
        closed,
        &mut woken,
    );
    Wakes::of(woken)
}

/// Finds out of each marked component whether it is runnable.
fn settle_marks(
    state: &RunState,
    busy: &Comps,
    runnable: &mut Comps,
    marks: &mut Comps,
    closed: bool,
    woken: &mut Vec<Comp>,
)
    requires empty { woken.old.items ≡ [] }
    requires room { length marks.old.list ≤ vec_capacity woken.old }
    requires within { marks.old.bound ≤ runnable.old.bound }
    ensures { IsSettled (state_of state.now) busy.now closed runnable.old runnable.new marks.old marks.new woken.new.items }
{
    while let Some(c) = marks.first() {
        settle_one(state, busy, runnable, closed, c, woken);
        marks.set(c, false);
    }
}

/// Finds out of one component whether it is runnable.
fn settle_one(
    state: &RunState,
    busy: &Comps,
    runnable: &mut Comps,
    closed: bool,
    c: Comp,
    woken: &mut Vec<Comp>,
)
    requires below { c < runnable.old.bound }
    requires room { length woken.old.items < vec_capacity woken.old }
    ensures again { IsRunnableBy (state_of state.now) busy.now c (has runnable.new c) }
    ensures others { (d : ℕ) → (d == c) ≡ false → has runnable.new d ≡ has runnable.old d }
    ensures bound { runnable.new.bound ≡ runnable.old.bound }
    ensures woken { woken.new.items ≡ woken.old.items ++ (if not closed && (has runnable.new c && not (has runnable.old c)) then c ∷ [] else []) }
    ensures room { vec_capacity woken.old ≤ vec_capacity woken.new }
{
    let runs = is_runnable(state, busy, c);
    let is_woken = !closed && runs && !runnable.contains(c);
    runnable.set(c, runs);
    if is_woken {
        let _ = woken.push(c);
    }
}
