ghost use Rattle.std.specs.Prelude.{◌≡◌, ◌≤◌, ◌<◌, ◌+◌, ◌^◌, length, IsSome};
ghost use Rattle.kom_env.specs.Outside.{due_of};
ghost use Rattle.kom_turns.specs.Runs.{history_of};
ghost use Rattle.kom_moves.specs.Bringing.{AreThere, HaveRoom};
ghost use Rattle.kom_moves.specs.Moved.{IsMoveNoted};

use crate::brings::bring;
use kom_base::Comp;
use kom_marks::mark;
use kom_record::{Entry, Releases};
use kom_turns::Run;

/// Adds the entry with which the time moves: what it releases comes into the channels, and the
/// environment passes to it. The root is marked, which alone receives from the environment. It takes
/// no memory.
pub fn note_move(run: &mut Run, w: u32, t: u64, released: Releases)
    requires kept { 1 ≤ run.old.kept.spare }
    requires few { length released < 2 ^ 32 }
    requires position { length (history_of run.old) < 2 ^ 32 }
    requires there { AreThere run.old.state released }
    requires room { HaveRoom (length released) run.old.state released }
    requires pending { IsSome (due_of run.old.env) }
    requires root { 0 < run.old.marks.bound }
    requires instant { 1 ≤ run.old.counts.instants }
    requires queued { run.old.counts.queued + length released < 2 ^ 64 }
    ensures { IsMoveNoted w t released run.old run.new }
{
    let position = run.kept.len() as u32;
    bring(&mut run.state, position, released.as_slice());
    mark(&mut run.marks, Comp(0));
    run.env.pass();
    run.counts.instants -= 1;
    run.counts.queued += released.len() as u64;
    run.kept.add(Entry::Moved { w, t, released });
}
