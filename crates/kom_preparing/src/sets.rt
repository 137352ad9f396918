ghost use Rattle.std.specs.Prelude.{◌≡◌, ◌≤◌, OnOk};
ghost use Rattle.kom_preparing.specs.Spaces.{IsButForSpace};

use kom_turns::Run;
use std::alloc::AllocError;

/// Makes room in the sets of a run for components with numbers below `count`: for all of them among
/// the runnable and the marked, and for all that may be marked among the busy. On want of memory the
/// sets are as before, with bounds that are no less.
pub fn widen_sets(run: &mut Run, count: u32) -> Result<(), AllocError>
    ensures same { IsButForSpace run.old run.new }
    ensures state { run.new.state ≡ run.old.state }
    ensures marks { OnOk result (count ≤ run.new.marks.bound) }
    ensures busy { OnOk result (run.new.marks.bound ≤ run.new.busy.bound) }
{
    run.runnable.widen(count)?;
    run.marks.widen(count)?;
    let widest = run.marks.bound();
    run.busy.widen(widest)?;
    Ok(())
}

/// Makes room for one more entry of the record, and for so many events that go out. On want of
/// memory all is as before but that there may be more room.
pub fn make_entry_room(run: &mut Run, goings: usize) -> Result<(), AllocError>
    ensures same { IsButForSpace run.old run.new }
    ensures state { run.new.state ≡ run.old.state }
    ensures marks { run.new.marks ≡ run.old.marks }
    ensures busy { run.new.busy ≡ run.old.busy }
    ensures kept { OnOk result (1 ≤ run.new.kept.spare) }
    ensures going { OnOk result (goings ≤ run.new.env.spare) }
{
    run.kept.reserve(1)?;
    run.env.reserve(goings)?;
    Ok(())
}
