ghost use Rattle.std.specs.Prelude.{◌≡◌, ◌≤◌, true, length};
ghost use Rattle.kom_state.specs.Parts.{state_of};
ghost use Rattle.kom_puts.specs.Laws.{fault_to};
ghost use Rattle.kom_puts.specs.Puts.{HasRoomFor, is_above};
ghost use Rattle.kom_faults.specs.Faulted.{IsFaultNoted};

use kom_base::Comp;
use kom_marks::{mark, marks_add_up};
use kom_puts::{fault_for, put_one};
use kom_turns::Run;
use kom_wakes::{ends_leave, same_work_goes_on};

/// Puts the fault of a living component to who is told of it, if there is one, and makes the
/// component passive. Both are marked. It takes no memory.
pub fn note_fault(run: &mut Run, c: Comp, number: u16, told: &Option<(Comp, u8)>)
    requires living { (state_of run.old.state).living c ≡ true }
    requires above { is_above (state_of run.old.state) c told.now ≡ true }
    requires spare { HasRoomFor 1 (fault_to told.now number) run.old.state }
    requires bound { length (state_of run.old.state).nodes ≤ run.old.marks.bound }
    ensures noted { IsFaultNoted c number told.now run.old run.new }
    ensures kept { run.new.kept ≡ run.old.kept }
{
    run.state.holds_together();
    same_work_goes_on();
    ends_leave();
    marks_add_up();
    put_one(&mut run.state, &mut run.marks, fault_for(told, number));
    run.state.fault(&run.system, c);
    mark(&mut run.marks, c);
    if told.is_none() {
        run.counts.unhandled = true;
    }
}
