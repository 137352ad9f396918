ghost use Rattle.kom_marks.specs.Marking.{MarksStay, MarksAddUp, MarksAreFew};
ghost use Rattle.kom_marks.specs.Settling.{SettledStands, UnmarkedStay};

use kom_wakes::{counts_go_on, same_work_goes_on, untouched_stay, wakes_are_marked};

/// A step that leaves all components what they have to do needs no mark.
pub fn marks_stay()
    ensures { MarksStay }
{}

/// The marks of a step and of the next one are marks of both together.
pub fn marks_add_up()
    ensures { MarksAddUp }
{
    same_work_goes_on();
}

/// There may be fewer marks than were counted.
pub fn marks_are_few()
    ensures { MarksAreFew }
{}

/// Who is not marked, and is as busy as before an entry, is as runnable as before it.
pub fn unmarked_stay()
    ensures { UnmarkedStay }
{
    untouched_stay();
}

/// A run that stands for its record with one entry more, but for who is runnable, stands for it
/// once its marks are settled, and those are woken whom the entry makes ready.
pub fn settled_stands()
    ensures { SettledStands }
{
    counts_go_on();
    wakes_are_marked();
}
