ghost use Rattle.std.specs.Prelude.{◌≡◌, ℕ, ◌+◌, ◌<◌, ◌≤◌, ◌==◌, ◌||◌, length};
ghost use Rattle.kom_comps.specs.Members.{has};
ghost use Rattle.kom_marks.specs.Marking.{MarksOne};

use kom_base::Comp;
use kom_comps::Comps;

/// Marks a component that was created: beside a step that leaves all others what they have to do
/// it is marked. It takes no memory, and costs the logarithm of the number of marks.
pub fn mark(marks: &mut Comps, c: Comp)
    requires { c < marks.old.bound }
    ensures each { (d : ℕ) → has marks.new d ≡ (d == c || has marks.old d) }
    ensures few { length marks.new.list ≤ length marks.old.list + 1 }
    ensures bound { marks.new.bound ≡ marks.old.bound }
    ensures marked { MarksOne c marks.old marks.new }
{
    marks.set(c, true);
}
