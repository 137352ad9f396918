ghost use Rattle.std.specs.Prelude.{◌≡◌, [], ◌∷◌, ◌++◌, if◌then◌else◌, IfOk, OnOk};
ghost use Rattle.kom_comps.specs.Members.{has};
ghost use Rattle.kom_record.specs.Ready.{ready_list};
ghost use Rattle.kom_turns.specs.Runs.{IsRun, system_of, history_of};
ghost use Rattle.kom_core.specs.Listed.{AreListed};

use kom_base::Comp;
use kom_comps::Comps;
use kom_record::Wakes;
use kom_turns::Run;
use std::alloc::{AllocError, Global};

/// Those that are ready, in order of number. The error is want of memory. It costs, for each
/// component that was created, the logarithm of how many are runnable.
pub fn ready_comps(alloc: Global, run: &Run) -> Result<Wakes, AllocError>
    requires { IsRun run.now }
    ensures { IfOk result (λ woken. woken ≡ ready_list (system_of run.now) run.now.env.plan (history_of run.now)) }
{
    if run.counts.is_closed() {
        return Ok(Wakes::new(alloc));
    }
    let comps = members(alloc, &run.runnable, run.state.instance_count())?;
    Ok(Wakes::of(comps))
}

/// The components of a set whose numbers are below a bound, by rising number.
fn members(alloc: Global, set: &Comps, bound: u32) -> Result<Vec<Comp>, AllocError>
    ensures { IfOk result (λ comps. AreListed set.now bound comps.items) }
{
    let mut comps = Vec::new(alloc);
    for c in 0..bound {
        list_one(set, Comp(c), &mut comps)?;
    }
    Ok(comps)
}

/// Adds a component at the end where it is in the set.
fn list_one(set: &Comps, c: Comp, comps: &mut Vec<Comp>) -> Result<(), AllocError>
    ensures { OnOk result (comps.new.items ≡ comps.old.items ++ (if has set.now c then c ∷ [] else [])) }
{
    if set.contains(c) {
        comps.push(c)?;
    }
    Ok(())
}
