ghost use Rattle.std.specs.Prelude.{◌≡◌, [], IfOk};
ghost use Rattle.kom_lang.specs.Declarations.{Declarations};
ghost use Rattle.kom_record.specs.Answers.{IsInHand};
ghost use Rattle.kom_record.specs.Plans.{PlanFits};
ghost use Rattle.kom_record.specs.Ready.{ready_list};
ghost use Rattle.kom_core.specs.Cores.{system_in, plan_in, history_in};

use crate::{Begun, Core};
use kom_base::Comp;
use kom_eval::{Reacted, react};
use kom_nest::nest_system;
use kom_record::{Committed, Job, Plan, Raises, Rest, Station, Taken, Wakes};
use kom_sim::{Simulated, simulate};
use kom_typed::jobs_are_well_formed;
use std::alloc::{AllocError, Global};
use std::sync::Arc;
use std::test::Fail;

/// A plan without raises.
fn plan(alloc: Global) -> Plan
    ensures { (S : Declarations) → PlanFits S result }
{
    Plan {
        seed: 1,
        steps: 10,
        instants: 5,
        lo: 1,
        hi: 3,
        raises: Raises::new(alloc),
    }
}

/// A run of the system of a root with one child.
fn begun(alloc: Global) -> Result<Begun, AllocError>
    ensures history { IfOk result (λ b. history_in b.core ≡ []) }
    ensures wakes { IfOk result (λ b. b.wakes ≡ ready_list (system_in b.core).declarations (plan_in b.core) []) }
{
    let system = Arc::new(alloc, nest_system(alloc)?)?;
    Core::begin(alloc, system, plan(alloc))
}

#[test]
fn begins_with_the_root_ready(rt: HostRuntime) -> Result<(), Fail> {
    let Begun { mut core, wakes } = begun(rt.alloc())?;
    assert_eq!(rt; wakes.len(), 1);
    assert_eq!(rt; wakes.at(0), Some(&Comp(0)));
    assert!(rt; matches!(core.rest(0), Rest::Ready(Comp(0))));
    let tally = core.tally();
    assert!(rt; tally.queued == 0 && tally.out == 0 && tally.more);
    assert_eq!(rt; core.kept().len(), 0);
    Ok(())
}

/// Handles a job that is in hand, and ends it; `None` is want of memory.
fn handle<T: Station>(alloc: Global, station: &mut T, job: Job) -> Option<Wakes>
    requires { IsInHand (T.system station.old) (T.history station.old) job }
{
    job.system.well_formed();
    jobs_are_well_formed();
    let Reacted::Ran(ran) = react(alloc, job) else {
        return None;
    };
    match station.commit(ran) {
        Committed::Wakes(wakes) => Some(wakes),
        Committed::Memory(_) => None,
    }
}

#[test]
fn takes_and_ends_the_first_item(rt: HostRuntime) -> Result<(), Fail> {
    let Begun { mut core, .. } = begun(rt.alloc())?;
    let Taken::Job(job) = core.take(3, Comp(0)) else {
        panic!(rt; "nothing was taken");
    };
    assert_eq!(rt; (job.w, job.c), (3, Comp(0)));
    assert!(rt; !job.body.active);
    let Some(wakes) = handle(rt.alloc(), &mut core, job) else {
        panic!(rt; "the job was not ended");
    };
    assert_eq!(rt; wakes.len(), 1);
    assert_eq!(rt; wakes.at(0), Some(&Comp(1)));
    assert_eq!(rt; core.into_kept().len(), 2);
    Ok(())
}

/// The station of that run, after its simulation.
fn ended(alloc: Global) -> Result<Core, AllocError> {
    let Begun { core, wakes } = begun(alloc)?;
    match simulate(alloc, core, wakes) {
        Simulated::Ended(core) => Ok(core),
        Simulated::Memory(core) => {
            core.into_kept();
            Err(AllocError)
        }
    }
}

#[test]
fn runs_to_its_end(rt: HostRuntime) -> Result<(), Fail> {
    let mut core = ended(rt.alloc())?;
    assert!(rt; matches!(core.rest(0), Rest::End));
    assert!(rt; !core.tally().more);
    assert_eq!(rt; core.into_kept().len(), 4);
    Ok(())
}
