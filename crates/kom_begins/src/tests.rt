ghost use Rattle.std.specs.Prelude.{IfOk};
ghost use Rattle.kom_lang.specs.Declarations.{Declarations};
ghost use Rattle.kom_record.specs.Plans.{PlanFits};
ghost use Rattle.kom_turns.specs.Runs.{IsRun};

use crate::begin;
use kom_base::Comp;
use kom_nest::nest_system;
use kom_record::{Plan, Raises};
use kom_turns::{Left, Run};
use std::alloc::{AllocError, Global};
use std::process::Abort;
use std::sync::Arc;
use std::test::Fail;

/// A plan without raises.
fn plan(alloc: Global) -> Plan
    ensures { (S : Declarations) → PlanFits S result }
{
    Plan {
        seed: 1,
        steps: 10,
        instants: 5,
        lo: 1,
        hi: 3,
        raises: Raises::new(alloc),
    }
}

fn begun(alloc: Global) -> Result<Run, AllocError>
    ensures { IfOk result IsRun }
{
    let system = Arc::new(alloc, nest_system(alloc)?)?;
    begin(alloc, system, plan(alloc))
}

fn check_begun(rt: &impl Abort, run: &Run)
    requires { IsRun run.now }
{
    assert!(rt; matches!(run.left(), Left::Ready(Comp(0))));
    let tally = run.tally();
    assert!(rt; tally.queued == 0 && tally.out == 0 && tally.more);
}

#[test]
fn begins_with_the_root_ready(rt: HostRuntime) -> Result<(), Fail> {
    let run = begun(rt.alloc())?;
    check_begun(&rt, &run);
    Ok(())
}
