ghost use Rattle.std.specs.Prelude.{◌≡◌, ℕ, false, [], length, IfOk};
ghost use Rattle.std.specs.Arc.{arc_value};
ghost use Rattle.kom_comps.specs.Members.{has};
ghost use Rattle.kom_record.specs.Plans.{PlanFits};
ghost use Rattle.kom_state.specs.Parts.{state_of};
ghost use Rattle.kom_times.specs.Following.{Follows};
ghost use Rattle.kom_turns.specs.Runs.{IsRun, history_of};
ghost use Rattle.kom_begins.specs.Begun.{AreFirst, AreTested, AreOpened, IsJoined, IsOpening, IsStarted};

use kom_base::Comp;
use kom_comps::Comps;
use kom_env::Env;
use kom_index::Ordered;
use kom_record::{Plan, Record};
use kom_state::RunState;
use kom_system::System;
use kom_times::begins_before_all;
use kom_turns::{Counts, Run, is_runnable};
use std::alloc::{AllocError, Global};
use std::sync::Arc;

/// Begins a run of a system under a plan that fits it: its record is empty, and the root waits for
/// its first items. The error is want of memory. It costs the instances of the root's tree, each
/// with the logarithm of the number of channels, and the raises of the plan.
pub fn begin(alloc: Global, system: Arc<System, Global>, plan: Plan) -> Result<Run, AllocError>
    requires { PlanFits (arc_value system).declarations plan }
    ensures run { IfOk result IsRun }
    ensures history { IfOk result (λ v. history_of v ≡ []) }
    ensures system { IfOk result (λ v. arc_value v.system ≡ arc_value system) }
    ensures plan { IfOk result (λ v. v.env.plan ≡ plan) }
{
    let opening = opening_for(alloc, &system, plan)?;
    Ok(join(alloc, system, opening))
}

/// What a run begins with beside its system and its record.
#[derive(Drop)]
struct Opening {
    state: RunState,
    env: Env,
    sets: Sets,
    counts: Counts,
}

/// Who is busy, runnable and marked in a run that begins.
#[derive(Drop)]
struct Sets {
    busy: Comps,
    runnable: Comps,
    marks: Comps,
}

/// A run with an empty record. It takes no memory.
fn join(alloc: Global, system: Arc<System, Global>, opening: Opening) -> Run
    ensures { IsJoined (arc_value system) opening.state opening.env opening.sets.busy opening.sets.runnable opening.sets.marks opening.counts result }
{
    Run {
        system,
        kept: Record::new(alloc),
        state: opening.state,
        env: opening.env,
        jobs: Ordered::new(alloc),
        busy: opening.sets.busy,
        runnable: opening.sets.runnable,
        marks: opening.sets.marks,
        counts: opening.counts,
    }
}

/// What a run of a system under a plan begins with.
fn opening_for(alloc: Global, system: &System, plan: Plan) -> Result<Opening, AllocError>
    requires { PlanFits system.now.declarations plan }
    ensures { IfOk result (λ o. IsOpening system.now.declarations plan o.state o.env o.sets.busy o.sets.runnable o.sets.marks o.counts) }
{
    let counts = counts_for(&plan);
    let env = env_for(alloc, system, plan)?;
    let state = start(alloc, system)?;
    let sets = sets_for(alloc, &state)?;
    Ok(Opening {
        state,
        env,
        sets,
        counts,
    })
}

/// Nobody is busy or marked, and it is found out who is runnable.
fn sets_for(alloc: Global, state: &RunState) -> Result<Sets, AllocError>
    ensures { IfOk result (λ o. AreOpened state.now o.busy o.runnable o.marks) }
{
    let busy = none_of(alloc, state.instance_count())?;
    let marks = none_of(alloc, state.instance_count())?;
    let runnable = runnable_in(alloc, state, &busy)?;
    Ok(Sets {
        busy,
        runnable,
        marks,
    })
}

/// The state of a run that begins.
fn start(alloc: Global, system: &System) -> Result<RunState, AllocError>
    ensures { IfOk result (IsStarted system.now.declarations) }
{
    let state = kom_births::begin(alloc, system)?;
    Ok(state)
}

/// What is counted of a run that begins.
fn counts_for(plan: &Plan) -> Counts
    ensures { AreFirst plan.now result }
{
    Counts {
        steps: plan.steps,
        instants: plan.instants,
        unhandled: false,
        queued: 0,
        out: 0,
    }
}

/// The environment of a run that begins.
fn env_for(alloc: Global, system: &System, plan: Plan) -> Result<Env, AllocError>
    requires { PlanFits system.now.declarations plan }
    ensures follows { IfOk result (λ v. Follows system.now.declarations plan [] v) }
    ensures plan { IfOk result (λ v. v.plan ≡ plan) }
{
    begins_before_all();
    Env::begin(alloc, system, plan)
}

/// The empty set, with room for so many components.
fn none_of(alloc: Global, count: u32) -> Result<Comps, AllocError>
    ensures empty { IfOk result (λ comps. (c : ℕ) → has comps c ≡ false) }
    ensures bound { IfOk result (λ comps. comps.bound ≡ count) }
{
    let mut comps = Comps::new(alloc);
    comps.widen(count)?;
    Ok(comps)
}

/// The components that are runnable.
fn runnable_in(alloc: Global, state: &RunState, busy: &Comps) -> Result<Comps, AllocError>
    ensures tested { IfOk result (λ comps. AreTested (state_of state.now) busy.now (length (state_of state.now).nodes) comps) }
    ensures bound { IfOk result (λ comps. comps.bound ≡ length (state_of state.now).nodes) }
{
    let count = state.instance_count();
    let mut comps = none_of(alloc, count)?;
    for c in 0..count {
        comps.set(Comp(c), is_runnable(state, busy, Comp(c)));
    }
    Ok(comps)
}
