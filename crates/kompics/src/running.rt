ghost use Rattle.std.specs.Prelude.{◌≡◌, ◌≤◌, ◌+◌, ℕ, false, [], if◌then◌else◌, IfOk};
ghost use Rattle.std.specs.Arc.{arc_value};
ghost use Rattle.kom_lang.specs.Declarations.{Declarations};
ghost use Rattle.kom_system.specs.WellFormed.{IsDeclared};
ghost use Rattle.kom_record.specs.declared.plan.Plan.{Plan};
ghost use Rattle.kom_record.specs.Entries.{History};
ghost use Rattle.kom_record.specs.Legal.{IsLegal};
ghost use Rattle.kom_record.specs.Plans.{PlanFits};
ghost use Rattle.kom_record.specs.Ready.{ready_list};
ghost use Rattle.kom_trace.specs.Counting.{IsTallyOf};
ghost use Rattle.kompics.specs.Promises.{Promises};
ghost use Rattle.kompics.specs.Runs.{Drive, simulated, by_workers, MayKeep, IsRan};

use kom_base::Copied;
use kom_core::{Begun, Core};
use kom_crew::{Crewed, run_crew};
use kom_record::{Gate, Plan, Record, Station, Tally, Wakes};
use kom_sim::{Simulated, simulate};
use kom_system::System;
use kom_trace::count_all;
use std::alloc::{AllocError, Global};
use std::sync::{Arc, Wait};
use std::thread::Threads;

/// What is kept of a run that came to its end.
#[derive(Drop)]
pub struct Ran {
    /// The record.
    pub kept: Record,
    /// What the record leaves.
    pub tally: Tally,
    /// 3 where nobody was told of a fault, else 4 where the run was cut off by its plan with something
    /// left to do, else 0.
    pub status: u8,
}

/// A run that came to its end, with what its text is made by.
#[derive(Drop)]
pub struct Run {
    pub system: Arc<System, Global>,
    pub plan: Plan,
    /// Whether only the two last lines of the trace are asked for.
    pub brief: bool,
    pub ran: Ran,
    ghost legal: { ∥ IsLegal (arc_value system).declarations plan ran.kept.history ∥₁ },
    ghost tallied: { IsTallyOf (arc_value system).declarations plan ran.kept.history ran.tally },
}

/// Runs a system under a plan that fits it with so many workers, each of which passes the gate before it
/// handles an item. The error is want of memory. The call may wait, as handlings of other workers and
/// the gate do.
pub fn run_with_workers<R: Threads + Wait + Sync, G: Gate + Sync>(
    rt: &R,
    alloc: Global,
    system: System,
    plan: Plan,
    workers: u32,
    gate: &G,
) -> Result<Run, AllocError>
    requires plan { PlanFits system.declarations plan }
    requires workers { (1 ≤ workers) × (workers ≤ 64) }
    ensures system { IfOk result (λ run. arc_value run.system ≡ system) }
    ensures plan { IfOk result (λ run. run.plan ≡ plan) }
    ensures brief { IfOk result (λ run. run.brief ≡ false) }
    ensures ran { IfOk result (λ run. IsRan (by_workers workers) system.declarations plan run.ran) }
{
    system.well_formed();
    let system = Arc::new(alloc, system)?;
    let Begun { core, wakes } = Core::begin(alloc, Arc::try_clone(&system)?, plan.copy(alloc)?)?;
    let ran = crew(rt, alloc, core, wakes, workers, gate)?;
    Ok(Run {
        system,
        plan,
        brief: false,
        ran,
    })
}

/// Simulates a system under a plan that fits it; `brief` says whether only the two last lines of its
/// trace are asked for. The error is want of memory.
pub fn run_system(alloc: Global, system: System, plan: Plan, brief: bool) -> Result<Run, AllocError>
    requires { PlanFits system.declarations plan }
    ensures system { IfOk result (λ run. arc_value run.system ≡ system) }
    ensures plan { IfOk result (λ run. run.plan ≡ plan) }
    ensures brief { IfOk result (λ run. run.brief ≡ brief) }
    ensures ran { IfOk result (λ run. IsRan simulated system.declarations plan run.ran) }
{
    let system = Arc::new(alloc, system)?;
    let ran = begin(alloc, Arc::try_clone(&system)?, plan.copy(alloc)?)?;
    Ok(Run {
        system,
        plan,
        brief,
        ran,
    })
}

/// Begins a run, and simulates it.
fn begin(alloc: Global, system: Arc<System, Global>, plan: Plan) -> Result<Ran, AllocError>
    requires { PlanFits (arc_value system).declarations plan }
    ensures { IfOk result (λ ran. IsRan simulated (arc_value system).declarations plan ran) }
{
    system.well_formed();
    let Begun { core, wakes } = Core::begin(alloc, system, plan)?;
    simulate_all(alloc, core, wakes)
}

/// Simulates the system of a station that stands for the empty record.
fn simulate_all<T: Station>(alloc: Global, station: T, wakes: Wakes) -> Result<Ran, AllocError>
    requires declared { IsDeclared (T.system station).declarations }
    requires empty { T.history station ≡ [] }
    requires ready { wakes ≡ ready_list (T.system station).declarations (T.plan station) [] }
    ensures { IfOk result (λ ran. IsRan simulated (T.system station).declarations (T.plan station) ran) }
{
    match simulate(alloc, station, wakes) {
        Simulated::Ended(station) => ended(alloc, station),
        Simulated::Memory(station) => {
            station.into_kept();
            Err(AllocError)
        }
    }
}

/// Runs the system of a station that stands for the empty record, with so many workers.
fn crew<R: Threads + Wait + Sync, T: Station + Send, G: Gate + Sync>(
    rt: &R,
    alloc: Global,
    station: T,
    wakes: Wakes,
    workers: u32,
    gate: &G,
) -> Result<Ran, AllocError>
    requires declared { IsDeclared (T.system station).declarations }
    requires empty { T.history station ≡ [] }
    requires workers { (1 ≤ workers) × (workers ≤ 64) }
    ensures { IfOk result (λ ran. IsRan (by_workers workers) (T.system station).declarations (T.plan station) ran) }
{
    match run_crew(rt, alloc, station, wakes, workers, gate) {
        Crewed::Ended(shut) => ended(alloc, shut.into_station()),
        Crewed::Memory(station) => {
            station.into_kept();
            Err(AllocError)
        }
    }
}

/// What is kept of a station whose run came to its end, however it was driven.
fn ended<T: Station>(alloc: Global, station: T) -> Result<Ran, AllocError>
    requires declared { IsDeclared (T.system station).declarations }
    ensures { (drive : Drive) → ∥ MayKeep drive (T.system station).declarations (T.plan station) (T.history station) ∥₁ → IfOk result (λ ran. IsRan drive (T.system station).declarations (T.plan station) ran) }
{
    records_promise();
    let tally = station.tally();
    let kept = station.into_kept();
    let counts = count_all(alloc, &kept)?;
    let status = status_of(counts.has_unhandled(), tally.more);
    Ok(Ran {
        kept,
        tally,
        status,
    })
}

/// The status of a run that came to its end.
fn status_of(unhandled: bool, more: bool) -> u8
    ensures { result ≡ (if unhandled then 3 else (if more then 4 else 0)) }
{
    if unhandled {
        3
    } else if more {
        4
    } else {
        0
    }
}

/// Each legal record of a well-formed system is as it is promised of runs.
fn records_promise()
    ensures { (S : Declarations) (Z : Plan) (R : History) → IsDeclared S → IsLegal S Z R → Promises S R }
{
    kom_laws::handlings_alternate();
    kom_laws::outcomes_are_reactions();
    kom_laws::each_in_order();
    kom_laws::numbers_rise();
    kom_laws::dead_channels_rest();
    kom_laws::faults_reach_the_nearest();
    kom_laws::escalations_reach_the_nearest();
    kom_laws::states_are_handed_over();
    kom_laws::receipts_are_handed_over();
}
