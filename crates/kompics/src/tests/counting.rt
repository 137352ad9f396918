use kom_core::{Begun, Core};
use kom_crew::{Counted, Crewed, run_crew_counted};
use kom_loading::{Loaded, Planned, plan_of, system_of};
use kom_record::{Gate, Station};
use std::alloc::{AllocError, Global};
use std::sync::{Arc, Wait};
use std::thread::Threads;

/// How many components the lots gave to the workers of a run of a system under a scenario; `None`
/// where a text is refused or the run did not come to its end.
pub fn given_to_workers<R: Threads + Wait + Sync, G: Gate + Sync>(
    rt: &R,
    alloc: Global,
    system: &[u8],
    scenario: &[u8],
    gate: &G,
) -> Result<Option<u64>, AllocError> {
    let Loaded::System(system) = system_of(alloc, system) else {
        return Ok(None);
    };
    let Planned::Plan(plan) = plan_of(alloc, scenario, &system) else {
        return Ok(None);
    };
    system.well_formed();
    let Begun { core, wakes } = Core::begin(alloc, Arc::new(alloc, system)?, plan)?;
    let Counted { crewed, given } = run_crew_counted(rt, alloc, core, wakes, 2, gate);
    match crewed {
        Crewed::Ended(shut) => {
            shut.into_station().into_kept();
            Ok(Some(given))
        }
        Crewed::Memory(station) => {
            station.into_kept();
            Ok(None)
        }
    }
}
