ghost use Rattle.std.specs.Prelude.{◌≡◌, []};
ghost use Rattle.kom_record.specs.Ready.{ready_list};
ghost use Rattle.kom_sim.specs.Simulations.{IsSimulation};

use crate::line::Line;
use crate::turns::{Turn, advance};
use kom_record::{Station, Wakes};
use std::alloc::Global;

/// The answer of `simulate`.
pub enum Simulated<T: Station> {
    /// The station stands for the record of the simulation.
    Ended(T),
    /// Want of memory; the station stands for a legal record, which may have a job in hand.
    Memory(T),
}

/// Simulates the station's system under its plan: worker 0 takes the component that became ready
/// first, the least number among equals, and ends its job at once; where none is ready the time
/// moves; and the end is where nothing is left to do or the record is closed. The station stands for
/// the empty record, and `wakes` is what is ready in it.
pub fn simulate<T: Station>(alloc: Global, mut station: T, wakes: Wakes) -> Simulated<T>
    requires empty { T.history station ≡ [] }
    requires ready { wakes ≡ ready_list (T.system station).declarations (T.plan station) [] }
    ensures { IsSimulation T.system T.plan T.history station result }
{
    let mut line = Line::new(alloc);
    let Ok(()) = line.push_all(&wakes) else {
        return Simulated::Memory(station);
    };
    loop {
        match advance(alloc, &mut station, &mut line) {
            Turn::Again => {}
            Turn::Ended => return Simulated::Ended(station),
            Turn::Memory => return Simulated::Memory(station),
        }
    }
}
