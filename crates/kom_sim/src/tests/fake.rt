ghost use Rattle.std.specs.Prelude.{◌≡◌, []};
ghost use Rattle.std.specs.Arc.{arc_value};
ghost use Rattle.kom_record.specs.Legal.{IsLegal};
ghost use Rattle.kom_record.specs.Plans.{PlanFits};
ghost use Rattle.kom_record.specs.Ready.{ready_list, queued, out, has_more};

use crate::{Simulated, simulate};
use kom_base::Comp;
use kom_record::{Committed, Plan, Ran, Record, Rest, StandsFor, Station, Taken, Tally, Wakes};
use kom_system::System;
use std::alloc::Global;
use std::sync::Arc;

/// A station that never has memory.
#[derive(Drop)]
pub struct Fake {
    system: Arc<System, Global>,
    plan: Plan,
    kept: Record,
    tally: Tally,
    ghost fits: { ∥ PlanFits (arc_value system).declarations plan ∥₁ },
    ghost legal: { ∥ IsLegal (arc_value system).declarations plan kept.history ∥₁ },
    ghost queued: { tally.queued ≡ queued (arc_value system).declarations kept.history },
    ghost out: { tally.out ≡ out (arc_value system).declarations kept.history },
    ghost more: { tally.more ≡ has_more (arc_value system).declarations plan kept.history },
}

impl StandsFor for Fake {
    ghost use Rattle.std.specs.Arc.{arc_value};

    ghost system = { λ s. arc_value s.system };

    ghost plan = { λ s. s.plan };

    ghost history = { λ s. s.kept.history };
}

impl Station for Fake {
    fn take(&mut self, _w: u32, _c: Comp) -> Taken {
        Taken::Memory
    }

    fn commit(&mut self, ran: Ran) -> Committed {
        Committed::Memory(ran)
    }

    fn rest(&mut self, _w: u32) -> Rest {
        Rest::Memory
    }

    fn tally(&self) -> Tally {
        self.tally
    }

    fn kept(&self) -> &Record {
        &self.kept
    }

    fn into_kept(self) -> Record {
        let Fake { kept, .. } = self;
        kept
    }

    ghost fits = { λ s. s.fits };

    ghost legal = { λ s. s.legal };
}

/// A simulation of this station.
pub fn simulate_fake(alloc: Global, station: Fake, wakes: Wakes) -> bool
    requires empty { station.kept.history ≡ [] }
    requires ready { wakes ≡ ready_list (arc_value station.system).declarations station.plan [] }
{
    match simulate(alloc, station, wakes) {
        Simulated::Ended(_) => true,
        Simulated::Memory(_) => false,
    }
}
