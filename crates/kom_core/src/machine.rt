ghost use Rattle.kom_turns.specs.Runs.{IsRun};

use crate::ends::end;
use crate::ready::ready_comps;
use kom_base::Comp;
use kom_begins::begin;
use kom_moves::move_on;
use kom_record::{Committed, Plan, Ran, Record, Rest, StandsFor, Station, Taken, Tally, Wakes};
use kom_system::System;
use kom_turns::{Left, Run};
use std::alloc::{AllocError, Global};
use std::sync::Arc;

/// A station that keeps the state of its run.
///
/// It is one value that one worker at a time drives; it takes memory from the allocator that it was
/// begun with.
#[derive(Drop)]
pub struct Core {
    alloc: Global,
    run: Run,
    pub ghost stands: { IsRun run },
}

/// A run that begins: its station, and who is ready, in order of number.
#[derive(Drop)]
pub struct Begun {
    pub core: Core,
    pub wakes: Wakes,
}

impl Core {
    ghost use Rattle.std.specs.Prelude.{◌≡◌, [], IfOk};
    ghost use Rattle.std.specs.Arc.{arc_value};
    ghost use Rattle.kom_record.specs.Plans.{PlanFits};
    ghost use Rattle.kom_record.specs.Ready.{ready_list};
    ghost use Rattle.kom_core.specs.Cores.{system_in, plan_in, history_in};

    /// Begins a run of a system under a plan that fits it. The station stands for the empty record;
    /// beside it come those that are ready in that record. The error is want of memory. It costs the
    /// instances of the root's tree, each with the logarithm of the number of channels, and the
    /// raises of the plan.
    pub fn begin(
        alloc: Global,
        system: Arc<System, Global>,
        plan: Plan,
    ) -> Result<Begun, AllocError>
        requires { PlanFits (arc_value system).declarations plan }
        ensures system { IfOk result (λ b. system_in b.core ≡ arc_value system) }
        ensures plan { IfOk result (λ b. plan_in b.core ≡ plan) }
        ensures history { IfOk result (λ b. history_in b.core ≡ []) }
        ensures wakes { IfOk result (λ b. b.wakes ≡ ready_list (system_in b.core).declarations (plan_in b.core) []) }
    {
        let run = begin(alloc, system, plan)?;
        let wakes = ready_comps(alloc, &run)?;
        Ok(Begun {
            core: Core { alloc, run },
            wakes,
        })
    }
}

impl StandsFor for Core {
    ghost use Rattle.kom_core.specs.Cores.{system_in, plan_in, history_in};

    ghost system = { system_in };

    ghost plan = { plan_in };

    ghost history = { history_in };
}

impl Station for Core {
    ghost use Rattle.kom_core.specs.Standing.{plan_fits, is_legal};

    /// It costs copies of the item and of the body, and the logarithm of the rest.
    fn take(&mut self, w: u32, c: Comp) -> Taken {
        self.run.take(self.alloc, w, c)
    }

    /// It costs what the effects of the handling change, with the logarithms of the numbers of
    /// components and of channels.
    fn commit(&mut self, ran: Ran) -> Committed {
        match end(&mut self.run, self.alloc, &ran) {
            Ok(wakes) => Committed::Wakes(wakes),
            Err(_) => Committed::Memory(ran),
        }
    }

    /// It costs the logarithm of how much there is and, where the time moves, what is released.
    fn rest(&mut self, w: u32) -> Rest {
        match self.run.left() {
            Left::Ready(c) => Rest::Ready(c),
            Left::Waiting => Rest::Waiting,
            Left::Nothing => Rest::End,
            Left::Closed => Rest::Closed,
            Left::Pending => match move_on(&mut self.run, self.alloc, w) {
                Ok(wakes) => Rest::Moved(wakes),
                Err(_) => Rest::Memory,
            },
        }
    }

    fn tally(&self) -> Tally {
        self.run.tally()
    }

    fn kept(&self) -> &Record {
        &self.run.kept
    }

    fn into_kept(self) -> Record {
        let Core { run, .. } = self;
        let Run { kept, .. } = run;
        kept
    }

    ghost fits = { λ s. plan_fits s.run s.stands };

    ghost legal = { λ s. is_legal s.run s.stands };
}
