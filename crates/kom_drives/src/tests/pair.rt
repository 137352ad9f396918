ghost use Rattle.std.specs.Prelude.{IfOk, IfSome};
ghost use Rattle.std.specs.Arc.{arc_value};
ghost use Rattle.kom_record.specs.Plans.{PlanFits};
ghost use Rattle.kom_drives.specs.Pairs.{IsPair};

use crate::{Hand, Said, end_job, rest, take_item};
use kom_base::{Comp, Copied};
use kom_core::{Begun, Core};
use kom_io::MemorySink;
use kom_loading::{Loaded, Planned, plan_of, system_of};
use kom_record::{Plan, Station};
use kom_system::System;
use kom_trace::{Traced, write_trace};
use std::alloc::{AllocError, Global};
use std::sync::Arc;

/// A call of a worker, 0 or 1.
#[derive(Clone, Copy, Debug)]
pub enum Call {
    /// The worker takes the next item of a component.
    Take(u32, u32),
    /// The worker handles the job that it has in hand, and ends it.
    End(u32),
    /// The worker asks what there is to do.
    Rest(u32),
}

/// A run, and two workers that make it.
#[derive(Drop)]
pub struct Pair {
    pub system: Arc<System, Global>,
    pub plan: Plan,
    /// The station of the system and the plan.
    pub core: Core,
    /// What worker 0 has in hand.
    pub zero: Hand,
    /// What worker 1 has in hand.
    pub one: Hand,
}

/// A run that begins; nobody has a job in hand.
fn begin(alloc: Global, system: System, plan: Plan) -> Result<Pair, AllocError>
    requires { PlanFits system.declarations plan }
    ensures { IfOk result (λ p. IsPair p.core (arc_value p.system) p.plan p.zero p.one) }
{
    let system = Arc::new(alloc, system)?;
    let Begun { core, .. } = Core::begin(alloc, Arc::try_clone(&system)?, plan.copy(alloc)?)?;
    Ok(Pair {
        system,
        plan,
        core,
        zero: Hand { w: 0, job: None },
        one: Hand { w: 1, job: None },
    })
}

impl Pair {
    /// A run of the system of a text under the scenario of another, of which nothing was made yet;
    /// `None` where one of the texts is refused. The error is want of memory.
    pub fn open(alloc: Global, system: &str, scenario: &str) -> Result<Option<Pair>, AllocError>
        ensures { IfOk result (λ found. IfSome found (λ p. IsPair p.core (arc_value p.system) p.plan p.zero p.one)) }
    {
        let system = match system_of(alloc, system.as_bytes()) {
            Loaded::System(system) => system,
            Loaded::Memory => return Err(AllocError),
            _ => return Ok(None),
        };
        let plan = match plan_of(alloc, scenario.as_bytes(), &system) {
            Planned::Plan(plan) => plan,
            Planned::Memory => return Err(AllocError),
            _ => return Ok(None),
        };
        let pair = begin(alloc, system, plan)?;
        Ok(Some(pair))
    }

    /// Makes a call.
    pub fn call(&mut self, alloc: Global, call: Call) -> Said
        requires { IsPair self.old.core (arc_value self.old.system) self.old.plan self.old.zero self.old.one }
        ensures { IsPair self.new.core (arc_value self.new.system) self.new.plan self.new.zero self.new.one }
    {
        match call {
            Call::Take(0, c) => take_item(&mut self.core, &mut self.zero, Comp(c)),
            Call::Take(1, c) => take_item(&mut self.core, &mut self.one, Comp(c)),
            Call::End(0) => end_job(alloc, &mut self.core, &mut self.zero),
            Call::End(1) => end_job(alloc, &mut self.core, &mut self.one),
            Call::Rest(w) => rest(&mut self.core, w),
            _ => Said::NoCall,
        }
    }

    /// The text of the record so far. The error is want of memory, or that it has more than 65,536
    /// bytes.
    pub fn trace(&self, alloc: Global) -> Result<Vec<u8>, AllocError>
        requires { IsPair self.now.core (arc_value self.now.system) self.now.plan self.now.zero self.now.one }
    {
        let mut sink = MemorySink::make(alloc, 65536, 4096, Vec::new(alloc))?;
        let tally = self.core.tally();
        let kept = self.core.kept();
        match write_trace(
            alloc,
            &self.system,
            &self.plan,
            kept,
            &tally,
            &mut sink,
            false,
        ) {
            Traced::Whole => sink.bytes().to_vec(alloc),
            _ => Err(AllocError),
        }
    }
}
