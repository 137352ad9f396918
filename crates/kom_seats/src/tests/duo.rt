ghost use Rattle.std.specs.Prelude.{◌≡◌, ◌≤◌, ◌∷◌, [], None, length, IfOk, IfSome, vec_capacity};
ghost use Rattle.std.specs.Arc.{arc_value};
ghost use Rattle.kom_record.specs.Plans.{PlanFits};
ghost use Rattle.kom_core.specs.Cores.{system_in, plan_in, history_in};
ghost use Rattle.kom_exchange.specs.Later.{about_of};
ghost use Rattle.kom_exchange.specs.Seats.{given_to, AreFresh};
ghost use Rattle.kom_seats.specs.Duos.{IsDuo};

use crate::{Placed, end_job, rest, take_item};
use kom_base::{Comp, Copied};
use kom_core::Core;
use kom_drives::Said;
use kom_exchange::{Begun, Exchange, Seat};
use kom_io::MemorySink;
use kom_loading::{Loaded, Planned, plan_of, system_of};
use kom_record::{Plan, Station};
use kom_system::System;
use kom_trace::{Traced, write_trace};
use std::alloc::{AllocError, Global};
use std::sync::{Arc, Wait};

/// A call of a worker, 0 or 1.
#[derive(Clone, Copy, Debug)]
pub enum Call {
    /// The worker takes the next item of a component.
    Take(u32, u32),
    /// The worker handles the job that it has in hand, and ends it.
    End(u32),
    /// The worker asks what there is to do.
    Rest(u32),
}

/// A run, and two workers that make it at one exchange.
pub struct Duo {
    pub system: Arc<System, Global>,
    pub plan: Plan,
    /// The exchange with the station of the system and the plan.
    pub exchange: Exchange<Core>,
    pub zero: Placed,
    pub one: Placed,
    /// The list from which the seats came, with room for both.
    pub seats: Vec<Seat>,
}

/// A run that has come to its close.
#[derive(Drop)]
pub struct Closed {
    pub system: Arc<System, Global>,
    pub plan: Plan,
    /// The station of the system and the plan.
    pub core: Core,
}

/// The worker at the next seat of a list; it has no job in hand.
fn placed(seats: &mut Vec<Seat>) -> Placed
    requires { 1 ≤ length seats.old.items }
    ensures seat { seats.old.items ≡ result.seat ∷ seats.new.items }
    ensures job { result.job ≡ None }
    ensures room { vec_capacity seats.new ≡ vec_capacity seats.old }
{
    Placed {
        seat: seats.remove(0),
        job: None,
    }
}

/// The two workers at the seats of an exchange.
fn seated(
    system: Arc<System, Global>,
    plan: Plan,
    exchange: Exchange<Core>,
    mut seats: Vec<Seat>,
) -> Duo
    requires run { (system_in (given_to exchange) ≡ arc_value system) × (plan_in (given_to exchange) ≡ plan) × (history_in (given_to exchange) ≡ []) }
    requires room { 2 ≤ vec_capacity seats }
    requires fresh { AreFresh exchange.table.shared.table_id (history_in (given_to exchange)) (about_of system_in plan_in (given_to exchange)) 2 seats.items }
    ensures { IsDuo result.exchange (arc_value result.system) result.plan result.zero result.one result.seats.items (vec_capacity result.seats) }
{
    let zero = placed(&mut seats);
    let one = placed(&mut seats);
    Duo {
        system,
        plan,
        exchange,
        zero,
        one,
        seats,
    }
}

/// A run that begins; nobody has a job in hand.
fn begin(alloc: Global, system: System, plan: Plan) -> Result<Duo, AllocError>
    requires { PlanFits system.declarations plan }
    ensures { IfOk result (λ d. IsDuo d.exchange (arc_value d.system) d.plan d.zero d.one d.seats.items (vec_capacity d.seats)) }
{
    let system = Arc::new(alloc, system)?;
    let kom_core::Begun { core, .. } = Core::begin(
        alloc,
        Arc::try_clone(&system)?,
        plan.copy(alloc)?,
    )?;
    match Exchange::begin(alloc, core, 2) {
        Begun::Made(exchange, seats) => Ok(seated(system, plan, exchange, seats)),
        Begun::Memory(_) => Err(AllocError),
    }
}

impl Duo {
    /// A run of the system of a text under the scenario of another, of which nothing was made yet;
    /// `None` where one of the texts is refused. The error is want of memory.
    pub fn open(alloc: Global, system: &str, scenario: &str) -> Result<Option<Duo>, AllocError>
        ensures { IfOk result (λ found. IfSome found (λ d. IsDuo d.exchange (arc_value d.system) d.plan d.zero d.one d.seats.items (vec_capacity d.seats))) }
    {
        let system = match system_of(alloc, system.as_bytes()) {
            Loaded::System(system) => system,
            Loaded::Memory => return Err(AllocError),
            _ => return Ok(None),
        };
        let plan = match plan_of(alloc, scenario.as_bytes(), &system) {
            Planned::Plan(plan) => plan,
            Planned::Memory => return Err(AllocError),
            _ => return Ok(None),
        };
        let duo = begin(alloc, system, plan)?;
        Ok(Some(duo))
    }

    /// Makes a call.
    pub fn call<R: Wait>(&mut self, rt: &R, alloc: Global, call: Call) -> Said
        requires { IsDuo self.old.exchange (arc_value self.old.system) self.old.plan self.old.zero self.old.one self.old.seats.items (vec_capacity self.old.seats) }
        ensures { IsDuo self.new.exchange (arc_value self.new.system) self.new.plan self.new.zero self.new.one self.new.seats.items (vec_capacity self.new.seats) }
    {
        match call {
            Call::Take(0, c) => take_item(rt, &self.exchange, &mut self.zero, Comp(c)),
            Call::Take(1, c) => take_item(rt, &self.exchange, &mut self.one, Comp(c)),
            Call::End(0) => end_job(rt, alloc, &self.exchange, &mut self.zero),
            Call::End(1) => end_job(rt, alloc, &self.exchange, &mut self.one),
            Call::Rest(0) => rest(rt, &self.exchange, &mut self.zero),
            Call::Rest(1) => rest(rt, &self.exchange, &mut self.one),
            _ => Said::NoCall,
        }
    }

    /// Closes the exchange with both seats.
    pub fn close(self) -> Closed
        requires { IsDuo self.exchange (arc_value self.system) self.plan self.zero self.one self.seats.items (vec_capacity self.seats) }
        ensures { (system_in result.core ≡ arc_value result.system) × (plan_in result.core ≡ result.plan) }
    {
        let Duo {
            system,
            plan,
            exchange,
            zero,
            one,
            mut seats,
        } = self;
        let Placed { seat, job: _ } = zero;
        seats.push_reserved(seat);
        let Placed { seat, job: _ } = one;
        seats.push_reserved(seat);
        let core = exchange.close(seats).into_station();
        Closed { system, plan, core }
    }
}

impl Closed {
    /// The text of the record. The error is want of memory, or that it has more than 65,536 bytes.
    pub fn trace(&self, alloc: Global) -> Result<Vec<u8>, AllocError>
        requires { (system_in self.now.core ≡ arc_value self.now.system) × (plan_in self.now.core ≡ self.now.plan) }
    {
        let mut sink = MemorySink::make(alloc, 65536, 4096, Vec::new(alloc))?;
        let tally = self.core.tally();
        let kept = self.core.kept();
        match write_trace(
            alloc,
            &self.system,
            &self.plan,
            kept,
            &tally,
            &mut sink,
            false,
        ) {
            Traced::Whole => sink.bytes().to_vec(alloc),
            _ => Err(AllocError),
        }
    }
}
