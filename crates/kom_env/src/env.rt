ghost use Rattle.std.specs.Prelude.{◌≡◌, ◌<◌, ◌≤◌, ◌+◌, ◌^◌, true, [], map, Some, None, nat_lt, slice_get, unwrap_or, IsSome, IfOk, OnOk, OnErr, length};
ghost use Rattle.std.specs.List.{list_all};
ghost use Rattle.std.specs.Option.{option_map_or};
ghost use Rattle.kom_index.specs.Stock.{entries, spare};
ghost use Rattle.kom_index.specs.Entries.{value_of};
ghost use Rattle.kom_lang.specs.Declarations.{kind_of};
ghost use Rattle.kom_record.specs.Plans.{PlanFits, does_not_fall};
ghost use Rattle.kom_record.specs.Time.{clamped};
ghost use Rattle.kom_env.specs.declared.service.Service.TheVariants.{Nothing};
ghost use Rattle.kom_env.specs.Keys.{number_cmp};
ghost use Rattle.kom_env.specs.Outside.{opened, absorbed, clock_of, due_of, batch_of, next_time, moved_on, with_raise, is_later, delay_by, earlier_of};
ghost use Rattle.kom_env.specs.Waiting.{after_timer, timer_wait, message_wait};

use crate::agenda::{Agenda, Wait, low_tag};
use crate::calendar::Calendar;
use crate::few::{Few, value_at};
use crate::service::{Service, services_for};
use kom_base::{Chan, EntryNo, Event};
use kom_record::{Plan, Raise, Releases};
use kom_system::System;
use rand_core::utils::NextWord;
use rand_pcg::Lcg64Xsh32;
use sqlite_items::Items;
use std::alloc::{AllocError, Global};
use std::marker::Model;

/// The environment: the clock, the raises of the plan, and the timers and messages of the root's
/// served ports.
///
/// Contracts see the plan with what was admitted, what was absorbed and not yet released, and for
/// how many more events or raises there is room. A call costs the logarithm of what is pending, and
/// what it releases, counts or takes away; `begin` and `into_plan` cost the raises of the plan.
#[derive(Drop)]
pub struct Env {
    services: Vec<Service>,
    /// The plan without its raises.
    plan: Plan,
    calendar: Calendar,
    agenda: Agenda,
    last: Option<u64>,
    latest: Option<EntryNo>,
    generator: Lcg64Xsh32,
    releases: u64,
}

impl Model for Env {
    ghost use Rattle.kom_env.specs.Outside.{Outside};

    ghost Value = { Outside };

    ghost use Rattle.kom_env.specs.Seen.{outside_of, IsSound};

    ghost view = { outside_of };

    ghost invariant = { IsSound };
}

impl Env {
    /// The environment of a run that begins.
    pub fn begin(alloc: Global, system: &System, plan: Plan) -> Result<Env, AllocError>
        requires { PlanFits system.now.declarations plan }
        ensures { IfOk result (λ v. v ≡ opened (kind_of system.now.declarations system.now.declarations.root.kind).ports plan v.spare) }
    {
        system.well_formed();
        let kind = system.kind(system.root().kind);
        let services = services_for(alloc, kind.ports.as_slice())?;
        Env::open(alloc, services, plan)
    }

    /// The environment of a run that begins, by what it serves.
    pub(crate) fn open(alloc: Global, services: Vec<Service>, plan: Plan) -> Result<Env, AllocError>
        requires pair { plan.lo ≤ plan.hi }
        requires greatest { plan.hi ≤ 1000000000 }
        requires raises { length plan.raises ≤ 2000000000 }
        requires in_order { does_not_fall (map (λ r. r.time) plan.raises) ≡ true }
        requires times { list_all (λ r. nat_lt r.time 4611686018427387905) plan.raises ≡ true }
        ensures { IfOk result (λ v. v ≡ record (opened [] plan v.spare) { services = services.items }) }
    {
        let Plan {
            seed,
            steps,
            instants,
            lo,
            hi,
            raises,
        } = plan;
        let calendar = Calendar::of(alloc, raises)?;
        Ok(Env {
            services,
            plan: Plan {
                seed,
                steps,
                instants,
                lo,
                hi,
                raises: Items::new(alloc),
            },
            calendar,
            agenda: Agenda::new(alloc),
            last: None,
            latest: None,
            generator: Lcg64Xsh32::new(seed, 2),
            releases: 0,
        })
    }

    /// Makes room for `n` more events, or raises. On want of memory all is as before but that there
    /// may be more room.
    pub fn reserve(&mut self, n: usize) -> Result<(), AllocError>
        ensures same { self.new ≡ record self.old { spare = self.new.spare } }
        ensures ok { OnOk result (n ≤ self.new.spare) }
        ensures not_less { self.old.spare ≤ self.new.spare }
    {
        self.calendar.reserve(n)?;
        self.agenda.reserve(n)
    }

    /// Takes an event that went out by a channel of the root. It takes no memory.
    pub fn absorb(&mut self, x: Chan, no: EntryNo, event: &Event)
        requires spare { 0 < self.old.spare }
        requires later { is_later self.old.latest no ≡ true }
        requires values { length event.now.values ≤ 8 }
        requires few { self.old.releases ≤ 100000 }
        ensures absorbs { self.new ≡ record (absorbed self.old x no event.now) { spare = self.new.spare } }
        ensures latest { self.new.latest ≡ Some no }
        ensures releases { self.new.releases ≡ self.old.releases }
        ensures plan { self.new.plan ≡ self.old.plan }
        ensures last { self.new.last ≡ self.old.last }
        ensures spare { self.old.spare ≤ self.new.spare + 1 }
    {
        let clock = clock_at(&self.last);
        match service_in(&self.services, x) {
            Service::Timer => {
                serve_timer(&mut self.agenda, clock, x, no, event);
                self.latest = Some(no);
            }
            Service::Network => {
                let due = clock + delay(&self.plan, self.generator.next_word());
                self.agenda.add(no, message(due, x, event));
                self.latest = Some(no);
            }
            Service::Nothing => self.latest = Some(no),
        }
    }

    /// The time of the next release; `None` exactly where nothing is pending.
    pub fn next_due(&self) -> Option<u64>
        ensures { result ≡ due_of self.now }
    {
        earlier(self.calendar.next_time(self.last), self.agenda.first_due())
    }

    /// How many items the next release gives; 0 where nothing is pending.
    pub fn due_count(&self) -> usize
        ensures { result ≡ length (batch_of self.now (next_time self.now)) }
    {
        match self.next_due() {
            Some(time) => self.count_at(time),
            None => 0,
        }
    }

    /// How many items are due at a time that is the next.
    fn count_at(&self, time: u64) -> usize
        requires { due_of self.now ≡ Some time }
        ensures { result ≡ length (batch_of self.now time) }
    {
        let waits = self.agenda.count_at(time);
        if is_before(&self.last, time) {
            self.calendar.count_at(time) + waits
        } else {
            waits
        }
    }

    /// Releases all that is due next, and moves the clock to its time: first the raises in their
    /// order, then timers and messages by number. On want of memory all is as before.
    pub fn release(&mut self, alloc: Global) -> Result<Releases, AllocError>
        requires { IsSome (due_of self.old) }
        ensures gives { IfOk result (λ out. out ≡ batch_of self.old (next_time self.old)) }
        ensures moves { OnOk result (self.new ≡ record (moved_on self.old) { spare = self.new.spare }) }
        ensures spare { self.old.spare ≤ self.new.spare }
        ensures err { OnErr result (self.new ≡ self.old) }
    {
        let out = self.coming(alloc)?;
        self.pass();
        Ok(out)
    }

    /// What the next release gives, where something is pending: first the raises in their order,
    /// then timers and messages by number. The error is want of memory.
    pub fn coming(&self, alloc: Global) -> Result<Releases, AllocError>
        requires { IsSome (due_of self.now) }
        ensures { IfOk result (λ out. out ≡ batch_of self.now (next_time self.now)) }
    {
        match self.next_due() {
            Some(time) => self.batch(alloc, time),
            None => unreachable!(),
        }
    }

    /// Passes to the next release, where something is pending: what is due then is taken away, and
    /// the clock moves to its time. It takes no memory.
    pub fn pass(&mut self)
        requires { IsSome (due_of self.old) }
        ensures moves { self.new ≡ record (moved_on self.old) { spare = self.new.spare } }
        ensures spare { self.old.spare ≤ self.new.spare }
    {
        let Some(time) = self.next_due() else {
            unreachable!()
        };
        self.agenda.discard_due(time);
        self.last = Some(time);
        self.releases = self.releases.saturating_add(1);
    }

    /// What is due at a time that is the next.
    fn batch(&self, alloc: Global, time: u64) -> Result<Releases, AllocError>
        requires { due_of self.now ≡ Some time }
        ensures { IfOk result (λ out. out ≡ batch_of self.now time) }
    {
        let mut out = Vec::new(alloc);
        if is_before(&self.last, time) {
            self.calendar.release_at(alloc, time, &mut out)?;
        }
        self.agenda.release_at(alloc, time, &mut out)?;
        Ok(Items::from_vec(out))
    }

    /// Puts a raise into the plan behind the last whose time is not greater. It takes no memory.
    pub fn admit(&mut self, raise: Raise)
        requires spare { 0 < self.old.spare }
        requires ahead { clock_of self.old < raise.time }
        requires time { raise.time ≤ 4611686018427387904 }
        requires few { length self.old.plan.raises < 2000000000 }
        ensures admits { self.new ≡ record self.old { plan = with_raise raise self.old.plan; spare = self.new.spare } }
        ensures spare { self.old.spare ≤ self.new.spare + 1 }
    {
        self.calendar.admit(raise);
    }

    /// The plan with all that was admitted. It takes no memory.
    pub fn into_plan(self) -> Plan
        ensures { result ≡ self.plan }
    {
        let Env { plan, calendar, .. } = self;
        Plan {
            seed: plan.seed,
            steps: plan.steps,
            instants: plan.instants,
            lo: plan.lo,
            hi: plan.hi,
            raises: calendar.into_raises(),
        }
    }
}

/// Sets or takes away timers, as an event at a served Timer port asks.
fn serve_timer(agenda: &mut Agenda, clock: u64, x: Chan, no: EntryNo, event: &Event)
    requires spare { 0 < spare agenda.old }
    requires absent { value_of number_cmp no (entries agenda.old) ≡ None }
    requires clock { clock + 1000000000 < 2 ^ 64 }
    ensures serves { entries agenda.new ≡ after_timer clock x no event.now (entries agenda.old) }
    ensures spare { spare agenda.old ≤ spare agenda.new + 1 }
{
    match event.kind {
        0 => agenda.add(no, timer(clock, x, event)),
        1 => agenda.discard_like(&low_tag(x, value_at(&event.values, 0))),
        _ => {}
    }
}

/// The release that a SetTimer asks for.
fn timer(clock: u64, x: Chan, event: &Event) -> Wait
    requires { clock + 1000000000 < 2 ^ 64 }
    ensures { result ≡ timer_wait clock x event.now }
{
    Wait {
        due: clock + kept(value_at(&event.values, 1)),
        chan: x,
        kind: 2,
        values: Few::one(value_at(&event.values, 0)),
    }
}

/// The release of a message.
fn message(due: u64, x: Chan, event: &Event) -> Wait
    requires { length event.now.values ≤ 8 }
    ensures { result ≡ message_wait due x event.now }
{
    Wait {
        due,
        chan: x,
        kind: event.kind,
        values: Few::of(&event.values),
    }
}

/// What the environment does for the port of a channel.
fn service_in(services: &[Service], x: Chan) -> Service
    ensures { result ≡ unwrap_or (slice_get services.now x) Nothing }
{
    services
        .get(x.0 as usize)
        .copied()
        .unwrap_or(Service::Nothing)
}

/// The time of the last release, or 0.
fn clock_at(last: &Option<u64>) -> u64
    ensures { result ≡ unwrap_or last.now 0 }
{
    match last {
        Some(time) => *time,
        None => 0,
    }
}

/// Whether the last release, if there was one, was before a time.
fn is_before(last: &Option<u64>, time: u64) -> bool
    ensures { result ≡ option_map_or (λ t. nat_lt t time) last.now true }
{
    match last {
        Some(last) => *last < time,
        None => true,
    }
}

/// The earlier of two times, where there is one at all.
fn earlier(a: Option<u64>, b: Option<u64>) -> Option<u64>
    ensures { result ≡ earlier_of a b }
{
    match (a, b) {
        (Some(a), Some(b)) => Some(if b < a { b } else { a }),
        (Some(a), None) => Some(a),
        (None, b) => b,
    }
}

/// A delay between the plan's bounds, by a word.
fn delay(plan: &Plan, word: u32) -> u64
    requires pair { plan.now.lo ≤ plan.now.hi }
    requires most { plan.now.hi ≤ 1000000000 }
    ensures value { result ≡ delay_by plan.now word }
    ensures short { result ≤ 1000000000 }
{
    u64::from(plan.lo + word % (plan.hi - plan.lo + 1))
}

/// A delay, kept within 0 and 1,000,000,000.
fn kept(delay: i64) -> u64
    ensures value { result ≡ clamped delay }
    ensures short { result ≤ 1000000000 }
{
    if delay < 0 {
        0
    } else {
        (delay as u64).min(1_000_000_000)
    }
}
