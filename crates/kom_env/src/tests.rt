ghost use Rattle.std.specs.Prelude.{◌≡◌, ◌+◌, ◌<◌, ◌≤◌, true, [], ◌∷◌, Some, None, IfOk, length};
ghost use Rattle.kom_env.specs.Outside.{is_later};

use crate::env::Env;
use crate::service::Service;
use kom_base::{Chan, EntryNo, Event, Values};
use kom_record::{Plan, Raise};
use sqlite_items::Items;
use std::alloc::{AllocError, Global};
use std::test::Fail;

fn number(place: u32) -> EntryNo
    ensures { result ≡ record { position = 1; place = place } }
{
    EntryNo { position: 1, place }
}

fn event(alloc: Global, kind: u16, first: i64, second: i64) -> Result<Event, AllocError>
    ensures { IfOk result (λ e. length e.values ≡ 2) }
{
    let mut values = Values::new(alloc);
    values.push(first)?;
    values.push(second)?;
    Ok(Event { kind, values })
}

/// An environment with one served port, and a network from `lo` to `hi`.
fn serving(alloc: Global, service: Service, lo: u32, hi: u32) -> Result<Env, AllocError>
    requires pair { lo ≤ hi }
    requires most { hi ≤ 1000000000 }
    ensures { IfOk result (λ v. (v.latest ≡ None) × (v.releases ≡ 0) × (v.last ≡ None) × (v.plan.raises ≡ [])) }
{
    let mut services = Vec::new(alloc);
    services.push(service)?;
    let plan = Plan {
        seed: 42,
        steps: 1,
        instants: 1,
        lo,
        hi,
        raises: Items::new(alloc),
    };
    Env::open(alloc, services, plan)
}

/// Absorbs an event of the only port.
fn ask(env: &mut Env, place: u32, event: &Event)
    requires spare { 0 < env.old.spare }
    requires later { is_later env.old.latest (record { position = 1; place = place }) ≡ true }
    requires values { length event.now.values ≤ 8 }
    requires few { env.old.releases ≡ 0 }
    ensures latest { env.new.latest ≡ Some (record { position = 1; place = place }) }
    ensures releases { env.new.releases ≡ 0 }
    ensures spare { env.old.spare ≤ env.new.spare + 1 }
{
    env.absorb(Chan(0), number(place), event);
}

/// The channel and the first value of each event of the next release.
fn told(env: &mut Env, alloc: Global) -> Result<Vec<(u32, i64)>, AllocError> {
    let mut told = Vec::new(alloc);
    if env.next_due().is_some() {
        for release in env.release(alloc)?.as_slice() {
            told.push((release.chan.0, release.event.values.at(0).unwrap_or(0)))?;
        }
    }
    Ok(told)
}

#[test]
fn releases_timers_in_time(rt: HostRuntime) -> Result<(), Fail> {
    let alloc = rt.alloc();
    let mut env = serving(alloc, Service::Timer, 1, 1)?;
    env.reserve(4)?;
    ask(&mut env, 0, &event(alloc, 0, 1, 0)?);
    ask(&mut env, 1, &event(alloc, 0, 2, 5)?);
    ask(&mut env, 2, &event(alloc, 0, 3, 5)?);
    assert_eq!(rt; env.next_due(), Some(0));
    assert_eq!(rt; told(&mut env, alloc)?.as_slice(), [(0, 1)].as_slice());
    assert_eq!(rt; env.due_count(), 2);
    assert_eq!(rt;
        told(&mut env, alloc)?.as_slice(),
        [(0, 2), (0, 3)].as_slice()
    );
    assert_eq!(rt; env.next_due(), None);
    Ok(())
}

#[test]
fn cancels_a_timer(rt: HostRuntime) -> Result<(), Fail> {
    let alloc = rt.alloc();
    let mut env = serving(alloc, Service::Timer, 1, 1)?;
    env.reserve(3)?;
    ask(&mut env, 0, &event(alloc, 0, 1, 4)?);
    ask(&mut env, 1, &event(alloc, 0, 2, 4)?);
    ask(&mut env, 2, &event(alloc, 1, 1, 0)?);
    assert_eq!(rt; told(&mut env, alloc)?.as_slice(), [(0, 2)].as_slice());
    Ok(())
}

#[test]
fn draws_delays_of_messages(rt: HostRuntime) -> Result<(), Fail> {
    let alloc = rt.alloc();
    let mut env = serving(alloc, Service::Network, 5, 20)?;
    env.reserve(2)?;
    ask(&mut env, 0, &event(alloc, 4, 1, 2)?);
    ask(&mut env, 1, &event(alloc, 4, 3, 4)?);
    assert_eq!(rt; env.next_due(), Some(11));
    assert_eq!(rt; told(&mut env, alloc)?.as_slice(), [(0, 3)].as_slice());
    assert_eq!(rt; env.next_due(), Some(14));
    Ok(())
}

#[test]
fn keeps_what_was_admitted(rt: HostRuntime) -> Result<(), Fail> {
    let alloc = rt.alloc();
    let mut env = serving(alloc, Service::Nothing, 1, 1)?;
    env.reserve(1)?;
    env.admit(Raise {
        time: 7,
        chan: Chan(0),
        event: event(alloc, 4, 8, 9)?,
    });
    assert_eq!(rt; told(&mut env, alloc)?.as_slice(), [(0, 8)].as_slice());
    let plan = env.into_plan();
    assert_eq!(rt; plan.raises.len(), 1);
    Ok(())
}
