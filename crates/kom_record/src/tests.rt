mod driver;
mod fake;

use super::*;
use kom_base::{Chan, Comp, Copied, Dir, EntryNo, Event, Side, Values};
use kom_lang::{Body, Effect};
use sqlite_items::Items;
use std::alloc::{AllocError, Global};
use std::test::Fail;

fn event(alloc: Global, value: i64) -> Result<Event, AllocError> {
    let mut values = Values::new(alloc);
    values.push(value)?;
    Ok(Event { kind: 4, values })
}

fn arrival(alloc: Global, back: Back) -> Result<Item, AllocError> {
    Ok(Item::Arrival {
        chan: Chan(0),
        dir: Dir::Plus,
        no: EntryNo {
            position: 0,
            place: 0,
        },
        port: 0,
        side: Side::Outside,
        event: event(alloc, 1)?,
        back,
    })
}

fn body(alloc: Global) -> Body {
    Body {
        kind: 0,
        vars: Values::new(alloc),
        subs: Items::new(alloc),
        slots: Items::new(alloc),
        wires: Items::new(alloc),
        depth: 1,
        active: true,
        initialised: true,
    }
}

// a trigger, an effect that offers nothing, and an answer
fn effects(alloc: Global) -> Result<Items<Effect>, AllocError> {
    let mut effects = Items::new(alloc);
    effects.push(Effect::Trigger {
        port: 1,
        event: event(alloc, 2)?,
    })?;
    effects.push(Effect::Start(0))?;
    effects.push(Effect::Answer {
        event: event(alloc, 3)?,
    })?;
    Ok(effects)
}

fn moved(alloc: Global) -> Result<Entry, AllocError> {
    let mut released = Items::new(alloc);
    released.push(Release {
        chan: Chan(0),
        event: event(alloc, 1)?,
    })?;
    Ok(Entry::Moved {
        w: 0,
        t: 5,
        released,
    })
}

fn took(alloc: Global) -> Result<Entry, AllocError> {
    Ok(Entry::Took {
        w: 0,
        c: Comp(0),
        item: arrival(alloc, Back::Plain)?,
    })
}

fn did(alloc: Global) -> Result<Entry, AllocError> {
    Ok(Entry::Did {
        w: 0,
        c: Comp(0),
        took: 1,
        outcome: Outcome::Done {
            body: body(alloc),
            effects: effects(alloc)?,
        },
        to: None,
        unreached: Items::new(alloc),
    })
}

fn append(record: &mut Record, entry: Entry) -> Result<(), AllocError> {
    record.reserve(1)?;
    record.add(entry);
    Ok(())
}

// a release, the Took of it, and its Did
fn filled(alloc: Global) -> Result<Record, AllocError> {
    let mut record = Record::new(alloc);
    append(&mut record, moved(alloc)?)?;
    append(&mut record, took(alloc)?)?;
    append(&mut record, did(alloc)?)?;
    Ok(record)
}

// the value of the event with a number
fn offered(record: &Record, no: EntryNo) -> Option<i64> {
    match record.offer(no) {
        Some(event) => event.values.at(0),
        None => None,
    }
}

// the offers of that record, and places without one
const OFFERS: [(u32, u32, Option<i64>, Option<Back>); 7] = [
    (0, 0, Some(1), Some(Back::Plain)),
    (1, 0, None, None),
    (2, 0, Some(1), Some(Back::Plain)),
    (2, 1, Some(2), Some(Back::Plain)),
    (2, 2, Some(3), Some(Back::To(1))),
    (2, 3, None, None),
    (3, 0, None, None),
];

#[test]
fn finds_offers(rt: HostRuntime) -> Result<(), Fail> {
    let record = filled(rt.alloc())?;
    for (position, place, value, back) in OFFERS {
        let no = EntryNo { position, place };
        assert_eq!(rt; offered(&record, no), value);
        assert_eq!(rt; record.back(no), back);
    }
    Ok(())
}

#[test]
fn reads_entries(rt: HostRuntime) -> Result<(), Fail> {
    let record = filled(rt.alloc())?;
    assert_eq!(rt; record.len(), 3);
    assert!(rt; record.at(2).is_some());
    assert!(rt; record.at(3).is_none());
    Ok(())
}

fn plan(alloc: Global) -> Result<Plan, AllocError> {
    let mut raises = Items::new(alloc);
    raises.push(Raise {
        time: 7,
        chan: Chan(1),
        event: event(alloc, 9)?,
    })?;
    Ok(Plan {
        seed: 42,
        steps: 10,
        instants: 20,
        lo: 1,
        hi: 2,
        raises,
    })
}

#[test]
fn copies_a_plan(rt: HostRuntime) -> Result<(), Fail> {
    let copy = plan(rt.alloc())?.copy(rt.alloc())?;
    assert_eq!(rt; copy.seed, 42);
    match copy.raises.get(0) {
        Some(raise) => {
            assert_eq!(rt; raise.time, 7);
            assert_eq!(rt; raise.event.values.at(0), Some(9));
        }
        None => assert!(rt; false, "the raise is there"),
    }
    Ok(())
}

#[test]
fn copies_control_items(rt: HostRuntime) -> Result<(), Fail> {
    let control = Control::Fault { slot: 3, number: 8 };
    let copy = Item::Control(control).copy(rt.alloc())?;
    assert!(rt; matches!(&copy, Item::Control(Control::Fault { slot: 3, number: 8 })));
    Ok(())
}

#[test]
fn copies_arrivals(rt: HostRuntime) -> Result<(), Fail> {
    let copy = arrival(rt.alloc(), Back::To(6))?.copy(rt.alloc())?;
    assert!(rt;
        matches!(
            &copy,
            Item::Arrival {
                back: Back::To(6),
                ..
            }
        )
    );
    Ok(())
}

#[test]
fn copies_releases(rt: HostRuntime) -> Result<(), Fail> {
    let event = event(rt.alloc(), 4)?;
    let release = Release {
        chan: Chan(2),
        event,
    };
    let copy = release.copy(rt.alloc())?;
    assert_eq!(rt; copy.event.values.at(0), Some(4));
    Ok(())
}

#[test]
fn lists_wakes(rt: HostRuntime) -> Result<(), Fail> {
    let mut wakes = Wakes::new(rt.alloc());
    wakes.push(Comp(2))?;
    wakes.push(Comp(5))?;
    let copy = wakes.copy(rt.alloc())?;
    assert_eq!(rt; copy.len(), 2);
    assert_eq!(rt; copy.at(1), Some(&Comp(5)));
    assert_eq!(rt; copy.at(2), None);
    let comps = Vec::from_slice(rt.alloc(), [Comp(1), Comp(4)].as_slice())?;
    assert_eq!(rt; Wakes::of(comps).at(1), Some(&Comp(4)));
    Ok(())
}

#[test]
fn passes_the_open_gate(rt: HostRuntime) {
    NoGate.enter(&rt, 0, Comp(0));
}
