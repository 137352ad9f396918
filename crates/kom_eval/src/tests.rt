mod sample;

use crate::handlers::{handles_event, subscribed};
use crate::prepare::{Wanted, numbers_of};
use kom_base::{Event, Values};
use kom_events::{EventRow, EventTypes};
use kom_lang::{Block, Handler, Handlers, Kind, Name, Names, On};
use kom_record::{Control, Item};
use kom_system::System;
use sample::smallest;
use sqlite_items::Items;
use std::alloc::{AllocError, Global};
use std::process::Abort;
use std::test::Fail;

fn handler(alloc: Global, on: On, off: bool) -> Result<Handler, AllocError> {
    Ok(Handler {
        name: Name::of(alloc, b"h")?,
        on,
        off,
        block: Block::new(alloc),
    })
}

// handlers 0 to 4: start, init, stop that is off, start, fault
fn handlers(alloc: Global) -> Result<Handlers, AllocError> {
    let mut handlers = Handlers::new(alloc);
    handlers.push(handler(alloc, On::Start, false)?)?;
    handlers.push(handler(alloc, On::Init(Names::new(alloc)), false)?)?;
    handlers.push(handler(alloc, On::Stop, true)?)?;
    handlers.push(handler(alloc, On::Start, false)?)?;
    let fault = On::Fault {
        slot: Name::of(alloc, b"s")?,
        number: Name::of(alloc, b"n")?,
    };
    handlers.push(handler(alloc, fault, false)?)?;
    Ok(handlers)
}

fn kind(alloc: Global) -> Result<Kind, AllocError> {
    Ok(Kind {
        name: Name::of(alloc, b"Main")?,
        ports: Items::new(alloc),
        vars: Items::new(alloc),
        slots: Items::new(alloc),
        channels: Items::new(alloc),
        handlers: handlers(alloc)?,
    })
}

fn check_starting(rt: &impl Abort, alloc: Global, system: &System) -> Result<(), AllocError> {
    let kind = kind(alloc)?;
    let subs = Items::from_slice(alloc, &[3, 2, 4, 0])?;
    let start = Item::Control(Control::Start);
    let starting = subscribed(alloc, system, &kind, &subs, &start)?;
    assert_eq!(rt; starting.as_slice(), [3, 0].as_slice());
    Ok(())
}

#[test]
fn handlers_run_in_order_of_subscription(rt: HostRuntime) -> Result<(), Fail> {
    let system = smallest(rt.alloc())?;
    check_starting(&rt, rt.alloc(), &system)?;
    Ok(())
}

#[test]
fn handlers_are_found_in_order_of_declaration(rt: HostRuntime) -> Result<(), Fail> {
    let handlers = handlers(rt.alloc())?;
    assert!(rt; handlers.len() <= 256);
    let first = numbers_of(rt.alloc(), &handlers, Wanted::First)?;
    assert_eq!(rt; first.as_slice(), [0, 3, 4].as_slice());
    let init = numbers_of(rt.alloc(), &handlers, Wanted::Init)?;
    assert_eq!(rt; init.as_slice(), [1].as_slice());
    Ok(())
}

// type 1 extends type 0, and type 2 extends type 1
fn types(alloc: Global) -> Result<EventTypes, AllocError> {
    let rows = [
        EventRow {
            parent: None,
            own: 0,
        },
        EventRow {
            parent: Some(0),
            own: 0,
        },
        EventRow {
            parent: Some(1),
            own: 0,
        },
    ];
    EventTypes::build(alloc, &rows)
}

// the type of an event that arrives at port 1, the type and the port of a handler, and whether it runs
const EVENTS: [(u16, u16, u8, bool); 5] = [
    (1, 1, 1, true),
    (2, 0, 1, true),
    (2, 1, 1, true),
    (0, 1, 1, false),
    (2, 0, 0, false),
];

#[test]
fn events_run_the_handlers_of_their_ancestors(rt: HostRuntime) -> Result<(), Fail> {
    let types = types(rt.alloc())?;
    for (event, kind, port, expected) in EVENTS {
        let event = Event {
            kind: event,
            values: Values::new(rt.alloc()),
        };
        let on = On::Event { kind, port };
        assert_eq!(rt; handles_event(&types, 1, &event, &on), expected);
    }
    Ok(())
}
