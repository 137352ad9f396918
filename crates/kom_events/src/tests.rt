use crate::{
    EventRow, EventTypes, Kinds, Op, PortRow, PortTypes, Selector, Test, matches, parent_cycle,
};
use kom_base::{Dir, Event, Values};
use std::alloc::{AllocError, Global};
use std::test::Fail;

fn row(parent: Option<u16>) -> EventRow {
    EventRow { parent, own: 1 }
}

/// The type 1 extends the type 0, and the type 2 stands alone.
fn rows() -> [EventRow; 3] {
    [row(None), row(Some(0)), row(None)]
}

fn one(alloc: Global, kind: u16) -> Result<Kinds, AllocError> {
    Kinds::from_slice(alloc, &[kind])
}

#[test]
fn finds_cycles(rt: HostRuntime) -> Result<(), Fail> {
    assert_eq!(rt; parent_cycle(&rows()), None);
    assert_eq!(rt;
        parent_cycle(&[row(Some(2)), row(Some(1)), row(Some(1))]),
        Some(1)
    );
    assert_eq!(rt;
        parent_cycle(&[row(Some(1)), row(Some(2)), row(Some(1))]),
        Some(1)
    );
    Ok(())
}

#[test]
fn lets_subtypes_pass_a_port(rt: HostRuntime) -> Result<(), Fail> {
    let types = EventTypes::build(rt.alloc(), &rows())?;
    let mut rows = Vec::new(rt.alloc());
    rows.push(PortRow {
        plus: one(rt.alloc(), 0)?,
        minus: one(rt.alloc(), 1)?,
    })?;
    let ports = PortTypes::build(rt.alloc(), rows)?;
    assert_eq!(rt; types.len(), 3);
    assert_eq!(rt; ports.len(), 1);
    assert!(rt; types.is_kin(1, 0) && !types.is_kin(0, 1));
    assert!(rt; ports.passes(&types, 0, Dir::Plus, 1));
    assert!(rt; !ports.passes(&types, 0, Dir::Plus, 2));
    assert!(rt; !ports.passes(&types, 0, Dir::Minus, 0));
    Ok(())
}

#[test]
fn tests_only_events_of_its_type(rt: HostRuntime) -> Result<(), Fail> {
    let types = EventTypes::build(rt.alloc(), &rows())?;
    let mut values = Values::new(rt.alloc());
    values.push(5)?;
    let mut event = Event { kind: 1, values };
    let small = Test {
        kind: 0,
        attr: 0,
        op: Op::Lt,
        number: 5,
    };
    let selector = Selector::from_slice(rt.alloc(), &[small])?;
    assert!(rt; !matches(&types, &selector, &event));
    assert!(rt; matches(&types, &Selector::new(rt.alloc()), &event));
    event.kind = 2;
    assert!(rt; matches(&types, &selector, &event));
    Ok(())
}
