mod sample;

use crate::{Handling, Setting, fails_fit, run_statements};
use kom_base::{Dir, Values};
use kom_lang::{
    Binary, Block, Body, Expr, Exprs, Name, Place, Slots, Stmt, Subs, Target, Wire, Wires,
};
use kom_system::System;
use kom_values::{Scope, Stop};
use sample::smallest;
use sqlite_items::{Boxed, Items};
use std::alloc::{AllocError, Global};
use std::process::Abort;
use std::test::Fail;

// statements that a table can hold
#[derive(Clone, Copy, Debug)]
enum Case {
    Start(u8),
    Stop(u8),
    Dump(u8),
    Destroy(u8),
    Hold(u8),
    Resume(u8),
    Unplug(u8, Dir),
    Plug(u8, Dir, u8),
    PlugOwn(u8, Dir, u8),
    Create(u8),
    FromState(u8),
    Subscribe(u8),
    Unsubscribe(u8),
    Fail(u16),
    Escalate,
    // an event with the value 1 / n
    Trigger(i64),
}

fn child_port(alloc: Global, slot: u8) -> Result<Target, AllocError> {
    Ok(Target::Child {
        slot,
        port: Name::of(alloc, b"p")?,
    })
}

fn quotient(alloc: Global, n: i64) -> Result<Exprs, AllocError> {
    let mut values = Exprs::new(alloc);
    values.push(pair(alloc, Binary::Div, Expr::Number(1), Expr::Number(n))?)?;
    Ok(values)
}

fn statement(alloc: Global, case: Case) -> Result<Stmt, AllocError> {
    match case {
        Case::Start(slot) => Ok(Stmt::Start(slot)),
        Case::Stop(slot) => Ok(Stmt::Stop(slot)),
        Case::Dump(slot) => Ok(Stmt::Dump(slot)),
        Case::Destroy(slot) => Ok(Stmt::Destroy(slot)),
        Case::Hold(wire) => Ok(Stmt::Hold(wire)),
        Case::Resume(wire) => Ok(Stmt::Resume(wire)),
        Case::Unplug(wire, end) => Ok(Stmt::Unplug { wire, end }),
        Case::Plug(wire, end, slot) => Ok(Stmt::Plug {
            wire,
            end,
            target: child_port(alloc, slot)?,
        }),
        Case::PlugOwn(wire, end, port) => Ok(Stmt::Plug {
            wire,
            end,
            target: Target::Own(port),
        }),
        Case::Create(slot) => Ok(Stmt::Create {
            slot,
            kind: 0,
            args: Exprs::new(alloc),
        }),
        Case::FromState(slot) => Ok(Stmt::CreateFromState { slot, kind: 0 }),
        Case::Subscribe(h) => Ok(Stmt::Subscribe(h)),
        Case::Unsubscribe(h) => Ok(Stmt::Unsubscribe(h)),
        Case::Fail(number) => Ok(Stmt::Fail(number)),
        Case::Escalate => Ok(Stmt::Escalate),
        Case::Trigger(n) => Ok(Stmt::Trigger {
            kind: 4,
            values: quotient(alloc, n)?,
            port: 0,
        }),
    }
}

fn held(plus: Option<Place>, minus: Option<Place>) -> Wire {
    Wire {
        held: true,
        plus,
        minus,
    }
}

fn at_own(port: u8) -> Option<Place> {
    Some(Place { slot: None, port })
}

// channel 0 is held, with its plus end at the child in slot 0 and its minus end free; channel 1 is
// not held, with both ends at the component's own ports
fn wires(alloc: Global) -> Result<Wires, AllocError> {
    let mut wires = Wires::new(alloc);
    let child = Place {
        slot: Some(0),
        port: 0,
    };
    wires.push(held(Some(child), None))?;
    wires.push(Wire {
        held: false,
        plus: at_own(0),
        minus: at_own(1),
    })?;
    Ok(wires)
}

// one variable; the child in slot 0 is of type 0, and slot 1 is empty
fn body(alloc: Global, depth: u8) -> Result<Body, AllocError> {
    let mut vars = Values::new(alloc);
    vars.push(0)?;
    let mut slots = Slots::new(alloc);
    slots.push(Some(0))?;
    slots.push(None)?;
    Ok(Body {
        kind: 0,
        vars,
        subs: Subs::new(alloc),
        slots,
        wires: wires(alloc)?,
        depth,
        active: true,
        initialised: true,
    })
}

fn handling(alloc: Global, depth: u8) -> Result<Handling, AllocError> {
    Ok(Handling {
        body: body(alloc, depth)?,
        scope: Scope::new(alloc),
        effects: Items::new(alloc),
        turns: 0,
    })
}

fn run_block(
    rt: &impl Abort,
    setting: &Setting<'_>,
    block: &Block,
    handling: &mut Handling,
) -> Result<(), Stop> {
    let statements = block.as_slice();
    assert!(rt; fails_fit(statements));
    run_statements(setting, statements, handling)
}

// runs one statement
fn run(
    rt: &impl Abort,
    setting: &Setting<'_>,
    statement: Stmt,
    handling: &mut Handling,
) -> Result<(), Stop> {
    let mut block = Block::new(setting.alloc);
    block.push(statement)?;
    run_block(rt, setting, &block, handling)
}

fn run_case(
    rt: &impl Abort,
    setting: &Setting<'_>,
    case: Case,
    handling: &mut Handling,
) -> Result<(), Stop> {
    let statement = statement(setting.alloc, case)?;
    run(rt, setting, statement, handling)
}

// what comes of statements in a handling of their own, up to the first fault
fn run_cases(
    rt: &impl Abort,
    setting: &Setting<'_>,
    cases: &[Case],
    handling: &mut Handling,
) -> Result<(), Stop> {
    for case in cases {
        run_case(rt, setting, *case, handling)?;
    }
    Ok(())
}

// at depth 15: a statement that is the first of a handling, and what comes of it; the state in hand
// has one value, and type 0 has no variables and no ports
const FIRST: [(Case, Result<(), Stop>); 21] = [
    (Case::Start(0), Ok(())),
    (Case::Start(1), Err(Stop::Fault(6))),
    (Case::Stop(1), Err(Stop::Fault(6))),
    (Case::Dump(1), Err(Stop::Fault(6))),
    (Case::Destroy(1), Err(Stop::Fault(6))),
    (Case::Destroy(0), Err(Stop::Fault(7))),
    (Case::Resume(0), Err(Stop::Fault(10))),
    (Case::Resume(1), Ok(())),
    (Case::Unplug(1, Dir::Plus), Err(Stop::Fault(8))),
    (Case::Unplug(0, Dir::Minus), Err(Stop::Fault(10))),
    // not held, with an end that is taken; held, with an end that is taken, at an empty slot
    (Case::Plug(1, Dir::Plus, 0), Err(Stop::Fault(8))),
    (Case::Plug(0, Dir::Plus, 1), Err(Stop::Fault(9))),
    // held and free, at an empty slot, and at a child without ports
    (Case::Plug(0, Dir::Minus, 1), Err(Stop::Fault(6))),
    (Case::Plug(0, Dir::Minus, 0), Err(Stop::Fault(11))),
    (Case::PlugOwn(1, Dir::Plus, 0), Err(Stop::Fault(8))),
    (Case::PlugOwn(0, Dir::Plus, 0), Err(Stop::Fault(9))),
    (Case::Create(0), Err(Stop::Fault(5))),
    (Case::Create(1), Ok(())),
    // taken and of another shape; of another shape
    (Case::FromState(0), Err(Stop::Fault(5))),
    (Case::FromState(1), Err(Stop::Fault(12))),
    (Case::Fail(899), Err(Stop::Fault(999))),
];

// the same at depth 16
const DEEP: [(Case, Result<(), Stop>); 3] = [
    (Case::Create(0), Err(Stop::Fault(5))),
    (Case::Create(1), Err(Stop::Fault(13))),
    (Case::FromState(1), Err(Stop::Fault(12))),
];

fn check_first(
    rt: &impl Abort,
    setting: &Setting<'_>,
    table: &[(Case, Result<(), Stop>)],
    depth: u8,
) -> Result<(), AllocError> {
    for (case, expected) in table {
        let mut handling = handling(setting.alloc, depth)?;
        let found = run_case(rt, setting, *case, &mut handling);
        assert_eq!(rt; found, *expected, "{case:?}");
    }
    Ok(())
}

fn check_both(rt: &impl Abort, setting: &Setting<'_>) -> Result<(), AllocError> {
    check_first(rt, setting, &FIRST, 15)?;
    check_first(rt, setting, &DEEP, 16)
}

fn check_orders(rt: &impl Abort, alloc: Global, system: &System) -> Result<(), AllocError> {
    let it = Values::new(alloc);
    let mut state = Values::new(alloc);
    state.push(5)?;
    let setting = Setting {
        alloc,
        system,
        it: &it,
        state: &state,
    };
    check_both(rt, &setting)
}

#[test]
fn checks_come_in_their_order(rt: HostRuntime) -> Result<(), Fail> {
    let system = smallest(rt.alloc())?;
    check_orders(&rt, rt.alloc(), &system)?;
    Ok(())
}

fn pair(alloc: Global, op: Binary, left: Expr, right: Expr) -> Result<Expr, AllocError> {
    Ok(Expr::Pair {
        op,
        left: Boxed::new(alloc, left)?,
        right: Boxed::new(alloc, right)?,
    })
}
