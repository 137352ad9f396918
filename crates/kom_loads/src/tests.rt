ghost use Rattle.std.specs.Prelude.{◌≤◌};

use crate::ring::ring_system;
use kom_expand::expand;
use kom_make::{make_scenario, make_system};
use kom_record::Plan;
use kom_scenario::{ScenarioRead, read_scenario};
use kom_sysfile::{SystemRead, read_system};
use kom_system::System;
use std::alloc::{AllocError, Global};
use std::test::Fail;

/// Rule, line and column of a refusal; rule 0 where the text is read.
fn rule(alloc: Global, text: &str, system: &System) -> Option<(u8, u32, u32)> {
    if text.len() > 1048576 {
        return None;
    }
    match read_scenario(alloc, text.as_bytes(), system) {
        ScenarioRead::Scenario(_) => Some((0, 0, 0)),
        ScenarioRead::Refused { rule, line, column } => Some((rule, line, column)),
        ScenarioRead::Memory => None,
    }
}

#[test]
fn reads_settings_and_tokens(rt: HostRuntime) -> Result<(), Fail> {
    let system = ring_system(rt.alloc())?;
    let cases: [(&str, u8, u32, u32); 8] = [
        ("scenario 1;", 0, 0, 0),
        ("scenario 1; steps 10;", 0, 0, 0),
        ("scenario 1; seed 42; network 7 7;", 0, 0, 0),
        ("scenario 1;\n@", 2, 2, 1),
        ("scenario 1;\nseed 9223372036854775808;", 3, 2, 6),
        ("scenario\n 2;", 4, 2, 2),
        ("scenario 1;\nat 0 rai", 5, 2, 6),
        ("scenario 1; steps 100000; instants 1;", 0, 0, 0),
    ];
    for (text, number, line, column) in cases {
        assert_eq!(rt;
            rule(rt.alloc(), text, &system),
            Some((number, line, column))
        );
    }
    Ok(())
}

#[test]
fn finds_names_that_stand_twice_or_for_nothing(rt: HostRuntime) -> Result<(), Fail> {
    let system = ring_system(rt.alloc())?;
    let cases: [(&str, u8, u32, u32); 8] = [
        ("scenario 1; seed 1; steps 0; seed 2;", 6, 1, 30),
        (
            "scenario 1; process a at 0 { count 1; gap 0 0; raise Swap() at cmd; }
process b at 0 { count 1; gap 0 0; raise Swap() at cmd; }
process a at 0 { count 1; gap 0 0; raise Swap() at cmd; }",
            6,
            3,
            9,
        ),
        ("scenario 1; at 0 raise Nothing() at nowhere;", 7, 1, 24),
        ("scenario 1; at 0 raise Swap() at nowhere;", 7, 1, 34),
        (
            "scenario 1; process a after end of a by 1 { count 1; gap 0 0; raise Swap() at cmd; }",
            7,
            1,
            36,
        ),
        (
            "scenario 1; process a after start of b by 1 { count 1; gap 0 0; raise Swap() at cmd; }
process b at 0 { count 1; gap 0 0; raise Swap() at cmd; }",
            7,
            1,
            38,
        ),
        ("scenario 1; seed 1; seed 1; at 0 raise X() at y;", 6, 1, 21),
        ("scenario 1; steps 0; at 0 raise X() at y;", 7, 1, 33),
    ];
    for (text, number, line, column) in cases {
        assert_eq!(rt;
            rule(rt.alloc(), text, &system),
            Some((number, line, column))
        );
    }
    Ok(())
}

#[test]
fn finds_numbers_out_of_range(rt: HostRuntime) -> Result<(), Fail> {
    let system = ring_system(rt.alloc())?;
    let cases: [(&str, u8, u32, u32); 12] = [
        ("scenario 1; steps 0;", 8, 1, 19),
        ("scenario 1; steps 100001;", 8, 1, 19),
        ("scenario 1; instants 0;", 8, 1, 22),
        ("scenario 1; network 1 1000000001;", 8, 1, 23),
        ("scenario 1; network 3 2;", 8, 1, 23),
        ("scenario 1; at 1000000001 raise Swap() at cmd;", 8, 1, 16),
        ("scenario 1; at 0 raise Tok(draw 5 4) at feed;", 8, 1, 35),
        (
            "scenario 1; process a at 0 { count 0; gap 0 0; raise Swap() at cmd; }",
            8,
            1,
            36,
        ),
        (
            "scenario 1; process a at 0 { count 1; gap 2 1; raise Swap() at cmd; }",
            8,
            1,
            45,
        ),
        (
            "scenario 1; process a at 0 { count 100001; gap 2 1; raise Swap() at cmd; }",
            8,
            1,
            36,
        ),
        ("scenario 1; steps 0; at 0 raise Swap(1) at feed;", 8, 1, 19),
        ("scenario 1; network 1000000001 1000000000;", 8, 1, 21),
    ];
    for (text, number, line, column) in cases {
        assert_eq!(rt;
            rule(rt.alloc(), text, &system),
            Some((number, line, column))
        );
    }
    Ok(())
}

#[test]
fn finds_events_that_do_not_come_in(rt: HostRuntime) -> Result<(), Fail> {
    let system = ring_system(rt.alloc())?;
    let cases: [(&str, u8, u32, u32); 6] = [
        ("scenario 1; at 0 raise Swap() at feed;", 9, 1, 24),
        ("scenario 1; at 0 raise Tok(1) at cmd;", 9, 1, 24),
        ("scenario 1; at 0 raise Message(1, 2) at feed;", 9, 1, 24),
        ("scenario 1; at 0 raise Tok() at feed;", 10, 1, 24),
        ("scenario 1; at 0 raise Swap(1) at cmd;", 10, 1, 24),
        ("scenario 1; at 0 raise Swap(1) at feed;", 9, 1, 24),
    ];
    for (text, number, line, column) in cases {
        assert_eq!(rt;
            rule(rt.alloc(), text, &system),
            Some((number, line, column))
        );
    }
    Ok(())
}

#[test]
fn adds_up_events_and_times(rt: HostRuntime) -> Result<(), Fail> {
    let system = ring_system(rt.alloc())?;
    let cases: [(&str, u8, u32, u32); 10] = [
        ("scenario 1; at 1000000000 raise Swap() at cmd;", 0, 0, 0),
        (
            "scenario 1; process a at 0 { count 100000; gap 0 0; raise Swap() at cmd; }
at 0 raise Swap() at cmd;",
            11,
            2,
            1,
        ),
        (
            "scenario 1; at 0 raise Swap() at cmd;
process a at 0 { count 100000; gap 0 0; raise Swap() at cmd; }",
            11,
            2,
            24,
        ),
        (
            "scenario 1; process a at 0 { count 99999; gap 0 0; raise Swap() at cmd; }
at 0 raise Swap() at cmd;",
            0,
            0,
            0,
        ),
        (
            "scenario 1; process a at 1 { count 2; gap 0 1000000000; raise Swap() at cmd; }",
            12,
            1,
            21,
        ),
        (
            "scenario 1; process a at 0 { count 2; gap 0 1000000000; raise Swap() at cmd; }",
            0,
            0,
            0,
        ),
        (
            "scenario 1; process a at 0 { count 2; gap 0 500000000; raise Swap() at cmd; }
process b after end of a by 500000001 { count 1; gap 0 0; raise Swap() at cmd; }",
            12,
            2,
            9,
        ),
        (
            "scenario 1; process a at 0 { count 2; gap 0 500000000; raise Swap() at cmd; }
process b after start of a by 500000001 { count 1; gap 0 0; raise Swap() at cmd; }",
            0,
            0,
            0,
        ),
        (
            "scenario 1; process at at 0 { count 1; gap 0 0; raise Tok(index) at feed; }",
            0,
            0,
            0,
        ),
        ("scenario 1; at 0 raise Tok(-9) at feed;", 0, 0, 0),
    ];
    for (text, number, line, column) in cases {
        assert_eq!(rt;
            rule(rt.alloc(), text, &system),
            Some((number, line, column))
        );
    }
    Ok(())
}

/// The plan of a text that breaks no rule.
fn plan_of(alloc: Global, text: &[u8], system: &System) -> Option<Plan> {
    if text.len() > 1048576 {
        return None;
    }
    match read_scenario(alloc, text, system) {
        ScenarioRead::Scenario(scenario) => expand(alloc, &scenario).ok(),
        ScenarioRead::Refused { .. } => None,
        ScenarioRead::Memory => None,
    }
}

const CHAIN: &str = "scenario 1;
seed 7;
steps 20;
instants 30;
network 4 5;
process a at 10 { count 3; gap 2 9; raise Tok(draw 0 99) at feed; }
at 12 raise Tok(-1) at feed;
process b after start of a by 2 { count 2; gap 0 0; raise Tok(index) at feed; }
process c after end of a by 1 { count 2; gap 5 5; raise Tok(draw 3 3) at feed; }
at 12 raise Swap() at cmd;
";

/// The raises of a plan by time, channel and first value.
fn told(alloc: Global, plan: &Plan) -> Result<Vec<(u64, u32, Option<i64>)>, AllocError> {
    let mut told = Vec::new(alloc);
    for raise in plan.raises.as_slice() {
        told.push((raise.time, raise.chan.0, raise.event.values.at(0)))?;
    }
    Ok(told)
}

fn chain_told(alloc: Global) -> Result<Vec<(u64, u32, Option<i64>)>, AllocError> {
    let system = ring_system(alloc)?;
    match plan_of(alloc, CHAIN.as_bytes(), &system) {
        Some(plan) => told(alloc, &plan),
        None => Ok(Vec::new(alloc)),
    }
}

#[test]
fn draws_and_sorts(rt: HostRuntime) -> Result<(), Fail> {
    let want: [(u64, u32, Option<i64>); 9] = [
        (10, 0, Some(50)),
        (12, 0, Some(-1)),
        (12, 0, Some(0)),
        (12, 0, Some(1)),
        (12, 1, None),
        (18, 0, Some(12)),
        (27, 0, Some(37)),
        (28, 0, Some(3)),
        (33, 0, Some(3)),
    ];
    assert_eq!(rt; chain_told(rt.alloc())?.as_slice(), want.as_slice());
    Ok(())
}

fn settings_told(alloc: Global) -> Result<Option<(u64, u32, u32, u32, u32)>, AllocError> {
    let system = ring_system(alloc)?;
    match plan_of(alloc, CHAIN.as_bytes(), &system) {
        Some(plan) => Ok(Some((plan.seed, plan.steps, plan.instants, plan.lo, plan.hi))),
        None => Ok(None),
    }
}

#[test]
fn keeps_the_settings(rt: HostRuntime) -> Result<(), Fail> {
    assert_eq!(rt; settings_told(rt.alloc())?, Some((7, 20, 30, 4, 5)));
    Ok(())
}

/// The plan of a scenario for the system of a text; `None` also where one of them is not accepted.
fn plan_by_texts(alloc: Global, system: &[u8], scenario: &[u8]) -> Option<Plan> {
    if system.len() > 1048576 {
        return None;
    }
    match read_system(alloc, system) {
        SystemRead::System(system) => plan_of(alloc, scenario, &system),
        SystemRead::Refused { .. } => None,
        SystemRead::Memory => None,
    }
}

/// The seed, the steps and instants, the bounds of delays, and how many events there are.
fn outline(
    alloc: Global,
    system: &[u8],
    scenario: &[u8],
) -> Option<(u64, u32, u32, u32, u32, usize)> {
    let plan = plan_by_texts(alloc, system, scenario)?;
    let count = plan.raises.len();
    Some((
        plan.seed,
        plan.steps,
        plan.instants,
        plan.lo,
        plan.hi,
        count,
    ))
}

const PINGS: &[u8] = b"system 1;
event Ping();
event Pong();
port P { plus Pong; minus Ping; }
component A {
  requires p : P;
  on start as go { trigger Ping() at p; }
  on Pong at p as h { trigger Ping() at p; }
}
component B { provides p : P; on Ping at p as h { trigger Pong() at p; } }
component Main { slot a : A(); slot b : B(); channel k : P from b.p to a.p; }
root Main();
";

const TIMERS: &[u8] = b"system 1;
component Main {
  requires t : Timer;
  var log = 0;
  on start as go {
    trigger SetTimer(1, 0) at t;
    trigger SetTimer(2, 5) at t;
    trigger SetTimer(3, 5) at t;
  }
  on Timeout at t as h { log = log * 10 + it.id; if it.id == 2 { trigger CancelTimer(1) at t; } }
}
root Main();
";

const NODES: &[u8] = b"system 1;
event Hi : Message (n);
component Node {
  requires net : Network;
  var me = 0;
  var got = 0;
  on init(id) as born { me = id; }
  on start as go { trigger Hi(me, 3 - me, me) at net; }
  on Hi at net as h { got = got + it.n; }
}
component Main {
  requires net : Network;
  slot a : Node(1);
  slot b : Node(2);
  channel k : Network from self.net to a.net plus when Message.dst == 1;
  channel l : Network from self.net to b.net plus when Message.dst == 2;
}
root Main();
";

#[test]
fn reads_scenarios_for_the_systems_of_texts(rt: HostRuntime) -> Result<(), Fail> {
    let cases: [(&[u8], &[u8], (u64, u32, u32, u32, u32, usize)); 4] = [
        (PINGS, b"scenario 1; steps 10;", (0, 10, 100000, 1, 1, 0)),
        (TIMERS, b"scenario 1;", (0, 100000, 100000, 1, 1, 0)),
        (
            NODES,
            b"scenario 1; seed 42; network 7 7;",
            (42, 100000, 100000, 7, 7, 0),
        ),
        (
            NODES,
            b"scenario 1; seed 42; network 5 20; at 3 raise Hi(9, 1, 4) at net;",
            (42, 100000, 100000, 5, 20, 1),
        ),
    ];
    for (system, scenario, want) in cases {
        assert_eq!(rt; outline(rt.alloc(), system, scenario), Some(want));
    }
    Ok(())
}

/// How many events the generated scenario of a number has for the generated system.
fn events_of(alloc: Global, n: u32) -> Result<Option<usize>, AllocError>
    requires { (1 ≤ n) × (n ≤ 30) }
{
    let system = make_system(alloc, n)?;
    let scenario = make_scenario(alloc, n)?;
    Ok(plan_by_texts(alloc, system.as_slice(), scenario.as_slice()).map(|plan| plan.raises.len()))
}

#[test]
fn accepts_the_generated_texts(rt: HostRuntime) -> Result<(), Fail> {
    assert_eq!(rt; events_of(rt.alloc(), 1)?, Some(109));
    assert_eq!(rt; events_of(rt.alloc(), 30)?, Some(3299));
    Ok(())
}
