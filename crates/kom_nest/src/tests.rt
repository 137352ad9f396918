use crate::nest::nest_system;
use kom_base::{Chan, Comp, Dir, Half, Side};
use kom_births::begin;
use kom_record::Control;
use kom_state::RunState;
use std::alloc::{AllocError, Global};
use std::process::Abort;
use std::test::Fail;

/// The state of a run of the system at its opening.
fn opened(alloc: Global) -> Result<RunState, AllocError> {
    let system = nest_system(alloc)?;
    begin(alloc, &system)
}

/// The outside half of the one port of a component.
fn outside(comp: u32) -> Half {
    Half {
        comp: Comp(comp),
        port: 0,
        side: Side::Outside,
    }
}

fn check_instances(rt: &impl Abort, state: &RunState) {
    assert_eq!(rt; state.instance_count(), 2);
    assert!(rt; state.alive(Comp(0)) && state.alive(Comp(1)) && !state.alive(Comp(2)));
    assert!(rt; !state.active(Comp(0)));
    assert!(rt; state.body(Comp(1)).is_some());
}

#[test]
fn begins_with_the_root_and_its_child(rt: HostRuntime) -> Result<(), Fail> {
    let state = opened(rt.alloc())?;
    check_instances(&rt, &state);
    Ok(())
}

fn check_seats(rt: &impl Abort, state: &RunState) {
    assert!(rt; state.instance_count() > 1);
    assert_eq!(rt; state.child(Comp(0), 0), Some(Comp(1)));
    assert_eq!(rt; state.child(Comp(1), 0), None);
    assert_eq!(rt; state.parent(Comp(1)), Some((Comp(0), 0)));
    assert_eq!(rt; state.parent(Comp(0)), None);
    assert_eq!(rt; state.nearest(Comp(1)), None);
}

#[test]
fn seats_the_child_below_the_root(rt: HostRuntime) -> Result<(), Fail> {
    let state = opened(rt.alloc())?;
    check_seats(&rt, &state);
    Ok(())
}

fn check_items(rt: &impl Abort, state: &RunState) {
    assert!(rt; state.alive(Comp(0)) && state.alive(Comp(1)));
    assert!(rt; matches!(state.first_control(Comp(0)), Some(Control::Start)));
    assert!(rt; state.first_control(Comp(1)).is_none());
    assert_eq!(rt; state.first_for(Comp(1)), None);
}

#[test]
fn lets_the_root_wait_for_its_start(rt: HostRuntime) -> Result<(), Fail> {
    let state = opened(rt.alloc())?;
    check_items(&rt, &state);
    Ok(())
}

fn check_channels(rt: &impl Abort, state: &RunState) {
    assert_eq!(rt; state.channel_count(), 2);
    assert_eq!(rt; state.wire_of(Chan(1)), Some((Comp(0), 0)));
    assert_eq!(rt; state.wire_of(Chan(0)), None);
    assert!(rt; state.leads_out(Chan(0), Dir::Minus) && !state.leads_out(Chan(1), Dir::Minus));
}

fn check_half(rt: &impl Abort, state: &RunState, half: Half, x: u32) {
    let mut at = state.channels_at(half);
    assert_eq!(rt; at.next(), Some(Chan(x)));
    assert_eq!(rt; at.next(), None);
}

#[test]
fn finds_the_channels(rt: HostRuntime) -> Result<(), Fail> {
    let state = opened(rt.alloc())?;
    check_channels(&rt, &state);
    check_half(&rt, &state, outside(0), 0);
    check_half(&rt, &state, outside(1), 1);
    Ok(())
}

fn check_removal(rt: &impl Abort, state: &mut RunState) {
    assert!(rt; state.instance_count() > 1);
    state.remove(Comp(0), 0);
    assert!(rt; state.alive(Comp(0)) && !state.alive(Comp(1)));
    assert!(rt; state.body(Comp(1)).is_none());
    assert_eq!(rt; state.instance_count(), 2);
}

#[test]
fn takes_the_child_away(rt: HostRuntime) -> Result<(), Fail> {
    let mut state = opened(rt.alloc())?;
    check_removal(&rt, &mut state);
    Ok(())
}
