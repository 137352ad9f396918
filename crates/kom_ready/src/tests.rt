ghost use Rattle.std.specs.Prelude.{◌<◌, length};
ghost use Rattle.kom_ready.specs.Lots.{AreLotsOf};

use crate::{Gathered, Lot, ReadySet};
use kom_base::Comp;
use std::sync::Wait;
use std::test::*;

fn push_to(set: &ReadySet, lots: &mut Vec<Lot>, i: usize, c: u32) -> Result<(), Comp>
    requires { AreLotsOf set.now lots.old.items }
    ensures { AreLotsOf set.now lots.new.items }
{
    if i < lots.len() {
        return lots[i].push(Comp(c));
    }
    Ok(())
}

fn next_of<R: Wait>(rt: &R, set: &ReadySet, lots: &mut Vec<Lot>, i: usize) -> Option<Comp>
    requires { AreLotsOf set.now lots.old.items }
    ensures { AreLotsOf set.now lots.new.items }
{
    if i < lots.len() {
        return lots[i].next(rt, set);
    }
    None
}

#[test]
fn each_is_given_once(rt: HostRuntime) -> Result<(), Fail> {
    let (set, mut lots) = ReadySet::make(rt.alloc(), 2)?;
    for c in 5..8 {
        assert_eq!(rt; push_to(&set, &mut lots, 0, c), Ok(()));
    }
    let first = next_of(&rt, &set, &mut lots, 1);
    assert_eq!(rt; first, Some(Comp(5)));
    let mut sum = 0u32;
    let mut given = 0u32;
    for _ in 0..4u32 {
        for i in 0..2usize {
            if let Some(c) = next_of(&rt, &set, &mut lots, i) {
                sum = sum.wrapping_add(c.0);
                given = given.wrapping_add(1);
            }
        }
    }
    assert_eq!(rt; (given, sum), (2, 13));
    match set.gather(lots) {
        Gathered::Left(left) => assert_eq!(rt; left.len(), 0),
        Gathered::Memory(_, _) => panic!(rt; "no memory"),
    }
    Ok(())
}

#[test]
fn what_is_left_is_gathered(rt: HostRuntime) -> Result<(), Fail> {
    let (set, mut lots) = ReadySet::make(rt.alloc(), 3)?;
    assert_eq!(rt; push_to(&set, &mut lots, 0, 9), Ok(()));
    assert_eq!(rt; push_to(&set, &mut lots, 2, 4), Ok(()));
    match set.gather(lots) {
        Gathered::Left(left) => {
            assert_eq!(rt; left.as_slice(), [Comp(9), Comp(4)].as_slice());
        }
        Gathered::Memory(_, _) => panic!(rt; "no memory"),
    }
    Ok(())
}
