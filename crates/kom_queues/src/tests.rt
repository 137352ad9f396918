ghost use Rattle.std.specs.Prelude.{◌≡◌, ◌≢◌, ℕ, ◌≤◌, false, IfOk};
ghost use Rattle.kom_queues.specs.Slots.{is_there};

use crate::queues::Queues;
use kom_base::{Chan, Comp, Dir, EntryNo};
use std::alloc::{AllocError, Global};
use std::test::Fail;

fn number(position: u32, place: u32) -> EntryNo {
    EntryNo { position, place }
}

/// Adds a channel with one number in each direction, both aimed at one component.
fn join(queues: &mut Queues, x: Chan, no: u32) -> Result<(), AllocError>
    requires { is_there queues.old x ≡ false }
    ensures { (y : ℕ) → y ≢ x → is_there queues.new y ≡ is_there queues.old y }
{
    queues.reserve(x, Dir::Plus, 1)?;
    queues.add(x);
    queues.enter(x, Dir::Plus, number(no, 0));
    queues.reserve(x, Dir::Minus, 1)?;
    queues.enter(x, Dir::Minus, number(no, 1));
    queues.aim(x, Dir::Plus, Some(Comp(1)));
    queues.aim(x, Dir::Minus, Some(Comp(1)));
    Ok(())
}

/// As many channels as this, the numbers rising from one to the next.
fn crowd(alloc: Global, count: u32) -> Result<Queues, AllocError> {
    let mut queues = Queues::new(alloc);
    let mut x = 0;
    while x < count {
        join(&mut queues, Chan(x), x)?;
        x += 1;
    }
    Ok(queues)
}

#[test]
fn finds_the_first_that_arrived(rt: HostRuntime) -> Result<(), Fail> {
    let mut queues = Queues::new(rt.alloc());
    queues.reserve(Chan(4), Dir::Plus, 1)?;
    queues.add(Chan(4));
    queues.enter(Chan(4), Dir::Plus, number(3, 0));
    assert_eq!(rt; queues.first_at(Comp(1)), None);
    queues.aim(Chan(4), Dir::Plus, Some(Comp(1)));
    queues.reserve(Chan(4), Dir::Minus, 1)?;
    queues.enter(Chan(4), Dir::Minus, number(3, 0));
    queues.aim(Chan(4), Dir::Minus, Some(Comp(1)));
    assert_eq!(rt;
        queues.first_at(Comp(1)),
        Some((Chan(4), Dir::Plus, number(3, 0)))
    );
    assert_eq!(rt; queues.take(Chan(4), Dir::Plus), Some(number(3, 0)));
    assert_eq!(rt;
        queues.first_at(Comp(1)),
        Some((Chan(4), Dir::Minus, number(3, 0)))
    );
    assert_eq!(rt; queues.waiting(Chan(4), Dir::Minus), 1);
    queues.kill(Chan(4));
    assert_eq!(rt; queues.first_at(Comp(1)), None);
    Ok(())
}

#[test]
fn finds_the_first_of_a_crowd(rt: HostRuntime) -> Result<(), Fail> {
    let queues = crowd(rt.alloc(), 32_000)?;
    let mut is_least = true;
    for _ in 0..2_000_000 {
        is_least = is_least && queues.first_at(Comp(1)) == Some((Chan(0), Dir::Plus, number(0, 0)));
    }
    assert!(rt; is_least);
    Ok(())
}
