//! The deques of all workers are made, and the passes to them.
ghost use Rattle.std.specs.Prelude.{◌≡◌, ◌+◌, ◌<◌, ◌≤◌, length, IfOk, OnOk};
ghost use Rattle.kom_ready.specs.Lots.{AreFresh, AreLent, AreLotsOf, deques_of};

use crate::guest::Guest;
use crate::lots::{Lot, ReadySet};
use crate::rule::{Cut, Own};
use std::alloc::{AllocError, Global};

/// How many components a deque has room for at first.
const FIRST_ROOM: usize = 64;

impl ReadySet {
    /// Lots for 1 to 64 workers, in order of number, with nothing in them, and the deques from which
    /// they steal. The error is want of memory. It costs the square of the number of workers.
    pub fn make(alloc: Global, workers: u32) -> Result<(ReadySet, Vec<Lot>), AllocError>
        requires { (1 ≤ workers) × (workers ≤ 64) }
        ensures lots { IfOk result (λ m. AreLotsOf m.0 m.1.items) }
        ensures count { IfOk result (λ m. length m.1.items ≡ workers) }
        ensures fresh { IfOk result (λ m. AreFresh m.1.items) }
    {
        let (set, mut lots) = open(alloc, workers as usize)?;
        for j in 0..set.thieves.len() {
            lend(&set, &mut lots, j)?;
        }
        Ok((set, lots))
    }
}

/// Deques for as many workers, each with a lot that has passes to none.
fn open(alloc: Global, workers: usize) -> Result<(ReadySet, Vec<Lot>), AllocError>
    ensures lent { IfOk result (λ m. AreLent (deques_of m.0) 0 0 0 m.1.items) }
    ensures count { IfOk result (λ m. length (deques_of m.0) ≡ workers) }
{
    let mut thieves = Vec::new(alloc);
    let mut lots = Vec::new(alloc);
    for number in 0..workers {
        let own = Own::fifo_as(alloc, FIRST_ROOM)?;
        thieves.push(own.stealer()?)?;
        let guests = Vec::new(alloc);
        lots.push(Lot {
            number,
            own,
            guests,
            pushes: 0,
        })?;
    }
    Ok((ReadySet { alloc, thieves }, lots))
}

/// Gives each lot a pass to one of the deques.
fn lend(set: &ReadySet, lots: &mut Vec<Lot>, j: usize) -> Result<(), AllocError>
    requires few { length (deques_of set.now) ≤ 64 }
    requires there { j < length (deques_of set.now) }
    requires lent { AreLent (deques_of set.now) j 0 0 lots.old.items }
    ensures { OnOk result (AreLent (deques_of set.now) (j + 1) 0 0 lots.new.items) }
{
    for i in 0..set.thieves.len() {
        let pass = lots[j].own.another::<Cut>();
        lots[i].guests.push(Guest { pass, found: 0 })?;
    }
    Ok(())
}
