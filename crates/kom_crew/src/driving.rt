//! The workers go to work, and after that one thread drives on.
ghost use Rattle.std.specs.Prelude.{◌≡◌, ◌<◌, true};
ghost use Rattle.kom_crew.specs.Workers.{EachOf, IsDone, IsIdle, IsWorker, size_of};

use crate::crew::Crew;
use crate::step::Step;
use crate::worker::Worker;
use kom_record::{Gate, Station};
use std::sync::Wait;
use std::thread;
use std::thread::Threads;

/// Each worker works in a thread of its own. The call returns when all have ended; what a worker has
/// in hand is then left with it. It may wait, as handlings of other workers and the gate do.
pub fn work_all<R: Threads + Wait + Sync, T: Station + Send, G: Gate + Sync>(
    rt: &R,
    crew: &Crew<T>,
    gate: &G,
    workers: &mut Vec<Worker>,
)
    requires some { 0 < size_of crew.now }
    requires idle { EachOf (size_of crew.now) (IsIdle T.system T.plan T.history crew.now) workers.old.items }
    ensures { EachOf (size_of crew.now) (IsWorker T.system T.plan T.history crew.now) workers.new.items }
{
    let threads = workers.len();
    thread::for_each_mut(
        rt,
        workers.as_mut_slice(),
        threads,
        &|_: usize, worker: &mut Worker|
            requires { IsIdle T.system T.plan T.history crew.now worker.old }
            ensures worker { IsWorker T.system T.plan T.history crew.entry.now worker.new }
            ensures number { worker.new.seat.number ≡ worker.old.seat.number }
        {
            worker.work(rt, crew, gate);
        },
    );
}

/// Ends the jobs that are left; `false` is want of memory.
fn end_all_left<R: Wait, T: Station>(rt: &R, crew: &Crew<T>, workers: &mut Vec<Worker>) -> bool
    requires { EachOf (size_of crew.now) (IsWorker T.system T.plan T.history crew.now) workers.old.items }
    ensures workers { EachOf (size_of crew.now) (IsWorker T.system T.plan T.history crew.now) workers.new.items }
    ensures idle { result ≡ true → EachOf (size_of crew.now) (IsIdle T.system T.plan T.history crew.now) workers.new.items }
{
    for i in 0..workers.len() {
        match workers[i].end_left(rt, crew) {
            Step::Again | Step::Over => {}
            Step::Memory => return false,
        }
    }
    true
}

/// One worker after another works to the end; `false` is want of memory.
fn end_all<R: Wait, T: Station, G: Gate>(
    rt: &R,
    crew: &Crew<T>,
    gate: &G,
    workers: &mut Vec<Worker>,
) -> bool
    requires { EachOf (size_of crew.now) (IsIdle T.system T.plan T.history crew.now) workers.old.items }
    ensures workers { EachOf (size_of crew.now) (IsWorker T.system T.plan T.history crew.now) workers.new.items }
    ensures done { result ≡ true → EachOf (size_of crew.now) (IsDone T.system T.plan T.history crew.now) workers.new.items }
{
    for i in 0..workers.len() {
        if !workers[i].work_on(rt, crew, gate) {
            return false;
        }
    }
    true
}

/// Drives the station to its end as one worker after another: first the jobs that are left are
/// ended, so that none is in hand. With `true` each worker has seen that nothing is left to do or that
/// the record is closed. `false` is want of memory; what a worker has in hand is left with it. It may
/// wait as `work_all` does.
pub fn drive_on<R: Wait, T: Station, G: Gate>(
    rt: &R,
    crew: &Crew<T>,
    gate: &G,
    workers: &mut Vec<Worker>,
) -> bool
    requires { EachOf (size_of crew.now) (IsWorker T.system T.plan T.history crew.now) workers.old.items }
    ensures workers { EachOf (size_of crew.now) (IsWorker T.system T.plan T.history crew.now) workers.new.items }
    ensures done { result ≡ true → EachOf (size_of crew.now) (IsDone T.system T.plan T.history crew.now) workers.new.items }
{
    end_all_left(rt, crew, workers) && end_all(rt, crew, gate, workers)
}
