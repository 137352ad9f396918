//! The calls of one worker that is placed at an exchange.
ghost use Rattle.std.specs.Prelude.{◌≡◌};
ghost use Rattle.kom_exchange.specs.Seats.{given_to, GoesOn};
ghost use Rattle.kom_seats.specs.Placing.{IsPlaced};
ghost use Rattle.kom_seats.specs.Turns.{SeatedTake, SeatedEnd, SeatedRest};

use kom_base::Comp;
use kom_drives::Said;
use kom_eval::{Reacted, react};
use kom_exchange::{Exchange, Seat};
use kom_record::{Committed, Job, Ran, Rest, Station, Taken};
use kom_typed::jobs_are_well_formed;
use std::alloc::Global;
use std::sync::Wait;

/// A worker with its seat at an exchange.
#[derive(Drop)]
pub struct Placed {
    pub seat: Seat,
    /// The job that it has in hand.
    pub job: Option<Job>,
}

/// Takes the next item of a component where the worker has no job in hand. The job is then in its
/// hand.
///
/// The answer is the station's for the record at the seat's turn: `Job`, `Nothing`, `Closed`, or
/// `Memory` with nothing taken. `NoCall` is the answer to a worker that has a job in hand; its seat
/// then stays as it is. The call may wait for the seats that asked before.
pub fn take_item<R: Wait, T: Station>(
    rt: &R,
    exchange: &Exchange<T>,
    placed: &mut Placed,
    c: Comp,
) -> Said
    requires { IsPlaced T.system T.plan exchange.now placed.old }
    ensures says { SeatedTake (T.system (given_to exchange.now)) (T.plan (given_to exchange.now)) placed.old.seat placed.new.seat c placed.old.job result }
    ensures seat { GoesOn placed.old.seat placed.new.seat }
    ensures held { IsPlaced T.system T.plan exchange.now placed.new }
{
    if placed.job.is_some() {
        return Said::NoCall;
    }
    match exchange.take(rt, &mut placed.seat, c) {
        Taken::Job(job) => {
            placed.job = Some(job);
            Said::Job
        }
        Taken::Nothing => Said::Nothing,
        Taken::Closed => Said::Closed,
        Taken::Memory => Said::Memory,
    }
}

/// Handles the job that the worker has in hand, and ends it. The worker has none then.
///
/// The answer is the station's for the record at the seat's turn: `Ended` with those that became
/// ready by it. `Memory` is want of memory for the handling, before any call, or for the end of the
/// job; the job stays in hand. `NoCall` is the answer to a worker that has no job in hand; its seat
/// then stays as it is. The call may wait as `take_item` does.
pub fn end_job<R: Wait, T: Station>(
    rt: &R,
    alloc: Global,
    exchange: &Exchange<T>,
    placed: &mut Placed,
) -> Said
    requires { IsPlaced T.system T.plan exchange.now placed.old }
    ensures says { SeatedEnd (T.system (given_to exchange.now)) (T.plan (given_to exchange.now)) placed.old.seat placed.new.seat placed.old.job result }
    ensures seat { GoesOn placed.old.seat placed.new.seat }
    ensures held { IsPlaced T.system T.plan exchange.now placed.new }
{
    let Some(job) = placed.job.take() else {
        return Said::NoCall;
    };
    job.system.well_formed();
    jobs_are_well_formed();
    let ran = match react(alloc, job) {
        Reacted::Ran(ran) => ran,
        Reacted::Memory(job) => {
            placed.job = Some(job);
            return Said::Memory;
        }
    };
    match exchange.commit(rt, &mut placed.seat, ran) {
        Committed::Wakes(wakes) => Said::Ended(wakes),
        Committed::Memory(Ran { job, .. }) => {
            placed.job = Some(job);
            Said::Memory
        }
    }
}

/// Asks what there is to do, and moves the time where there is nothing else. What the worker has in
/// hand stays.
///
/// The answer is the station's for the record at the seat's turn: `Moved`, `Ready`, `Waiting`, `End`,
/// `Closed`, or `Memory` with no move. The call may wait as `take_item` does.
pub fn rest<R: Wait, T: Station>(rt: &R, exchange: &Exchange<T>, placed: &mut Placed) -> Said
    requires { IsPlaced T.system T.plan exchange.now placed.old }
    ensures says { SeatedRest (T.system (given_to exchange.now)) (T.plan (given_to exchange.now)) placed.old.seat placed.new.seat result }
    ensures seat { GoesOn placed.old.seat placed.new.seat }
    ensures job { placed.new.job ≡ placed.old.job }
    ensures held { IsPlaced T.system T.plan exchange.now placed.new }
{
    match exchange.rest(rt, &mut placed.seat) {
        Rest::Moved(wakes) => Said::Moved(wakes),
        Rest::Ready(c) => Said::Ready(c),
        Rest::Waiting => Said::Waiting,
        Rest::End => Said::End,
        Rest::Closed => Said::Closed,
        Rest::Memory => Said::Memory,
    }
}
