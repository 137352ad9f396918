ghost use Rattle.std.specs.Prelude.{◌≡◌, suc, []};
ghost use Rattle.kom_sim.specs.Simulations.{IsBetween, IsTaken, IsSameRun, AnswersTurn, FindsJob, left};

use crate::line::Line;
use kom_eval::{Reacted, react};
use kom_record::{Committed, Job, Rest, Station, Taken};
use kom_typed::jobs_are_well_formed;
use std::alloc::Global;

/// What one turn of a simulation came to.
pub enum Turn {
    /// An item was handled, or the time moved.
    Again,
    /// Nothing is left to do, or the record is closed.
    Ended,
    /// Want of memory.
    Memory,
}

/// What the line had for the worker.
pub enum Found {
    /// The first component in the line that is ready, with its item.
    Job(Job),
    /// No component in the line is ready.
    Nothing,
    /// The record is closed.
    Closed,
    /// Want of memory; nothing was taken.
    Memory,
}

/// Takes the item of the first component in the line that is ready; those before it leave the line.
fn find_job<T: Station>(station: &mut T, line: &mut Line) -> Found
    requires { IsBetween (T.system station.old).declarations (T.plan station.old) (T.history station.old) line.old }
    ensures run { IsSameRun T.system T.plan station.old station.new }
    ensures found { FindsJob (T.system station.old) (T.plan station.old) (T.history station.old) result (T.history station.new) line.new }
{
    while let Some(c) = line.pop() {
        match station.take(0, c) {
            Taken::Job(job) => return Found::Job(job),
            Taken::Nothing => {}
            Taken::Closed => return Found::Closed,
            Taken::Memory => return Found::Memory,
        }
    }
    Found::Nothing
}

/// Handles the job that was just taken, and lets those that became ready stand in line.
fn handle<T: Station>(alloc: Global, station: &mut T, line: &mut Line, job: Job) -> Turn
    requires { IsTaken (T.system station.old) (T.plan station.old) (T.history station.old) job line.old }
    ensures run { IsSameRun T.system T.plan station.old station.new }
    ensures turn { AnswersTurn (T.system station.old).declarations (T.plan station.old) (suc (left (T.plan station.old) (T.history station.old))) result (T.history station.new) line.new }
{
    job.system.well_formed();
    jobs_are_well_formed();
    let Reacted::Ran(ran) = react(alloc, job) else {
        return Turn::Memory;
    };
    let Committed::Wakes(wakes) = station.commit(ran) else {
        return Turn::Memory;
    };
    match line.push_all(&wakes) {
        Ok(()) => Turn::Again,
        Err(_) => Turn::Memory,
    }
}

/// Moves the time where something is pending, and lets those that became ready stand in line.
fn move_time<T: Station>(station: &mut T, line: &mut Line) -> Turn
    requires between { IsBetween (T.system station.old).declarations (T.plan station.old) (T.history station.old) [] }
    requires empty { line.old ≡ [] }
    ensures run { IsSameRun T.system T.plan station.old station.new }
    ensures turn { AnswersTurn (T.system station.old).declarations (T.plan station.old) (left (T.plan station.old) (T.history station.old)) result (T.history station.new) line.new }
{
    match station.rest(0) {
        Rest::Moved(wakes) => match line.push_all(&wakes) {
            Ok(()) => Turn::Again,
            Err(_) => Turn::Memory,
        },
        Rest::End | Rest::Closed => Turn::Ended,
        Rest::Memory => Turn::Memory,
        Rest::Ready(_) | Rest::Waiting => unreachable!(),
    }
}

/// Handles the next item, or moves the time where no component is ready.
pub fn advance<T: Station>(alloc: Global, station: &mut T, line: &mut Line) -> Turn
    requires { IsBetween (T.system station.old).declarations (T.plan station.old) (T.history station.old) line.old }
    ensures run { IsSameRun T.system T.plan station.old station.new }
    ensures turn { AnswersTurn (T.system station.old).declarations (T.plan station.old) (left (T.plan station.old) (T.history station.old)) result (T.history station.new) line.new }
{
    match find_job(station, line) {
        Found::Job(job) => handle(alloc, station, line, job),
        Found::Nothing => move_time(station, line),
        Found::Closed => Turn::Ended,
        Found::Memory => Turn::Memory,
    }
}
