//! A run of a station by a crew.
ghost use Rattle.std.specs.Prelude.{◌≡◌, ◌≤◌, [], length, vec_capacity};
ghost use Rattle.kom_record.specs.Entries.{in_hand};
ghost use Rattle.kom_exchange.specs.Later.{about_of};
ghost use Rattle.kom_exchange.specs.Seats.{given_to, AreFresh as AreFreshSeats};
ghost use Rattle.kom_ready.specs.Lots.{AreFresh, AreLotsOf};
ghost use Rattle.kom_crew.specs.Crews.{IsCrewed};
ghost use Rattle.kom_crew.specs.Workers.{EachOf, IsIdle, size_of};

use crate::closing::close;
use crate::crew::Crew;
use crate::driving::{drive_on, work_all};
use crate::seating::{given_to_all, seat_all};
use crate::worker::Worker;
use kom_exchange::{Begun, Exchange, Seat, Shut};
use kom_ready::{Lot, ReadySet};
use kom_record::{Gate, Station, Wakes};
use std::alloc::Global;
use std::sync::Wait;
use std::sync::atomic::{AtomicBool, AtomicU64};
use std::thread::Threads;

/// The answer of [`run_crew`].
pub enum Crewed<T: Station> {
    /// The record of the station is finished.
    Ended(Shut<T>),
    /// Want of memory; the station stands for a legal record, which may have jobs in hand.
    Memory(T),
}

/// The answer of [`run_crew_counted`].
pub struct Counted<T: Station> {
    /// What [`run_crew`] answers.
    pub crewed: Crewed<T>,
    /// How many components the lots gave to their workers. The count stands still at the end of its
    /// type.
    pub given: u64,
}

/// The answer of a run that found no memory before it began.
fn no_memory<T: Station>(station: T, workers: u32) -> Counted<T>
    ensures { IsCrewed T.system T.plan T.history station workers result.crewed }
{
    Counted {
        crewed: Crewed::Memory(station),
        given: 0,
    }
}

/// The workers of a crew that is about to begin. Those who may be ready at first are in the lot of the
/// first.
fn muster<T: Station>(
    crew: &Crew<T>,
    wakes: &Wakes,
    seats: &mut Vec<Seat>,
    lots: &mut Vec<Lot>,
    room: Vec<Worker>,
) -> Vec<Worker>
    requires count { (1 ≤ size_of crew.now) × (size_of crew.now ≤ 64) }
    requires idle { in_hand (T.history (given_to crew.now.exchange)) ≡ [] }
    requires seats { AreFreshSeats crew.now.exchange.table.shared.table_id (T.history (given_to crew.now.exchange)) (about_of T.system T.plan (given_to crew.now.exchange)) (size_of crew.now) seats.old.items }
    requires lots { AreLotsOf crew.now.set lots.old.items }
    requires fresh { AreFresh lots.old.items }
    requires room { (room.items ≡ []) × (size_of crew.now ≤ vec_capacity room) }
    ensures idle { EachOf (size_of crew.now) (IsIdle T.system T.plan T.history crew.now) result.items }
    ensures empty { (seats.new.items ≡ []) × (lots.new.items ≡ []) }
    ensures kept { (vec_capacity seats.new ≡ vec_capacity seats.old) × (vec_capacity lots.new ≡ vec_capacity lots.old) }
{
    let mut workers = seat_all(seats, lots, room);
    workers[0].push_all(wakes);
    workers
}

/// Runs a crew: the workers work in threads of their own, one thread drives on to the end, and the
/// exchange is closed.
fn drive<R: Threads + Wait + Sync, T: Station + Send, G: Gate + Sync>(
    rt: &R,
    crew: Crew<T>,
    gate: &G,
    wakes: &Wakes,
    mut seats: Vec<Seat>,
    mut lots: Vec<Lot>,
    room: Vec<Worker>,
) -> Counted<T>
    requires count { (1 ≤ size_of crew) × (size_of crew ≤ 64) }
    requires idle { in_hand (T.history (given_to crew.exchange)) ≡ [] }
    requires seats { AreFreshSeats crew.exchange.table.shared.table_id (T.history (given_to crew.exchange)) (about_of T.system T.plan (given_to crew.exchange)) (size_of crew) seats.items }
    requires lots { AreLotsOf crew.set lots.items }
    requires fresh { AreFresh lots.items }
    requires room { (room.items ≡ []) × (size_of crew ≤ vec_capacity room) }
    ensures { IsCrewed T.system T.plan T.history (given_to crew.exchange) (size_of crew) result.crewed }
{
    let mut workers = muster(&crew, wakes, &mut seats, &mut lots, room);
    work_all(rt, &crew, gate, &mut workers);
    let ended = drive_on(rt, &crew, gate, &mut workers);
    let given = given_to_all(workers.as_slice());
    let crewed = close(crew, workers, seats, lots, ended);
    Counted { crewed, given }
}

/// [`run_crew`], with how many components the lots gave to their workers. No clause speaks of `given`:
/// who steals from whom is left to the schedule. It may wait as `run_crew` does.
pub fn run_crew_counted<R: Threads + Wait + Sync, T: Station + Send, G: Gate + Sync>(
    rt: &R,
    alloc: Global,
    station: T,
    wakes: Wakes,
    workers: u32,
    gate: &G,
) -> Counted<T>
    requires count { (1 ≤ workers) × (workers ≤ 64) }
    requires idle { in_hand (T.history station) ≡ [] }
    ensures { IsCrewed T.system T.plan T.history station workers result.crewed }
{
    let Ok((set, lots)) = ReadySet::make(alloc, workers) else {
        return no_memory(station, workers);
    };
    let Ok(room) = Vec::with_capacity(alloc, workers as usize) else {
        return no_memory(station, workers);
    };
    match Exchange::begin(alloc, station, workers) {
        Begun::Memory(station) => no_memory(station, workers),
        Begun::Made(exchange, seats) => {
            let crew = Crew {
                alloc,
                exchange,
                set,
                stop: AtomicBool::new(false),
                news: AtomicU64::new(0),
            };
            drive(rt, crew, gate, &wakes, seats, lots, room)
        }
    }
}

/// Drives a station to its end by 1 to 64 workers, each in a thread of its own. `wakes` is what may be
/// ready at first; whatever else is ready is found too.
///
/// A worker takes the next item of a component through an exchange, passes the gate, handles the item
/// outside the exchange, and ends the job through it. Who becomes ready by that goes into the worker's
/// own lot, from which the others steal. A worker that finds no memory has all end; then one thread
/// goes on.
///
/// `Ended` is a finished record that begins with the given one, and each entry after that is by a
/// worker below `workers`. `Memory` is want of memory before the run begins, again where one thread
/// goes on, or where what is left in the lots is gathered after the end. The station then stands for a
/// legal record that begins with the given one; each entry after that is by a worker below `workers`,
/// whose jobs may be in hand. The call may wait, as handlings of other workers and the gate do.
pub fn run_crew<R: Threads + Wait + Sync, T: Station + Send, G: Gate + Sync>(
    rt: &R,
    alloc: Global,
    station: T,
    wakes: Wakes,
    workers: u32,
    gate: &G,
) -> Crewed<T>
    requires count { (1 ≤ workers) × (workers ≤ 64) }
    requires idle { in_hand (T.history station) ≡ [] }
    ensures { IsCrewed T.system T.plan T.history station workers result }
{
    let Counted { crewed, given: _ } = run_crew_counted(rt, alloc, station, wakes, workers, gate);
    crewed
}
