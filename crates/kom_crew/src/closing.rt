//! How a crew ends.
ghost use Rattle.std.specs.Prelude.{◌≡◌, ◌<◌, ◌≤◌, [], true, length, vec_capacity};
ghost use Rattle.kom_exchange.specs.Seats.{given_to};
ghost use Rattle.kom_ready.specs.Lots.{AreLotsOf};
ghost use Rattle.kom_crew.specs.Crews.{IsCrewed};
ghost use Rattle.kom_crew.specs.Workers.{EachOf, IsDone, IsWorker, size_of};

use crate::crew::Crew;
use crate::run::Crewed;
use crate::seating::unseat_all;
use crate::worker::Worker;
use kom_exchange::Seat;
use kom_ready::{Gathered, Lot, ReadySet};
use kom_record::Station;

/// Gathers what is left in the lots, which is of no more use; `false` is want of memory.
fn is_gathered(set: ReadySet, lots: Vec<Lot>) -> bool
    requires { AreLotsOf set lots.items }
{
    match set.gather(lots) {
        Gathered::Left(_) => true,
        Gathered::Memory(_, _) => false,
    }
}

/// Gathers what is left in the lots and closes the exchange, with the seats and lots of all workers,
/// which go into the lists that they came from. `ended` says that each worker saw the end. `Ended`
/// where each worker saw the end and what is left could be gathered, else `Memory`.
pub fn close<T: Station>(
    crew: Crew<T>,
    workers: Vec<Worker>,
    mut seats: Vec<Seat>,
    mut lots: Vec<Lot>,
    ended: bool,
) -> Crewed<T>
    requires size { 0 < size_of crew }
    requires workers { EachOf (size_of crew) (IsWorker T.system T.plan T.history crew) workers.items }
    requires done { ended ≡ true → EachOf (size_of crew) (IsDone T.system T.plan T.history crew) workers.items }
    requires empty { (seats.items ≡ []) × (lots.items ≡ []) }
    requires room { (length workers.items ≤ vec_capacity seats) × (length workers.items ≤ vec_capacity lots) }
    ensures { IsCrewed T.system T.plan T.history (given_to crew.exchange) (size_of crew) result }
{
    unseat_all(workers, &mut seats, &mut lots);
    let Crew {
        alloc: _,
        exchange,
        set,
        stop: _,
        news: _,
    } = crew;
    let gathered = is_gathered(set, lots);
    let shut = exchange.close(seats);
    if ended && gathered {
        Crewed::Ended(shut)
    } else {
        Crewed::Memory(shut.into_station())
    }
}
