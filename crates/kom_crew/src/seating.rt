//! The seats and the lots are given to the workers, and come back from them.
ghost use Rattle.std.specs.Prelude.{◌≡◌, ◌≤◌, [], All, length, vec_capacity};
ghost use Rattle.kom_crew.specs.Seated.{AreSeated, seats_of, lots_of, given_by_all, given_in_all};
ghost use Rattle.kom_crew.specs.Workers.{IsCounted};

use crate::worker::{Left, Worker};
use kom_exchange::Seat;
use kom_ready::Lot;

/// A worker for each seat and its lot, in order. The lists of seats and lots keep their room.
pub fn seat_all(seats: &mut Vec<Seat>, lots: &mut Vec<Lot>, mut workers: Vec<Worker>) -> Vec<Worker>
    requires pairs { length lots.old.items ≡ length seats.old.items }
    requires room { (workers.items ≡ []) × (length seats.old.items ≤ vec_capacity workers) }
    ensures seated { AreSeated seats.old.items lots.old.items result.items }
    ensures empty { (seats.new.items ≡ []) × (lots.new.items ≡ []) }
    ensures kept { (vec_capacity seats.new ≡ vec_capacity seats.old) × (vec_capacity lots.new ≡ vec_capacity lots.old) }
{
    for _ in 0..seats.len() {
        workers.push_reserved(Worker {
            seat: seats.remove(0),
            lot: lots.remove(0),
            left: Left::Nothing,
            given: 0,
        });
    }
    workers
}

/// The seat and the lot of a worker. What it has left is of no more use.
fn part(worker: Worker) -> (Seat, Lot)
    ensures { (result.0 ≡ worker.seat) × (result.1 ≡ worker.lot) }
{
    let Worker {
        seat,
        lot,
        left: _,
        given: _,
    } = worker;
    (seat, lot)
}

/// The seats and the lots of all workers come back, in order; there is room for them.
pub fn unseat_all(mut workers: Vec<Worker>, seats: &mut Vec<Seat>, lots: &mut Vec<Lot>)
    requires empty { (seats.old.items ≡ []) × (lots.old.items ≡ []) }
    requires room { (length workers.items ≤ vec_capacity seats.old) × (length workers.items ≤ vec_capacity lots.old) }
    ensures { (seats.new.items ≡ seats_of workers.items) × (lots.new.items ≡ lots_of workers.items) }
{
    for _ in 0..workers.len() {
        let (seat, lot) = part(workers.remove(0));
        seats.push_reserved(seat);
        lots.push_reserved(lot);
    }
}

/// How many components the lots gave, added up. The sum stands still at the end of its type.
pub fn given_to_all(workers: &[Worker]) -> u64
    requires { All IsCounted workers.now }
    ensures counts { result ≡ given_in_all workers.now }
    ensures lots { result ≡ given_by_all (lots_of workers.now) }
{
    let mut given = 0u64;
    for worker in workers {
        given = given.saturating_add(worker.given);
    }
    given
}
