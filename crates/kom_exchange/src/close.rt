//! How an exchange ends.
ghost use Rattle.std.specs.Prelude.{◌≡◌, ℕ, ◌≤◌, length, [], Some, slice_get};
ghost use Rattle.kom_record.specs.Views.{positions};
ghost use Rattle.kom_record.specs.Answers.{job_of, IsFree};
ghost use Rattle.kom_record.specs.Legal.{IsLegal};
ghost use Rattle.kom_exchange.specs.Later.{IsLater};
ghost use Rattle.kom_exchange.specs.Seats.{view, given_to, AreAll, AreJoined};

use crate::exchange::{Exchange, Place, Seat};
use crate::plays::TakeOver;
use kom_record::Station;
use std::alloc::Allocator;

/// A station that came out of an exchange, with the length of the record that it went in with.
pub struct Shut<T: Station> {
    pub(crate) station: T,
    pub(crate) from: u64,
}

impl<T: Station> Shut<T> {
    /// The station. It takes no memory.
    pub fn station(&self) -> &T
        ensures { result.now ≡ self.now.station }
    {
        &self.station
    }

    /// The station, for further use. It takes no memory.
    pub fn into_station(self) -> T
        ensures { result ≡ self.station }
    {
        let Self { station, from: _ } = self;
        station
    }
}

impl<T: Station, A: Allocator> Exchange<T, A> {
    /// Joins all seats into one.
    fn gather(&self, mut seats: Vec<Seat>) -> Place<T>
        requires { AreAll self.now.table.shared.table_id seats.items }
        ensures { AreJoined self.now.table.shared.table_id seats.items result }
    {
        let Some(last) = seats.pop() else {
            unreachable!()
        };
        let mut place = last.into_place();
        while let Some(seat) = seats.pop() {
            self.table
                .shared
                .join_seat::<TakeOver>(&mut place, seat.into_place());
        }
        place
    }

    /// Ends the exchange with all its seats, in order, and gives the station back. It takes no memory.
    ///
    /// The record of the station begins with all that each seat has seen, and so with the record that
    /// was given to `begin`. From there on each entry is of one of the seats' numbers, and each seat
    /// knows exactly the positions of its own. A job may still be in hand: that of each seat is the one
    /// that is in hand in what the seat has seen, and there is no other.
    pub fn close(self, seats: Vec<Seat>) -> Shut<T>
        requires { AreAll self.table.shared.table_id seats.items }
        ensures station { (T.system result.station ≡ T.system (given_to self)) × (T.plan result.station ≡ T.plan (given_to self)) }
        ensures legal { ∥ IsLegal (T.system (given_to self)).declarations (T.plan (given_to self)) (T.history result.station) ∥₁ }
        ensures start { (result.from ≡ length (T.history (given_to self))) × IsLater (T.history result.station) (T.history (given_to self)) }
        ensures seen { (k : ℕ) (s : _) → slice_get seats.items k ≡ Some s → IsLater (T.history result.station) (view s).own.seen }
        ensures mine { (k : ℕ) (s : _) → slice_get seats.items k ≡ Some s → (view s).own.mine ≡ positions k result.from (T.history result.station) }
        ensures hands { (k : ℕ) (s : _) → slice_get seats.items k ≡ Some s → job_of (T.history result.station) k ≡ job_of (view s).own.seen k }
        ensures others { (w : ℕ) → length seats.items ≤ w → positions w result.from (T.history result.station) ≡ [] }
        ensures free { (w : ℕ) → length seats.items ≤ w → IsFree (T.history result.station) w }
    {
        let place = self.gather(seats);
        let Exchange { table, from } = self;
        let mut closed = table.close_with(place);
        let Some(station) = closed.take(0) else {
            unreachable!()
        };
        closed.free();
        Shut { station, from }
    }
}
