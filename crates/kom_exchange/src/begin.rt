//! How an exchange begins.
ghost use Rattle.std.specs.Prelude.{◌≡◌, ◌≤◌, ◌<◌, [], ◌∷◌, vec_len, vec_capacity};
ghost use Rattle.kom_record.specs.Entries.{in_hand};
ghost use Rattle.kom_exchange.specs.Later.{about_of};
ghost use Rattle.kom_exchange.specs.Seats.{given_to, AreFresh, IsMade};
ghost use Rattle.kom_exchange.specs.Rule.{first_view};

use crate::exchange::{Exchange, Place, Seat};
use crate::plays::Number;
use crate::rule::Start;
use atomic_table::{Refused, Table};
use kom_record::Station;
use std::alloc::{Allocator, Global};
use std::snapshot::Snapshot;

/// The answer of `Exchange::begin`.
pub enum Begun<T: Station> {
    /// The exchange and its seats, numbered from 0 in order.
    Made(Exchange<T>, Vec<Seat>),
    /// Want of memory, with the station as it was given.
    Memory(T),
}

fn put_first(mut all: Vec<Seat>, seat: Seat) -> Vec<Seat>
    requires { vec_len all < vec_capacity all }
    ensures items { result.items ≡ seat ∷ all.items }
    ensures room { vec_capacity all ≤ vec_capacity result }
{
    match all.insert(0, seat) {
        Ok(()) => all,
        Err(_) => unreachable!(),
    }
}

impl<T: Station, A: Allocator> Exchange<T, A> {
    /// Numbers the seats from 1 on, and puts the first before them.
    fn number(&self, mut first: Place<T>, mut all: Vec<Seat>, seats: u32) -> Vec<Seat>
        requires count { (0 < seats) × (seats ≤ 64) }
        requires room { (all.items ≡ []) × (seats ≤ vec_capacity all) }
        requires idle { in_hand (T.history (given_to self.now)) ≡ [] }
        requires first { (first.table_id ≡ self.now.table.shared.table_id) × (first.me ≡ (first_view (T.history (given_to self.now)) (about_of T.system T.plan (given_to self.now)), [])) }
        ensures room { seats ≤ vec_capacity result }
        ensures fresh { AreFresh self.now.table.shared.table_id (T.history (given_to self.now)) (about_of T.system T.plan (given_to self.now)) seats result.items }
    {
        let mut i = 1;
        while i < seats {
            let place = self.table.shared.split_seat::<Number>(&mut first);
            all.push_reserved(Seat::new(place, i));
            i += 1;
        }
        put_first(all, Seat::new(first, 0))
    }
}

impl<T: Station> Exchange<T> {
    /// Puts a station whose record has no job in hand into an exchange with 1 to 64 seats. Each seat
    /// has seen the record, has no entry of its own and no job in hand, and there is room in the list
    /// for all of them. `Memory` is want of memory, with the station as it was given.
    pub fn begin(alloc: Global, station: T, seats: u32) -> Begun<T>
        requires count { (0 < seats) × (seats ≤ 64) }
        requires idle { in_hand (T.history station) ≡ [] }
        ensures { IsMade T.history (about_of T.system T.plan) station seats result }
    {
        let Ok(all) = Vec::with_capacity(alloc, seats as usize) else {
            return Begun::Memory(station);
        };
        let Ok(mut slots) = Vec::with_capacity(alloc, 1) else {
            return Begun::Memory(station);
        };
        let from = station.kept().len() as u64;
        let words = [from, 0, 0];
        let about = Start {
            given: Snapshot::of(&station),
            from,
        };
        slots.push_reserved(Some(station));
        match Table::new(alloc, &words, slots, &about) {
            Ok((table, first)) => {
                let exchange = Exchange { table, from };
                let all = exchange.number(first, all, seats);
                Begun::Made(exchange, all)
            }
            Err(Refused { mut slots }) => {
                let Some(Some(station)) = slots.pop() else {
                    unreachable!()
                };
                slots.destroy_empty();
                Begun::Memory(station)
            }
        }
    }
}
