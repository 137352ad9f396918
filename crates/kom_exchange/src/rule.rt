//! The rule of the table. Word 0 is count, word 1 ticket and word 2 serving. The one slot holds the station.
use crate::view::View;
use atomic_table::TableRule;
use kom_record::Station;
use std::snapshot::Snapshot;

/// The station that `begin` was given, and the length of its record.
#[derive(Drop)]
pub struct Start<T> {
    pub given: Snapshot<T>,
    pub from: u64,
}

/// The fact about words, station and seats that holds between any two steps.
pub struct Turns;

impl<T: Station> TableRule<Option<T>, View, Start<T>> for Turns {
    ghost use Rattle.kom_exchange.specs.Rule.{Kept, first_view};
    ghost use Rattle.kom_exchange.specs.Later.{about_of};

    ghost holds = { λ key. Kept T.history (about_of T.system T.plan) key.given.value key.from };

    ghost first = { λ key. first_view (T.history key.given.value) (about_of T.system T.plan key.given.value) };
}
