//! The table with the station, and the seats.
ghost use Rattle.std.specs.Prelude.{◌≡◌, [], ◌∷◌, length, false};
ghost use Rattle.kom_exchange.specs.declared.view.Stage.TheVariants.{Idle};
ghost use Rattle.kom_exchange.specs.Rule.{sole, IsFair};

use crate::rule::{Start, Turns};
use crate::view::View;
use atomic_table as table;
use atomic_table::{Badge, Table};
use kom_record::Station;
use std::alloc::{Allocator, Global};
use std::mem;

pub type Place<T> = table::Seat<Option<T>, View>;

/// A station to which its seats apply operations, one at a time, in the order in which they asked.
pub struct Exchange<T: Station, A: Allocator = Global> {
    pub(crate) table: Table<Option<T>, View, Start<T>, Turns, A>,
    /// The length of the record that was given to `begin`.
    pub(crate) from: u64,
    ghost sized: { (table.shared.table_id.words ≡ 3) × (table.shared.table_id.slots ≡ 1) },
    ghost from_is: { from ≡ table.shared.key.from },
}

/// The right of one worker to apply operations to an exchange.
///
/// Contracts see what the seat knows: its number, the length of the record that it began with, the
/// record that it has seen, the positions of its own entries in it, and how often it had its turn.
#[derive(Drop)]
pub struct Seat {
    pub(crate) badge: Badge<View>,
    pub(crate) number: u32,
    ghost one: { badge.views ≡ sole badge.views ∷ [] },
    ghost rests: { ((sole badge.views).stage ≡ Idle) × ((sole badge.views).spent ≡ false) },
    ghost numbered: { (sole badge.views).own.number ≡ number },
    ghost fair: { IsFair (sole badge.views) },
}

/// The place at the table that the badge stands for. The badge is blank until the place goes back into
/// it.
pub(crate) fn sit<T>(badge: &mut Badge<View>) -> Place<T>
    requires { badge.old.views ≡ sole badge.old.views ∷ [] }
    ensures blank { badge.new.views ≡ [] }
    ensures place { (result.table_id ≡ badge.old.table_id) × (result.id ≡ badge.old.id) × (result.me ≡ (sole badge.old.views, [])) }
{
    mem::replace(badge, Badge::blank()).into_seat()
}

impl Seat {
    /// A seat at a place that is in no call.
    pub(crate) fn new<T>(place: Place<T>, number: u32) -> Seat
        requires rests { (place.me.1 ≡ []) × (place.me.0.stage ≡ Idle) × (place.me.0.spent ≡ false) }
        requires view { (place.me.0.own.number ≡ number) × IsFair place.me.0 }
        ensures { (result.badge.table_id ≡ place.table_id) × (result.number ≡ number) × (sole result.badge.views ≡ place.me.0) }
    {
        Seat {
            badge: place.into_badge(),
            number,
        }
    }

    /// The place of the seat.
    pub(crate) fn into_place<T>(self) -> Place<T>
        ensures { (result.table_id ≡ self.badge.table_id) × (result.id ≡ self.badge.id) × (result.me ≡ (sole self.badge.views, [])) }
    {
        let Self { badge, number: _ } = self;
        badge.into_seat()
    }
}
