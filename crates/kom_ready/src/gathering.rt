//! What is left in the lots is gathered.
ghost use Rattle.std.specs.Prelude.{◌≡◌, ℕ, ◌+◌, ◌≤◌, List, [], length, map, vec_capacity, vec_len, Some, slice_get};
ghost use Rattle.std.specs.List.{sum_by};
ghost use Rattle.kom_ready.specs.declared.guest.Guest as guests;
ghost use Rattle.kom_ready.specs.declared.store.Store as kept;
ghost use Rattle.kom_ready.specs.Guests.{guest_deque};
ghost use Rattle.kom_ready.specs.Lots.{AreLotsOf, pushed_of};
ghost use Rattle.kom_ready.specs.Rule.{IsWithin, all_parts};
ghost use Rattle.kom_ready.specs.Stores.{AreApart, AreDrained, AreMerged, IsMerged, put_in, store_deque, store_view, taken_out};
ghost use Rattle.kom_ready.specs.Gathering.{IsGathered};

use crate::gathered::Gathered;
use crate::guest::Guest;
use crate::lots::{Lot, ReadySet};
use crate::store::Store;
use kom_base::Comp;

impl ReadySet {
    /// What is left in all the lots of a set, given in order of number: what was pushed to them and
    /// they did not give. Room for as many components as were pushed is made first. `Memory` is want
    /// of memory, and gives all back as it was. The order of what is left is not said. It costs the
    /// square of the number of lots, and what is left.
    pub fn gather(self, lots: Vec<Lot>) -> Gathered
        requires { AreLotsOf self lots.items }
        ensures { IsGathered self lots.items result }
    {
        let most = pushes_of(&lots);
        let Ok(mut left) = Vec::with_capacity(self.alloc, most) else {
            return Gathered::Memory(self, lots);
        };
        let Ok(stores) = Vec::with_capacity(self.alloc, lots.len()) else {
            return Gathered::Memory(self, lots);
        };
        let Ok(rows) = Vec::with_capacity(self.alloc, lots.len()) else {
            return Gathered::Memory(self, lots);
        };
        let (mut stores, rows) = take_apart(lots, stores, rows);
        merge_all(&mut stores, rows);
        drain_all(&mut stores, &mut left);
        Gathered::Left(left)
    }
}

/// How many components were pushed to lots.
fn pushes_of(lots: &Vec<Lot>) -> usize
    requires { length lots.now.items ≤ 1024 }
    ensures { result ≡ sum_by (λ lot. length (pushed_of lot)) lots.now.items }
{
    let mut all = 0;
    for i in 0..lots.len() {
        all += lots[i].pushes as usize;
    }
    all
}

/// The deques of lots, and the passes that each lot has.
fn take_apart(
    mut lots: Vec<Lot>,
    mut stores: Vec<Store>,
    mut rows: Vec<Vec<Guest>>,
) -> (Vec<Store>, Vec<Vec<Guest>>)
    requires empty { (stores.items ≡ []) × (rows.items ≡ []) }
    requires room { (length lots.items ≤ vec_capacity stores) × (length lots.items ≤ vec_capacity rows) }
    ensures { AreApart lots.items result.0.items (map (λ row. row.items) result.1.items) }
{
    for _ in 0..lots.len() {
        let Lot {
            number: _,
            own,
            guests,
            pushes: _,
        } = lots.remove(0);
        stores.push_reserved(Store { own });
        rows.push_reserved(guests);
    }
    (stores, rows)
}

/// Gives the passes of all lots back to their deques.
fn merge_all(stores: &mut Vec<Store>, mut rows: Vec<Vec<Guest>>)
    requires { (i : ℕ) (row : List guests.Guest) → slice_get (map (λ r. r.items) rows.items) i ≡ Some row → map guest_deque row ≡ map store_deque stores.old.items }
    ensures { AreMerged (length rows.items) (map (λ row. row.items) rows.items) stores.old.items stores.new.items }
{
    for _ in 0..rows.len() {
        merge(stores, rows.remove(0));
    }
}

/// Gives the passes of one lot back to their deques.
fn merge(stores: &mut Vec<Store>, mut row: Vec<Guest>)
    requires { map guest_deque row.items ≡ map store_deque stores.old.items }
    ensures { IsMerged (length stores.old.items) row.items stores.old.items stores.new.items }
{
    for j in 0..stores.len() {
        stores[j].merge(row.remove(0));
    }
}

/// Takes all out of the deques and puts it behind what is left, for which there is room.
fn drain_all(stores: &mut Vec<Store>, left: &mut Vec<Comp>)
    requires full { (m : ℕ) (s : kept.Store) → slice_get stores.old.items m ≡ Some s → ((store_view s).parts ≡ all_parts) × IsWithin (store_view s) }
    requires room { put_in (λ _. 1) stores.old.items + vec_len left.old ≤ taken_out (λ _. 1) stores.old.items + vec_capacity left.old }
    ensures { AreDrained (length stores.old.items) stores.old.items stores.new.items left.old.items left.new.items }
{
    for j in 0..stores.len() {
        stores[j].drain(left);
    }
}
