ghost use Rattle.std.specs.Prelude.{◌≡◌, ◌-◌, ◌+◌, ◌<◌, ◌≤◌, ◌^◌, [], ◌∷◌, ◌++◌, map, filter, nat_lt, true, IsSome, IfSome, IfNone, IfOk, OnOk, OnSome, MatchOption, length, vec_len, vec_capacity};
ghost use Rattle.kom_base.specs.Lists.{least};
ghost use Rattle.kom_index.specs.Stock.{entries, items, spare};
ghost use Rattle.kom_index.specs.Entries.{value_of};
ghost use Rattle.kom_env.specs.Keys.{place_cmp};
ghost use Rattle.kom_record.specs.Plans.{does_not_fall};
ghost use Rattle.kom_env.specs.Raised.{is_unraised, is_raised_at, released, admitted, raises_in, first_place, last_place, place_after};

use crate::keys::Place;
use kom_base::Copied;
use kom_index::Ordered;
use kom_record::{Raise, Raises, Release};
use sqlite_items::Items;
use std::alloc::{AllocError, Global};
use std::marker::Model;

/// The raises of a plan, released or not.
///
/// Contracts see the list of them in order of time, and for how many more there is room. Each call
/// but `of` and `into_raises` costs the logarithm of their number, and what it lists.
#[derive(Drop)]
pub struct Calendar {
    raises: Ordered<Place, Raise>,
    /// How many raises there are; the next one of a time stands behind all of that time.
    count: u64,
    spare: usize,
    /// Empty, with room for all raises.
    room: Vec<Raise>,
}

impl Model for Calendar {
    ghost use Rattle.std.specs.Prelude.{List, ℕ};
    ghost use Rattle.kom_record.specs.declared.plan.Raise.{Raise};
    ghost use Rattle.kom_env.specs.Raised.{raises_in};

    ghost Value = { List Raise × ℕ };

    ghost use Rattle.kom_env.specs.Placed.{IsSound};

    ghost view = { λ c. (raises_in c.raises.0, c.spare) };

    ghost invariant = { IsSound };
}

impl Calendar {
    /// The raises of a plan, which are in order of time.
    pub fn of(alloc: Global, raises: Raises) -> Result<Calendar, AllocError>
        requires in_order { does_not_fall (map (λ r. r.time) raises) ≡ true }
        requires few { length raises ≤ 2000000000 }
        ensures { IfOk result (λ c. items c ≡ raises) }
    {
        let count = raises.len();
        let mut room = Vec::new(alloc);
        room.reserve(count)?;
        let mut placed = Ordered::new(alloc);
        placed.reserve(count)?;
        let mut raises = raises;
        while let Some(raise) = raises.pop() {
            placed.insert(place_of(&raise, raises.len() as u64), raise);
        }
        Ok(Calendar {
            raises: placed,
            count: count as u64,
            spare: 0,
            room,
        })
    }

    /// Makes room for `n` more raises. On want of memory there is no less room than before.
    pub fn reserve(&mut self, n: usize) -> Result<(), AllocError>
        ensures same { items self.new ≡ items self.old }
        ensures ok { OnOk result (n ≤ spare self.new) }
        ensures not_less { spare self.old ≤ spare self.new }
    {
        if self.spare >= n {
            return Ok(());
        }
        let Some(total) = n.checked_add(self.count as usize) else {
            return Err(AllocError);
        };
        self.room.reserve(total)?;
        self.raises.reserve(n)?;
        self.spare = n;
        Ok(())
    }

    /// The least time of the raises that the last release has not reached, if there is one.
    pub fn next_time(&self, last: Option<u64>) -> Option<u64>
        ensures { result ≡ least nat_lt (map (λ r. r.time) (filter (is_unraised last) (items self.now))) }
    {
        match self.raises.first_from(&after(&last)) {
            Some(place) => Some(time_of(place)),
            None => None,
        }
    }

    /// How many raises have a time.
    pub fn count_at(&self, time: u64) -> usize
        ensures count { result ≡ length (filter (is_raised_at time) (items self.now)) }
        ensures small { result < 2 ^ 63 }
    {
        let _count = self.count;
        self.raises.count_between(&first_at(time), &last_at(time))
    }

    /// Adds what the raises of a time release at the end of a list. On want of memory the list has
    /// some of it.
    pub fn release_at(
        &self,
        alloc: Global,
        time: u64,
        out: &mut Vec<Release>,
    ) -> Result<(), AllocError>
        ensures { OnOk result (out.new.items ≡ out.old.items ++ map released (filter (is_raised_at time) (items self.now))) }
    {
        let _count = self.count;
        let places = self
            .raises
            .keys_between(alloc, &first_at(time), &last_at(time))?;
        for place in &places {
            release(&self.raises, place, alloc, out)?;
        }
        Ok(())
    }

    /// Adds a raise behind the last whose time is not greater. It takes no memory.
    pub fn admit(&mut self, raise: Raise)
        requires spare { 0 < spare self.old }
        requires few { length (items self.old) < 2000000000 }
        ensures admits { items self.new ≡ admitted raise (items self.old) }
        ensures spare { spare self.new ≡ spare self.old - 1 }
    {
        self.raises.insert(place_of(&raise, self.count), raise);
        self.count += 1;
        self.spare -= 1;
    }

    /// The raises as a list. It takes no memory.
    pub fn into_raises(self) -> Raises
        ensures { result ≡ items self }
    {
        let Calendar {
            raises,
            count: _,
            spare: _,
            room,
        } = self;
        Items::from_vec(emptied(raises, room))
    }
}

/// The raises, behind those of a list that has room for them.
fn emptied(raises: Ordered<Place, Raise>, list: Vec<Raise>) -> Vec<Raise>
    requires { vec_len list + length (entries raises) ≤ vec_capacity list }
    ensures { result.items ≡ list.items ++ raises_in (entries raises) }
{
    let mut raises = raises;
    let mut list = list;
    while let Some(raise) = pop_first(&mut raises) {
        list.push_reserved(raise);
    }
    list
}

/// Takes the first raise out, if there is one.
fn pop_first(raises: &mut Ordered<Place, Raise>) -> Option<Raise>
    ensures first { MatchOption result (entries raises.old ≡ []) (λ r. raises_in (entries raises.old) ≡ r ∷ raises_in (entries raises.new)) }
    ensures len { OnSome result (length (entries raises.new) + 1 ≡ length (entries raises.old)) }
    ensures none { IfNone result (entries raises.new ≡ entries raises.old) }
{
    let first = match raises.first_from(&first_at(0)) {
        Some(place) => *place,
        None => return None,
    };
    Some(raises.remove(&first))
}

/// Adds what the raise of a place releases at the end of a list.
fn release(
    raises: &Ordered<Place, Raise>,
    place: &Place,
    alloc: Global,
    out: &mut Vec<Release>,
) -> Result<(), AllocError>
    requires { IsSome (value_of place_cmp place.now (entries raises.now)) }
    ensures { OnOk result (IfSome (value_of place_cmp place.now (entries raises.now)) (λ r. out.new.items ≡ out.old.items ++ released r ∷ [])) }
{
    let Some(raise) = raises.get(place) else {
        return Ok(());
    };
    let event = raise.event.copy(alloc)?;
    out.push(Release {
        chan: raise.chan,
        event,
    })?;
    Ok(())
}

/// The place of a raise with this rank.
fn place_of(raise: &Raise, rank: u64) -> Place
    ensures { result ≡ record { time = raise.now.time; rank = rank } }
{
    Place {
        time: raise.time,
        rank,
    }
}

fn time_of(place: &Place) -> u64
    ensures { result ≡ place.now.time }
{
    place.time
}

fn first_at(time: u64) -> Place
    ensures { result ≡ first_place time }
{
    Place { time, rank: 0 }
}

fn last_at(time: u64) -> Place
    ensures { result ≡ last_place time }
{
    Place {
        time,
        rank: u64::MAX,
    }
}

/// The first place that the last release has not reached.
fn after(last: &Option<u64>) -> Place
    ensures { result ≡ place_after last.now }
{
    match last {
        None => first_at(0),
        Some(time) => last_at(*time),
    }
}
