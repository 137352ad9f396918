ghost use Rattle.std.specs.Prelude.{◌≡◌, ℕ, ◌+◌, ◌<◌, ◌≤◌, ◌^◌, length, map, IfOk, OnOk, Some};
ghost use Rattle.std.specs.Option.{option_map};
ghost use Rattle.kom_base.specs.Lists.{first};
ghost use Rattle.kom_lang.specs.Declarations.{height_of};
ghost use Rattle.kom_numbers.specs.Numbering.{total};
ghost use Rattle.kom_record.specs.Instances.{Instance, tree, depth_limit};
ghost use Rattle.kom_state.specs.Parts.{state_of};
ghost use Rattle.kom_state.specs.Rooms.{IsSame, HasNoLess};
ghost use Rattle.kom_births.specs.Seeds.{seeds_in, links_of};
ghost use Rattle.kom_births.specs.Sowing.{AreSown, MaySow, HasRooms, HasOwnRooms, TakesRooms};
ghost use Rattle.kom_births.specs.Sprouts.{sprout_of, IsDeep};

use crate::growing::sprouts_of;
use crate::rooms::{reserve_queues, reserve_rows};
use crate::seed::Seed;
use crate::seeding::seeds_of;
use crate::sprout::{Seat, Sprout};
use kom_base::{Chan, Comp};
use kom_lang::Birth;
use kom_state::RunState;
use kom_system::System;
use std::alloc::{AllocError, Global};
use std::marker::Model;

/// What is planted of a tree of instances, in order of number. Contracts see the list.
#[derive(Drop)]
pub struct Brood {
    seeds: Vec<Seed>,
}

impl Model for Brood {
    ghost use Rattle.std.specs.Prelude.{List};
    ghost use Rattle.kom_births.specs.declared.seed.Seed.{Seed as Value_of};

    ghost Value = { List Value_of };

    ghost view = { λ b. b.seeds.items };
}

impl Brood {
    /// What is planted where an instance of a component type is created with this number and all
    /// below it after it, in a slot of an older one or, at depth 1, as the root: at most 1,000
    /// instances and as many channels. The error is want of memory.
    pub fn of(
        alloc: Global,
        system: &System,
        number: u32,
        place: Option<(Comp, u8)>,
        kind: u16,
        birth: Birth,
        depth: u8,
    ) -> Result<Brood, AllocError>
        requires number { number + 1000 ≤ 4000000000 }
        requires kind { kind < length system.now.declarations.kinds }
        requires depth { depth + height_of system.now.declarations kind ≤ 17 }
        requires place { IsDeep number place depth }
        ensures few { IfOk result (λ brood. length brood ≤ 1000) }
        ensures few_channels { IfOk result (λ brood. length (links_of brood) ≤ 1000) }
        ensures planted { (i : Instance) → i.kind ≡ kind → i.birth ≡ birth → first i.ancestry ≡ place → 1 + length i.ancestry ≡ depth
            → IfOk result (λ brood. brood ≡ seeds_in number (map sprout_of (tree depth_limit system.now.declarations number i)) system.now.declarations) }
    {
        system.well_formed();
        let top = Sprout {
            kind,
            birth,
            seat: seat_of(&place),
            depth,
        };
        let sprouts = sprouts_of(alloc, system, u64::from(number), top)?;
        let seeds = seeds_of(alloc, system, number, sprouts.as_slice())?;
        Ok(Brood { seeds })
    }

    /// How many instances there are.
    pub fn len(&self) -> usize
        ensures { result ≡ length self.now }
    {
        self.seeds.len()
    }

    /// How many channels they have.
    pub fn channels(&self) -> usize
        requires { length (links_of self.now) < 2 ^ 32 }
        ensures { result ≡ length (links_of self.now) }
    {
        let mut channels = 0;
        for seed in self.seeds.as_slice() {
            channels += seed.links.len();
        }
        channels
    }

    /// Makes room for their control rows and their queues, where the first of them gets the number
    /// `first` and its first channel the number `chan`. It leaves the state as it is, and on want
    /// of memory no less room than before.
    pub fn reserve(&self, state: &mut RunState, first: Comp, chan: Chan) -> Result<(), AllocError>
        requires few { first + length self.now ≤ 4000000000 }
        requires few_channels { chan + length (links_of self.now) < 2 ^ 32 }
        ensures same { IsSame (state_of state.old) (state_of state.new) }
        ensures not_less { HasNoLess state.old state.new }
        ensures ok { OnOk result (HasOwnRooms self.now first chan state.new) }
    {
        reserve_rows(state, self.seeds.as_slice(), first.0)?;
        reserve_queues(state, chan.0, self.channels() as u32)
    }

    /// Makes all the room that they need where they are planted next. It leaves the state as it is,
    /// and on want of memory no less room than before.
    pub fn make_room(&self, state: &mut RunState) -> Result<(), AllocError>
        requires few { length (state_of state.old).nodes + length self.now ≤ 4000000000 }
        requires few_channels { total state.old.numbers + length (links_of self.now) < 2 ^ 32 }
        ensures same { IsSame (state_of state.old) (state_of state.new) }
        ensures not_less { HasNoLess state.old state.new }
        ensures ok { OnOk result (HasRooms self.now (length (state_of state.old).nodes) (total state.old.numbers) state.new) }
    {
        let first = Comp(state.instance_count());
        let chan = Chan(state.channel_count());
        self.reserve(state, first, chan)?;
        state.reserve_instances(self.len())?;
        state.reserve_channels(self.channels())
    }

    /// Plants them, one after another. It takes no memory.
    pub fn sow(self, state: &mut RunState, system: &System)
        requires may { MaySow system.now.declarations (length (state_of state.old).nodes) (total state.old.numbers) self (state_of state.old) }
        requires few { length (state_of state.old).nodes + length self ≤ 4000000000 }
        requires few_channels { total state.old.numbers + length (links_of self) < 2 ^ 32 }
        requires room { HasRooms self (length (state_of state.old).nodes) (total state.old.numbers) state.old }
        ensures step { AreSown system.now.declarations (length (state_of state.old).nodes) (total state.old.numbers) self (state_of state.old) (state_of state.new) }
        ensures room { TakesRooms self (length (state_of state.old).nodes) state.old state.new }
    {
        let Brood { seeds } = self;
        for seed in seeds {
            let Seed {
                place,
                body,
                init,
                links,
            } = seed;
            state.plant(system, place, body, init, links.as_slice());
        }
    }
}

/// A slot of an instance.
fn seat_of(place: &Option<(Comp, u8)>) -> Option<Seat>
    ensures { result ≡ option_map (λ q. record { comp = q.0; slot = q.1 }) place.now }
{
    match place {
        Some((comp, slot)) => Some(Seat {
            comp: u64::from(comp.0),
            slot: *slot,
        }),
        None => None,
    }
}
