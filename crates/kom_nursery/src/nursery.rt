ghost use Rattle.std.specs.Prelude.{◌≡◌, ℕ, ◌+◌, ◌*◌, ◌<◌, ◌≤◌, ◌^◌, ◌∷◌, [], List, length, IfOk, OnOk, MatchOption};
ghost use Rattle.kom_numbers.specs.Numbering.{total};
ghost use Rattle.kom_record.specs.declared.item.Item.{Item};
ghost use Rattle.kom_record.specs.Entries.{Act};
ghost use Rattle.kom_state.specs.Parts.{state_of};
ghost use Rattle.kom_state.specs.Rooms.{IsSame, HasNoLess};
ghost use Rattle.kom_births.specs.Seeds.{links_of};
ghost use Rattle.kom_births.specs.Sowing.{HasRooms};
ghost use Rattle.kom_nursery.specs.Nurseries.{all_of, broods_of, AreCreatable, IsNext};
ghost use Rattle.kom_nursery.specs.Tops.{TopsHaveRoom};

use crate::one::brood_for;
use kom_base::{Chan, Comp};
use kom_births::Brood;
use kom_lang::Effect;
use kom_state::RunState;
use kom_system::System;
use std::alloc::{AllocError, Global};
use std::marker::Model;

/// What is planted of the trees that a handling creates, in order. Contracts see the list of them.
#[derive(Drop)]
pub struct Nursery {
    broods: Vec<Brood>,
}

impl Model for Nursery {
    ghost use Rattle.std.specs.Prelude.{List};
    ghost use Rattle.kom_births.specs.declared.seed.Seed.{Seed};

    ghost Value = { List (List Seed) };

    ghost view = { λ n. n.broods.items };
}

impl Nursery {
    /// What is planted for the effects of a handling by `c`, which has this depth, where the next
    /// instance that is created gets the number `first`: for each effect at most 1,000 instances and
    /// as many channels. The error is want of memory.
    pub fn of(
        alloc: Global,
        system: &System,
        first: u32,
        c: Comp,
        depth: u8,
        effects: &[Effect],
    ) -> Result<Nursery, AllocError>
        requires number { first ≤ 3900000000 }
        requires few { length effects.now ≤ 1000 }
        requires above { c < first }
        requires depth { 1 ≤ depth }
        requires fits { AreCreatable system.now.declarations depth effects.now }
        ensures few { IfOk result (λ nursery. length (all_of nursery) ≤ 1000 * length effects.now) }
        ensures few_channels { IfOk result (λ nursery. length (links_of (all_of nursery)) ≤ 1000 * length effects.now) }
        ensures planted { (done : List Act) (item : Item) → IsNext system.now.declarations done c depth first → IfOk result (λ nursery. nursery ≡ broods_of system.now.declarations done c item effects.now) }
    {
        let mut broods = Vec::new(alloc);
        let mut number = first;
        for k in 0..effects.len() {
            if let Some(brood) = brood_for(alloc, system, number, c, depth, &effects[k])? {
                number += brood.len() as u32;
                broods.push(brood)?;
            }
        }
        Ok(Nursery { broods })
    }

    /// Takes the next of them; `None` exactly where none is left. It costs how many there are.
    pub fn next(&mut self) -> Option<Brood>
        ensures { MatchOption result ((self.old ≡ []) × (self.new ≡ [])) (λ brood. self.old ≡ brood ∷ self.new) }
    {
        if self.broods.is_empty() {
            None
        } else {
            Some(self.broods.remove(0))
        }
    }

    /// Makes all the room that they need where they are planted next. It leaves the state as it is,
    /// and on want of memory no less room than before.
    pub fn make_room(&self, state: &mut RunState) -> Result<(), AllocError>
        requires few { length (state_of state.old).nodes + length (all_of self.now) ≤ 4000000000 }
        requires few_channels { total state.old.numbers + length (links_of (all_of self.now)) < 2 ^ 32 }
        ensures same { IsSame (state_of state.old) (state_of state.new) }
        ensures not_less { HasNoLess state.old state.new }
        ensures ok { OnOk result (HasRooms (all_of self.now) (length (state_of state.old).nodes) (total state.old.numbers) state.new) }
    {
        let mut first = state.instance_count();
        let mut chan = state.channel_count();
        for brood in self.broods.as_slice() {
            brood.reserve(state, Comp(first), Chan(chan))?;
            first += brood.len() as u32;
            chan += brood.channels() as u32;
        }
        state.reserve_instances((first - state.instance_count()) as usize)?;
        state.reserve_channels((chan - state.channel_count()) as usize)
    }

    /// How many instances there are in all of them.
    pub fn instances(&self) -> u32
        requires { length (all_of self.now) ≤ 4000000000 }
        ensures { result ≡ length (all_of self.now) }
    {
        let mut count = 0;
        for brood in self.broods.as_slice() {
            count += brood.len() as u32;
        }
        count
    }

    /// Makes room for `n` more control items of the first component of each of them, beside the one
    /// that it may be created with, where they are planted next. It leaves the state as it is, and
    /// on want of memory no less room than before.
    pub fn reserve_tops(&self, state: &mut RunState, n: usize) -> Result<(), AllocError>
        requires few { length (state_of state.old).nodes + length (all_of self.now) ≤ 4000000000 }
        requires items { n ≤ 1000 }
        ensures same { IsSame (state_of state.old) (state_of state.new) }
        ensures not_less { HasNoLess state.old state.new }
        ensures ok { OnOk result (TopsHaveRoom n self.now (length (state_of state.old).nodes) state.new) }
    {
        let mut first = state.instance_count();
        for brood in self.broods.as_slice() {
            state.reserve_controls(Comp(first), n + 1)?;
            first += brood.len() as u32;
        }
        Ok(())
    }
}
