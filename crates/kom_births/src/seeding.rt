ghost use Rattle.std.specs.Prelude.{◌≡◌, ℕ, ◌+◌, ◌<◌, ◌≤◌, ◌^◌, ◌∷◌, map, length, slice_get, IfOk, Some};
ghost use Rattle.std.specs.Option.{option_map};
ghost use Rattle.kom_base.specs.Lists.{first};
ghost use Rattle.kom_lang.specs.Declarations.{Declarations, kind_of};
ghost use Rattle.kom_lang.specs.Bodies.{is_initialised_at_birth};
ghost use Rattle.kom_record.specs.Controls.{inits_by};
ghost use Rattle.kom_births.specs.declared.sprout.Sprout.{Sprout as Sprouting};
ghost use Rattle.kom_births.specs.Seeds.{seed_in, seeds_in};
ghost use Rattle.kom_births.specs.Sprouts.{AreOf, IsSmall};

use crate::linking::links_of;
use crate::seed::Seed;
use crate::sprout::{Seat, Sprout};
use kom_base::Comp;
use kom_lang::Birth;
use kom_record::Control;
use kom_system::System;
use std::alloc::{AllocError, Global};

/// What is planted of the instances of a tree. The error is want of memory.
pub fn seeds_of(
    alloc: Global,
    system: &System,
    number: u32,
    sprouts: &[Sprout],
) -> Result<Vec<Seed>, AllocError>
    requires few { number + length sprouts.now ≤ 2 ^ 32 }
    requires fits { AreOf system.now.declarations sprouts.now }
    ensures { IfOk result (λ seeds. seeds.items ≡ seeds_in number sprouts.now system.now.declarations) }
{
    let mut seeds = Vec::new(alloc);
    for k in 0..sprouts.len() {
        seeds.push(seed_of(alloc, system, number, sprouts, k)?)?;
    }
    Ok(seeds)
}

/// What is planted of one of them.
fn seed_of(
    alloc: Global,
    system: &System,
    number: u32,
    sprouts: &[Sprout],
    k: usize,
) -> Result<Seed, AllocError>
    requires few { number + length sprouts.now ≤ 2 ^ 32 }
    requires fits { AreOf system.now.declarations sprouts.now }
    requires place { k < length sprouts.now }
    ensures { (x : Sprouting) → slice_get sprouts.now k ≡ Some x → IfOk result (λ seed. seed ≡ seed_in number sprouts.now system.now.declarations (number + k, x)) }
{
    let sprout = &sprouts[k];
    let body = system.body_of(alloc, sprout.kind, &sprout.birth, sprout.depth)?;
    let init = init_of(alloc, body.initialised, &sprout.birth)?;
    let channels = system.kind(sprout.kind).channels.as_slice();
    let links = links_of(alloc, number, sprouts, number + k as u32, channels)?;
    Ok(Seed {
        place: place_of(&sprout.seat),
        body,
        init,
        links,
    })
}

/// The Init of an instance that is not initialised from the start.
fn init_of(alloc: Global, initialised: bool, birth: &Birth) -> Result<Option<Control>, AllocError>
    ensures { (S : Declarations) (k : ℕ) → initialised ≡ is_initialised_at_birth (kind_of S k) birth.now → IfOk result (λ init. init ≡ first (inits_by S k birth.now)) }
{
    if initialised {
        return Ok(None);
    }
    match birth {
        Birth::Args(values) => Ok(Some(Control::Init(values.copy(alloc)?))),
        Birth::State(_) => Ok(None),
    }
}

/// A slot of an instance.
fn place_of(seat: &Option<Seat>) -> Option<(Comp, u8)>
    requires { IsSmall seat.now }
    ensures { result ≡ option_map (λ a. (a.comp, a.slot)) seat.now }
{
    match seat {
        Some(seat) => Some((Comp(seat.comp as u32), seat.slot)),
        None => None,
    }
}
