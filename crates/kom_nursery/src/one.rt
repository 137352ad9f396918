ghost use Rattle.std.specs.Prelude.{◌≡◌, ℕ, ◌+◌, ◌<◌, ◌≤◌, List, length, IfOk};
ghost use Rattle.kom_record.specs.Entries.{Act};
ghost use Rattle.kom_births.specs.Seeds.{links_of};
ghost use Rattle.kom_nursery.specs.Nurseries.{all_of, brood_of, listed, IsCreatable, IsNext};

use kom_base::{Comp, Copied};
use kom_births::Brood;
use kom_lang::Effect;
use kom_system::System;
use std::alloc::{AllocError, Global};

/// What is planted for one effect of `c`, which has this depth; `None` where it is no Create.
pub fn brood_for(
    alloc: Global,
    system: &System,
    number: u32,
    c: Comp,
    depth: u8,
    effect: &Effect,
) -> Result<Option<Brood>, AllocError>
    requires number { number + 1000 ≤ 4000000000 }
    requires above { c < number }
    requires depth { 1 ≤ depth }
    requires fits { IsCreatable system.now.declarations depth effect.now }
    ensures few { IfOk result (λ brood. length (all_of (listed brood)) ≤ 1000) }
    ensures few_channels { IfOk result (λ brood. length (links_of (all_of (listed brood))) ≤ 1000) }
    ensures brood { (done : List Act) → IsNext system.now.declarations done c depth number → IfOk result (λ brood. listed brood ≡ brood_of system.now.declarations done c effect.now) }
{
    match effect {
        Effect::Create { slot, kind, birth } => {
            let birth = birth.copy(alloc)?;
            let place = Some((c, *slot));
            let brood = Brood::of(alloc, system, number, place, *kind, birth, depth + 1)?;
            Ok(Some(brood))
        }
        _ => Ok(None),
    }
}
