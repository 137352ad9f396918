ghost use Rattle.std.specs.Prelude.{◌≡◌, ℕ, ◌+◌, ◌<◌, ◌≤◌, ◌^◌, ◌∷◌, [], map, length, IfOk, OnOk};
ghost use Rattle.std.specs.List.{enumerate_from};
ghost use Rattle.kom_lang.specs.Declarations.{kind_of};
ghost use Rattle.kom_record.specs.Instances.{Instance, tree, depth_limit};
ghost use Rattle.kom_births.specs.Sprouts.{sprout_of, HasTree, HasTrees};

use crate::sprout::{Seat, Sprout};
use kom_base::Copied;
use kom_lang::{Birth, SlotDecl};
use kom_system::System;
use std::alloc::{AllocError, Global};

/// How deep a tree of instances is at most.
const LEVELS: u8 = 16;

/// The instances that the creation of one makes, in order of number: that one, with this number,
/// then for each of its typed slots in order of declaration the tree of the child. The error is want
/// of memory.
pub fn sprouts_of(
    alloc: Global,
    system: &System,
    number: u64,
    top: Sprout,
) -> Result<Vec<Sprout>, AllocError>
    requires number { number < 2 ^ 63 }
    requires depth { top.depth ≤ 16 }
    ensures { (i : Instance) → sprout_of i ≡ top → IfOk result (λ sprouts. sprouts.items ≡ map sprout_of (tree depth_limit system.now.declarations number i)) }
{
    let mut sprouts = Vec::new(alloc);
    grow(alloc, system, number, &mut sprouts, LEVELS, top)?;
    Ok(sprouts)
}

/// Adds the tree of an instance, with at most so many levels below it.
#[cycle(growing)]
fn grow(
    alloc: Global,
    system: &System,
    number: u64,
    sprouts: &mut Vec<Sprout>,
    levels: u8,
    top: Sprout,
) -> Result<(), AllocError>
    requires number { number < 2 ^ 63 }
    requires depth { top.depth + levels < 256 }
    ensures { OnOk result (HasTree system.now.declarations number levels top sprouts.old.items sprouts.new.items) }
{
    let parent = number + sprouts.len() as u64;
    let kind = top.kind;
    let depth = top.depth;
    sprouts.push(top)?;
    if levels == 0 {
        return Ok(());
    }
    if kind >= system.kinds() {
        return Ok(());
    }
    grow_children(
        alloc,
        system,
        number,
        sprouts,
        levels - 1,
        kind,
        parent,
        depth,
    )?;
    Ok(())
}

/// Adds the trees of the children in the typed slots of an instance of a depth.
#[cycle(growing)]
fn grow_children(
    alloc: Global,
    system: &System,
    number: u64,
    sprouts: &mut Vec<Sprout>,
    levels: u8,
    kind: u16,
    parent: u64,
    depth: u8,
) -> Result<(), AllocError>
    requires number { number < 2 ^ 63 }
    requires kind { kind < length system.now.declarations.kinds }
    requires depth { depth + 1 + levels < 256 }
    ensures { OnOk result (HasTrees system.now.declarations number levels parent depth (enumerate_from 0 (kind_of system.now.declarations kind).slots) sprouts.old.items sprouts.new.items) }
{
    let slots = system.kind(kind).slots.as_slice();
    for s in 0..slots.len() {
        let seat = Seat {
            comp: parent,
            slot: s as u8,
        };
        grow_child(
            alloc,
            system,
            number,
            sprouts,
            levels,
            &slots[s],
            seat,
            depth + 1,
        )?;
    }
    Ok(())
}

/// Adds the tree of the child in a slot, if the slot is typed; the child has this depth.
#[cycle(growing)]
fn grow_child(
    alloc: Global,
    system: &System,
    number: u64,
    sprouts: &mut Vec<Sprout>,
    levels: u8,
    slot: &SlotDecl,
    seat: Seat,
    depth: u8,
) -> Result<(), AllocError>
    requires number { number < 2 ^ 63 }
    requires depth { depth + levels < 256 }
    ensures { (above : ℕ) → above + 1 ≡ depth → OnOk result (HasTrees system.now.declarations number levels seat.comp above ((seat.slot, slot.now) ∷ []) sprouts.old.items sprouts.new.items) }
{
    match &slot.child {
        Some(child) => {
            let top = Sprout {
                kind: child.kind,
                birth: Birth::Args(child.args.copy(alloc)?),
                seat: Some(seat),
                depth,
            };
            grow(alloc, system, number, sprouts, levels, top)?;
            Ok(())
        }
        None => Ok(()),
    }
}
