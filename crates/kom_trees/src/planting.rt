ghost use Rattle.std.specs.Prelude.{◌≡◌, ◌<◌, ◌^◌, ◌∷◌, [], map, length, IfOk, OnOk};
ghost use Rattle.std.specs.List.{enumerate_from};
ghost use Rattle.kom_lang.specs.Declarations.{kind_of};
ghost use Rattle.kom_record.specs.Instances.{Instance, tree, depth_limit};
ghost use Rattle.kom_trees.specs.Nodes.{node_of, IsOf, HasTree, HasTrees};

use crate::nodes::{Node, SlotOf};
use kom_lang::SlotDecl;
use kom_system::System;
use std::alloc::{AllocError, Global};

/// How deep a tree of instances is at most.
const LEVELS: u8 = 16;

/// The instances that the creation of one makes: the instance with that number, then for each of its
/// typed slots in order of declaration the tree of the child. The error is want of memory.
pub fn tree_of(
    alloc: Global,
    system: &System,
    number: u64,
    kind: u16,
    at: Option<SlotOf>,
) -> Result<Vec<Node>, AllocError>
    requires { number < 2 ^ 63 }
    ensures { IfOk result (λ nodes. (i : Instance) → IsOf kind at i → nodes.items ≡ map node_of (tree depth_limit system.now.declarations number i)) }
{
    let mut nodes = Vec::new(alloc);
    plant(system, number, &mut nodes, LEVELS, kind, at)?;
    Ok(nodes)
}

/// Adds the tree of an instance, with at most so many levels below it.
#[cycle(planting)]
fn plant(
    system: &System,
    number: u64,
    nodes: &mut Vec<Node>,
    levels: u8,
    kind: u16,
    at: Option<SlotOf>,
) -> Result<(), AllocError>
    requires { number < 2 ^ 63 }
    ensures { OnOk result (HasTree system.now.declarations number levels kind at nodes.old.items nodes.new.items) }
{
    let parent = number + nodes.len() as u64;
    nodes.push(Node { kind, at })?;
    if levels == 0 {
        return Ok(());
    }
    if kind >= system.kinds() {
        return Ok(());
    }
    plant_children(system, number, nodes, levels - 1, kind, parent)?;
    Ok(())
}

/// Adds the trees of the children in the typed slots of an instance.
#[cycle(planting)]
fn plant_children(
    system: &System,
    number: u64,
    nodes: &mut Vec<Node>,
    levels: u8,
    kind: u16,
    parent: u64,
) -> Result<(), AllocError>
    requires number { number < 2 ^ 63 }
    requires kind { kind < length system.now.declarations.kinds }
    ensures { OnOk result (HasTrees system.now.declarations number levels parent (enumerate_from 0 (kind_of system.now.declarations kind).slots) nodes.old.items nodes.new.items) }
{
    let slots = system.kind(kind).slots.as_slice();
    for s in 0..slots.len() {
        let at = SlotOf {
            comp: parent,
            slot: s as u8,
        };
        plant_child(system, number, nodes, levels, &slots[s], at)?;
    }
    Ok(())
}

/// Adds the tree of the child in a slot, if the slot is typed.
#[cycle(planting)]
fn plant_child(
    system: &System,
    number: u64,
    nodes: &mut Vec<Node>,
    levels: u8,
    slot: &SlotDecl,
    at: SlotOf,
) -> Result<(), AllocError>
    requires { number < 2 ^ 63 }
    ensures { OnOk result (HasTrees system.now.declarations number levels at.comp ((at.slot, slot.now) ∷ []) nodes.old.items nodes.new.items) }
{
    match &slot.child {
        Some(child) => {
            plant(system, number, nodes, levels, child.kind, Some(at))?;
            Ok(())
        }
        None => Ok(()),
    }
}
