ghost use Rattle.std.specs.Prelude.{◌≡◌, length, IfOk};
ghost use Rattle.kom_rules.specs.Names.{first_place};
ghost use Rattle.kom_rules.specs.Fitting.{is_below, own_containers as self_containers, too_large as large_trees};
ghost use Rattle.kom_containers.specs.Nested.{children_table, amounts};
ghost use Rattle.kom_containers.specs.Sized.{AreSizes, exceeds_limits};

use crate::below::{holders_of, is_marked};
use crate::children::children_of;
use crate::sizes::{height_at, heights, total_at, totals};
use kom_system::Parts;
use kom_walks::{at_if, earlier};
use sqlite_items::Items;
use std::alloc::{AllocError, Global};

/// A tree has no more levels.
const MAX_LEVELS: u8 = 16;

/// A tree has no more instances, and no more channels.
const MAX_IN_TREE: u32 = 1000;

/// Whether a component type is in its own tree, by the children of each.
fn contains_itself(
    alloc: Global,
    parts: &Parts,
    children: &Items<Items<usize>>,
    number: usize,
) -> Result<bool, AllocError>
    requires { children.now ≡ children_table parts.now }
    ensures { IfOk result (λ holds. holds ≡ is_below (length parts.now.components) parts.now number number) }
{
    let levels = parts.components.len();
    let holders = holders_of(alloc, children.as_slice(), levels, number)?;
    Ok(is_marked(&holders, number))
}

/// The first component type that contains itself through typed slots, at its name in its
/// declaration; `None` exactly where there is none. Time is in the order of the cube of the count of
/// component types, times the typed slots of each. The error is want of memory.
pub fn own_containers(alloc: Global, parts: &Parts) -> Result<Option<u32>, AllocError>
    ensures { IfOk result (λ first. first ≡ first_place (self_containers parts.now)) }
{
    let children = children_of(alloc, parts)?;
    let mut first = None;
    for (number, part) in parts.components.as_slice().iter().enumerate() {
        let holds = contains_itself(alloc, parts, &children, number)?;
        first = earlier(first, at_if(holds, part.name.at));
    }
    Ok(first)
}

/// The sizes of the trees of component types.
#[derive(Drop)]
pub struct Sizes {
    pub heights: Items<u8>,
    pub instances: Items<u32>,
    pub channels: Items<u32>,
}

/// One for each component type, and 0 for the number behind the last. The error is want of memory,
/// as in the calls below.
fn ones(alloc: Global, parts: &Parts) -> Result<Items<usize>, AllocError>
    ensures { IfOk result (λ own. own ≡ amounts (λ c. 1) parts.now) }
{
    let mut own = Items::new(alloc);
    for _ in parts.components.as_slice() {
        own.push(1)?;
    }
    own.push(0)?;
    Ok(own)
}

/// The count of channels of each component type, and 0 for the number behind the last.
fn channel_counts(alloc: Global, parts: &Parts) -> Result<Items<usize>, AllocError>
    ensures { IfOk result (λ own. own ≡ amounts (λ c. length c.channels) parts.now) }
{
    let mut own = Items::new(alloc);
    for part in parts.components.as_slice() {
        own.push(part.channels.len())?;
    }
    own.push(0)?;
    Ok(own)
}

impl Sizes {
    /// The sizes of the trees of a file.
    fn of(alloc: Global, parts: &Parts) -> Result<Sizes, AllocError>
        ensures { IfOk result (λ sizes. AreSizes sizes parts.now) }
    {
        let children = children_of(alloc, parts)?;
        let one_each = ones(alloc, parts)?;
        let wires = channel_counts(alloc, parts)?;
        let levels = MAX_LEVELS;
        Ok(Sizes {
            heights: heights(alloc, children.as_slice(), levels + 1)?,
            instances: totals(alloc, children.as_slice(), one_each.as_slice(), levels)?,
            channels: totals(alloc, children.as_slice(), wires.as_slice(), levels)?,
        })
    }

    /// Whether the tree of a component type is too high or has too much in it.
    fn exceeds(&self, number: usize) -> bool
        ensures { result ≡ exceeds_limits self.now number }
    {
        let high = height_at(&self.heights, number) > MAX_LEVELS;
        let many = total_at(&self.instances, number) > MAX_IN_TREE;
        let wired = total_at(&self.channels, number) > MAX_IN_TREE;
        high || (many || wired)
    }
}

/// The first component type whose tree has more than 16 levels, or over 1,000 instances or over
/// 1,000 channels in its first 16, at its name in its declaration; `None` exactly where there is
/// none. The error is want of memory.
pub fn too_large(alloc: Global, parts: &Parts) -> Result<Option<u32>, AllocError>
    ensures { IfOk result (λ first. first ≡ first_place (large_trees parts.now)) }
{
    let sizes = Sizes::of(alloc, parts)?;
    let mut first = None;
    for (number, part) in parts.components.as_slice().iter().enumerate() {
        let large = sizes.exceeds(number);
        first = earlier(first, at_if(large, part.name.at));
    }
    Ok(first)
}
