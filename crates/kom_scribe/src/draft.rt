ghost use Rattle.std.specs.Prelude.{◌≡◌, ◌∷◌, [], ◌++◌, map, OnOk};

use kom_trees::{Node, SlotOf};
use std::alloc::{AllocError, Global};

/// What an effect changes of the instances and their slots.
#[derive(Clone, Copy, Debug, PartialEq, Eq)]
pub enum Change {
    /// The next instance is created, in this slot.
    Born(Option<SlotOf>),
    /// The occupant of the slot is destroyed.
    Gone(SlotOf),
}

/// What the effects of an entry change, before the entry is noted.
#[derive(Drop)]
pub struct Draft {
    /// The types of the instances that are created, in order of number.
    pub kinds: Vec<u16>,
    pub changes: Vec<Change>,
}

impl Draft {
    /// No change. It takes no memory.
    pub fn new(alloc: Global) -> Draft
        ensures kinds { result.kinds.items ≡ [] }
        ensures changes { result.changes.items ≡ [] }
    {
        Draft {
            kinds: Vec::new(alloc),
            changes: Vec::new(alloc),
        }
    }

    /// Adds an instance.
    fn add_node(&mut self, node: Node) -> Result<(), AllocError>
        ensures { OnOk result ((self.new.kinds.items ≡ self.old.kinds.items ++ node.kind ∷ []) × (self.new.changes.items ≡ self.old.changes.items ++ Change.Born node.at ∷ [])) }
    {
        self.kinds.push(node.kind)?;
        self.changes.push(Change::Born(node.at))?;
        Ok(())
    }

    /// Adds the instances of a creation.
    pub fn add_nodes(&mut self, nodes: &[Node]) -> Result<(), AllocError>
        ensures { OnOk result ((self.new.kinds.items ≡ self.old.kinds.items ++ map (λ n. n.kind) nodes.now) × (self.new.changes.items ≡ self.old.changes.items ++ map (λ n. Change.Born n.at) nodes.now)) }
    {
        for node in nodes {
            self.add_node(*node)?;
        }
        Ok(())
    }

    /// The occupant of a slot is destroyed.
    pub fn add_gone(&mut self, at: SlotOf) -> Result<(), AllocError>
        ensures { OnOk result ((self.new.kinds.items ≡ self.old.kinds.items) × (self.new.changes.items ≡ self.old.changes.items ++ Change.Gone at ∷ [])) }
    {
        self.changes.push(Change::Gone(at))?;
        Ok(())
    }
}
