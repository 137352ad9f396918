ghost use Rattle.std.specs.Prelude.{◌≡◌, ℕ, ◌+◌, ◌-◌, ◌<◌, ◌≤◌, ◌↔◌, ◌&&◌, not, if◌then◌else◌, true, [], length, map, IsTrue, IsSome, IsNone, IfSome, OnOk, Some, None};
ghost use Rattle.kom_tree.specs.Forest.{parent_of, line_of, line_under, is_alive, is_slot, occupant, hangs_in, MayHang, with_child, felled, IsLivingChild, IsGrown};

use crate::family::{Family, Links, Origin};
use crate::fell::{child_of, end_below, end_one, hang, is_living, parent_in, put, sitter, unlink};
use kom_base::Comp;
use std::alloc::{AllocError, Global};
use std::marker::Model;

/// The instances of a system, numbered from 0 in the order in which they were made, and which of
/// them are alive.
///
/// Contracts see the list of the instances, each with its kind, its line of ancestors and whether
/// it is alive, and for how many more there is room.
#[derive(Drop)]
pub struct Tree {
    family: Family,
    living: Vec<bool>,
    /// Empty between calls: the ended instances whose children are still to be ended.
    pending: Vec<Comp>,
    /// The number of instances for which each list has memory.
    room: usize,
}

impl Model for Tree {
    ghost use Rattle.kom_tree.specs.Forest.{Forest};

    ghost Value = { Forest };

    ghost use Rattle.kom_tree.specs.Parts.{forest_of};
    ghost use Rattle.kom_tree.specs.Sound.{IsSound};

    ghost view = { λ t. forest_of t.family.origins.items t.living.items t.room };

    ghost invariant = { IsSound };
}

impl Tree {
    /// The tree with no instance. It takes no memory.
    pub fn new(alloc: Global) -> Tree
        ensures { result ≡ record { instances = []; spare = 0 } }
    {
        Tree {
            family: Family {
                origins: Vec::new(alloc),
                links: Vec::new(alloc),
            },
            living: Vec::new(alloc),
            pending: Vec::new(alloc),
            room: 0,
        }
    }

    /// Makes room for `n` more instances. On want of memory there is as much room as before.
    pub fn reserve(&mut self, n: usize) -> Result<(), AllocError>
        ensures same { self.new.instances ≡ self.old.instances }
        ensures ok { OnOk result (n ≤ self.new.spare) }
        ensures not_less { self.old.spare ≤ self.new.spare }
    {
        self.family.origins.reserve(n)?;
        self.family.links.reserve(n)?;
        self.living.reserve(n)?;
        let made = self.family.origins.len();
        self.pending.reserve(made.saturating_add(n))?;
        self.room = self
            .family
            .origins
            .capacity()
            .min(self.family.links.capacity())
            .min(self.living.capacity())
            .min(self.pending.capacity());
        Ok(())
    }

    /// Whether an instance was made and is alive.
    pub fn alive(&self, c: Comp) -> bool
        ensures { result ≡ is_alive self.now.instances c }
    {
        is_living(&self.living, c)
    }

    /// The parent of an instance with the slot there; `None` exactly for the root, which is 0.
    pub fn parent(&self, c: Comp) -> Option<(Comp, u8)>
        requires { c < length self.now.instances }
        ensures value { result ≡ parent_of self.now.instances c }
        ensures line { line_of self.now.instances c ≡ line_under self.now.instances result }
        ensures root { IsNone result ↔ (c ≡ 0) }
        ensures older { IfSome result (λ q. q.0 < c) }
        ensures living { is_alive self.now.instances c ≡ true → IfSome result (λ q. is_alive self.now.instances q.0 ≡ true) }
    {
        parent_in(&self.family, c)
    }

    /// The living instance in a slot of an instance; `None` exactly where the slot is empty.
    pub fn child(&self, c: Comp, slot: u8) -> Option<Comp>
        requires { c < length self.now.instances }
        ensures value { result ≡ occupant self.now.instances c slot }
        ensures made { IfSome result (λ d. (d < length self.now.instances) × (is_alive self.now.instances d ≡ true) × (parent_of self.now.instances d ≡ Some (c, slot))) }
    {
        sitter(&self.family, &self.living, c, slot)
    }

    /// A living child of a living instance, the youngest; `None` exactly where it has none.
    pub fn youngest(&self, c: Comp) -> Option<Comp>
        requires { is_alive self.now.instances c ≡ true }
        ensures { IsLivingChild self.now.instances c result }
    {
        child_of(&self.family, c)
    }

    /// How the instances hang together. The call gives a proof this fact, and does nothing else.
    pub fn well_grown(&self)
        ensures { IsGrown self.now.instances }
    {
        let _room = self.room;
    }

    /// Adds an instance in an empty slot of a living one, or with no parent as the first of all.
    /// Its number, which comes back, is the count of the instances before it. It takes no memory.
    pub fn add(&mut self, parent: Option<(Comp, u8)>, kind: u16) -> Comp
        requires spare { 0 < self.old.spare }
        requires few { length self.old.instances < 4000000000 }
        requires place { MayHang self.old.instances parent }
        ensures number { result ≡ length self.old.instances }
        ensures grows { self.new.instances ≡ with_child self.old.instances parent kind }
        ensures spare { self.new.spare ≡ self.old.spare - 1 }
        ensures occupants { (p s : ℕ) → occupant self.new.instances p s ≡ (if hangs_in p s parent then Some result else occupant self.old.instances p s) }
    {
        let number = Comp(self.family.origins.len() as u32);
        let sibling = hang(&mut self.family, &parent, number);
        put(&mut self.family.origins, Origin { kind, parent });
        put(
            &mut self.family.links,
            Links {
                child: None,
                sibling,
            },
        );
        put(&mut self.living, true);
        number
    }

    /// Ends the instance in a slot and all below it. It takes no memory.
    pub fn remove(&mut self, parent: Comp, slot: u8)
        requires made { parent < length self.old.instances }
        requires filled { IsSome (occupant self.old.instances parent slot) }
        ensures ends { self.new.instances ≡ map (felled parent slot) self.old.instances }
        ensures spare { self.new.spare ≡ self.old.spare }
        ensures occupants { (p s : ℕ) → occupant self.new.instances p s ≡ (if is_alive self.new.instances p && not (is_slot parent slot (p, s)) then occupant self.old.instances p s else None) }
    {
        if let Some(top) = self.child(parent, slot) {
            unlink(&mut self.family, &self.living, parent, top);
            end_one(&mut self.living, top);
            end_below(&self.family, &mut self.living, &mut self.pending, top);
        }
    }
}

#[cfg(test)]
mod tests {
    use super::*;
    use std::test::Fail;

    #[test]
    fn ends_all_below(rt: HostRuntime) -> Result<(), Fail> {
        let mut tree = Tree::new(rt.alloc());
        tree.reserve(3)?;
        let root = tree.add(None, 7);
        let child = tree.add(Some((root, 2)), 8);
        assert_eq!(rt; tree.child(root, 2), Some(child));
        assert_eq!(rt; tree.parent(child), Some((root, 2)));
        let below = tree.add(Some((child, 0)), 9);
        assert_eq!(rt; tree.youngest(root), Some(child));
        assert_eq!(rt; tree.youngest(below), None);
        tree.remove(root, 2);
        assert!(rt; tree.alive(root));
        assert!(rt; !tree.alive(child));
        assert!(rt; !tree.alive(below));
        assert_eq!(rt; tree.child(root, 2), None);
        Ok(())
    }
}
