ghost use Rattle.std.specs.Prelude.{◌≡◌, ℕ, ◌-◌, ◌<◌, ◌≤◌, ◌==◌, ◌≢◌, if◌then◌else◌, false, true, [], Some, None, OnOk, length, find, slice_get};
ghost use Rattle.std.specs.Option.{option_map, option_map_or, option_and_then, option_copied};
ghost use Rattle.kom_base.specs.Lists.{first};
ghost use Rattle.kom_life.specs.Rows.{is_there, has_room, spare_of, living_of, first_control, is_active, is_catching, newborn, with_control, without_first, with_flags, nearest_of};
ghost use Rattle.kom_tree.specs.Forest.{line_of};

use crate::row::Row;
use kom_base::Comp;
use kom_record::Control;
use kom_tree::Tree;
use std::alloc::{AllocError, Global};
use std::marker::Model;

/// For each living instance the control items that wait for it, the first at the front, whether it
/// is active, and whether it catches faults, that is, has a fault handler subscribed.
///
/// Contracts see a row for each instance by number, with whether it is there; room may be reserved
/// before it is. No call but `reserve`, when it comes to a number for the first time, costs more
/// where there are more instances; `nearest` costs the depth of the instance.
#[derive(Drop)]
pub struct Life {
    rows: Vec<Row>,
    alloc: Global,
}

impl Model for Life {
    ghost use Rattle.std.specs.Prelude.{List};
    ghost use Rattle.kom_life.specs.declared.row.Row.{Row};

    ghost Value = { List Row };

    ghost view = { λ l. l.rows.items };
}

impl Life {
    /// The life of no instance. It takes no memory.
    pub fn new(alloc: Global) -> Life
        ensures { result ≡ [] }
    {
        Life {
            rows: Vec::new(alloc),
            alloc,
        }
    }

    /// Makes room for `n` more control items of an instance, and for its `add` where it is not
    /// there. On want of memory there is no less room than before. The memory grows with the
    /// greatest number of an instance.
    pub fn reserve(&mut self, c: Comp, n: usize) -> Result<(), AllocError>
        ensures same { (y : ℕ) → living_of self.new y ≡ living_of self.old y }
        ensures there { (y : ℕ) → is_there self.new y ≡ is_there self.old y }
        ensures not_less { (y : ℕ) → spare_of self.old y ≤ spare_of self.new y }
        ensures room_stays { (y : ℕ) → has_room self.old y ≡ true → has_room self.new y ≡ true }
        ensures room { OnOk result (has_room self.new c ≡ true) }
        ensures ok { OnOk result (n ≤ spare_of self.new c) }
    {
        let at = c.0 as usize;
        if at >= self.rows.len() {
            lengthen(&mut self.rows, at, self.alloc)?;
        }
        let row = &mut self.rows[at];
        row.reserve(n)
    }

    /// Adds an instance that is not there and that room was reserved for. No item waits for it, and
    /// it is passive and catches no fault. It takes no memory.
    pub fn add(&mut self, c: Comp)
        requires room { has_room self.old c ≡ true }
        requires absent { is_there self.old c ≡ false }
        ensures each { (y : ℕ) → living_of self.new y ≡ (if y == c then Some newborn else living_of self.old y) }
        ensures there { (y : ℕ) → is_there self.new y ≡ (if y == c then true else is_there self.old y) }
        ensures spare { (y : ℕ) → spare_of self.new y ≡ spare_of self.old y }
        ensures room { (y : ℕ) → has_room self.new y ≡ has_room self.old y }
    {
        let row = &mut self.rows[c.0 as usize];
        row.revive();
    }

    /// Takes an instance away with all that waits for it, and gives the memory back.
    pub fn remove(&mut self, c: Comp)
        requires { is_there self.old c ≡ true }
        ensures each { (y : ℕ) → living_of self.new y ≡ (if y == c then None else living_of self.old y) }
        ensures there { (y : ℕ) → is_there self.new y ≡ (if y == c then false else is_there self.old y) }
        ensures spare { (y : ℕ) → y ≢ c → spare_of self.new y ≡ spare_of self.old y }
        ensures room { (y : ℕ) → has_room self.new y ≡ has_room self.old y }
    {
        self.rows[c.0 as usize] = Row::blank(self.alloc);
    }

    /// Puts a control item behind those that wait for an instance. It takes no memory.
    pub fn put(&mut self, c: Comp, item: Control)
        requires there { is_there self.old c ≡ true }
        requires spare { 0 < spare_of self.old c }
        ensures each { (y : ℕ) → living_of self.new y ≡ (if y == c then option_map (with_control item) (living_of self.old c) else living_of self.old y) }
        ensures there { (y : ℕ) → is_there self.new y ≡ is_there self.old y }
        ensures spare { (y : ℕ) → spare_of self.new y ≡ (if y == c then spare_of self.old c - 1 else spare_of self.old y) }
        ensures room { (y : ℕ) → has_room self.new y ≡ has_room self.old y }
    {
        let row = &mut self.rows[c.0 as usize];
        row.put(item);
    }

    /// The first control item that waits for an instance; `None` exactly where none does.
    pub fn first(&self, c: Comp) -> Option<&Control>
        requires { is_there self.now c ≡ true }
        ensures { option_copied result ≡ first_control self.now c }
    {
        self.rows[c.0 as usize].controls.front()
    }

    /// Takes the first control item that waits for an instance; `None` exactly where none does.
    pub fn take(&mut self, c: Comp) -> Option<Control>
        requires { is_there self.old c ≡ true }
        ensures item { result ≡ first_control self.old c }
        ensures each { (y : ℕ) → living_of self.new y ≡ (if y == c then option_map without_first (living_of self.old c) else living_of self.old y) }
        ensures there { (y : ℕ) → is_there self.new y ≡ is_there self.old y }
        ensures spare { (y : ℕ) → spare_of self.new y ≡ spare_of self.old y }
        ensures room { (y : ℕ) → has_room self.new y ≡ has_room self.old y }
    {
        let row = &mut self.rows[c.0 as usize];
        row.take()
    }

    /// Says whether an instance is active, and whether it catches faults. It takes no memory.
    pub fn set(&mut self, c: Comp, active: bool, catches: bool)
        requires { is_there self.old c ≡ true }
        ensures each { (y : ℕ) → living_of self.new y ≡ (if y == c then option_map (with_flags active catches) (living_of self.old c) else living_of self.old y) }
        ensures there { (y : ℕ) → is_there self.new y ≡ is_there self.old y }
        ensures spare { (y : ℕ) → spare_of self.new y ≡ spare_of self.old y }
        ensures room { (y : ℕ) → has_room self.new y ≡ has_room self.old y }
    {
        let row = &mut self.rows[c.0 as usize];
        row.set(active, catches);
    }

    /// Whether an instance is there and active.
    pub fn active(&self, c: Comp) -> bool
        ensures { result ≡ is_active self.now c }
    {
        match self.rows.get(c.0 as usize) {
            Some(row) => row.living && row.active,
            None => false,
        }
    }

    /// Whether an instance is there and catches faults.
    fn catches(&self, c: Comp) -> bool
        ensures { result ≡ is_catching self.now c }
    {
        match self.rows.get(c.0 as usize) {
            Some(row) => row.living && row.catches,
            None => false,
        }
    }

    /// The closest proper ancestor of an instance that catches faults, with its slot that contains
    /// the instance directly or through others; `None` exactly where no ancestor does.
    pub fn nearest(&self, tree: &Tree, c: Comp) -> Option<(Comp, u8)>
        requires { c < length tree.now.instances }
        ensures { result ≡ nearest_of self.now (line_of tree.now.instances c) }
    {
        let mut above = tree.parent(c);
        while let Some((p, slot)) = above {
            if self.catches(p) {
                return Some((p, slot));
            }
            above = tree.parent(p);
        }
        None
    }
}

/// Adds blank rows until there is one at a place.
fn lengthen(rows: &mut Vec<Row>, at: usize, alloc: Global) -> Result<(), AllocError>
    requires { length rows.old.items ≤ at }
    ensures same { (y : ℕ) → living_of rows.new.items y ≡ living_of rows.old.items y }
    ensures there { (y : ℕ) → is_there rows.new.items y ≡ is_there rows.old.items y }
    ensures spare { (y : ℕ) → spare_of rows.new.items y ≡ spare_of rows.old.items y }
    ensures room_stays { (y : ℕ) → has_room rows.old.items y ≡ true → has_room rows.new.items y ≡ true }
    ensures ok { OnOk result (at < length rows.new.items) }
{
    while rows.len() <= at {
        rows.push(Row::blank(alloc))?;
    }
    Ok(())
}

#[cfg(test)]
mod tests {
    use super::*;
    use std::test::Fail;

    #[test]
    fn keeps_the_order_of_what_was_put(rt: HostRuntime) -> Result<(), Fail> {
        let mut life = Life::new(rt.alloc());
        life.reserve(Comp(2), 2)?;
        life.add(Comp(2));
        life.put(Comp(2), Control::Start);
        life.put(Comp(2), Control::Dump);
        assert!(rt; matches!(life.first(Comp(2)), Some(Control::Start)));
        assert!(rt; matches!(life.take(Comp(2)), Some(Control::Start)));
        assert!(rt; matches!(life.take(Comp(2)), Some(Control::Dump)));
        assert!(rt; life.take(Comp(2)).is_none());
        life.set(Comp(2), true, false);
        assert!(rt; life.active(Comp(2)));
        life.remove(Comp(2));
        assert!(rt; !life.active(Comp(2)));
        Ok(())
    }

    #[test]
    fn finds_the_nearest_that_catches(rt: HostRuntime) -> Result<(), Fail> {
        let mut tree = Tree::new(rt.alloc());
        tree.reserve(3)?;
        let root = tree.add(None, 0);
        let child = tree.add(Some((root, 4)), 1);
        let below = tree.add(Some((child, 1)), 2);
        let mut life = Life::new(rt.alloc());
        life.reserve(root, 0)?;
        life.add(root);
        assert_eq!(rt; life.nearest(&tree, below), None);
        life.set(root, false, true);
        assert_eq!(rt; life.nearest(&tree, below), Some((root, 4)));
        Ok(())
    }
}
