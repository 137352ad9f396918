ghost use Rattle.std.specs.Prelude.{◌≡◌, ◌+◌, ◌-◌, ◌<◌, ◌≤◌, ◌^◌, max, [], ◌∷◌, ◌++◌, Some, None, IsSome, OnOk, OnErr, IfOk, length, map, if◌then◌else◌, vec_len, vec_capacity};
ghost use Rattle.std.specs.Ordering.{is_eq};
ghost use Rattle.std.specs.Option.{option_copied, option_map};
ghost use Rattle.kom_index.specs.Entries.{Rises, value_of, without, revalued, inserted, first_from, IsFirstFrom, between};
ghost use Rattle.kom_index.specs.Stock.{entries, spare};

use crate::tree::{Freed, Tree};
use std::alloc::{AllocError, Global};
use std::marker::Model;

/// A map in the order of its keys, and memory for more entries. A call that looks one up, adds one
/// or takes one out costs the logarithm of their number.
///
/// Contracts see the list of the entries, by rising key, and for how many more there is room.
#[derive(Drop)]
pub struct Ordered<K: Ord, V> {
    tree: Tree<K, V>,
    len: usize,
    spare: usize,
    /// Two sides for each entry that there is room for; none of them is in use.
    sides: Vec<Box<Tree<K, V>>>,
}

impl<K: Ord, V> Model for Ordered<K, V> {
    ghost use Rattle.std.specs.Prelude.{List, ℕ};

    ghost Value = { List (K × V) × ℕ };

    ghost use Rattle.kom_index.specs.Sound.{IsSound};

    ghost view = { λ m. (m.tree, m.spare) };

    ghost invariant = { IsSound };
}

impl<K: Ord, V> Ordered<K, V> {
    /// The map with no entry. It takes no memory.
    pub fn new(alloc: Global) -> Ordered<K, V>
        ensures { result ≡ ([], 0) }
    {
        Ordered {
            tree: Tree::new(),
            len: 0,
            spare: 0,
            sides: Vec::new(alloc),
        }
    }

    /// The value at a key.
    pub fn get(&self, key: &K) -> Option<&V>
        ensures value { option_copied result ≡ value_of K.cmp key.now (entries self.now) }
        ensures rises { Rises K.cmp (entries self.now) }
    {
        self.tree.get(key)
    }

    /// The least key that is not below a bound.
    pub fn first_from(&self, low: &K) -> Option<&K>
        ensures key { option_copied result ≡ option_map (λ e. e.0) (first_from K.cmp low.now (entries self.now)) }
        ensures least { IsFirstFrom K.cmp low.now (entries self.now) (option_copied result) }
        ensures rises { Rises K.cmp (entries self.now) }
    {
        self.tree.first_from(low)
    }

    /// How many keys lie between two bounds, which are among them. It costs as much as it counts and
    /// the logarithm of the rest.
    pub fn count_between(&self, low: &K, high: &K) -> usize
        ensures count { result ≡ length (between K.cmp low.now high.now (entries self.now)) }
        ensures small { result < 2 ^ 63 }
    {
        let _room = self.sides.capacity();
        self.tree.count_between(low, high, 0)
    }

    /// Exchanges the value at a key that is there for another.
    pub fn swap(&mut self, key: &K, value: &mut V)
        requires { IsSome (value_of K.cmp key.now (entries self.old)) }
        ensures old { value_of K.cmp key.now (entries self.old) ≡ Some value.new }
        ensures new { entries self.new ≡ revalued K.cmp key.now value.old (entries self.old) }
        ensures values { (q : K) → value_of K.cmp q (entries self.new) ≡ (if is_eq (K.cmp q key.now) then Some value.old else value_of K.cmp q (entries self.old)) }
        ensures rises { Rises K.cmp (entries self.new) }
        ensures spare { spare self.new ≡ spare self.old }
    {
        self.tree.swap(key, value);
    }
}

impl<K: Ord + Copy, V> Ordered<K, V> {
    /// The keys between two bounds, which are among them, in order. It costs as much as it lists and
    /// the logarithm of the rest.
    pub fn keys_between(&self, alloc: Global, low: &K, high: &K) -> Result<Vec<K>, AllocError>
        ensures { IfOk result (λ v. v.items ≡ map (λ e. e.0) (between K.cmp low.now high.now (entries self.now))) }
    {
        let mut keys = Vec::new(alloc);
        self.tree.keys_between(low, high, &mut keys)?;
        Ok(keys)
    }
}

impl<K: Ord + Drop, V: Drop> Ordered<K, V> {
    /// Makes room for `n` more entries. On want of memory there is no less room than before.
    pub fn reserve(&mut self, n: usize) -> Result<(), AllocError>
        ensures same { entries self.new ≡ entries self.old }
        ensures ok { OnOk result (n ≤ spare self.new) }
        ensures not_less { spare self.old ≤ spare self.new }
        ensures not_more { spare self.new ≤ max (spare self.old) n }
    {
        while self.spare < n {
            self.grow()?;
        }
        Ok(())
    }

    /// Makes room for one more entry.
    fn grow(&mut self) -> Result<(), AllocError>
        ensures same { entries self.new ≡ entries self.old }
        ensures ok { OnOk result (spare self.new ≡ spare self.old + 1) }
        ensures err { OnErr result (spare self.new ≡ spare self.old) }
    {
        self.sides.reserve(2 * self.len + 2)?;
        let alloc = *self.sides.allocator();
        let left = Box::new(alloc, Tree::new())?;
        let right = Box::new(alloc, Tree::new())?;
        put(&mut self.sides, left);
        put(&mut self.sides, right);
        self.spare += 1;
        Ok(())
    }

    /// Adds an entry whose key is not there. It takes no memory.
    pub fn insert(&mut self, key: K, value: V)
        requires absent { value_of K.cmp key (entries self.old) ≡ None }
        requires spare { 0 < spare self.old }
        ensures new { entries self.new ≡ inserted K.cmp key value (entries self.old) }
        ensures values { (q : K) → value_of K.cmp q (entries self.new) ≡ (if is_eq (K.cmp q key) then Some value else value_of K.cmp q (entries self.old)) }
        ensures rises { Rises K.cmp (entries self.new) }
        ensures spare { spare self.new ≡ spare self.old - 1 }
    {
        let left = take(&mut self.sides);
        let right = take(&mut self.sides);
        self.tree.insert(key, value, left, right);
        self.spare -= 1;
        self.len += 1;
    }

    /// Takes out the entry of a key that is there, whose room is free again.
    pub fn remove(&mut self, key: &K) -> V
        requires { IsSome (value_of K.cmp key.now (entries self.old)) }
        ensures value { value_of K.cmp key.now (entries self.old) ≡ Some result }
        ensures rest { entries self.new ≡ without K.cmp key.now (entries self.old) }
        ensures values { (q : K) → value_of K.cmp q (entries self.new) ≡ (if is_eq (K.cmp q key.now) then None else value_of K.cmp q (entries self.old)) }
        ensures rises { Rises K.cmp (entries self.new) }
        ensures spare { spare self.new ≡ spare self.old + 1 }
        ensures len { length (entries self.new) + 1 ≡ length (entries self.old) }
    {
        let Freed {
            key: _key,
            value,
            left,
            right,
        } = self.tree.remove(key);
        put(&mut self.sides, left);
        put(&mut self.sides, right);
        self.spare += 1;
        self.len -= 1;
        value
    }
}

/// Adds at the end of a list that has room.
fn put<T: Drop>(list: &mut Vec<T>, item: T)
    requires { vec_len list.old < vec_capacity list.old }
    ensures len { vec_len list.new ≡ vec_len list.old + 1 }
    ensures room { vec_capacity list.old ≤ vec_capacity list.new }
{
    let _ = list.push(item);
}

/// Takes the last of a list that is not empty.
fn take<T: Drop>(list: &mut Vec<T>) -> T
    requires { 0 < vec_len list.old }
    ensures len { vec_len list.new + 1 ≡ vec_len list.old }
    ensures room { vec_capacity list.new ≡ vec_capacity list.old }
{
    let Some(item) = list.pop() else {
        unreachable!()
    };
    item
}

#[cfg(test)]
mod tests {
    use super::*;
    use std::test::Fail;

    #[test]
    fn keeps_the_order_of_the_keys(rt: HostRuntime) -> Result<(), Fail> {
        let mut map: Ordered<u32, u8> = Ordered::new(rt.alloc());
        map.reserve(2)?;
        map.insert(5, 50);
        map.insert(3, 30);
        assert_eq!(rt; map.first_from(&0).copied(), Some(3));
        assert_eq!(rt; map.first_from(&4).copied(), Some(5));
        assert_eq!(rt; map.count_between(&3, &4), 1);
        let keys = map.keys_between(rt.alloc(), &0, &9)?;
        assert_eq!(rt; keys.as_slice(), [3, 5].as_slice());
        let mut value = 31;
        map.swap(&3, &mut value);
        assert_eq!(rt; map.get(&3).copied(), Some(31));
        assert_eq!(rt; map.remove(&3), 31);
        assert_eq!(rt; map.first_from(&0).copied(), Some(5));
        Ok(())
    }
}
