ghost use Rattle.std.specs.Prelude.{◌≡◌, ◌+◌, ◌<◌, ◌^◌, [], ◌∷◌, ◌++◌, Some, None, IsSome, IsTrue, OnOk, ◌↔◌, length, map};
ghost use Rattle.std.specs.Option.{option_copied, option_map};
ghost use Rattle.kom_index.specs.Entries.{Rises, value_of, without, revalued, inserted, first_from, between};
ghost use Rattle.kom_index.specs.Shape.{entries_of, left_of, middle_of, right_of};

use std::alloc::AllocError;
use std::cmp::Ordering;
use std::marker::Model;
use std::mem;

/// A balanced search tree. Contracts see the list of its entries, in the order of their keys.
#[cycle(tree)]
#[derive(Drop)]
pub struct Tree<K: Ord, V> {
    node: Node<K, V>,
}

/// No entry; or those of the left side, a key with its value, the height, and those of the right
/// side.
#[cycle(tree)]
#[derive(Drop)]
pub enum Node<K: Ord, V> {
    Leaf,
    Fork(Box<Tree<K, V>>, K, V, u8, Box<Tree<K, V>>),
}

impl<K: Ord, V> Model for Tree<K, V> {
    ghost use Rattle.std.specs.Prelude.{List, length};

    ghost Value = { List (K × V) };

    ghost use Rattle.kom_index.specs.Entries.{Rises};
    ghost use Rattle.kom_index.specs.Shape.{entries_of};

    ghost view = { λ t. entries_of t.node };

    ghost invariant = { λ t. Rises K.cmp (entries_of t.node) };

    ghost size = { length };

    ghost use Rattle.std.proofs.Common.{arith, length-append};

    ghost size_decreases = { λ t h. Prim.grind (arith, length-append) };
}

/// What leaves a tree with an entry: its key and value, and the memory of two empty sides.
#[derive(Drop)]
pub struct Freed<K: Ord, V> {
    pub key: K,
    pub value: V,
    pub left: Box<Tree<K, V>>,
    pub right: Box<Tree<K, V>>,
}

impl<K: Ord, V> Tree<K, V> {
    /// The tree with no entry.
    pub fn new() -> Tree<K, V>
        ensures { result ≡ [] }
    {
        Tree { node: Node::Leaf }
    }

    /// One more than the greater height of its sides; 0 with no entry.
    fn height(&self) -> u8 {
        match &self.node {
            Node::Leaf => 0,
            Node::Fork(_, _, _, h, _) => *h,
        }
    }

    fn open(self) -> Node<K, V>
        ensures same { entries_of result ≡ self }
        ensures rises { Rises K.cmp self }
    {
        self.node
    }

    fn close(node: Node<K, V>) -> Tree<K, V>
        requires { Rises K.cmp (entries_of node) }
        ensures { result ≡ entries_of node }
    {
        Tree { node }
    }

    /// The value at a key.
    pub fn get(&self, key: &K) -> Option<&V>
        ensures value { option_copied result ≡ value_of K.cmp key.now self.now }
        ensures rises { Rises K.cmp self.now }
    {
        match &self.node {
            Node::Leaf => None,
            Node::Fork(l, k, v, _, r) => match key.cmp(k) {
                Ordering::Less => l.get(key),
                Ordering::Equal => Some(v),
                Ordering::Greater => r.get(key),
            },
        }
    }

    /// The least key that is not below a bound.
    pub fn first_from(&self, low: &K) -> Option<&K>
        ensures key { option_copied result ≡ option_map (λ e. e.0) (first_from K.cmp low.now self.now) }
        ensures rises { Rises K.cmp self.now }
    {
        match &self.node {
            Node::Leaf => None,
            Node::Fork(l, k, _, _, r) => {
                if k.cmp(low).is_lt() {
                    return r.first_from(low);
                }
                match l.first_from(low) {
                    None => Some(k),
                    found => found,
                }
            }
        }
    }

    /// A number and how many keys lie between two bounds, which are among them.
    pub fn count_between(&self, low: &K, high: &K, so_far: usize) -> usize
        requires { so_far + length self.now < 2 ^ 64 }
        ensures count { result ≡ so_far + length (between K.cmp low.now high.now self.now) }
        ensures rises { Rises K.cmp self.now }
    {
        match &self.node {
            Node::Leaf => so_far,
            Node::Fork(l, k, _, _, r) => {
                if k.cmp(low).is_lt() {
                    return r.count_between(low, high, so_far);
                }
                let before = l.count_between(low, high, so_far);
                if high.cmp(k).is_lt() {
                    return before;
                }
                r.count_between(low, high, before + 1)
            }
        }
    }

    /// Exchanges the value at a key for another.
    pub fn swap(&mut self, key: &K, value: &mut V)
        requires { IsSome (value_of K.cmp key.now self.old) }
        ensures old { value_of K.cmp key.now self.old ≡ Some value.new }
        ensures new { self.new ≡ revalued K.cmp key.now value.old self.old }
        ensures rises { Rises K.cmp self.old }
    {
        match &mut self.node {
            Node::Leaf => {}
            Node::Fork(l, k, v, _, r) => match key.cmp(k) {
                Ordering::Less => l.swap(key, value),
                Ordering::Equal => mem::swap(v, value),
                Ordering::Greater => r.swap(key, value),
            },
        }
    }
}

impl<K: Ord + Copy, V> Tree<K, V> {
    /// Adds the keys between two bounds, which are among them, at the end of a list.
    pub fn keys_between(&self, low: &K, high: &K, keys: &mut Vec<K>) -> Result<(), AllocError>
        ensures ok { OnOk result (keys.new.items ≡ keys.old.items ++ map (λ e. e.0) (between K.cmp low.now high.now self.now)) }
        ensures rises { Rises K.cmp self.now }
    {
        match &self.node {
            Node::Leaf => Ok(()),
            Node::Fork(l, k, _, _, r) => {
                if k.cmp(low).is_lt() {
                    return r.keys_between(low, high, keys);
                }
                l.keys_between(low, high, keys)?;
                if high.cmp(k).is_lt() {
                    return Ok(());
                }
                keys.push(*k)?;
                r.keys_between(low, high, keys)
            }
        }
    }
}

impl<K: Ord + Drop, V: Drop> Tree<K, V> {
    /// Where the height of a side may have changed: notes that of the node, and turns the node where
    /// one side is two levels higher than the other. Says whether the height of the node changed.
    #[inline(always)]
    fn balance(&mut self, changed: bool) -> bool
        ensures same { self.new ≡ self.old }
    {
        if changed { self.note_height() } else { false }
    }

    /// Notes the height of the node, and turns it where one side is two levels higher than the
    /// other. Says whether the height changed.
    fn note_height(&mut self) -> bool
        ensures same { self.new ≡ self.old }
    {
        let before = self.height();
        let (left, right) = self.side_heights();
        if left.abs_diff(right) <= 1 {
            self.set_height(left.max(right).saturating_add(1));
        } else {
            self.turn();
        }
        self.height() != before
    }

    /// The heights of both sides; 0 with no entry.
    #[inline(always)]
    fn side_heights(&self) -> (u8, u8) {
        match &self.node {
            Node::Leaf => (0, 0),
            Node::Fork(l, _, _, _, r) => (l.height(), r.height()),
        }
    }

    /// Notes another height.
    #[inline(always)]
    fn set_height(&mut self, height: u8)
        ensures same { self.new ≡ self.old }
    {
        if let Node::Fork(_, _, _, noted, _) = &mut self.node {
            *noted = height;
        }
    }

    /// Turns the node where one side is two levels higher than the other.
    #[inline(never)]
    fn turn(&mut self)
        ensures same { self.new ≡ self.old }
    {
        match mem::replace(&mut self.node, Node::Leaf) {
            Node::Leaf => {}
            Node::Fork(l, k, v, _, r) => self.node = settle(l, k, v, r),
        }
    }

    /// Adds an entry whose key is not there, in the memory of two empty sides.
    pub fn insert(&mut self, key: K, value: V, left: Box<Tree<K, V>>, right: Box<Tree<K, V>>)
        requires { value_of K.cmp key self.old ≡ None }
        ensures new { self.new ≡ inserted K.cmp key value self.old }
        ensures rises { Rises K.cmp self.old }
    {
        self.insert_below(key, value, left, right);
    }

    /// Adds an entry as `insert` does, and says whether the height changed.
    fn insert_below(
        &mut self,
        key: K,
        value: V,
        left: Box<Tree<K, V>>,
        right: Box<Tree<K, V>>,
    ) -> bool
        requires { value_of K.cmp key self.old ≡ None }
        ensures new { self.new ≡ inserted K.cmp key value self.old }
        ensures rises { Rises K.cmp self.old }
    {
        match &mut self.node {
            Node::Leaf => {
                self.node = fork(emptied(left), key, value, emptied(right));
                true
            }
            Node::Fork(l, k, _, _, r) => {
                if key.cmp(k).is_lt() {
                    let changed = l.insert_below(key, value, left, right);
                    self.balance(changed)
                } else {
                    let changed = r.insert_below(key, value, left, right);
                    self.balance(changed)
                }
            }
        }
    }

    /// Takes the first entry out of a tree that has one, and says whether the height may have
    /// changed.
    fn pop_first(&mut self, freed: &mut Option<Freed<K, V>>) -> bool
        requires { 0 < length self.old }
        ensures { option_map (λ f. (f.key, f.value) ∷ self.new) freed.new ≡ Some self.old }
    {
        match &mut self.node {
            Node::Leaf => false,
            Node::Fork(l, _, _, _, _) => {
                if l.is_empty() {
                    take_first(&mut self.node, freed);
                    true
                } else {
                    let changed = l.pop_first(freed);
                    self.balance(changed)
                }
            }
        }
    }

    /// Whether there is no entry.
    #[inline(always)]
    fn is_empty(&self) -> bool
        ensures { IsTrue result ↔ length self.now ≡ 0 }
    {
        match &self.node {
            Node::Leaf => true,
            Node::Fork(_, _, _, _, _) => false,
        }
    }

    /// Takes the entry of a key that is there out.
    pub fn remove(&mut self, key: &K) -> Freed<K, V>
        requires { IsSome (value_of K.cmp key.now self.old) }
        ensures value { value_of K.cmp key.now self.old ≡ Some result.value }
        ensures rest { self.new ≡ without K.cmp key.now self.old }
        ensures rises { Rises K.cmp self.old }
    {
        let mut freed = None;
        self.take(key, &mut freed);
        match freed {
            None => unreachable!(),
            Some(freed) => freed,
        }
    }

    /// Takes the entry of a key that is there out, and says whether the height may have changed.
    fn take(&mut self, key: &K, freed: &mut Option<Freed<K, V>>) -> bool
        requires { IsSome (value_of K.cmp key.now self.old) }
        ensures value { value_of K.cmp key.now self.old ≡ option_map (λ f. f.value) freed.new }
        ensures rest { self.new ≡ without K.cmp key.now self.old }
        ensures rises { Rises K.cmp self.old }
    {
        match &mut self.node {
            Node::Leaf => unreachable!(),
            Node::Fork(l, k, _, _, r) => match key.cmp(k) {
                Ordering::Less => {
                    let changed = l.take(key, freed);
                    self.balance(changed)
                }
                Ordering::Greater => {
                    let changed = r.take(key, freed);
                    self.balance(changed)
                }
                Ordering::Equal => {
                    take_middle(&mut self.node, freed);
                    true
                }
            },
        }
    }
}

/// Takes the entry between the sides of a node out, where its left side has none.
#[inline(never)]
fn take_first<K: Ord + Drop, V: Drop>(node: &mut Node<K, V>, freed: &mut Option<Freed<K, V>>)
    requires { Rises K.cmp (entries_of node.old) }
    ensures rest { entries_of node.new ≡ right_of node.old }
    ensures freed { option_map (λ f. (f.key, f.value)) freed.new ≡ middle_of node.old }
    ensures rises { Rises K.cmp (entries_of node.new) }
{
    match mem::replace(node, Node::Leaf) {
        Node::Leaf => *freed = None,
        Node::Fork(left, key, value, _, r) => {
            let (rest, right) = emptied_node(r);
            *node = rest;
            *freed = Some(Freed {
                key,
                value,
                left,
                right,
            });
        }
    }
}

/// Takes the entry between the sides of a node out.
#[inline(never)]
fn take_middle<K: Ord + Drop, V: Drop>(node: &mut Node<K, V>, freed: &mut Option<Freed<K, V>>)
    requires { Rises K.cmp (entries_of node.old) }
    ensures rest { entries_of node.new ≡ left_of node.old ++ right_of node.old }
    ensures freed { option_map (λ f. (f.key, f.value)) freed.new ≡ middle_of node.old }
    ensures rises { Rises K.cmp (entries_of node.new) }
{
    match mem::replace(node, Node::Leaf) {
        Node::Leaf => *freed = None,
        Node::Fork(l, key, value, _, r) => {
            let (rest, left, right) = joined(l, r);
            *node = rest;
            *freed = Some(Freed {
                key,
                value,
                left,
                right,
            });
        }
    }
}

/// The entries of two sides in one node, and the memory of two sides.
fn joined<K: Ord + Drop, V: Drop>(
    left: Box<Tree<K, V>>,
    mut right: Box<Tree<K, V>>,
) -> (Node<K, V>, Box<Tree<K, V>>, Box<Tree<K, V>>)
    requires { Rises K.cmp (left.value ++ right.value) }
    ensures { entries_of result.0 ≡ left.value ++ right.value }
{
    if right.is_empty() {
        let (node, left) = emptied_node(left);
        return (node, left, right);
    }
    let mut first = None;
    right.pop_first(&mut first);
    match first {
        None => unreachable!(),
        Some(
            Freed {
                key,
                value,
                left: first,
                right: second,
            },
        ) => (settle(left, key, value, right), first, second),
    }
}

/// The same memory with no entry.
fn emptied<K: Ord + Drop, V: Drop>(mut side: Box<Tree<K, V>>) -> Box<Tree<K, V>>
    ensures { result.value ≡ [] }
{
    *side = Tree::new();
    side
}

/// The node of a side, and its memory with no entry.
fn emptied_node<K: Ord + Drop, V: Drop>(mut side: Box<Tree<K, V>>) -> (Node<K, V>, Box<Tree<K, V>>)
    ensures node { entries_of result.0 ≡ side.value }
    ensures rises { Rises K.cmp side.value }
    ensures empty { result.1.value ≡ [] }
{
    let node = mem::replace(&mut *side, Tree::new()).open();
    (node, side)
}

/// A node of two sides and the entry between them.
fn fork<K: Ord + Drop, V: Drop>(
    left: Box<Tree<K, V>>,
    key: K,
    value: V,
    right: Box<Tree<K, V>>,
) -> Node<K, V>
    ensures { entries_of result ≡ left.value ++ (key, value) ∷ right.value }
{
    let height = left.height().max(right.height()).saturating_add(1);
    Node::Fork(left, key, value, height, right)
}

/// The side of two sides and the entry between them, in the memory of another.
fn branch<K: Ord + Drop, V: Drop>(
    mut side: Box<Tree<K, V>>,
    left: Box<Tree<K, V>>,
    key: K,
    value: V,
    right: Box<Tree<K, V>>,
) -> Box<Tree<K, V>>
    requires { Rises K.cmp (left.value ++ (key, value) ∷ right.value) }
    ensures { result.value ≡ left.value ++ (key, value) ∷ right.value }
{
    *side = Tree::close(fork(left, key, value, right));
    side
}

/// The same node, turned where one side is two levels higher than the other.
fn settle<K: Ord + Drop, V: Drop>(
    left: Box<Tree<K, V>>,
    key: K,
    value: V,
    right: Box<Tree<K, V>>,
) -> Node<K, V>
    requires { Rises K.cmp (left.value ++ (key, value) ∷ right.value) }
    ensures { entries_of result ≡ left.value ++ (key, value) ∷ right.value }
{
    let (l, r) = (left.height(), right.height());
    if l > r.saturating_add(1) {
        turn_right(left, key, value, right)
    } else if r > l.saturating_add(1) {
        turn_left(left, key, value, right)
    } else {
        fork(left, key, value, right)
    }
}

/// The same node with the higher left side turned up.
fn turn_right<K: Ord + Drop, V: Drop>(
    left: Box<Tree<K, V>>,
    key: K,
    value: V,
    right: Box<Tree<K, V>>,
) -> Node<K, V>
    requires { Rises K.cmp (left.value ++ (key, value) ∷ right.value) }
    ensures { entries_of result ≡ left.value ++ (key, value) ∷ right.value }
{
    let (node, side) = emptied_node(left);
    match node {
        Node::Leaf => fork(side, key, value, right),
        Node::Fork(outer, k, v, _, inner) => {
            if outer.height() >= inner.height() {
                let lower = branch(side, inner, key, value, right);
                return fork(outer, k, v, lower);
            }
            let (node, second) = emptied_node(inner);
            match node {
                Node::Leaf => {
                    let lower = branch(side, second, key, value, right);
                    fork(outer, k, v, lower)
                }
                Node::Fork(a, m, w, _, b) => {
                    let low = branch(second, outer, k, v, a);
                    let high = branch(side, b, key, value, right);
                    fork(low, m, w, high)
                }
            }
        }
    }
}

/// The same node with the higher right side turned up.
fn turn_left<K: Ord + Drop, V: Drop>(
    left: Box<Tree<K, V>>,
    key: K,
    value: V,
    right: Box<Tree<K, V>>,
) -> Node<K, V>
    requires { Rises K.cmp (left.value ++ (key, value) ∷ right.value) }
    ensures { entries_of result ≡ left.value ++ (key, value) ∷ right.value }
{
    let (node, side) = emptied_node(right);
    match node {
        Node::Leaf => fork(left, key, value, side),
        Node::Fork(inner, k, v, _, outer) => {
            if outer.height() >= inner.height() {
                let lower = branch(side, left, key, value, inner);
                return fork(lower, k, v, outer);
            }
            let (node, second) = emptied_node(inner);
            match node {
                Node::Leaf => {
                    let lower = branch(side, left, key, value, second);
                    fork(lower, k, v, outer)
                }
                Node::Fork(a, m, w, _, b) => {
                    let low = branch(side, left, key, value, a);
                    let high = branch(second, b, k, v, outer);
                    fork(low, m, w, high)
                }
            }
        }
    }
}
