ghost use Rattle.std.specs.Prelude.{◌≡◌, ◌+◌, ◌<◌, ◌≤◌, true, [], ◌∷◌, ◌++◌, length, slice_set, Some, false, vec_len, vec_capacity};
ghost use Rattle.kom_tree.specs.Parts.{lives, child_at, sibling_at, parent_at, hangs_at, newest, IsSitter, IsForest, IsChained, EndsBelow, IsRootedBut};
ghost use Rattle.kom_tree.specs.Forest.{hangs_in};
ghost use Rattle.kom_tree.specs.Steps.{LeadsTo, GoesOnTo, IsPlace, Hangs, LiesBefore, Unlinks};

use crate::family::Family;
use kom_base::Comp;

/// Adds at the end of a list that has room.
pub fn put<T: Drop>(list: &mut Vec<T>, item: T)
    requires { vec_len list.old < vec_capacity list.old }
    ensures items { list.new.items ≡ list.old.items ++ item ∷ [] }
    ensures room { vec_capacity list.old ≤ vec_capacity list.new }
{
    let _ = list.push(item);
}

/// Whether an instance was made and is marked as living.
pub fn is_living(living: &[bool], c: Comp) -> bool
    ensures { result ≡ lives living.now c }
{
    living.get(c.0 as usize).copied().unwrap_or(false)
}

/// Marks an instance as ended.
pub fn end_one(living: &mut Vec<bool>, c: Comp)
    requires { c < length living.old.items }
    ensures marks { living.new.items ≡ slice_set living.old.items c false }
    ensures room { vec_capacity living.new ≡ vec_capacity living.old }
{
    living[c.0 as usize] = false;
}

/// The youngest child in the chain of an instance.
pub fn child_of(family: &Family, c: Comp) -> Option<Comp>
    requires { c < length family.now.links.items }
    ensures { result ≡ child_at family.now.links.items c }
{
    family.links[c.0 as usize].child
}

/// Who comes after an instance in the chain of its parent.
pub fn sibling_of(family: &Family, c: Comp) -> Option<Comp>
    requires { c < length family.now.links.items }
    ensures { result ≡ sibling_at family.now.links.items c }
{
    family.links[c.0 as usize].sibling
}

/// Puts another child at the head of the chain of an instance.
pub fn set_child(family: &mut Family, c: Comp, to: Option<Comp>)
    requires { c < length family.old.links.items }
    ensures { LeadsTo family.old family.new c to }
{
    family.links[c.0 as usize].child = to;
}

/// Puts another instance after this one in the chain of its parent.
pub fn set_sibling(family: &mut Family, c: Comp, to: Option<Comp>)
    requires { c < length family.old.links.items }
    ensures { GoesOnTo family.old family.new c to }
{
    family.links[c.0 as usize].sibling = to;
}

/// Puts a new child at the head of its parent's chain, if it has a parent, and says who headed it.
pub fn hang(family: &mut Family, parent: &Option<(Comp, u8)>, child: Comp) -> Option<Comp>
    requires { IsPlace parent.now (length family.old.links.items) }
    ensures { Hangs family.old family.new parent.now child result }
{
    match parent {
        None => None,
        Some((p, _)) => {
            let older = child_of(family, *p);
            set_child(family, *p, Some(child));
            older
        }
    }
}

/// Ends all below an instance that has ended. `pending` is empty, with room for each instance,
/// before and after.
pub fn end_below(family: &Family, living: &mut Vec<bool>, pending: &mut Vec<Comp>, top: Comp)
    requires within { top < length living.old.items }
    requires marks { length living.old.items ≡ length family.now.origins.items }
    requires chained { IsChained family.now.origins.items living.old.items family.now.links.items }
    requires gone { lives living.old.items top ≡ false }
    requires first { child_at family.now.links.items top ≡ newest family.now.origins.items living.old.items top (length family.now.origins.items) }
    requires rooted { IsRootedBut family.now.origins.items living.old.items top }
    requires idle { pending.old.items ≡ [] }
    requires room { length living.old.items ≤ vec_capacity pending.old }
    ensures ends { EndsBelow family.now.origins.items top living.old.items living.new.items }
    ensures idle_again { pending.new.items ≡ [] }
    ensures room_stays { vec_capacity pending.old ≤ vec_capacity pending.new }
    ensures living_stays { vec_capacity living.new ≡ vec_capacity living.old }
{
    let mut next = child_of(family, top);
    loop {
        match next {
            Some(c) => {
                if is_living(living, c) {
                    end_one(living, c);
                    put(pending, c);
                }
                next = sibling_of(family, c);
            }
            None => match pending.pop() {
                Some(c) => next = child_of(family, c),
                None => break,
            },
        }
    }
}

/// The parent of an instance with the slot there.
pub fn parent_in(family: &Family, c: Comp) -> Option<(Comp, u8)>
    requires { c < length family.now.origins.items }
    ensures { result ≡ parent_at family.now.origins.items c }
{
    family.origins[c.0 as usize].parent
}

/// Whether an instance was made in a slot of another.
pub fn was_made_in(family: &Family, c: Comp, parent: Comp, slot: u8) -> bool
    requires { c < length family.now.origins.items }
    ensures { result ≡ hangs_in parent slot (parent_at family.now.origins.items c) }
{
    match family.origins[c.0 as usize].parent {
        Some((p, s)) => p == parent && s == slot,
        None => false,
    }
}

/// The living instance in a slot of an instance.
pub fn sitter(family: &Family, living: &[bool], parent: Comp, slot: u8) -> Option<Comp>
    requires forest { IsForest family.now.origins.items living.now }
    requires chained { IsChained family.now.origins.items living.now family.now.links.items }
    requires made { parent < length living.now }
    ensures { IsSitter family.now.origins.items living.now parent slot result }
{
    if !is_living(living, parent) {
        return None;
    }
    let mut next = child_of(family, parent);
    while let Some(c) = next {
        if was_made_in(family, c, parent, slot) {
            return next;
        }
        next = sibling_of(family, c);
    }
    None
}

/// Who comes before a living child in the chain of its parent; `None` where it is the youngest.
pub fn before(family: &Family, living: &[bool], parent: Comp, child: Comp) -> Option<Comp>
    requires forest { IsForest family.now.origins.items living.now }
    requires chained { IsChained family.now.origins.items living.now family.now.links.items }
    requires alive { lives living.now child ≡ true }
    requires parent_alive { lives living.now parent ≡ true }
    requires child { hangs_at family.now.origins.items parent child ≡ true }
    ensures { LiesBefore family.now living.now parent result (Some child) }
{
    let mut last = None;
    let mut next = child_of(family, parent);
    while let Some(c) = next {
        if c == child {
            return last;
        }
        last = next;
        next = sibling_of(family, c);
    }
    last
}

/// Takes a living instance out of the chain of its parent's children.
pub fn unlink(family: &mut Family, living: &[bool], parent: Comp, gone: Comp)
    requires forest { IsForest family.old.origins.items living.now }
    requires chained { IsChained family.old.origins.items living.now family.old.links.items }
    requires alive { lives living.now gone ≡ true }
    requires parent_alive { lives living.now parent ≡ true }
    requires child { hangs_at family.old.origins.items parent gone ≡ true }
    ensures { Unlinks family.old family.new living.now gone }
{
    let after = sibling_of(family, gone);
    match before(family, living, parent, gone) {
        None => set_child(family, parent, after),
        Some(c) => set_sibling(family, c, after),
    }
}
