ghost use Rattle.std.specs.Prelude.{◌≡◌, ℕ, ◌+◌, ◌<◌, ◌≤◌, ◌==◌, true, false, if◌then◌else◌, length, max, IfSome, OnOk};
ghost use Rattle.kom_comps.specs.Members.{has, IsLeast};

use kom_base::Comp;
use kom_index::Ordered;
use std::alloc::{AllocError, Global};
use std::marker::Model;

/// A set of components whose numbers are below a bound.
///
/// Contracts see the numbers, each once and by rising number, and the bound. A call costs the
/// logarithm of how many components are in the set.
#[derive(Drop)]
pub struct Comps {
    members: Ordered<Comp, ()>,
    count: usize,
    bound: u32,
}

impl Model for Comps {
    ghost use Rattle.kom_comps.specs.Members.{Members};

    ghost Value = { Members };

    ghost use Rattle.kom_comps.specs.Sound.{keys, IsSound};

    ghost view = { λ s. record { list = keys s.members.0; bound = s.bound } };

    ghost invariant = { λ s. IsSound s.members.0 s.members.1 s.count s.bound };
}

impl Comps {
    /// The empty set, with the bound 0. It takes no memory.
    pub fn new(alloc: Global) -> Comps
        ensures empty { (c : ℕ) → has result c ≡ false }
        ensures bound { result.bound ≡ 0 }
    {
        Comps {
            members: Ordered::new(alloc),
            count: 0,
            bound: 0,
        }
    }

    /// Makes the bound at least this, with room for each number below it. On want of memory the set
    /// is as before, and the bound no less.
    pub fn widen(&mut self, bound: u32) -> Result<(), AllocError>
        ensures same { (c : ℕ) → has self.new c ≡ has self.old c }
        ensures ok { OnOk result (bound ≤ self.new.bound) }
        ensures not_less { self.old.bound ≤ self.new.bound }
        ensures not_more { self.new.bound ≤ max self.old.bound bound }
    {
        if bound <= self.bound {
            return Ok(());
        }
        let more = (bound as usize).saturating_sub(self.count);
        self.members.reserve(more)?;
        self.bound = bound;
        Ok(())
    }

    /// All numbers in the set are below it, and there is room for each number below it.
    pub fn bound(&self) -> u32
        ensures { result ≡ self.now.bound }
    {
        self.bound
    }

    /// Whether a component is in the set.
    pub fn contains(&self, c: Comp) -> bool
        ensures { result ≡ has self.now c }
    {
        self.members.get(&c).is_some()
    }

    /// The component with the least number; `None` exactly where the set is empty.
    pub fn first(&self) -> Option<Comp>
        ensures least { IsLeast self.now result }
        ensures below { IfSome result (λ c. c < self.now.bound) }
    {
        self.members.first_from(&Comp(0)).copied()
    }

    /// Puts a component whose number is below the bound into the set, or takes it out. It takes no
    /// memory.
    pub fn set(&mut self, c: Comp, there: bool)
        requires { c < self.old.bound }
        ensures each { (d : ℕ) → has self.new d ≡ (if d == c then there else has self.old d) }
        ensures count { length self.new.list + (if has self.old c then 1 else 0) ≡ length self.old.list + (if there then 1 else 0) }
        ensures bound { self.new.bound ≡ self.old.bound }
    {
        if there {
            self.put(c);
        } else {
            self.take_out(c);
        }
    }

    fn put(&mut self, c: Comp)
        requires { c < self.old.bound }
        ensures each { (d : ℕ) → has self.new d ≡ (if d == c then true else has self.old d) }
        ensures count { length self.new.list + (if has self.old c then 1 else 0) ≡ length self.old.list + 1 }
        ensures bound { self.new.bound ≡ self.old.bound }
    {
        if !self.contains(c) {
            self.members.insert(c, ());
            self.count += 1;
        }
    }

    fn take_out(&mut self, c: Comp)
        ensures each { (d : ℕ) → has self.new d ≡ (if d == c then false else has self.old d) }
        ensures count { length self.new.list + (if has self.old c then 1 else 0) ≡ length self.old.list }
        ensures bound { self.new.bound ≡ self.old.bound }
    {
        if self.contains(c) {
            self.members.remove(&c);
            self.count -= 1;
        }
    }
}

#[cfg(test)]
mod tests {
    use super::*;
    use std::test::Fail;

    #[test]
    fn finds_the_least(rt: HostRuntime) -> Result<(), Fail> {
        let mut comps = Comps::new(rt.alloc());
        comps.widen(9)?;
        comps.set(Comp(7), true);
        comps.set(Comp(3), true);
        comps.set(Comp(3), true);
        assert_eq!(rt; comps.first(), Some(Comp(3)));
        comps.set(Comp(3), false);
        comps.set(Comp(5), false);
        assert_eq!(rt; comps.contains(Comp(3)), false);
        assert_eq!(rt; comps.first(), Some(Comp(7)));
        Ok(())
    }
}
