ghost use Rattle.std.specs.Prelude.{◌≡◌, ℕ, ◌+◌, ◌-◌, ◌^◌, ◌<◌, ◌≤◌, ◌==◌, ◌&&◌, nat_le, nat_lt, [], ◌∷◌, ◌++◌, length, OnOk, vec_len, vec_capacity};
ghost use Rattle.kom_numbers.specs.Spans.{Start, IsOwner};
ghost use Rattle.kom_numbers.specs.Numbering.{first_of, total, count_of, wire_at, is_wire, is_of, leads_out};

use kom_base::{Chan, Comp, Dir};
use std::alloc::{AllocError, Global};
use std::marker::Model;

/// The channels of one instance: the number of the first, and how many there are.
#[derive(Clone, Copy, Debug)]
struct Span {
    first: u32,
    count: u32,
}

/// Which channel has which number. The channels of the root's ports come first; one end of each is
/// the environment's. Then come the channels of each instance, in order of the instances, each in
/// order of declaration.
///
/// Contracts see the directions that lead out, how many channels each instance has, and for how
/// many more instances there is room.
#[derive(Drop)]
pub struct Numbers {
    outs: Vec<Dir>,
    spans: Vec<Span>,
    /// The number of the next channel.
    next: u32,
}

impl Model for Numbers {
    ghost use Rattle.kom_numbers.specs.Numbering.{Numbering};

    ghost Value = { Numbering };

    ghost use Rattle.kom_numbers.specs.Sound.{IsSound, numbering_of};

    ghost view = { numbering_of };

    ghost invariant = { IsSound };
}

impl Numbers {
    /// The numbers of the root's ports alone. `outs` has, for each port, the direction of its
    /// channel that leads to the environment. It takes no memory.
    pub fn begin(alloc: Global, outs: Vec<Dir>) -> Numbers
        requires { length outs.items < 2 ^ 32 }
        ensures outs { result.outs ≡ outs.items }
        ensures counts { result.counts ≡ [] }
    {
        let next = outs.len() as u32;
        Numbers {
            outs,
            spans: Vec::new(alloc),
            next,
        }
    }

    /// Makes room for `n` more instances. On want of memory there is no less room than before.
    pub fn reserve(&mut self, n: usize) -> Result<(), AllocError>
        ensures outs { self.new.outs ≡ self.old.outs }
        ensures counts { self.new.counts ≡ self.old.counts }
        ensures ok { OnOk result (n ≤ self.new.spare) }
        ensures not_less { self.old.spare ≤ self.new.spare }
    {
        self.spans.reserve(n)
    }

    /// Numbers the channels of one more instance, and gives the number of the first of them. It
    /// takes no memory.
    pub fn add(&mut self, count: u32) -> Chan
        requires spare { 0 < self.old.spare }
        requires few { total self.old + count < 2 ^ 32 }
        requires instances { length self.old.counts < 4000000000 }
        ensures first { result ≡ total self.old }
        ensures outs { self.new.outs ≡ self.old.outs }
        ensures counts { self.new.counts ≡ self.old.counts ++ count ∷ [] }
        ensures spare { self.old.spare ≤ self.new.spare + 1 }
    {
        let first = self.next;
        put(&mut self.spans, Span { first, count });
        self.next = first + count;
        Chan(first)
    }

    /// The number of the first channel of an instance, which is also the number that it would have
    /// if it had any, and how many channels the instance has.
    pub fn span(&self, c: Comp) -> (Chan, u32)
        requires { c < length self.now.counts }
        ensures first { result.0 ≡ first_of self.now c }
        ensures count { result.1 ≡ count_of self.now c }
        ensures few { result.0 + result.1 < 2 ^ 32 }
        ensures owns { (x : ℕ) → is_of self.now c x ≡ (nat_le result.0 x && nat_lt x (result.0 + result.1)) }
    {
        let span = self.spans[c.0 as usize];
        (Chan(span.first), span.count)
    }

    /// The number of a channel of an instance.
    pub fn channel(&self, c: Comp, wire: u8) -> Chan
        requires made { c < length self.now.counts }
        requires declared { wire < count_of self.now c }
        ensures number { result ≡ first_of self.now c + wire }
        ensures names { (x : ℕ) → is_wire self.now c wire x ≡ (x == result) }
    {
        let (first, _count) = self.span(c);
        Chan(first.0 + u32::from(wire))
    }

    /// The instance whose channel has a number, and its place among those of the instance; `None`
    /// for the channels of the root's ports, and where no channel has the number. It costs the
    /// logarithm of the number of instances.
    pub fn wire_of(&self, x: Chan) -> Option<(Comp, u32)>
        ensures { result ≡ wire_at self.now x }
    {
        match owner(&self.outs, &self.spans, x.0) {
            None => None,
            Some(c) => Some((Comp(c as u32), x.0 - self.spans[c].first)),
        }
    }

    /// Whether a direction of a channel leads to the environment.
    pub fn leads_out(&self, x: Chan, d: Dir) -> bool
        ensures { result ≡ leads_out self.now x d }
    {
        match self.outs.get(x.0 as usize) {
            Some(out) => *out == d,
            None => false,
        }
    }

    /// For each port of the root, the direction of its channel that leads to the environment.
    pub fn outs(&self) -> &[Dir]
        ensures { result.now ≡ self.now.outs }
    {
        self.outs.as_slice()
    }

    /// How many instances there are.
    pub fn instances(&self) -> u32
        ensures { result ≡ length self.now.counts }
    {
        self.spans.len() as u32
    }

    /// How many channels have a number.
    pub fn total(&self) -> u32
        ensures { result ≡ total self.now }
    {
        self.next
    }
}

/// Adds at the end of a list that has room.
fn put(spans: &mut Vec<Span>, span: Span)
    requires { vec_len spans.old < vec_capacity spans.old }
    ensures items { spans.new.items ≡ spans.old.items ++ span ∷ [] }
    ensures room { vec_capacity spans.old ≤ vec_capacity spans.new }
{
    let _ = spans.push(span);
}

/// The instance whose channel has a number.
fn owner(outs: &[Dir], spans: &[Span], x: u32) -> Option<usize>
    requires { Start outs.now spans.now }
    ensures { IsOwner outs.now spans.now x result }
{
    if (x as usize) < outs.len() {
        return None;
    }
    if spans.is_empty() {
        return None;
    }
    let mut low = 0;
    let mut rest = spans.len();
    while rest > 1 {
        let half = rest / 2;
        if spans[low + half].first <= x {
            low += half;
        }
        rest -= half;
    }
    let span = spans[low];
    if x - span.first < span.count {
        Some(low)
    } else {
        None
    }
}

#[cfg(test)]
mod tests {
    use super::*;
    use std::test::Fail;

    #[test]
    fn numbers_one_instance_after_another(rt: HostRuntime) -> Result<(), Fail> {
        let outs = vec![in rt.alloc(); Dir::Plus, Dir::Minus]?;
        let mut numbers = Numbers::begin(rt.alloc(), outs);
        numbers.reserve(3)?;
        assert_eq!(rt; numbers.add(2), Chan(2));
        assert_eq!(rt; numbers.add(0), Chan(4));
        assert_eq!(rt; numbers.add(1), Chan(4));
        assert_eq!(rt; numbers.span(Comp(2)), (Chan(4), 1));
        assert_eq!(rt; numbers.channel(Comp(0), 1), Chan(3));
        assert_eq!(rt; numbers.wire_of(Chan(1)), None);
        assert_eq!(rt; numbers.wire_of(Chan(3)), Some((Comp(0), 1)));
        assert_eq!(rt; numbers.wire_of(Chan(4)), Some((Comp(2), 0)));
        assert_eq!(rt; numbers.wire_of(Chan(5)), None);
        assert!(rt; numbers.leads_out(Chan(1), Dir::Minus));
        assert!(rt; !numbers.leads_out(Chan(2), Dir::Plus));
        assert_eq!(rt; numbers.total(), 5);
        assert_eq!(rt; numbers.instances(), 3);
        assert_eq!(rt; numbers.outs(), [Dir::Plus, Dir::Minus].as_slice());
        Ok(())
    }
}
