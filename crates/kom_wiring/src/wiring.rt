ghost use Rattle.std.specs.Prelude.{◌≡◌, ℕ, ◌-◌, ◌+◌, ◌<◌, ◌≤◌, ◌==◌, if◌then◌else◌, false, [], Some, None, IsSome, OnOk};
ghost use Rattle.std.specs.Ordering.{nat_cmp};
ghost use Rattle.std.specs.Option.{option_map, option_map_or, option_and_then};
ghost use Rattle.std.specs.Iterator.{YieldsFirst, item_count};
ghost use Rattle.kom_index.specs.Entries.{Rises, inserted, without, revalued};
ghost use Rattle.kom_wiring.specs.Wires.{Wires, link_of, link_at, place_at, with_end, with_held, plugged_at, after_number, IsFirstFrom};

use crate::link::{Link, marked, moved, place};
use crate::socket::{Socket, channel_at, socket_of};
use kom_base::{Chan, Dir, Half};
use kom_index::Ordered;
use std::alloc::{AllocError, Global};
use std::marker::Model;

/// The living channels: where the two ends of each are plugged, and whether it is held.
///
/// Contracts see the list of the channels by rising number, each with its ends and flag, and for
/// how many more there is room. Each call costs the logarithm of the number of channels.
#[derive(Drop)]
pub struct Wiring {
    links: Ordered<Chan, Link>,
    /// Both ends of each channel, ordered by where they are plugged.
    ends: Ordered<Socket, ()>,
}

impl Model for Wiring {
    ghost use Rattle.kom_wiring.specs.Wires.{Wires};

    ghost Value = { Wires };

    ghost use Rattle.kom_wiring.specs.Sound.{IsSound};

    ghost view = { λ w. record { links = w.links.0; spare = w.links.1 } };

    ghost invariant = { λ w. IsSound w.links.0 w.links.1 w.ends.0 w.ends.1 };
}

impl Wiring {
    /// The wiring with no channel. It takes no memory.
    pub fn new(alloc: Global) -> Wiring
        ensures { result ≡ record { links = []; spare = 0 } }
    {
        Wiring {
            links: Ordered::new(alloc),
            ends: Ordered::new(alloc),
        }
    }

    /// Makes room for `n` more channels. On want of memory there is no less room than before.
    pub fn reserve(&mut self, n: usize) -> Result<(), AllocError>
        ensures same { self.new.links ≡ self.old.links }
        ensures ok { OnOk result (n ≤ self.new.spare) }
        ensures not_less { self.old.spare ≤ self.new.spare }
    {
        let Some(ends) = n.checked_mul(2) else {
            return Err(AllocError);
        };
        self.ends.reserve(ends)?;
        self.links.reserve(n)
    }

    /// Where an end of a channel is plugged; `None` where the end is free.
    pub fn end(&self, x: Chan, end: Dir) -> Option<Half>
        requires { IsSome (link_of self.now.links x) }
        ensures { result ≡ option_and_then (λ l. place_at l end) (link_of self.now.links x) }
    {
        match self.links.get(&x) {
            Some(link) => place(link, end),
            None => None,
        }
    }

    /// Where the plus and the minus end of a channel are plugged; `None` where an end is free.
    pub fn places(&self, x: Chan) -> (Option<Half>, Option<Half>)
        requires { IsSome (link_of self.now.links x) }
        ensures plus { result.0 ≡ option_and_then (λ l. l.plus) (link_of self.now.links x) }
        ensures minus { result.1 ≡ option_and_then (λ l. l.minus) (link_of self.now.links x) }
    {
        match self.links.get(&x) {
            Some(link) => (link.plus, link.minus),
            None => (None, None),
        }
    }

    /// Whether a channel is held.
    pub fn held(&self, x: Chan) -> bool
        requires { IsSome (link_of self.now.links x) }
        ensures { result ≡ option_map_or (λ l. l.held) (link_of self.now.links x) false }
    {
        match self.links.get(&x) {
            Some(link) => link.held,
            None => false,
        }
    }

    /// Marks a channel as held or not. It takes no memory.
    pub fn set_held(&mut self, x: Chan, held: bool)
        requires { IsSome (link_of self.old.links x) }
        ensures links { self.new.links ≡ revalued nat_cmp x (with_held (link_at self.old.links x) held) self.old.links }
        ensures each { (y : ℕ) → link_of self.new.links y ≡ (if y == x then Some (with_held (link_at self.old.links x) held) else link_of self.old.links y) }
        ensures spare { self.new.spare ≡ self.old.spare }
    {
        if let Some(link) = self.links.get(&x) {
            let mut next = marked(link, held);
            self.links.swap(&x, &mut next);
        }
    }

    /// Adds a channel that is not there. It takes no memory.
    pub fn add(&mut self, x: Chan, plus: Option<Half>, minus: Option<Half>, held: bool)
        requires spare { 0 < self.old.spare }
        requires absent { link_of self.old.links x ≡ None }
        ensures links { self.new.links ≡ inserted nat_cmp x (record { plus = plus; minus = minus; held = held }) self.old.links }
        ensures each { (y : ℕ) → link_of self.new.links y ≡ (if y == x then Some (record { plus = plus; minus = minus; held = held }) else link_of self.old.links y) }
        ensures spare { self.new.spare ≡ self.old.spare - 1 }
    {
        let _number = number_of(x);
        let link = Link { plus, minus, held };
        self.ends.insert(socket_of(&link, x, Dir::Plus), ());
        self.ends.insert(socket_of(&link, x, Dir::Minus), ());
        self.links.insert(x, link);
    }

    /// Takes a channel away. Its room is free again.
    pub fn remove(&mut self, x: Chan)
        requires { IsSome (link_of self.old.links x) }
        ensures links { self.new.links ≡ without nat_cmp x self.old.links }
        ensures each { (y : ℕ) → link_of self.new.links y ≡ (if y == x then None else link_of self.old.links y) }
        ensures spare { self.new.spare ≡ self.old.spare + 1 }
    {
        let link = self.links.remove(&x);
        self.ends.remove(&socket_of(&link, x, Dir::Plus));
        self.ends.remove(&socket_of(&link, x, Dir::Minus));
    }

    /// Plugs an end of a channel at a half, or frees it. It takes no memory.
    pub fn move_end(&mut self, x: Chan, end: Dir, at: Option<Half>)
        requires { IsSome (link_of self.old.links x) }
        ensures links { self.new.links ≡ revalued nat_cmp x (with_end (link_at self.old.links x) end at) self.old.links }
        ensures each { (y : ℕ) → link_of self.new.links y ≡ (if y == x then Some (with_end (link_at self.old.links x) end at) else link_of self.old.links y) }
        ensures spare { self.new.spare ≡ self.old.spare }
    {
        if let Some(link) = self.links.get(&x) {
            let from = socket_of(link, x, end);
            let mut next = moved(link, end, &at);
            self.ends.remove(&from);
            self.ends.insert(socket_of(&next, x, end), ());
            self.links.swap(&x, &mut next);
        }
    }

    /// The channels plugged at a half, by rising number.
    pub fn at_half(&self, half: Half) -> AtHalf<'_>
        ensures channels { result ≡ plugged_at half self.now.links }
        ensures rises { Rises nat_cmp self.now.links }
    {
        let _links = &self.links;
        AtHalf {
            wiring: self,
            half,
            low: Some(Chan(0)),
        }
    }

    /// The first channel from a number on that is plugged at a half.
    fn first_plugged(&self, half: &Half, low: Chan) -> Option<Chan>
        ensures { IsFirstFrom (plugged_at half.now self.now.links) low result }
    {
        let low = Socket {
            at: Some(*half),
            chan: low,
            end: Dir::Plus,
        };
        match self.ends.first_from(&low) {
            Some(socket) => channel_at(socket, half),
            None => None,
        }
    }
}

/// The channels plugged at a half from a number on. Contracts see the list of their numbers.
#[derive(Drop)]
pub struct AtHalf<'a> {
    wiring: &'a Wiring,
    half: Half,
    low: Option<Chan>,
}

impl<'a> Model for AtHalf<'a> {
    ghost use Rattle.std.specs.Prelude.{List, ℕ};
    ghost use Rattle.kom_wiring.specs.Wires.{plugged_at, from_number};

    ghost Value = { List ℕ };

    ghost view = { λ a. from_number a.low (plugged_at a.half a.wiring.now.links) };
}

impl<'a> Iterator for AtHalf<'a> {
    type Item = Chan;

    ghost next_gives = { YieldsFirst (λ a. a) };

    ghost remaining = { item_count (λ a. a) };

    fn next(&mut self) -> Option<Chan> {
        let found = match &self.low {
            None => None,
            Some(low) => self.wiring.first_plugged(&self.half, *low),
        };
        self.low = after(&found);
        found
    }
}

/// The number after a channel's, if there is one.
fn after(found: &Option<Chan>) -> Option<Chan>
    ensures { result ≡ after_number found.now }
{
    match found {
        Some(x) if x.0 < u32::MAX => Some(Chan(x.0 + 1)),
        _ => None,
    }
}

/// The number of a channel, below 2^32.
fn number_of(x: Chan) -> u32
    ensures { result ≡ x }
{
    x.0
}

#[cfg(test)]
mod tests {
    use super::*;
    use kom_base::{Comp, Side};
    use std::test::Fail;

    fn half(port: u8) -> Half
        ensures { result.port ≡ port }
    {
        Half {
            comp: Comp(1),
            port,
            side: Side::Outside,
        }
    }

    #[test]
    fn moves_an_end(rt: HostRuntime) -> Result<(), Fail> {
        let mut wiring = Wiring::new(rt.alloc());
        wiring.reserve(2)?;
        wiring.add(Chan(7), Some(half(0)), Some(half(1)), false);
        wiring.add(Chan(9), Some(half(0)), None, true);
        let mut at = wiring.at_half(half(0));
        assert_eq!(rt; at.next(), Some(Chan(7)));
        assert_eq!(rt; at.next(), Some(Chan(9)));
        assert_eq!(rt; at.next(), None);
        wiring.move_end(Chan(7), Dir::Plus, Some(half(2)));
        wiring.set_held(Chan(9), false);
        assert!(rt; !wiring.held(Chan(9)));
        assert_eq!(rt; wiring.end(Chan(7), Dir::Plus), Some(half(2)));
        wiring.remove(Chan(9));
        assert_eq!(rt; wiring.at_half(half(0)).next(), None);
        Ok(())
    }
}
