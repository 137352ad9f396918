ghost use Rattle.std.specs.Prelude.{◌≡◌, ℕ, ◌+◌, ◌-◌, ◌<◌, ◌≤◌, ◌^◌, false, length, [], ◌∷◌, IsSome, None};
ghost use Rattle.kom_queues.specs.Slots.{slot_of, is_there};
ghost use Rattle.kom_wiring.specs.Wires.{link_of};
ghost use Rattle.kom_state.specs.Plantings.{IsLaid, IsOneLaid};

use crate::aims::aim_both;
use kom_base::Chan;
use kom_numbers::Numbers;
use kom_queues::Queues;
use kom_wiring::{Link, Wiring};

/// Adds channels with these links, the first of which has the number `first`.
pub fn lay(wiring: &mut Wiring, numbers: &Numbers, queues: &mut Queues, first: u32, links: &[Link])
    requires few { first + length links.now < 2 ^ 32 }
    requires spare { length links.now ≤ wiring.old.spare }
    requires no_link { (x : ℕ) → first ≤ x → link_of wiring.old.links x ≡ None }
    requires not_there { (x : ℕ) → first ≤ x → is_there queues.old x ≡ false }
    requires slots { (x : ℕ) → first ≤ x → x < first + length links.now → IsSome (slot_of queues.old x) }
    ensures { IsLaid numbers.now first links.now wiring.old wiring.new queues.old queues.new }
{
    for (k, link) in links.iter().enumerate() {
        lay_one(wiring, numbers, queues, Chan(first + k as u32), link);
    }
}

/// Adds one channel.
pub fn lay_one(wiring: &mut Wiring, numbers: &Numbers, queues: &mut Queues, x: Chan, link: &Link)
    requires spare { 0 < wiring.old.spare }
    requires no_link { link_of wiring.old.links x ≡ None }
    requires not_there { is_there queues.old x ≡ false }
    requires slot { IsSome (slot_of queues.old x) }
    ensures { IsOneLaid numbers.now x link.now wiring.old wiring.new queues.old queues.new }
{
    wiring.add(x, link.plus, link.minus, link.held);
    queues.add(x);
    aim_both(wiring, numbers, queues, x);
}
