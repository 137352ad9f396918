ghost use Rattle.std.specs.Prelude.{◌≡◌, ℕ, ◌==◌, ◌&&◌, if◌then◌else◌, true, is_some, IsSome, Some};
ghost use Rattle.std.specs.Option.{option_map};
ghost use Rattle.kom_base.specs.declared.numbers.Dir.{Dir};
ghost use Rattle.kom_base.specs.Numbers as dirs;
ghost use Rattle.kom_queues.specs.Slots.{slot_of, is_there, queue_of, spare_of, aimed};
ghost use Rattle.kom_wiring.specs.Wires.{link_of, link_at};
ghost use Rattle.kom_state.specs.Sound.{aim_for};

use kom_base::{Chan, Comp, Dir, Half};
use kom_numbers::Numbers;
use kom_queues::Queues;
use kom_wiring::Wiring;

/// The other end of a channel.
pub fn opposite(d: Dir) -> Dir
    ensures { result ≡ dirs.opposite d }
{
    match d {
        Dir::Plus => Dir::Minus,
        Dir::Minus => Dir::Plus,
    }
}

/// Whom a direction of a channel waits for.
pub fn aim_of(wiring: &Wiring, numbers: &Numbers, x: Chan, d: Dir) -> Option<Comp>
    requires { IsSome (link_of wiring.now.links x) }
    ensures { result ≡ aim_for numbers.now x d (link_at wiring.now.links x) }
{
    if numbers.leads_out(x, d) {
        None
    } else if wiring.held(x) {
        None
    } else {
        component_of(&wiring.end(x, opposite(d)))
    }
}

/// The component of a half, if there is one.
fn component_of(half: &Option<Half>) -> Option<Comp>
    ensures { result ≡ option_map (λ h. h.comp) half.now }
{
    match half {
        Some(half) => Some(half.comp),
        None => None,
    }
}

/// Lets both directions of a channel wait for whom the channel says.
pub fn aim_both(wiring: &Wiring, numbers: &Numbers, queues: &mut Queues, x: Chan)
    requires linked { IsSome (link_of wiring.now.links x) }
    requires there { is_there queues.old x ≡ true }
    ensures queues { (y : ℕ) (e : Dir) → queue_of queues.new y e ≡ (if y == x then option_map (λ w. aimed w (aim_for numbers.now x e (link_at wiring.now.links x))) (queue_of queues.old y e) else queue_of queues.old y e) }
    ensures room { (y : ℕ) (e : Dir) → spare_of queues.new y e ≡ spare_of queues.old y e }
    ensures slots { (y : ℕ) → is_some (slot_of queues.new y) ≡ is_some (slot_of queues.old y) }
{
    let plus = aim_of(wiring, numbers, x, Dir::Plus);
    let minus = aim_of(wiring, numbers, x, Dir::Minus);
    queues.aim(x, Dir::Plus, plus);
    queues.aim(x, Dir::Minus, minus);
}
