ghost use Rattle.std.specs.Prelude.{◌≡◌, ℕ, ◌+◌, ◌<◌, ◌≤◌, ◌^◌, true, length, IsSome, Some};
ghost use Rattle.kom_queues.specs.Slots.{is_there};
ghost use Rattle.kom_wiring.specs.Wires.{link_of};
ghost use Rattle.kom_tree.specs.Forest.{is_alive, parent_of, IsGrown};
ghost use Rattle.kom_state.specs.Removals.{IsDeepest, IsCutOut, lies_in};

use kom_base::{Chan, Comp};
use kom_queues::Queues;
use kom_tree::Tree;
use kom_wiring::Wiring;

/// A living instance in a slot or below what is there, below which nobody lives; `None` exactly
/// where nobody lives there. It costs the depth of the instance.
pub fn deepest(tree: &Tree, c: Comp, slot: u8) -> Option<Comp>
    requires { c < length tree.now.instances }
    ensures deepest { IsDeepest tree.now.instances c slot result }
    ensures grown { IsGrown tree.now.instances }
{
    tree.well_grown();
    match tree.child(c, slot) {
        Some(top) => Some(leaf(tree, c, slot, top)),
        None => None,
    }
}

/// An instance below which nobody lives: the one in the slot, or one below it.
fn leaf(tree: &Tree, c: Comp, slot: u8, top: Comp) -> Comp
    requires living { is_alive tree.now.instances top ≡ true }
    requires within { lies_in tree.now.instances c slot top ≡ true }
    ensures { IsDeepest tree.now.instances c slot (Some result) }
{
    tree.well_grown();
    let mut last = top;
    while let Some(d) = tree.youngest(last) {
        last = d;
    }
    last
}

/// The parent of an instance that has one, with the slot there.
pub fn seat(tree: &Tree, d: Comp) -> (Comp, u8)
    requires made { d < length tree.now.instances }
    requires below { IsSome (parent_of tree.now.instances d) }
    ensures seat { parent_of tree.now.instances d ≡ Some result }
    ensures grown { IsGrown tree.now.instances }
{
    tree.well_grown();
    match tree.parent(d) {
        Some(seat) => seat,
        None => unreachable!(),
    }
}

/// Takes away channels whose numbers follow one another, with their queues.
pub fn cut(wiring: &mut Wiring, queues: &mut Queues, first: u32, count: u32)
    requires few { first + count < 2 ^ 32 }
    requires linked { (x : ℕ) → first ≤ x → x < first + count → IsSome (link_of wiring.old.links x) }
    requires there { (x : ℕ) → first ≤ x → x < first + count → is_there queues.old x ≡ true }
    ensures { IsCutOut first count wiring.old wiring.new queues.old queues.new }
{
    for x in first..first + count {
        wiring.remove(Chan(x));
        queues.kill(Chan(x));
    }
}
