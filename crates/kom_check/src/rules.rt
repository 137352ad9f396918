ghost use Rattle.std.specs.Prelude.{◌≡◌, IfOk, true};
ghost use Rattle.kom_rules.specs.Names.{first_place};
ghost use Rattle.kom_rules.specs.Broken.{places_by};
ghost use Rattle.kom_check.specs.Known.{is_known};

use kom_ancestors::{own_ancestors, wrong_attributes};
use kom_arrivals::{kept_inside, lacked, miscounted, wrong_handlers, wrong_tests};
use kom_containers::{own_containers, too_large};
use kom_fits::{misplugged, subscribed_init, untyped_ends, wrong_counts, wrong_signs, wrong_types};
use kom_plain::{
    answered_outside, escalated_outside, fault_too_large, it_outside, many_tests, second_inits,
    state_outside, too_many, wrong_parents, wrong_roots,
};
use kom_spaces::declared_twice;
use kom_system::Parts;
use kom_undeclared::undeclared;
use std::alloc::{AllocError, Global};

/// Whether there is a rule with this number that `first_place_of` looks at: there are those from 6 to
/// 32.
pub fn is_known(number: u8) -> bool
    ensures { result ≡ is_known number }
{
    6 <= number && number <= 32
}

/// The first place at which a file breaks the rule with this number, whatever other rules it
/// breaks; `None` exactly where it keeps the rule. The error is want of memory.
///
/// Time grows with the text where the file keeps the limits of the rules 10 and 11. Where it breaks
/// them, that of the rules from 13 on may grow with the square of what it declares (at rule 14 with
/// the cube), and so may memory at the rules 19, 20, 23, 24 and 29.
pub fn first_place_of(alloc: Global, number: u8, parts: &Parts) -> Result<Option<u32>, AllocError>
    requires { is_known number ≡ true }
    ensures { IfOk result (λ first. first ≡ first_place (places_by number parts.now)) }
{
    match number {
        6 => declared_twice(alloc, parts),
        7 => undeclared(alloc, parts),
        8 => Ok(wrong_parents(parts)),
        9 => own_ancestors(alloc, parts),
        10 => wrong_attributes(alloc, parts),
        11 => Ok(too_many(parts)),
        12 => Ok(wrong_roots(parts)),
        13 => Ok(wrong_counts(parts)),
        14 => own_containers(alloc, parts),
        15 => too_large(alloc, parts),
        16 => Ok(untyped_ends(parts)),
        17 => Ok(wrong_types(parts)),
        18 => Ok(wrong_signs(parts)),
        19 => wrong_tests(alloc, parts),
        20 => wrong_handlers(alloc, parts),
        21 => Ok(second_inits(parts)),
        22 => Ok(subscribed_init(parts)),
        23 => kept_inside(alloc, parts),
        24 => miscounted(alloc, parts),
        25 => Ok(state_outside(parts)),
        26 => Ok(it_outside(parts)),
        27 => Ok(fault_too_large(parts)),
        28 => Ok(misplugged(parts)),
        29 => lacked(alloc, parts),
        30 => Ok(answered_outside(parts)),
        31 => Ok(many_tests(parts)),
        _ => Ok(escalated_outside(parts)),
    }
}
