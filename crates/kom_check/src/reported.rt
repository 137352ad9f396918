ghost use Rattle.std.specs.Prelude.{◌≡◌, IfOk};
ghost use Rattle.std.specs.Option.{option_map};
ghost use Rattle.kom_rules.specs.Broken.{broken_rule};
ghost use Rattle.kom_check.specs.Breaks.{break_of};

use crate::rules::first_place_of;
use kom_system::Parts;
use std::alloc::{AllocError, Global};

/// A rule that a file breaks.
#[derive(Clone, Copy, Debug, PartialEq, Eq)]
pub struct Broken {
    /// The number of the rule, from 6 to 32.
    pub number: u8,

    /// The first place at which it is broken.
    pub at: u32,
}

/// The broken rule that is reported: the one with the least number, at its first place; `None`
/// exactly where the file keeps all rules. A rule is looked at only where those with smaller numbers
/// are kept. The error is want of memory.
pub fn first_broken(alloc: Global, parts: &Parts) -> Result<Option<Broken>, AllocError>
    ensures { IfOk result (λ first. option_map break_of first ≡ broken_rule parts.now) }
{
    for number in 6..33 {
        if let Some(at) = first_place_of(alloc, number, parts)? {
            return Ok(Some(Broken { number, at }));
        }
    }
    Ok(None)
}
