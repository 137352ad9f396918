ghost use Rattle.std.specs.Prelude.{◌≡◌, ◌≤◌, None, IfOk};
ghost use Rattle.kom_resolve.specs.Resolved.{resolved};
ghost use Rattle.kom_rules.specs.Broken.{broken_rule};
ghost use Rattle.kom_sysfile.specs.Answers.{IsChecked};

use kom_accept::{accepted_are_counted, accepted_are_well_formed};
use kom_check::first_broken;
use kom_resolve::resolve;
use kom_system::{Parts, System};
use std::alloc::{AllocError, Global};

/// What `check` answers.
#[derive(Drop)]
pub enum Checked {
    /// The system that the syntax tree stands for: it breaks no rule.
    System(System),
    /// The broken rule with the least number, from 6 to 32, with the first byte place, from 0, at
    /// which it is broken.
    Rule { number: u8, at: u32 },
    /// Want of memory.
    Memory,
}

/// The system that a syntax tree stands for that breaks no rule.
fn accepted(alloc: Global, parts: &Parts) -> Result<System, AllocError>
    requires unbroken { broken_rule parts.now ≡ None }
    requires low { 1 ≤ parts.now.version }
    requires high { parts.now.version ≤ 2 }
    ensures { IfOk result (λ system. system ≡ resolved parts.now) }
{
    accepted_are_counted();
    accepted_are_well_formed();
    let declared = resolve(alloc, parts)?;
    System::from_declared(alloc, declared)
}

/// The system that a syntax tree stands for, where it breaks none of the rules beside the grammar;
/// its version is 1 or 2.
pub fn check(alloc: Global, parts: &Parts) -> Checked
    requires low { 1 ≤ parts.now.version }
    requires high { parts.now.version ≤ 2 }
    ensures { IsChecked parts.now result }
{
    match first_broken(alloc, parts) {
        Ok(Some(broken)) => Checked::Rule {
            number: broken.number,
            at: broken.at,
        },
        Ok(None) => match accepted(alloc, parts) {
            Ok(system) => Checked::System(system),
            Err(_) => Checked::Memory,
        },
        Err(_) => Checked::Memory,
    }
}
