//! Laws of event types and their subtypes; there is no code.
#![tactic(auto)]

ghost use Rattle.std.specs.Prelude.{◌≡◌, ◌↔◌, true};
ghost use Rattle.kom_events.specs.Kin.{kin};
ghost use Rattle.kom_events.specs.Ports.{passes};
ghost use Rattle.kom_kin.specs.Descent.{Descends};

use kom_base::Dir;
use kom_events::{EventRow, EventTypes, PortTypes};

/// A type is kin to another exactly where steps from a type to its parent lead from the one to the
/// other.
pub fn kin_is_descent(rows: &[EventRow], a: u16, b: u16)
    ensures { (kin rows.now a b ≡ true) ↔ Descends rows.now a b }
{}

/// What a type's ancestor may pass, the type may pass.
pub fn subtypes_pass(types: &EventTypes, ports: &PortTypes, port: u16, dir: Dir, a: u16, b: u16)
    ensures { kin types.now a b ≡ true
        → passes types.now ports.now port dir b ≡ true
        → passes types.now ports.now port dir a ≡ true }
{}
