ghost use Rattle.std.specs.Prelude.{◌≡◌, IfOk};
ghost use Rattle.kom_rules.specs.Names.{first_place};
ghost use Rattle.kom_rules.specs.Walks.{of_statements};
ghost use Rattle.kom_rules.specs.Handling.{stays, answer_stays, kept_inside};

use crate::typed::Typed;
use kom_fits::port_named;
use kom_system::{ComponentPart, OnPart, Parts, Spot, StmtPart};
use kom_tables::TypeTables;
use kom_walks::{OfHandling, at_if, first_of_statements};
use std::alloc::{AllocError, Global};

impl Typed<'_> {
    /// The event type of a trigger that does not leave by the port.
    fn stays(&self, part: &ComponentPart, port: &Spot, kind: &Spot) -> Option<u32>
        ensures { result ≡ first_place (stays self.now.parts.now part.now port.now kind.now) }
    {
        match port_named(part, port) {
            Some(found) => at_if(!self.leaves(found, kind), kind.at),
            None => None,
        }
    }

    /// The event type of an answer that does not leave by the handler's port.
    fn answer_stays(&self, part: &ComponentPart, on: &OnPart, kind: &Spot) -> Option<u32>
        ensures { result ≡ first_place (answer_stays self.now.parts.now part.now on.now kind.now) }
    {
        match on {
            OnPart::Event { kind: _, port } => self.stays(part, port, kind),
            _ => None,
        }
    }
}

/// What says which triggers and answers do not leave.
#[derive(Drop)]
struct Leaving<'a> {
    typed: &'a Typed<'a>,
}

impl OfHandling for Leaving<'_> {
    ghost says = { λ s. kept_inside s.typed.now.parts.now };

    fn first_said(&self, part: &ComponentPart, on: &OnPart, stmt: &StmtPart) -> Option<u32> {
        match stmt {
            StmtPart::Trigger { kind, port, .. } => self.typed.stays(part, port, kind),
            StmtPart::Answer { kind, .. } => self.typed.answer_stays(part, on, kind),
            _ => None,
        }
    }
}

/// The first trigger of an event type that may not go out at its port, or answer of one that may
/// not go out at the port of its event handler, at the event type's name; `None` exactly where there
/// is none. The error is want of memory.
pub fn kept_inside(alloc: Global, parts: &Parts) -> Result<Option<u32>, AllocError>
    ensures { IfOk result (λ first. first ≡ first_place (of_statements kept_inside parts.now)) }
{
    let tables = TypeTables::of(alloc, parts)?;
    let typed = Typed {
        parts,
        tables: &tables,
    };
    Ok(first_of_statements(&Leaving { typed: &typed }, parts))
}
